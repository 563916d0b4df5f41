//! Commands, each read from the octets of its parameters: one row a command, as in the table of
//! layouts.
ghost use Rattle.std.specs.Prelude.{◌≡◌, ◌<◌, ◌≤◌, ◌*◌, [], length, Some};
ghost use Rattle.wire_fields.specs.Layout.{value_of};
ghost use Rattle.hci_cmd.specs.Command.{completed_layout, counts_layout, layout_of, read_with};

use crate::command::{CmdRead, Command, HandleCount};
use arrayvec::ArrayVec;
use wire_fields::{Fields, take_field, width};

/// A command of these fields, where the number of octets is the sum of their sizes.
macro_rules! take {
    ($fields:ident, $name:ident) => {
        if $fields.has_exactly(0) {
            CmdRead::Known(Command::$name)
        } else {
            CmdRead::BadLength
        }
    };
    ($fields:ident, $name:ident: $($kind:tt $field:ident),*) => {
        if $fields.has_exactly(0 $(+ width!($kind))*) {
            CmdRead::Known(Command::$name { $($field: take_field!($fields $kind)),* })
        } else {
            CmdRead::BadLength
        }
    };
}

/// The most handles whose counts fit the 255 octets of parameters of a packet.
const MOST_HANDLES: u8 = 63;

/// This number of handles, each with a count.
fn counts(handles: u8, mut fields: Fields) -> ArrayVec<HandleCount, 63>
    requires handles { handles ≤ 63 }
    requires len { length fields ≡ 4 * handles }
    ensures { Command.HostCompleted result ≡ value_of (counts_layout handles []) fields.entry }
{
    let mut counts = ArrayVec::new();
    for i in 0..handles {
        counts.push(HandleCount {
            handle: fields.u16(),
            count: fields.u16(),
        });
    }
    counts
}

/// Host Number Of Completed Packets: the number of handles, and then a handle and a count for each.
fn host_completed(mut fields: Fields) -> CmdRead
    ensures { result ≡ read_with (Some completed_layout) fields.entry }
{
    if fields.is_empty() {
        return CmdRead::BadLength;
    }
    let handles = fields.u8();
    if handles > MOST_HANDLES {
        return CmdRead::BadLength;
    }
    if !fields.has_exactly(4 * handles as usize) {
        return CmdRead::BadLength;
    }
    CmdRead::Known(Command::HostCompleted {
        counts: counts(handles, fields),
    })
}

/// The commands that are not LE commands: link control, controller and baseband, informational
/// parameters.
#[tactic(auto, unfolding(crate::specs::Command::layout_of, crate::specs::Command::layouts))]
fn general_command(opcode: u16, mut fields: Fields) -> CmdRead
    requires group { opcode < 0x2000 }
    ensures { result ≡ read_with (layout_of opcode) fields.entry }
{
    match opcode {
        0x0406 => take!(fields, Disconnect: u16 handle, u8 reason),
        0x041D => take!(fields, ReadRemoteVersion: u16 handle),
        0x0C01 => take!(fields, SetEventMask: u64 mask),
        0x0C03 => take!(fields, Reset),
        0x0C31 => take!(fields, SetHostFlow: u8 value),
        0x0C33 => take!(fields, HostBufferSize: u16 acl_length, u8 sco_length,
                u16 acl_count, u16 sco_count),
        0x0C35 => host_completed(fields),
        0x1001 => take!(fields, ReadLocalVersion),
        0x1003 => take!(fields, ReadLocalFeatures),
        0x1009 => take!(fields, ReadBdAddr),
        _ => CmdRead::UnknownOpcode,
    }
}

/// The LE commands of the device.
#[tactic(auto, unfolding(crate::specs::Command::layout_of, crate::specs::Command::layouts))]
fn device_command(opcode: u16, mut fields: Fields) -> CmdRead
    requires group { (0x2000 ≤ opcode) × (opcode < 0x2006) }
    ensures { result ≡ read_with (layout_of opcode) fields.entry }
{
    match opcode {
        0x2001 => take!(fields, LeSetEventMask: u64 mask),
        0x2002 => take!(fields, LeReadBufferSize),
        0x2003 => take!(fields, LeReadFeatures),
        0x2005 => take!(fields, LeSetRandomAddress: [6] address),
        _ => CmdRead::UnknownOpcode,
    }
}

/// The LE commands of advertising.
#[tactic(auto, unfolding(crate::specs::Command::layout_of, crate::specs::Command::layouts))]
fn advertising_command(opcode: u16, mut fields: Fields) -> CmdRead
    requires group { (0x2006 ≤ opcode) × (opcode < 0x200B) }
    ensures { result ≡ read_with (layout_of opcode) fields.entry }
{
    match opcode {
        0x2006 => take!(fields, LeSetAdvParams: u16 min, u16 max, u8 kind, u8 own,
                u8 peer_kind, [6] peer, u8 channels, u8 policy),
        0x2008 => take!(fields, LeSetAdvData: u8 length, [31] octets),
        0x2009 => take!(fields, LeSetScanResponse: u8 length, [31] octets),
        0x200A => take!(fields, LeSetAdvEnable: u8 value),
        _ => CmdRead::UnknownOpcode,
    }
}

/// The LE commands of scanning and initiating.
#[tactic(auto, unfolding(crate::specs::Command::layout_of, crate::specs::Command::layouts))]
fn listening_command(opcode: u16, mut fields: Fields) -> CmdRead
    requires group { (0x200B ≤ opcode) × (opcode < 0x200F) }
    ensures { result ≡ read_with (layout_of opcode) fields.entry }
{
    match opcode {
        0x200B =>
            take!(fields, LeSetScanParams: u8 kind, u16 interval, u16 window, u8 own, u8 policy),
        0x200C => take!(fields, LeSetScanEnable: u8 value, u8 duplicates),
        0x200D => take!(fields, LeCreateConnection: u16 scan_interval, u16 window, u8 policy,
                u8 peer_kind, [6] peer, u8 own, u16 min, u16 max,
                u16 latency, u16 timeout, pair lengths),
        0x200E => take!(fields, LeCreateCancel),
        _ => CmdRead::UnknownOpcode,
    }
}

/// The LE commands of the accept list.
#[tactic(auto, unfolding(crate::specs::Command::layout_of, crate::specs::Command::layouts))]
fn list_command(opcode: u16, mut fields: Fields) -> CmdRead
    requires group { (0x200F ≤ opcode) × (opcode < 0x2013) }
    ensures { result ≡ read_with (layout_of opcode) fields.entry }
{
    match opcode {
        0x200F => take!(fields, LeReadListSize),
        0x2010 => take!(fields, LeClearList),
        0x2011 => take!(fields, LeAddToList: u8 kind, [6] address),
        0x2012 => take!(fields, LeRemoveFromList: u8 kind, [6] address),
        _ => CmdRead::UnknownOpcode,
    }
}

/// The LE commands of a link.
#[tactic(auto, unfolding(crate::specs::Command::layout_of, crate::specs::Command::layouts))]
fn link_command(opcode: u16, mut fields: Fields) -> CmdRead
    requires group { (0x2013 ≤ opcode) × (opcode < 0x2017) }
    ensures { result ≡ read_with (layout_of opcode) fields.entry }
{
    match opcode {
        0x2013 => take!(fields, LeConnectionUpdate: u16 handle, u16 min, u16 max,
                u16 latency, u16 timeout, pair lengths),
        0x2014 => take!(fields, LeSetChannels: u40 map),
        0x2015 => take!(fields, LeReadChannelMap: u16 handle),
        0x2016 => take!(fields, LeReadRemoteFeatures: u16 handle),
        _ => CmdRead::UnknownOpcode,
    }
}

/// The LE commands of encryption.
#[tactic(auto, unfolding(crate::specs::Command::layout_of, crate::specs::Command::layouts))]
fn encryption_command(opcode: u16, mut fields: Fields) -> CmdRead
    requires group { (0x2017 ≤ opcode) × (opcode < 0x2020) }
    ensures { result ≡ read_with (layout_of opcode) fields.entry }
{
    match opcode {
        0x2017 => take!(fields, LeEncrypt: [16] key, [16] text),
        0x2018 => take!(fields, LeRand),
        0x2019 => take!(fields, LeEnableEncryption: u16 handle, u64 rand, u16 ediv, [16] key),
        0x201A => take!(fields, LeKeyReply: u16 handle, [16] key),
        0x201B => take!(fields, LeKeyNegative: u16 handle),
        _ => CmdRead::UnknownOpcode,
    }
}

/// The LE commands of requests of the peer and lengths.
#[tactic(auto, unfolding(crate::specs::Command::layout_of, crate::specs::Command::layouts))]
fn request_command(opcode: u16, mut fields: Fields) -> CmdRead
    requires group { (0x2020 ≤ opcode) × (opcode < 0x2030) }
    ensures { result ≡ read_with (layout_of opcode) fields.entry }
{
    match opcode {
        0x2020 => take!(fields, LeParamReply: u16 handle, u16 min, u16 max,
                u16 latency, u16 timeout, pair lengths),
        0x2021 => take!(fields, LeParamNegative: u16 handle, u8 reason),
        0x2022 => take!(fields, LeSetDataLength: u16 handle, u16 octets, u16 time),
        0x202F => take!(fields, LeReadMaxLength),
        _ => CmdRead::UnknownOpcode,
    }
}

/// The LE commands of the PHY.
#[tactic(auto, unfolding(crate::specs::Command::layout_of, crate::specs::Command::layouts))]
fn phy_command(opcode: u16, mut fields: Fields) -> CmdRead
    requires group { 0x2030 ≤ opcode }
    ensures { result ≡ read_with (layout_of opcode) fields.entry }
{
    match opcode {
        0x2030 => take!(fields, LeReadPhy: u16 handle),
        0x2031 => take!(fields, LeSetDefaultPhy: u8 all, u8 tx, u8 rx),
        0x2032 => take!(fields, LeSetPhy: u16 handle, u8 all, u8 tx, u8 rx, u16 options),
        _ => CmdRead::UnknownOpcode,
    }
}

/// The command with this opcode, of parameters as long as it has.
pub(crate) fn command(opcode: u16, fields: Fields) -> CmdRead
    ensures { result ≡ read_with (layout_of opcode) fields.entry }
{
    match opcode {
        0x2030.. => phy_command(opcode, fields),
        0x2020.. => request_command(opcode, fields),
        0x2017.. => encryption_command(opcode, fields),
        0x2013.. => link_command(opcode, fields),
        0x200F.. => list_command(opcode, fields),
        0x200B.. => listening_command(opcode, fields),
        0x2006.. => advertising_command(opcode, fields),
        0x2000.. => device_command(opcode, fields),
        _ => general_command(opcode, fields),
    }
}
