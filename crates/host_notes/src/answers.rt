//! Answers to commands: Command Status or Command Complete (Core 5.2, volume 4 part E, sections
//! 7.7.14 and 7.7.15).
ghost use Rattle.std.specs.Prelude.{◌≡◌, ◌≤◌, ◌<◌, ◌∷◌, [], ◌+◌, ◌++◌, ◌==◌, false, length};
ghost use Rattle.std.specs.Prelude.{if◌then◌else◌};
ghost use Rattle.arrayvec.specs.ArrayVec.{array_vec_len};
ghost use Rattle.wire_fields.specs.Field.{little_endian};
ghost use Rattle.hci_evt.specs.declared.event.Event.TheVariants.{CommandComplete};
ghost use Rattle.controller_model.specs.Answers.{answer_with, complete_answer, has_status_answer};
ghost use Rattle.controller_model.specs.Answers.{refused_fields, returned, status_answer};
ghost use Rattle.controller_model.specs.Events.{notes_of_events};
ghost use Rattle.controller_model.specs.Facts.{Setup, Facts};

use crate::masks::tell;
use arrayvec::ArrayVec;
use ble_base::{ErrCode, Outbox, PAYLOAD_OCTETS};
use hci_cmd::Command;
use hci_evt::Event;
use host_view::HostView;
use wire_fields::{put_octets, put_u16};

/// How many further commands the host may send.
const FURTHER_COMMANDS: u8 = 1;

/// The opcodes of the commands that start something (Core 5.2, volume 4 part E, sections 7.1 and
/// 7.8).
const DISCONNECT: u16 = 0x0406;

const READ_REMOTE_VERSION: u16 = 0x041D;

const LE_CREATE_CONNECTION: u16 = 0x200D;

const LE_CONNECTION_UPDATE: u16 = 0x2013;

const LE_READ_REMOTE_FEATURES: u16 = 0x2016;

const LE_ENABLE_ENCRYPTION: u16 = 0x2019;

const LE_SET_PHY: u16 = 0x2032;

/// The time that the longest payload takes on LE 1M, in microseconds (volume 6 part B, section
/// 4.5.10).
const LONGEST_TIME: u16 = 2120;

/// The channel map that a refused LE Read Channel Map returns, and the PHYs that a refused LE Read
/// PHY returns: 0 in each octet (our choice).
const NO_CHANNELS: [u8; 5] = [0; 5];

const NO_PHYS: [u8; 2] = [0; 2];

/// The return parameters of a command, with the status first.
pub type Fields = ArrayVec<u8, 252>;

/// Whether the command with this opcode starts something, and has a Command Status.
fn has_status_answer(opcode: u16) -> bool
    ensures { result ≡ has_status_answer opcode }
{
    opcode == DISCONNECT
        || opcode == READ_REMOTE_VERSION
        || opcode == LE_CREATE_CONNECTION
        || opcode == LE_CONNECTION_UPDATE
        || opcode == LE_READ_REMOTE_FEATURES
        || opcode == LE_ENABLE_ENCRYPTION
        || opcode == LE_SET_PHY
}

/// HCI_Command_Status.
pub fn status_answer(status: ErrCode, opcode: u16) -> Event
    ensures { result ≡ status_answer status.0 opcode }
{
    Event::CommandStatus {
        status: status.0,
        number: FURTHER_COMMANDS,
        opcode,
    }
}

/// The return parameters of a Command Complete that begin with this status.
pub fn fields_with(status: ErrCode) -> Fields
    ensures { result.items ≡ status.0 ∷ [] }
{
    let mut fields = Fields::new();
    fields.push(status.0);
    fields
}

/// HCI_Command_Complete with these return parameters.
fn complete(opcode: u16, fields: Fields) -> Event
    ensures { result ≡ CommandComplete 1 opcode fields }
{
    Event::CommandComplete {
        number: FURTHER_COMMANDS,
        opcode,
        fields,
    }
}

/// The answer to a command whose parameters have another length: the status alone.
pub fn short_answer(opcode: u16) -> Event
    ensures { result ≡ (if has_status_answer opcode then status_answer 0x12 opcode
        else complete_answer 0x12 opcode []) }
{
    let status = ErrCode::INVALID_HCI_PARAMETERS;
    if has_status_answer(opcode) {
        status_answer(status, opcode)
    } else {
        complete(opcode, fields_with(status))
    }
}

/// Appends what a refused command returns after its status: the handle as it was sent, and 0 in
/// every other octet.
fn put_refused(command: &Command, fields: &mut Fields)
    requires { length fields.old.items ≤ 1 }
    ensures { fields.new.items ≡ fields.old.items ++ refused_fields command.now }
{
    match command {
        Command::LeReadChannelMap { handle } => {
            put_u16(fields, *handle);
            put_octets(fields, &NO_CHANNELS);
        }
        Command::LeReadPhy { handle } => {
            put_u16(fields, *handle);
            put_octets(fields, &NO_PHYS);
        }
        Command::LeKeyReply { handle, .. }
        | Command::LeKeyNegative { handle }
        | Command::LeParamReply { handle, .. }
        | Command::LeParamNegative { handle, .. }
        | Command::LeSetDataLength { handle, .. } => put_u16(fields, *handle),
        _ => {}
    }
}

/// Appends the greatest length and the greatest time of a payload.
pub fn put_longest(fields: &mut Fields)
    requires { length fields.old.items ≤ 5 }
    ensures items { fields.new.items
        ≡ fields.old.items ++ (little_endian 2 251 ++ little_endian 2 2120) }
    ensures len { length fields.new.items ≡ length fields.old.items + 4 }
{
    put_u16(fields, PAYLOAD_OCTETS as u16);
    put_u16(fields, LONGEST_TIME);
}

/// The answer to a command with this opcode that is refused with this status.
pub fn refused_answer(opcode: u16, command: &Command, status: ErrCode) -> Event
    ensures { (setup : Setup) (facts : Facts) → (status.0 == 0) ≡ false
        → answer_with setup facts opcode command.now status.0 ≡ result ∷ [] }
{
    if status == ErrCode::UNKNOWN_HCI_COMMAND || has_status_answer(opcode) {
        return status_answer(status, opcode);
    }
    let mut fields = fields_with(status);
    put_refused(command, &mut fields);
    complete(opcode, fields)
}

/// Sends the host the answer to an accepted command with this opcode, which returns these fields.
pub fn tell_accepted(
    view: &HostView,
    opcode: u16,
    command: &Command,
    fields: Fields,
    out: &mut Outbox,
)
    requires room { array_vec_len out.old < 64 }
    ensures notes { (setup : Setup) (facts : Facts)
        → fields.items ≡ 0 ∷ returned setup facts command.now → out.new.items ≡ out.old.items
        ++ notes_of_events view.now (answer_with setup facts opcode command.now 0) }
    ensures few { array_vec_len out.new ≤ array_vec_len out.old + 1 }
{
    if has_status_answer(opcode) {
        tell(view, &status_answer(ErrCode::SUCCESS, opcode), out);
        return;
    }
    match command {
        Command::HostCompleted { .. } => {}
        _ => tell(view, &complete(opcode, fields), out),
    }
}
