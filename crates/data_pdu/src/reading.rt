//! Control PDUs, each read from its octets.
ghost use Rattle.std.specs.Prelude.{◌≡◌, ◌≢◌, ◌+◌, ◌<◌, ◌≤◌, ◌↔◌, ℕ, [], Some, length, slice_get, IsTrue};
ghost use Rattle.data_pdu.specs.Layouts.{written, IsCtrl};
ghost use Rattle.data_pdu.specs.Reading.{length_of, ctrl_of, IfKnown, Spells};
ghost use Rattle.data_pdu.specs.declared.ctrl.Ctrl.{Ctrl};

use crate::ctrl::{Ctrl, CtrlRead};
use crate::layouts::with_layouts;
use wire_fields::{Fields, take_field, width};

/// How many octets a field of this kind takes.
macro_rules! size {
    (six) => {
        12
    };
    ($kind:ident) => {
        width!($kind)
    };
}

/// The length of the control PDU with an opcode: an octet for that, and its fields.
macro_rules! length_rows {
    (
        $found:ident;
        $($part:ident { $($opcode:literal $name:ident: $($kind:ident $field:ident),*;)* })*
    ) => {
        match $found {
            $($($opcode => Some(1 $(+ size!($kind))*),)*)*
            _ => None,
        }
    };
}

/// Takes one field, by its kind.
macro_rules! take {
    ($fields:ident six) => {
        [$fields.u16(), $fields.u16(), $fields.u16(), $fields.u16(), $fields.u16(), $fields.u16()]
    };
    ($fields:ident $kind:ident) => {
        take_field!($fields $kind)
    };
}

/// The control PDU with an opcode below 0F, of its fields.
macro_rules! take_low_rows {
    (
        $found:ident $fields:ident;
        low { $($opcode:literal $name:ident: $($kind:ident $field:ident),*;)* }
        high { $($high:tt)* }
    ) => {
        match $found {
            $($opcode => Ctrl::$name { $($field: take!($fields $kind)),* },)*
            _ => unreachable!(),
        }
    };
}

/// The control PDU with an opcode from 0F on, of its fields.
macro_rules! take_high_rows {
    (
        $found:ident $fields:ident;
        low { $($low:tt)* }
        high { $($opcode:literal $name:ident: $($kind:ident $field:ident),*;)* }
    ) => {
        match $found {
            $($opcode => Ctrl::$name { $($field: take!($fields $kind)),* },)*
            _ => unreachable!(),
        }
    };
}

/// How many octets the control PDU with this opcode has, where there is one.
#[tactic(auto, unfolding(crate::specs::Reading::length_of, crate::specs::Layouts::makers))]
fn length_of(opcode: u8) -> Option<usize>
    ensures { result ≡ length_of opcode }
{
    with_layouts!(length_rows opcode)
}

/// Whether these octets are as many as the control PDU with this opcode has.
fn has_length(opcode: u8, octets: &[u8]) -> bool
    ensures { IsTrue result ↔ (length_of opcode ≡ Some (length octets.now)) }
{
    length_of(opcode) == Some(octets.len())
}

/// The control PDU with this opcode, below 0F, and these fields.
#[tactic(auto, unfolding(crate::specs::Reading::length_of, crate::specs::Layouts::makers))]
fn low_ctrl(opcode: u8, mut fields: Fields) -> Ctrl
    requires low { opcode < 0x0F }
    requires len { length_of opcode ≡ Some (1 + length fields) }
    ensures { Spells result opcode fields.entry }
{
    with_layouts!(take_low_rows opcode fields)
}

/// The control PDU with this opcode, from 0F on, and these fields.
#[tactic(auto, unfolding(crate::specs::Reading::length_of, crate::specs::Layouts::makers))]
fn high_ctrl(opcode: u8, mut fields: Fields) -> Ctrl
    requires high { 0x0F ≤ opcode }
    requires len { length_of opcode ≡ Some (1 + length fields) }
    ensures { Spells result opcode fields.entry }
{
    with_layouts!(take_high_rows opcode fields)
}

/// The control PDU with this opcode and these fields, whether or not these are in their ranges.
fn ctrl_with(opcode: u8, fields: Fields) -> Ctrl
    requires { length_of opcode ≡ Some (1 + length fields) }
    ensures { Spells result opcode fields.entry }
{
    match opcode {
        0x0F.. => high_ctrl(opcode, fields),
        _ => low_ctrl(opcode, fields),
    }
}

/// What these octets are read as.
fn read_octets(octets: &[u8]) -> CtrlRead
    ensures value { result ≡ ctrl_of octets.now }
    ensures known { IfKnown result (λ ctrl. IsCtrl ctrl × (octets.now ≡ written ctrl)) }
{
    let [opcode, fields @ ..] = octets else {
        return CtrlRead::Bare;
    };
    if !has_length(*opcode, octets) {
        return CtrlRead::Unknown(*opcode);
    }
    let ctrl = ctrl_with(*opcode, Fields::new(fields));
    if ctrl.is_in_range() {
        CtrlRead::Known(ctrl)
    } else {
        CtrlRead::Unknown(*opcode)
    }
}

/// The control PDU that these octets are, all of them: the payload of a data channel PDU with LLID
/// 3 (Core 5.2, volume 6 part B, section 2.4.2).
///
/// `Bare` where there is no octet. `Unknown`, with the first octet, where no control PDU has this
/// opcode, or the octets are not as many as its fields take, or a field is out of its range.
pub fn read_ctrl(octets: &[u8]) -> CtrlRead
    ensures value { result ≡ ctrl_of octets.now }
    ensures bare { (result ≡ CtrlRead.Bare) ↔ (octets.now ≡ []) }
    ensures known { IfKnown result (λ ctrl. IsCtrl ctrl × (octets.now ≡ written ctrl)) }
    // Nothing else is read from the octets of a control PDU.
    ensures only { (ctrl : Ctrl) → IsCtrl ctrl → octets.now ≡ written ctrl
        → result ≡ CtrlRead.Known ctrl }
    // The opcode is unknown exactly where it is the first octet, and the octets are no control PDU.
    ensures unknown { (opcode : ℕ) → (result ≡ CtrlRead.Unknown opcode)
        ↔ ((slice_get octets.now 0 ≡ Some opcode)
        × ((ctrl : Ctrl) → IsCtrl ctrl → octets.now ≢ written ctrl)) }
{
    read_octets(octets)
}
