//! Control PDUs, each written into its octets.
ghost use Rattle.std.specs.Prelude.{◌≡◌, ◌+◌, ◌≤◌, [], length};
ghost use Rattle.arrayvec.specs.ArrayVec.{array_vec_len};
ghost use Rattle.wire_fields.specs.Field.{appended, AllFit};
ghost use Rattle.data_pdu.specs.Groups.{IsHigh};
ghost use Rattle.data_pdu.specs.Ranges.{IsInRange};
ghost use Rattle.data_pdu.specs.Reading.{ctrl_of};
ghost use Rattle.data_pdu.specs.Layouts.{fields_of, six_numbers, written, IsCtrl};

use crate::ctrl::{Ctrl, CtrlRead};
use crate::layouts::with_layouts;
use arrayvec::ArrayVec;
use wire_fields::{put_u8, put_u16, put_u32, put_u40, put_u64};

/// Appends one field, by its kind.
macro_rules! put {
    ($pdu:ident u8 $field:ident) => {
        put_u8(&mut $pdu, $field)
    };
    ($pdu:ident u16 $field:ident) => {
        put_u16(&mut $pdu, $field)
    };
    ($pdu:ident u32 $field:ident) => {
        put_u32(&mut $pdu, $field)
    };
    ($pdu:ident u40 $field:ident) => {
        put_u40(&mut $pdu, $field)
    };
    ($pdu:ident u64 $field:ident) => {
        put_u64(&mut $pdu, $field)
    };
    ($pdu:ident six $field:ident) => {
        put_six(&mut $pdu, $field)
    };
}

/// Appends the opcode and the fields of a control PDU with an opcode below 0F.
macro_rules! put_low_rows {
    (
        $ctrl:ident $pdu:ident;
        low { $($opcode:literal $name:ident: $($kind:ident $field:ident),*;)* }
        high { $($high:tt)* }
    ) => {
        match *$ctrl {
            $(Ctrl::$name { $($field),* } => {
                put_u8(&mut $pdu, $opcode);
                $(put!($pdu $kind $field);)*
            })*
            _ => return high_octets($ctrl),
        }
    };
}

/// Appends the opcode and the fields of a control PDU with an opcode from 0F on.
macro_rules! put_high_rows {
    (
        $ctrl:ident $pdu:ident;
        low { $($low:tt)* }
        high { $($opcode:literal $name:ident: $($kind:ident $field:ident),*;)* }
    ) => {
        match *$ctrl {
            $(Ctrl::$name { $($field),* } => {
                put_u8(&mut $pdu, $opcode);
                $(put!($pdu $kind $field);)*
            })*
            _ => unreachable!(),
        }
    };
}

/// Appends six numbers of two octets.
fn put_six(pdu: &mut ArrayVec<u8, 27>, numbers: [u16; 6])
    requires { array_vec_len pdu.old + 12 ≤ 27 }
    ensures items { pdu.new.items ≡ appended pdu.old.items (six_numbers numbers) }
    ensures len { array_vec_len pdu.new ≡ array_vec_len pdu.old + 12 }
    ensures fits { AllFit (six_numbers numbers) }
    ensures six { length numbers ≡ 6 }
{
    let [a, b, c, d, e, f] = numbers;
    put_u16(pdu, a);
    put_u16(pdu, b);
    put_u16(pdu, c);
    put_u16(pdu, d);
    put_u16(pdu, e);
    put_u16(pdu, f);
}

/// The opcode, from 0F on, and the fields of a control PDU, one after another.
fn high_octets(ctrl: &Ctrl) -> ArrayVec<u8, 27>
    requires high { IsHigh ctrl.now }
    requires range { IsInRange ctrl.now }
    ensures items { result.items ≡ appended [] (fields_of ctrl.now) }
    ensures is_ctrl { IsCtrl ctrl.now }
{
    let mut pdu = ArrayVec::new();
    with_layouts!(put_high_rows ctrl pdu);
    pdu
}

/// The opcode and the fields of a control PDU, one after another.
fn opcode_and_fields(ctrl: &Ctrl) -> ArrayVec<u8, 27>
    requires { IsInRange ctrl.now }
    ensures items { result.items ≡ appended [] (fields_of ctrl.now) }
    ensures is_ctrl { IsCtrl ctrl.now }
{
    let mut pdu = ArrayVec::new();
    with_layouts!(put_low_rows ctrl pdu);
    pdu
}

/// The octets of this control PDU, 1 to 24 of them: the opcode, and then the fields in order, each
/// with its least significant octet first (Core 5.2, volume 6 part B, section 2.4.2). `read_ctrl`
/// gives the control PDU back from them.
pub fn write_ctrl(ctrl: &Ctrl) -> ArrayVec<u8, 27>
    requires { IsInRange ctrl.now }
    ensures items { result.items ≡ written ctrl.now }
    ensures is_ctrl { IsCtrl ctrl.now }
    ensures read { ctrl_of result.items ≡ CtrlRead.Known ctrl.now }
{
    opcode_and_fields(ctrl)
}
