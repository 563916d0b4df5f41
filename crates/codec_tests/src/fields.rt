//! Fields of each width, appended and taken.
use crate::scripts::check;
use arrayvec::ArrayVec;
use std::alloc::AllocError;
use test_words::{put_answer, put_number, put_octets};
use wire_fields::{Fields, put_u8, put_u16, put_u24, put_u32, put_u40, put_u64};

/// Six fields, and two octets.
const OCTETS: [u8; 25] = [
    0x01, 0x03, 0x02, 0x06, 0x05, 0x04, 0x0A, 0x09, 0x08, 0x07, 0x0F, 0x0E, 0x0D, 0x0C, 0x0B, 0x17,
    0x16, 0x15, 0x14, 0x13, 0x12, 0x11, 0x10, 0xFF, 0xFE,
];

/// The octets of these fields and octets, appended in order.
pub(crate) fn put_appended(told: &mut String) -> Result<(), AllocError> {
    let mut packet: ArrayVec<u8, 25> = ArrayVec::new();
    put_u8(&mut packet, 0x01);
    put_u16(&mut packet, 0x0203);
    put_u24(&mut packet, 0x040506);
    put_u32(&mut packet, 0x0708_090A);
    put_u40(&mut packet, 0x0B_0C0D_0E0F);
    put_u64(&mut packet, 0x1011_1213_1415_1617);
    wire_fields::put_octets(&mut packet, &[0xFF, 0xFE]);
    put_octets(told, packet.as_slice())
}

/// The same fields as they are taken; then how many octets are left, these, and whether none are
/// left after them.
pub(crate) fn put_taken(told: &mut String) -> Result<(), AllocError> {
    let mut fields = Fields::new(&OCTETS);
    let taken = [
        u64::from(fields.u8()),
        u64::from(fields.u16()),
        u64::from(fields.u24()),
        u64::from(fields.u32()),
        fields.u40(),
        fields.u64(),
        fields.len() as u64,
    ];
    let (octets, is_empty) = (fields.octets::<2>(), fields.is_empty());
    for number in taken {
        put_number(told, number)?;
    }
    put_octets(told, &octets)?;
    put_answer(told, is_empty)
}

/// Of five octets the first two, and two more as a slice; then how many are left, and whether none
/// are left.
pub(crate) fn put_sliced(told: &mut String) -> Result<(), AllocError> {
    let mut fields = Fields::new(&[0x17, 0x16, 0x15, 0x14, 0x13]);
    let octets = fields.octets::<2>();
    let slice = fields.slice(2);
    put_octets(told, &octets)?;
    put_octets(told, slice)?;
    put_number(told, fields.len() as u64)?;
    put_answer(told, fields.is_empty())
}

const FIELDS: &str = "\
# Fields are appended in order, and taken in order.
append = 0103020605040a0908070f0e0d0c0b1716151413121110fffe
take = 0x01 0x0203 0x040506 0x0708090a 0x0b0c0d0e0f 0x1011121314151617 2 fffe yes
slice = 1716 1514 1 no
";

#[test]
fn fields(rt: HostRuntime) -> Result<(), AllocError> {
    check(&rt, rt.alloc(), FIELDS)
}
