//! The kinds of fields in the rows of a codec: `u8`, `u16`, `u24`, `u32`, `u40` and `u64` are numbers
//! of that many bits, `[6]` is six octets, and `pair` is two numbers of two octets.

/// The number of octets that a field of this kind takes.
#[macro_export]
macro_rules! width {
    (u8) => {
        1
    };
    (u16) => {
        2
    };
    (u24) => {
        3
    };
    (u32) => {
        4
    };
    (u40) => {
        5
    };
    (u64) => {
        8
    };
    (pair) => {
        4
    };
    ([$count:literal]) => {
        $count
    };
}

/// Takes a field of this kind from the front of `Fields`.
#[macro_export]
macro_rules! take_field {
    ($fields:ident pair) => {
        [$fields.u16(), $fields.u16()]
    };
    ($fields:ident [$count:literal]) => {
        $fields.octets::<$count>()
    };
    ($fields:ident $kind:ident) => {
        $fields.$kind()
    };
}
