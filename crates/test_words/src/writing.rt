//! What a call gives, as words.
use crate::reading::hex_number;
use std::alloc::{AllocError, Global};
use std::fmt::Debug;

/// Writes a number as a further word.
pub fn put_number(told: &mut String, number: u64) -> Result<(), AllocError> {
    told.push(' ')?;
    told.push_str(itoa::Buffer::new().format(number))
}

/// Writes octets as a further word.
pub fn put_octets(told: &mut String, octets: &[u8]) -> Result<(), AllocError> {
    let digits = hex::encode(*told.allocator(), octets)?;
    told.push(' ')?;
    told.push_str(digits.as_str())
}

/// Writes that something is so, or is not.
pub fn put_answer(told: &mut String, is_so: bool) -> Result<(), AllocError> {
    told.push_str(if is_so { " yes" } else { " no" })
}

/// Writes a value with the names of its fields, as `Debug` does.
pub fn put_value<T: Debug>(told: &mut String, value: &T) -> Result<(), AllocError> {
    write!(told, " {value:?}")
}

/// A text with each number in decimal digits, as `Debug` writes it: `0x` comes before pairs of
/// hexadecimal digits.
pub fn decimal_of(alloc: Global, text: &str) -> Result<String, AllocError> {
    let mut decimal = String::new(alloc);
    let mut pieces = text.split("0x");
    decimal.push_str(pieces.next().unwrap_or(""))?;
    for piece in pieces {
        put_piece(&mut decimal, piece)?;
    }
    Ok(decimal)
}

/// Writes a text that begins with pairs of hexadecimal digits.
fn put_piece(told: &mut String, piece: &str) -> Result<(), AllocError> {
    let digits = piece.split([',', ' ', ']', ')']).next().unwrap_or("");
    let number = hex_number(*told.allocator(), digits);
    told.push_str(itoa::Buffer::new().format(number))?;
    told.push_str(piece.get(digits.len()..).unwrap_or(""))
}
