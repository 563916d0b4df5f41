//! Texts of more than one line in a line of a script: "|" ends each of their lines.
use std::alloc::AllocError;

/// What comes after the name of a call and a space.
pub fn rest_of<'a>(text: &'a str, name: &str) -> &'a str {
    let rest = text.get(name.len().saturating_add(1)..);
    rest.unwrap_or("")
}

/// Appends the octets of a text in which "|" ends a line.
pub fn push_lines(octets: &mut Vec<u8>, lines: &str) -> Result<(), AllocError> {
    for octet in lines.as_bytes() {
        octets.push(if *octet == b'|' { b'\n' } else { *octet })?;
    }
    Ok(())
}

/// Writes octets as a text in brackets, in which "|" ends a line.
pub fn put_text(told: &mut String, octets: &[u8]) -> Result<(), AllocError> {
    told.push_str(" [")?;
    for octet in octets {
        told.push(if *octet == b'\n' {
            '|'
        } else {
            char::from(*octet)
        })?;
    }
    told.push(']')
}
