//! Calls on texts and on the words and numbers in them, and what each gives.
use crate::texts::text_after;
use line_words::{Lines, Words, cut, read_number, read_sign, two_parts};
use std::alloc::AllocError;
use test_words::{Call, hex_number, put_answer, put_number, put_text};

/// Makes a call on a text, on words or on a number.
pub(crate) fn take_words(call: Call<'_>, rest: &str, told: &mut String) -> Result<(), AllocError> {
    match call.name {
        "text" => put_lines(told, rest),
        "line" => put_words(told, rest.as_bytes()),
        "cut" => put_cut(told, rest.as_bytes()),
        "two" => put_two(told, rest.as_bytes()),
        "sign" => put_sign(told, rest.as_bytes()),
        "number" => put_read(told, call.words),
        _ => told.push_str(" which call?"),
    }
}

/// Writes a part in brackets, or that there is none.
fn put_part(told: &mut String, part: Option<&[u8]>) -> Result<(), AllocError> {
    match part {
        Some(octets) => put_text(told, octets),
        None => told.push_str(" none"),
    }
}

/// The first four lines of a text in which each ends at "|".
fn put_lines(told: &mut String, text: &str) -> Result<(), AllocError> {
    let text = text_after(*told.allocator(), b"", text)?;
    let mut lines = Lines::of(text.as_slice());
    for _ in 0..4 {
        put_part(told, lines.next_line())?;
    }
    Ok(())
}

/// The first word without taking it, and the first four.
fn put_words(told: &mut String, line: &[u8]) -> Result<(), AllocError> {
    let mut words = Words::of(line);
    put_part(told, words.peek_word())?;
    for _ in 0..4 {
        put_part(told, words.next_word())?;
    }
    Ok(())
}

/// What is before and after the first colon.
fn put_cut(told: &mut String, octets: &[u8]) -> Result<(), AllocError> {
    let (part, rest) = cut(octets, b':');
    put_part(told, Some(part))?;
    put_part(told, rest)
}

/// What is before and after the one colon.
fn put_two(told: &mut String, octets: &[u8]) -> Result<(), AllocError> {
    let Some((first, second)) = two_parts(octets, b':') else {
        return told.push_str(" none");
    };
    put_part(told, Some(first))?;
    put_part(told, Some(second))
}

/// Whether a sign is for on.
fn put_sign(told: &mut String, octets: &[u8]) -> Result<(), AllocError> {
    match read_sign(octets.first().copied().unwrap_or(0)) {
        Some(is_on) => put_answer(told, is_on),
        None => told.push_str(" none"),
    }
}

/// The number that a word spells, between two that pairs of hexadecimal digits spell.
fn put_read(told: &mut String, [word, least, most, ..]: [&str; 8]) -> Result<(), AllocError> {
    let alloc = *told.allocator();
    let (least, most) = (hex_number(alloc, least), hex_number(alloc, most));
    match read_number(word.as_bytes(), least, most) {
        Some(number) => put_number(told, number),
        None => told.push_str(" none"),
    }
}
