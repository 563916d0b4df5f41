//! Texts that are read as schedules, and what each gives: the number of its turns, or its fault.
use radio_replay::{Schedule, ScheduleFault};
use std::alloc::{AllocError, Global};
use test_words::{Call, push_lines, put_value, slot};

/// The first three lines of a schedule.
const HEAD: &[u8] = b"ble-schedule 1
side a c0ffee00000a 71764129 0000000000000001
side b c0ffee00000b 71764129 0000000000000002
";

/// Reads the text of a call.
pub(crate) fn take_text(call: Call<'_>, rest: &str, told: &mut String) -> Result<(), AllocError> {
    let text = text_of(*told.allocator(), call, rest)?;
    put_turns(told, text.as_slice())
}

/// A whole text, lines after the first three, or a text with this number of random words of side A
/// or of octets in a pattern.
fn text_of(alloc: Global, call: Call<'_>, rest: &str) -> Result<Vec<u8>, AllocError> {
    match call.name {
        "whole" => text_after(alloc, b"", rest),
        "lines" => text_after(alloc, HEAD, rest),
        "words" => with_words(alloc, slot(call.words[0])),
        _ => with_pattern(alloc, slot(call.words[0])),
    }
}

/// The number of turns in a text, or its fault.
fn put_turns(told: &mut String, text: &[u8]) -> Result<(), AllocError> {
    put_value(told, &turns_of(*told.allocator(), text))
}

/// The number of turns in a text, or its fault.
fn turns_of(alloc: Global, text: &[u8]) -> Result<u32, ScheduleFault> {
    Ok(Schedule::read(alloc, text)?.turns())
}

/// A text, and after it lines, each of which ends at "|".
pub(crate) fn text_after(alloc: Global, head: &[u8], lines: &str) -> Result<Vec<u8>, AllocError> {
    let mut text = Vec::from_slice(alloc, head)?;
    push_lines(&mut text, lines)?;
    Ok(text)
}

/// Appends octets this number of times.
fn push_copies(text: &mut Vec<u8>, octets: &[u8], count: u32) -> Result<(), AllocError> {
    for _ in 0..count {
        text.extend_from_slice(octets)?;
    }
    Ok(())
}

/// A schedule in which side A has this number of random words.
fn with_words(alloc: Global, count: u32) -> Result<Vec<u8>, AllocError> {
    let mut text = Vec::from_slice(alloc, b"ble-schedule 1\nside a c0ffee00000a 71764129")?;
    push_copies(&mut text, b" 0000000000000001", count)?;
    text.extend_from_slice(b"\nside b c0ffee00000b 71764129 0000000000000002\nt ++\n")?;
    Ok(text)
}

/// A schedule with a pattern of this number of octets.
fn with_pattern(alloc: Global, count: u32) -> Result<Vec<u8>, AllocError> {
    let mut text = text_after(alloc, HEAD, "t ++ e0:")?;
    push_copies(&mut text, b"5a", count)?;
    Ok(text)
}
