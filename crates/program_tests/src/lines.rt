//! What is shown of an output.
use std::alloc::AllocError;
use test_words::{Call, call_of, put_number, put_text};

/// How many digits of a packet are shown: those of its access address.
const SHOWN_DIGITS: usize = 8;

/// Writes an output: whole, or the lines of a journal that begin with one of these words. With the
/// word "idle" it writes how many turns it has in which nothing happens, and its size.
pub(crate) fn put_shown(told: &mut String, out: &[u8], only: &str) -> Result<(), AllocError> {
    match only {
        "" => put_text(told, out),
        "idle" => put_idle(told, out),
        _ => put_lines(told, text_of(out), only),
    }
}

/// The text that octets spell.
fn text_of(octets: &[u8]) -> &str {
    std::str::from_utf8(octets).unwrap_or("not a text")
}

/// Writes how many lines there are before the first that is not of a turn in which nothing happens,
/// and the number of octets.
fn put_idle(told: &mut String, out: &[u8]) -> Result<(), AllocError> {
    put_number(told, idle_turns(text_of(out)))?;
    put_number(told, out.len() as u64)
}

/// The number of lines before the first that is not of a turn in which nothing happens.
fn idle_turns(journal: &str) -> u64 {
    let mut turns: u64 = 0;
    for line in journal.lines() {
        if !is_idle(line, turns) {
            return turns;
        }
        turns = turns.saturating_add(1);
    }
    turns
}

/// Whether a line is of this turn, with both radios on.
fn is_idle(line: &str, turn: u64) -> bool {
    let call = call_of(line);
    let [number, signs, ..] = call.words;
    let mut digits = itoa::Buffer::new();
    call.name == "turn" && number == digits.format(turn) && signs == "++"
}

/// Writes the lines of a journal that begin with one of these words, each after the number of its
/// turn.
fn put_lines(told: &mut String, journal: &str, only: &str) -> Result<(), AllocError> {
    let mut turns: u64 = 0;
    told.push_str(" [")?;
    for line in journal.lines() {
        turns = turns_with(turns, line);
        put_one(told, turns.saturating_sub(1), line, only)?;
    }
    told.push(']')
}

/// The number of turns with a further line.
fn turns_with(turns: u64, line: &str) -> u64 {
    if line.starts_with("turn ") {
        turns.saturating_add(1)
    } else {
        turns
    }
}

/// Writes a line after the number of its turn, if it begins with one of these words.
fn put_one(told: &mut String, turn: u64, line: &str, only: &str) -> Result<(), AllocError> {
    if begins_with_one(line, only) {
        put_line(told, turn, line)
    } else {
        Ok(())
    }
}

/// Whether a line begins with one of these words.
fn begins_with_one(line: &str, only: &str) -> bool {
    for word in only.split(',') {
        if line.starts_with(word) {
            return true;
        }
    }
    false
}

/// Writes a line after the number of its turn. Of a packet only the access address is shown.
fn put_line(told: &mut String, turn: u64, line: &str) -> Result<(), AllocError> {
    told.push_str(itoa::Buffer::new().format(turn))?;
    if line.starts_with("air ") {
        put_air(told, call_of(line))?;
    } else {
        put_word(told, line)?;
    }
    told.push('|')
}

/// Writes a further word.
fn put_word(told: &mut String, word: &str) -> Result<(), AllocError> {
    told.push(' ')?;
    told.push_str(word)
}

/// Writes the line of a packet.
fn put_air(told: &mut String, call: Call<'_>) -> Result<(), AllocError> {
    let [side, channel, packet, fate, verdict, ..] = call.words;
    let access = packet.get(..SHOWN_DIGITS).unwrap_or(packet);
    for word in ["air", side, channel, access, fate, verdict] {
        put_word(told, word)?;
    }
    Ok(())
}
