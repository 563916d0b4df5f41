//! Lines of a journal.
use crate::pdus::Pdu;
use std::alloc::AllocError;

/// Writes the line of a turn.
pub(crate) fn put_turn(told: &mut String, turn: u32) -> Result<(), AllocError> {
    put_word(told, "turn ", itoa::Buffer::new().format(turn))?;
    told.push_str(" ++\n")
}

/// Writes a line on a procedure.
pub(crate) fn put_line(
    told: &mut String,
    verb: &str,
    side: &str,
    name: &str,
    code: &str,
) -> Result<(), AllocError> {
    put_word(told, verb, " ")?;
    put_word(told, side, " 1 ")?;
    told.push_str(name)?;
    if !code.is_empty() {
        put_word(told, " ", code)?;
    }
    told.push('\n')
}

/// Writes the line of a control PDU with this number.
pub(crate) fn put_sent(
    told: &mut String,
    side: &str,
    number: u32,
    pdu: Pdu,
) -> Result<(), AllocError> {
    put_word(told, "sent ", side)?;
    put_word(told, " 1 ", itoa::Buffer::new().format(number))?;
    told.push_str(" 3 ")?;
    pdu.put(told)?;
    told.push('\n')
}

/// Writes two words.
pub(crate) fn put_word(told: &mut String, first: &str, second: &str) -> Result<(), AllocError> {
    told.push_str(first)?;
    told.push_str(second)
}

/// Writes the lines of a journal that are on turns and on procedures.
pub(crate) fn put_shown(told: &mut String, journal: &str) -> Result<(), AllocError> {
    for line in journal.lines() {
        if is_shown(line) {
            put_word(told, line, "\n")?;
        }
    }
    Ok(())
}

/// Whether a line is on a turn or on a procedure.
fn is_shown(line: &str) -> bool {
    for word in ["turn ", "began ", "refused ", "done ", "sent "] {
        if line.starts_with(word) {
            return true;
        }
    }
    false
}
