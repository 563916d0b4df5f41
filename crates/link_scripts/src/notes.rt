//! What an end of a link notes, as words.
use ble_base::{ErrCode, Kind, Note, Outbox};
use std::alloc::AllocError;
use test_words::{put_number, put_octets, put_value};

/// Writes what was noted.
pub fn put_notes(told: &mut String, out: &Outbox) -> Result<(), AllocError> {
    for note in out.as_slice() {
        put_note(told, note)?;
    }
    Ok(())
}

/// Writes what was noted of an event or a PDU.
fn put_note(told: &mut String, note: &Note) -> Result<(), AllocError> {
    match note {
        Note::Applied { number, event, .. } => put_numbers(told, " applied", *number, event.0),
        Note::Enter { event, channel, .. } => {
            put_numbers(told, " enter", event.0, u64::from(*channel))
        }
        Note::Sent {
            number,
            llid,
            body,
            ..
        } => put_pdu(told, " sent", (*number, *llid), body.as_slice()),
        Note::Took {
            number,
            llid,
            body,
            ..
        } => put_pdu(told, " took", (*number, *llid), body.as_slice()),
        _ => put_procedure(told, note),
    }
}

/// Writes what was noted of a procedure.
fn put_procedure(told: &mut String, note: &Note) -> Result<(), AllocError> {
    match note {
        Note::Began { kind, .. } => put_kind(told, " began", *kind),
        Note::Done { kind, .. } => put_kind(told, " done", *kind),
        Note::Refused { kind, code, .. } => {
            put_kind(told, " refused", *kind)?;
            put_octets(told, &[code.0])
        }
        _ => told.push_str(" another"),
    }
}

/// Writes a name and two numbers.
pub fn put_numbers(told: &mut String, name: &str, one: u64, other: u64) -> Result<(), AllocError> {
    told.push_str(name)?;
    put_number(told, one)?;
    put_number(told, other)
}

/// Writes the kind of a procedure after a name.
fn put_kind(told: &mut String, name: &str, kind: Kind) -> Result<(), AllocError> {
    told.push_str(name)?;
    put_value(told, &kind)
}

/// Writes the number of a PDU, its LLID, and its octets, or their number where there are over
/// 28.
fn put_pdu(
    told: &mut String,
    name: &str,
    (number, llid): (u64, u8),
    body: &[u8],
) -> Result<(), AllocError> {
    put_numbers(told, name, number, u64::from(llid))?;
    if body.len() > 28 {
        put_number(told, body.len() as u64)
    } else {
        put_octets(told, body)
    }
}

/// Writes for what reason an end ends, if it does.
pub fn put_reason(told: &mut String, reason: Option<ErrCode>) -> Result<(), AllocError> {
    match reason {
        None => Ok(()),
        Some(code) => put_code(told, " ends", code),
    }
}

/// Writes an error after a name.
fn put_code(told: &mut String, name: &str, code: ErrCode) -> Result<(), AllocError> {
    told.push_str(name)?;
    put_octets(told, &[code.0])
}
