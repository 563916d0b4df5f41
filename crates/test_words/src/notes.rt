//! What a controller notes and judges, as words.
use crate::writing::{put_number, put_octets, put_value};
use ble_base::{Address, Kind, Note, Outbox, Role, Verdict};
use std::alloc::AllocError;

/// Writes a verdict.
pub fn put_verdict(told: &mut String, verdict: Verdict) -> Result<(), AllocError> {
    told.push_str(match verdict {
        Verdict::Good => " good",
        Verdict::Broken => " broken",
        Verdict::Missed => " missed",
        Verdict::Forged => " forged",
    })
}

/// Writes what was noted.
pub fn put_notes(told: &mut String, out: &Outbox) -> Result<(), AllocError> {
    for note in out.as_slice() {
        put_note(told, note)?;
    }
    Ok(())
}

/// Writes a note: of a packet its octets; of a link its handle and what is noted of it.
fn put_note(told: &mut String, note: &Note) -> Result<(), AllocError> {
    match note {
        Note::Up(packet) => put_packet(told, packet.as_slice()),
        Note::Sent {
            handle,
            number,
            llid,
            body,
        } => put_pdu(told, " sent", (*handle, *number, *llid), body.as_slice()),
        Note::Took {
            handle,
            number,
            llid,
            body,
        } => put_pdu(told, " took", (*handle, *number, *llid), body.as_slice()),
        _ => put_change(told, note),
    }
}

/// Writes a note of a link that is opened or shut or enters an event.
fn put_change(told: &mut String, note: &Note) -> Result<(), AllocError> {
    match note {
        Note::Opened {
            handle,
            role,
            own,
            peer,
        } => put_opened(told, (*handle, *role), own, peer),
        Note::Shut { handle, reason } => put_shut(told, *handle, reason.0),
        Note::Enter {
            handle,
            event,
            channel,
        } => put_entered(told, *handle, event.0, *channel),
        _ => put_procedure(told, note),
    }
}

/// Writes a note of a control procedure.
fn put_procedure(told: &mut String, note: &Note) -> Result<(), AllocError> {
    match note {
        Note::Applied {
            handle,
            number,
            event,
        } => put_applied(told, *handle, *number, event.0),
        Note::Began { handle, kind } => put_kind(told, " began", *handle, *kind),
        Note::Done { handle, kind } => put_kind(told, " done", *handle, *kind),
        Note::Refused { handle, kind, code } => {
            put_kind(told, " refused", *handle, *kind)?;
            put_octets(told, &[code.0])
        }
        _ => told.push_str(" another"),
    }
}

/// Writes the octets of a packet for the host.
fn put_packet(told: &mut String, packet: &[u8]) -> Result<(), AllocError> {
    told.push_str(" up")?;
    put_octets(told, packet)
}

/// Writes the note of a PDU: the handle, its number, its LLID and its payload.
fn put_pdu(
    told: &mut String,
    name: &str,
    (handle, number, llid): (u16, u64, u8),
    body: &[u8],
) -> Result<(), AllocError> {
    told.push_str(name)?;
    put_number(told, u64::from(handle))?;
    put_number(told, number)?;
    put_number(told, u64::from(llid))?;
    put_octets(told, body)
}

/// Writes that a link was opened, in which role, and between which addresses.
fn put_opened(
    told: &mut String,
    (handle, role): (u16, Role),
    own: &Address,
    peer: &Address,
) -> Result<(), AllocError> {
    told.push_str(" open")?;
    put_number(told, u64::from(handle))?;
    told.push_str(match role {
        Role::Central => " central",
        Role::Peripheral => " peripheral",
    })?;
    put_address(told, own)?;
    put_address(told, peer)
}

/// Writes an address, with the least significant octet first.
fn put_address(told: &mut String, address: &Address) -> Result<(), AllocError> {
    told.push_str(if address.random { " random" } else { " public" })?;
    put_octets(told, &address.octets)
}

/// Writes that a link was shut, and for what reason.
fn put_shut(told: &mut String, handle: u16, reason: u8) -> Result<(), AllocError> {
    told.push_str(" shut")?;
    put_number(told, u64::from(handle))?;
    put_octets(told, &[reason])
}

/// Writes that a link entered an event, and on which channel.
fn put_entered(told: &mut String, handle: u16, event: u64, channel: u8) -> Result<(), AllocError> {
    told.push_str(" enter")?;
    put_number(told, u64::from(handle))?;
    put_number(told, event)?;
    put_number(told, u64::from(channel))
}

/// Writes the number of an indication, and the event from which on it is in force.
fn put_applied(told: &mut String, handle: u16, number: u64, event: u64) -> Result<(), AllocError> {
    told.push_str(" applied")?;
    put_number(told, u64::from(handle))?;
    put_number(told, number)?;
    put_number(told, event)
}

/// Writes a name, the handle of a link and the kind of a procedure on it.
fn put_kind(told: &mut String, name: &str, handle: u16, kind: Kind) -> Result<(), AllocError> {
    told.push_str(name)?;
    put_number(told, u64::from(handle))?;
    put_value(told, &kind)
}
