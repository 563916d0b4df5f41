//! Calls on one end of a link, and what each gives, as words.
ghost use Rattle.std.specs.Prelude.{◌≤◌, ◌<◌, ◌^◌, length};

use crate::ciphers::{COUNTERS, LONGEST, hex_octet};
use arrayvec::ArrayVec;
use ble_base::Role;
use ccm_link::Forged;
use data_pdu::{Ctrl, CtrlRead, read_ctrl};
use enc_phase::{Asked, Clear, Phase, Session};
use std::alloc::{AllocError, Global};
use test_words::{Call, call_of, octet, octets_of, put_answer, put_number, put_octets};

/// The session of the sample data (Core 5.2, volume 6 part C, section 1).
pub(crate) const SESSION: Session = Session {
    key: [
        0x99, 0xAD, 0x1B, 0x52, 0x26, 0xA3, 0x7E, 0x3E, 0x05, 0x8E, 0x3B, 0x8E, 0x27, 0xC2, 0xC6,
        0x66,
    ],
    iv: [0x24, 0xAB, 0xDC, 0xBA, 0xBE, 0xBA, 0xAF, 0xDE],
};

/// A PDU of each class: its letter, its LLID, and the octets of a control PDU that can be read.
const PDUS: &str = "\
e 0
d 1
D 2
t 3 0213
3 3 0300000000000000000000000000000000000000000000
4 3 04000000000000000000000000
5 3 05
6 3 06
A 3 0a
B 3 0b
r 3 0d06
R 3 110306
v 3 0c0bffff0100
f 3 0e0000000000000000
p 3 160101
o 3 110f06
q 3 080000000000000000
u 3
";

/// The control PDU with these octets.
fn ctrl_of(alloc: Global, octets: &str) -> Option<Ctrl> {
    match read_ctrl(octets_of(alloc, octets).as_slice()) {
        CtrlRead::Known(ctrl) => Some(ctrl),
        _ => None,
    }
}

/// The phase after this one, where nothing is refused.
pub(crate) fn next(phase: Phase) -> Phase {
    match phase {
        Phase::Clear(clear) => Phase::Asked(clear.ask()),
        Phase::Asked(asked) => Phase::HalfKeyed(asked.key(SESSION)),
        Phase::HalfKeyed(half_keyed) => Phase::Secure(half_keyed.confirm()),
        Phase::Secure(secure) => Phase::Pausing(secure.pause()),
        Phase::Pausing(pausing) => Phase::HalfClear(pausing.unlock()),
        Phase::HalfClear(half_clear) => Phase::Asked(half_clear.ask()),
    }
}

/// Where the start of encryption may be refused, the phase is Clear again.
fn refused(phase: Phase) -> Phase {
    match phase {
        Phase::Asked(asked) => refused_start(asked),
        other => other,
    }
}

/// The start of encryption is refused, if it may be.
fn refused_start(asked: Asked) -> Phase {
    if asked.after_pause() {
        Phase::Asked(asked)
    } else {
        Phase::Clear(asked.refuse())
    }
}

/// Makes a call on an end.
pub(crate) fn take(phase: &mut Phase, call: Call<'_>, told: &mut String) -> Result<(), AllocError> {
    match call.name {
        "next" => go_on(phase),
        "refuse" => refuse(phase),
        "counts" => put_counts(phase, told),
        "quiet" => put_answer(told, phase.facts().is_quiet()),
        "paused" => put_answer(told, is_after_pause(phase)),
        "takes" => put_letters(phase, call.name, told),
        "unknown" => put_letters(phase, call.name, told),
        "saw" => see(phase, call.words, *told.allocator()),
        "clear" => put_answer(told, is_clear(phase)),
        _ => take_payload(phase, call, told),
    }
}

/// An end goes on to its next phase.
fn go_on(phase: &mut Phase) -> Result<(), AllocError> {
    let here = std::mem::replace(phase, Phase::Clear(Clear::new(Role::Central)));
    *phase = next(here);
    Ok(())
}

/// The start of encryption is refused.
fn refuse(phase: &mut Phase) -> Result<(), AllocError> {
    let here = std::mem::replace(phase, Phase::Clear(Clear::new(Role::Central)));
    *phase = refused(here);
    Ok(())
}

/// Makes a call with a header and a payload.
fn take_payload(phase: &mut Phase, call: Call<'_>, told: &mut String) -> Result<(), AllocError> {
    let header = hex_octet(*told.allocator(), call.words[0]);
    let payload = octets_of(*told.allocator(), call.words[1]);
    let payload = payload.as_slice();
    match call.name {
        "send" => send(phase, header, payload, told),
        "data" => send_data(phase, header, payload, told),
        "try" => try_payload(phase, header, payload, told),
        "open" => open(phase, header, payload, told),
        _ => told.push_str(" which call?"),
    }
}

/// A PDU of one octet.
const ONE_OCTET: &[u8] = b"\x00";

/// Whether an end in phase Clear sends and opens a PDU as it is, and counts none.
fn is_clear(phase: &mut Phase) -> bool {
    match phase {
        Phase::Clear(clear) => {
            clear.send_data(0x02, ONE_OCTET).as_slice() == ONE_OCTET
                && clear.try_pdu(0x02, ONE_OCTET)
                && clear.open_pdu(0x02, ONE_OCTET).is_ok()
                && clear.sent() == 0
                && clear.opened() == 0
        }
        _ => false,
    }
}

/// Writes what a payload is opened to.
pub(crate) fn put_opened(
    told: &mut String,
    opened: Result<ArrayVec<u8, 251>, Forged>,
) -> Result<(), AllocError> {
    match opened {
        Ok(body) => put_octets(told, body.as_slice()),
        Err(Forged) => told.push_str(" forged"),
    }
}

/// Writes two numbers.
fn put_pair(told: &mut String, first: u64, second: u64) -> Result<(), AllocError> {
    put_number(told, first)?;
    put_number(told, second)
}

/// How many payloads were sealed, and how many opened.
fn put_counts(phase: &Phase, told: &mut String) -> Result<(), AllocError> {
    put_pair(told, phase.sent(), phase.opened())
}

/// Whether encryption was asked for after a pause.
fn is_after_pause(phase: &Phase) -> bool {
    match phase {
        Phase::Asked(asked) => asked.after_pause(),
        _ => false,
    }
}

/// The letters of the PDUs that an end may take, or of those that it answers with LL_UNKNOWN_RSP,
/// in the order of the table.
fn put_letters(phase: &Phase, name: &str, told: &mut String) -> Result<(), AllocError> {
    told.push(' ')?;
    for line in PDUS.lines() {
        put_letter(phase, name, call_of(line), told)?;
    }
    Ok(())
}

/// The letter of a line of the table, if it is one of these.
fn put_letter(
    phase: &Phase,
    name: &str,
    line: Call<'_>,
    told: &mut String,
) -> Result<(), AllocError> {
    let ctrl = ctrl_of(*told.allocator(), line.words[1]);
    let is_one = match name {
        "takes" => phase.allows(octet(line.words[0]), ctrl.as_ref()),
        _ => is_unknown(phase, ctrl),
    };
    told.push_str(if is_one { line.name } else { "" })
}

/// Whether an end answers a control PDU with LL_UNKNOWN_RSP.
fn is_unknown(phase: &Phase, ctrl: Option<Ctrl>) -> bool {
    match ctrl {
        None => false,
        Some(ctrl) => phase.is_unknown(&ctrl),
    }
}

/// An end took a PDU with this LLID and these octets, if it may.
fn see(phase: &mut Phase, words: [&str; 8], alloc: Global) -> Result<(), AllocError> {
    see_pdu(phase, octet(words[0]), ctrl_of(alloc, words[1]));
    Ok(())
}

/// An end took a PDU, if it may.
fn see_pdu(phase: &mut Phase, llid: u8, ctrl: Option<Ctrl>) {
    if phase.allows(llid, ctrl.as_ref()) {
        phase.saw(llid, ctrl.as_ref());
    }
}

/// The payload of a control PDU as it is sent.
fn send(
    phase: &mut Phase,
    header: u8,
    payload: &[u8],
    told: &mut String,
) -> Result<(), AllocError> {
    if payload.is_empty() || payload.len() > LONGEST || phase.sent() >= COUNTERS {
        return told.push_str(" cannot");
    }
    put_octets(told, phase.send_ctrl(header, payload).as_slice())
}

/// The payload of a data PDU as it is sent, in a phase in which data is sent.
fn send_data(
    phase: &mut Phase,
    header: u8,
    payload: &[u8],
    told: &mut String,
) -> Result<(), AllocError> {
    if payload.is_empty() || payload.len() > LONGEST {
        return told.push_str(" cannot");
    }
    match phase {
        Phase::Clear(clear) => put_octets(told, clear.send_data(header, payload).as_slice()),
        Phase::Secure(secure) if secure.sent() < COUNTERS => {
            put_octets(told, secure.send_data(header, payload).as_slice())
        }
        _ => told.push_str(" cannot"),
    }
}

/// Whether a payload is one of the other end.
fn try_payload(
    phase: &Phase,
    header: u8,
    payload: &[u8],
    told: &mut String,
) -> Result<(), AllocError> {
    if payload.len() > LONGEST || phase.opened() >= COUNTERS {
        return told.push_str(" cannot");
    }
    put_answer(told, phase.try_pdu(header, payload))
}

/// What a payload is opened to.
fn open(
    phase: &mut Phase,
    header: u8,
    payload: &[u8],
    told: &mut String,
) -> Result<(), AllocError> {
    if payload.len() > LONGEST || phase.opened() >= COUNTERS {
        return told.push_str(" cannot");
    }
    put_opened(told, phase.open_pdu(header, payload))
}
