//! Calls on one end of a link, and what each gives, as words.
ghost use Rattle.procedure_values.specs.Wants.{IsAsk};

use ble_base::{ChannelMap, ErrCode, EventNo, SlotNo};
use data_pdu::{Ctrl, CtrlRead, read_ctrl};
use procedures::{Ask, ProcTable};
use std::alloc::AllocError;
use test_words::{Call, hex_number, number, octets_of, put_answer, put_number, put_value, slot};

/// What a host asks: an update to 30 ms, a request for 40 ms, a map of the channels 0 to 32 or of
/// all channels, a PHY update, at most 100 octets, or an encryption.
fn ask_named(name: &str) -> Ask
    ensures { IsAsk result }
{
    match name {
        "update" => Ask::Update {
            interval: 24,
            latency: 0,
            timeout: 100,
        },
        "request" => Ask::Request {
            min: 32,
            max: 32,
            latency: 0,
            timeout: 72,
        },
        "map" => Ask::Map(ChannelMap::new(0x01_FFFF_FFFF).unwrap_or_default()),
        "all_channels" => Ask::Map(ChannelMap::default()),
        "phy" => Ask::Phy,
        "length" => Ask::Length { tx: 100 },
        _ => Ask::Encrypt {
            rand: 0,
            ediv: 0,
            ltk: [0; 16],
            skd_m: 2,
            iv_m: 3,
        },
    }
}

/// The event with this number.
fn event_no(word: &str) -> EventNo {
    EventNo(u64::from(slot(word)))
}

/// The slot with this number.
fn slot_no(word: &str) -> SlotNo {
    SlotNo(u64::from(slot(word)))
}

/// The error that two digits spell.
fn code_of(told: &String, word: &str) -> ErrCode {
    ErrCode(u8::try_from(hex_number(*told.allocator(), word)).unwrap_or(u8::MAX))
}

/// Makes a call on an end. Phase Clear is meant where a call has no other name.
pub(crate) fn take(
    end: &mut ProcTable,
    call: Call<'_>,
    told: &mut String,
) -> Result<(), AllocError> {
    let [first, second, ..] = call.words;
    match call.name {
        "ask" => ask(end, first),
        "may_ask" => put_answer(told, end.may_ask(ask_named(first).kind())),
        "enter" => enter(end, slot_no(first), told),
        "apply" => put_value(told, &end.entered(true)),
        "send" => send(end, event_no(first), slot_no(second), true, told),
        "send_unquiet" => send(end, event_no(first), slot_no(second), false, told),
        "take" => take_octets(end, slot_no(first), second, told),
        "acked" => acked(end, told),
        _ => take_more(end, call, told),
    }
}

/// Makes a call that is seldom made.
fn take_more(end: &mut ProcTable, call: Call<'_>, told: &mut String) -> Result<(), AllocError> {
    let first = call.words[0];
    match call.name {
        "next" => put_next(end, event_no(first), true, told),
        "next_unquiet" => put_next(end, event_no(first), false, told),
        "waiting" => put_number(told, end.waiting() as u64),
        "busy" => put_answer(told, end.busy()),
        "lengths" => put_value(told, &end.lengths()),
        "tick" => put_value(told, &end.tick(slot_no(first))),
        "owe" => owe(end, first, told),
        "crowd" => crowd(end, number(first)),
        "refuse" => refuse(end, code_of(told, first), told),
        "terminate" => terminate(end, code_of(told, first), told),
        _ => told.push_str(" which call?"),
    }
}

/// The host asks.
fn ask(end: &mut ProcTable, name: &str) -> Result<(), AllocError> {
    end.ask(ask_named(name));
    Ok(())
}

/// Enters an event, from which no indication holds: what begins.
fn enter(end: &mut ProcTable, slot: SlotNo, told: &mut String) -> Result<(), AllocError> {
    end.entered(false);
    if end.waiting() >= 24 {
        return told.push_str(" cannot");
    }
    put_value(told, &end.begin(slot, true))
}

/// What would be sent in an event.
fn put_next(
    end: &ProcTable,
    event: EventNo,
    quiet: bool,
    told: &mut String,
) -> Result<(), AllocError> {
    if event.0 >= 1 << 32 {
        return told.push_str(" too late");
    }
    put_value(told, &end.next_ctrl(event, 0, quiet))
}

/// Sends what is next: it, and the indication that this end follows from then on.
fn send(
    end: &mut ProcTable,
    event: EventNo,
    slot: SlotNo,
    quiet: bool,
    told: &mut String,
) -> Result<(), AllocError> {
    if event.0 >= 1 << 32 {
        return told.push_str(" too late");
    }
    let Some(ctrl) = end.next_ctrl(event, 0, quiet) else {
        return told.push_str(" none");
    };
    put_value(told, &ctrl)?;
    put_value(told, &end.went(event, 0, quiet, slot))
}

/// Takes the control PDU with these octets.
fn take_octets(
    end: &mut ProcTable,
    slot: SlotNo,
    octets: &str,
    told: &mut String,
) -> Result<(), AllocError> {
    match known_of(told, octets) {
        None => told.push_str(" which PDU?"),
        Some(ctrl) if ctrl.is_in_range() => {
            put_value(told, &end.took(&CtrlRead::Known(ctrl), slot, true))
        }
        Some(_) => told.push_str(" out of range"),
    }
}

/// The control PDU with these octets.
fn known_of(told: &String, octets: &str) -> Option<Ctrl> {
    match read_ctrl(octets_of(*told.allocator(), octets).as_slice()) {
        CtrlRead::Known(ctrl) => Some(ctrl),
        _ => None,
    }
}

/// What was sent last is acknowledged: the procedure that is completed.
fn acked(end: &mut ProcTable, told: &mut String) -> Result<(), AllocError> {
    if !end.is_out() {
        return told.push_str(" nothing");
    }
    put_value(told, &end.acked())
}

/// The layer above queues the control PDU with these octets.
fn owe(end: &mut ProcTable, octets: &str, told: &mut String) -> Result<(), AllocError> {
    match known_of(told, octets) {
        Some(ctrl) if ctrl.is_in_range() && end.waiting() < 24 => {
            end.owe(ctrl);
            Ok(())
        }
        _ => told.push_str(" cannot"),
    }
}

/// The layer above queues LL_UNKNOWN_RSP this many times.
fn crowd(end: &mut ProcTable, count: u16) -> Result<(), AllocError> {
    for _ in 0..count {
        if end.waiting() < 24 {
            end.owe(Ctrl::UnknownRsp { opcode: 0x0A });
        }
    }
    Ok(())
}

/// The host of a central that was asked refuses.
fn refuse(end: &mut ProcTable, code: ErrCode, told: &mut String) -> Result<(), AllocError> {
    if !end.awaits_host() || end.waiting() >= 24 {
        return told.push_str(" cannot");
    }
    end.host_answer(Err(code));
    Ok(())
}

/// The host ends the link.
fn terminate(end: &mut ProcTable, code: ErrCode, told: &mut String) -> Result<(), AllocError> {
    if end.is_disconnecting() {
        return told.push_str(" cannot");
    }
    end.terminate(code);
    Ok(())
}
