//! Calls on a controller, and what each gives, as words: what is wanted of the radio, and then what
//! is noted.
use ble_base::{Outbox, SlotNo};
use controller::{Controller, Intent};
use std::alloc::AllocError;
use test_words::{Call, octets_of, put_notes, put_number, put_octets, put_verdict, slot};

/// What a turn gives in which a controller does nothing.
const REST: &str = " idle idle idle idle";

/// Makes a call with octets.
pub(crate) fn take<const L: usize>(
    controller: &mut Controller<L, 8, 8>,
    call: Call<'_>,
    told: &mut String,
) -> Result<(), AllocError> {
    let octets = octets_of(*told.allocator(), call.words[0]);
    let octets = octets.as_slice();
    match call.name {
        "host" => feed(controller, octets, told),
        "hear" => hear(controller, octets, told),
        "judge" => put_verdict(told, controller.judge(octets)),
        _ => take_slot(controller, call, told),
    }
}

/// Makes a call with slots, or with nothing.
fn take_slot<const L: usize>(
    controller: &mut Controller<L, 8, 8>,
    call: Call<'_>,
    told: &mut String,
) -> Result<(), AllocError> {
    let (first, end) = (slot(call.words[0]), slot(call.words[1]));
    match call.name {
        "begin" => begin(controller, first, true, told),
        "off" => begin(controller, first, false, told),
        "unheard" => unheard(controller, told),
        "end" => end_turn(controller, told),
        "rest" => rest(controller, told),
        "turn" => turn(controller, first, told),
        "turns" => turns(controller, first, end, told),
        "pass" => pass(controller, first, end, told),
        _ => told.push_str(" which call?"),
    }
}

/// The octets of a host.
fn feed<const L: usize>(
    controller: &mut Controller<L, 8, 8>,
    octets: &[u8],
    told: &mut String,
) -> Result<(), AllocError> {
    for octet in octets {
        let mut out = Outbox::new();
        controller.host_octet(*octet, &mut out);
        put_notes(told, &out)?;
    }
    Ok(())
}

/// A turn begins, with the radio on or off.
fn begin<const L: usize>(
    controller: &mut Controller<L, 8, 8>,
    slot: u32,
    on: bool,
    told: &mut String,
) -> Result<(), AllocError> {
    let slot = SlotNo(u64::from(slot));
    if !controller.may_begin(slot) {
        return told.push_str(" not yet");
    }
    let mut out = Outbox::new();
    let intent = controller.begin_turn(slot, on, &mut out);
    put_step(told, &intent, &out)
}

/// A packet is heard.
fn hear<const L: usize>(
    controller: &mut Controller<L, 8, 8>,
    packet: &[u8],
    told: &mut String,
) -> Result<(), AllocError> {
    let mut out = Outbox::new();
    let intent = controller.heard(packet, &mut out);
    put_step(told, &intent, &out)
}

/// Nothing is heard.
fn unheard<const L: usize>(
    controller: &mut Controller<L, 8, 8>,
    told: &mut String,
) -> Result<(), AllocError> {
    let mut out = Outbox::new();
    let intent = controller.unheard(&mut out);
    put_step(told, &intent, &out)
}

/// A turn ends.
fn end_turn<const L: usize>(
    controller: &mut Controller<L, 8, 8>,
    told: &mut String,
) -> Result<(), AllocError> {
    let mut out = Outbox::new();
    controller.end_turn(&mut out);
    put_notes(told, &out)
}

/// Nothing is heard in the two phases that are left, and the turn ends.
fn rest<const L: usize>(
    controller: &mut Controller<L, 8, 8>,
    told: &mut String,
) -> Result<(), AllocError> {
    unheard(controller, told)?;
    unheard(controller, told)?;
    end_turn(controller, told)
}

/// A turn with the radio on, in which nothing is heard.
fn turn<const L: usize>(
    controller: &mut Controller<L, 8, 8>,
    slot: u32,
    told: &mut String,
) -> Result<(), AllocError> {
    begin(controller, slot, true, told)?;
    unheard(controller, told)?;
    rest(controller, told)
}

/// The turns from one slot to before another, in which nothing is heard. Those in which the
/// controller does something are written, each after its slot.
fn turns<const L: usize>(
    controller: &mut Controller<L, 8, 8>,
    first: u32,
    end: u32,
    told: &mut String,
) -> Result<(), AllocError> {
    for slot in first..end {
        let mut done = String::new(*told.allocator());
        turn(controller, slot, &mut done)?;
        put_turn(told, slot, done.as_str())?;
    }
    Ok(())
}

/// The same turns, of which nothing is written.
fn pass<const L: usize>(
    controller: &mut Controller<L, 8, 8>,
    first: u32,
    end: u32,
    told: &String,
) -> Result<(), AllocError> {
    turns(controller, first, end, &mut String::new(*told.allocator()))
}

/// Writes what is wanted of the radio.
fn put_intent(told: &mut String, intent: &Intent) -> Result<(), AllocError> {
    match intent {
        Intent::Send { channel, octets } => put_sent(told, *channel, octets.as_slice()),
        Intent::Listen { channel } => put_listening(told, *channel),
        Intent::Idle => told.push_str(" idle"),
    }
}

/// Writes that a packet is sent on a channel.
fn put_sent(told: &mut String, channel: u8, packet: &[u8]) -> Result<(), AllocError> {
    told.push_str(" send")?;
    put_number(told, u64::from(channel))?;
    put_octets(told, packet)
}

/// Writes that a channel is listened on.
fn put_listening(told: &mut String, channel: u8) -> Result<(), AllocError> {
    told.push_str(" listen")?;
    put_number(told, u64::from(channel))
}

/// Writes what was done in a turn, if anything was.
fn put_turn(told: &mut String, slot: u32, done: &str) -> Result<(), AllocError> {
    if done == REST {
        return Ok(());
    }
    put_number(told, u64::from(slot))?;
    told.push_str(done)
}

/// Writes what is wanted and what was noted.
fn put_step(told: &mut String, intent: &Intent, out: &Outbox) -> Result<(), AllocError> {
    put_intent(told, intent)?;
    put_notes(told, out)
}
