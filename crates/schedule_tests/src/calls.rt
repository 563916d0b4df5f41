//! Calls on a schedule with all that there can be, on fates and on faults, and what each gives.
use arrayvec::ArrayVec;
use ble_base::Config;
use radio_replay::{Fate, Schedule, ScheduleFault};
use std::alloc::{AllocError, Global};
use test_words::{Call, number, octets_of, put_number, put_octets, slot};

/// A schedule with all that there can be.
const FULL: &[u8] = b"ble-schedule 1
side a c0ffee00000a 71764129 0000000000000001
side b C0FFEE00000B 0000000a 0000000000000002 fedcba9876543210
t ++ a41 b17
run 2
t +- b1048576 . x e11:01C0b401
t -- a1 e0:ff";

/// Makes a call on that schedule.
pub(crate) fn take_full(call: Call<'_>, told: &mut String) -> Result<(), AllocError> {
    match Schedule::read(*told.allocator(), FULL) {
        Ok(schedule) => take_on(&schedule, call, told),
        Err(_) => told.push_str(" not read"),
    }
}

/// Makes a call on a schedule.
fn take_on(schedule: &Schedule, call: Call<'_>, told: &mut String) -> Result<(), AllocError> {
    let (turn, packet) = (slot(call.words[0]), slot(call.words[1]));
    match call.name {
        "side_a" => put_side(told, &schedule.a),
        "side_b" => put_side(told, &schedule.b),
        _ if turn >= schedule.turns() => told.push_str(" no turn"),
        "fate" => put_fate(told, &schedule.fate(turn, packet)),
        _ => put_turn(told, schedule, turn),
    }
}

/// Writes the settings of a side: its address, least significant octet first, the access address
/// at which it begins, and its random words.
fn put_side(told: &mut String, side: &Config) -> Result<(), AllocError> {
    put_octets(told, &side.public)?;
    put_octets(told, &side.cursor.to_be_bytes())?;
    for word in side.words.as_slice() {
        put_octets(told, &word.to_be_bytes())?;
    }
    Ok(())
}

/// Writes the radios of a turn, what it feeds to A and B, and the fates of its first four packets.
fn put_turn(told: &mut String, schedule: &Schedule, turn: u32) -> Result<(), AllocError> {
    if turn >= schedule.turns() {
        return Ok(());
    }
    told.push_str(sign(schedule.a_on(turn)))?;
    told.push_str(sign(schedule.b_on(turn)))?;
    put_number(told, u64::from(schedule.feed_a(turn)))?;
    put_number(told, u64::from(schedule.feed_b(turn)))?;
    for packet in 0..4 {
        put_fate(told, &schedule.fate(turn, packet))?;
    }
    Ok(())
}

/// The sign of a radio, as a word.
fn sign(is_on: bool) -> &'static str {
    if is_on { " +" } else { " -" }
}

/// Writes a fate: of a damage its place and its pattern.
fn put_fate(told: &mut String, fate: &Fate) -> Result<(), AllocError> {
    match fate {
        Fate::Pass => told.push_str(" ."),
        Fate::Lost => told.push_str(" x"),
        Fate::Damage { at, pattern } => {
            told.push_str(" e")?;
            put_number(told, u64::from(*at))?;
            put_octets(told, pattern.as_slice())
        }
    }
}

/// What a fate makes of a packet of three octets, or the text of a fault.
pub(crate) fn take_sample(call: Call<'_>, told: &mut String) -> Result<(), AllocError> {
    let [first, second, ..] = call.words;
    match call.name {
        "pass" => put_packet_after(told, &Fate::Pass),
        "lost" => put_packet_after(told, &Fate::Lost),
        "damage" => put_packet_after(told, &damage(*told.allocator(), first, second)),
        _ => put_fault(told, fault(first, slot(second))),
    }
}

/// What a fate makes of a packet of three octets.
fn put_packet_after(told: &mut String, fate: &Fate) -> Result<(), AllocError> {
    let mut packet = [1, 2, 3];
    fate.damage_packet(&mut packet);
    put_octets(told, &packet)
}

/// A damage at a place, by a pattern.
fn damage(alloc: Global, at: &str, digits: &str) -> Fate {
    let mut pattern = ArrayVec::new();
    let _ = pattern.try_extend_from_slice(&octets_of(alloc, digits));
    Fate::Damage {
        at: number(at),
        pattern,
    }
}

/// A fault, by its name.
fn fault(name: &str, line: u32) -> ScheduleFault {
    match name {
        "line" => ScheduleFault::BadLine(line),
        "long" => ScheduleFault::TooLong(line),
        _ => ScheduleFault::Memory,
    }
}

/// The text of a fault.
fn put_fault(told: &mut String, fault: ScheduleFault) -> Result<(), AllocError> {
    write!(told, " {fault}")
}
