//! Both ends of a link, turn by turn.
ghost use Rattle.std.specs.Prelude.{◌<◌};

use crate::air::{hear, put_payload};
use crate::calls::{LTK, ask_named, take};
use crate::ends::End;
use crate::notes::{put_notes, put_numbers, put_reason};
use ble_base::Role;
use procedures::Effect;
use std::alloc::{AllocError, Global};
use test_words::{Call, TakesCalls, first_wrong, put_octets, slot};

/// A central, A, and a peripheral, B.
#[derive(Drop)]
pub struct Pair {
    pub a: End,
    pub b: End,
}

/// Each line has a call, and after " =" what it gives. Both ends have entered event 0 before the
/// first line, and after a line "new". A line that begins with "#" says what follows.
///
/// "turn 26 x ." is the turn in slot 26, in which the first packet is lost, and the second is not.
/// In "turn 26 020102" another packet arrives in place of the first: its LLID is 2, and its payload
/// 01 02. "air" is a turn too, and gives the payloads on the air, with "-" for an empty one, and why
/// both ends end. After "come" with the name of a phase a new link has come so far with its
/// encryption. "takes_a" and "takes_b" go there for each of up to eight packets that may arrive in
/// place of the next one, and give whether A or B goes on, or why it ends. With a "~" before its octets
/// a packet acknowledges nothing new.
///
/// The result is the first line whose call gives something else, and what it gives; or nothing.
pub fn wrong_in(alloc: Global, script: &str) -> Result<String, AllocError> {
    let mut pair = Pair::new(alloc)?;
    first_wrong(&mut pair, alloc, script)
}

impl TakesCalls for Pair {
    /// Makes a call on an end, or goes through a turn of both.
    fn take(&mut self, side: &str, call: Call<'_>, told: &mut String) -> Result<(), AllocError> {
        match side {
            "a" => take(&mut self.a, call, told),
            "b" => take(&mut self.b, call, told),
            "turn" => self.take_turn(call, told),
            "air" => self.show_turn(call, told),
            "come" => self.come(call.name, told),
            "takes_a" => self.take_each(call, true, told),
            "takes_b" => self.take_each(call, false, told),
            "new" => self.begin_again(),
            "#" => Ok(()),
            _ => told.push_str(" which end?"),
        }
    }
}

impl Pair {
    /// Both ends have entered event 0.
    pub fn new(alloc: Global) -> Result<Self, AllocError> {
        let a = End::new(alloc, Role::Central)?;
        let b = End::new(alloc, Role::Peripheral)?;
        Ok(Pair { a, b })
    }

    /// A new link takes the place of this one.
    fn begin_again(&mut self) -> Result<(), AllocError> {
        self.a.begin_again();
        self.b.begin_again();
        Ok(())
    }

    /// Goes through a turn, and writes what both ends noted and why they end.
    fn take_turn(&mut self, call: Call<'_>, told: &mut String) -> Result<(), AllocError> {
        exchange(&mut self.a, &mut self.b, turn_of(call, false), told)?;
        put_turn(told, " a", &mut self.a)?;
        put_turn(told, " b", &mut self.b)
    }

    /// Goes through a turn, and writes the payloads on the air and why both ends end.
    fn show_turn(&mut self, call: Call<'_>, told: &mut String) -> Result<(), AllocError> {
        exchange(&mut self.a, &mut self.b, turn_of(call, true), told)?;
        put_end(told, " a", &mut self.a)?;
        put_end(told, " b", &mut self.b)
    }

    /// A new link takes the place of this one, and goes on until encryption came this far.
    pub fn come(&mut self, phase: &str, told: &mut String) -> Result<(), AllocError> {
        self.begin_again()?;
        let last = slot_in(phase);
        for slot in SLOTS {
            if slot < last {
                self.go_through(slot, phase, told)?;
            }
        }
        Ok(())
    }

    /// Goes through the event with the anchor in this slot. The host of the central asks for an
    /// encryption in event 1, and for another one in event 5.
    fn go_through(&mut self, slot: u32, phase: &str, told: &mut String) -> Result<(), AllocError> {
        match slot {
            26 => self.a.ask(ask_named("encrypt")),
            122 => self.a.ask(ask_named("other")),
            _ => {}
        }
        exchange(&mut self.a, &mut self.b, plain_turn(slot), told)?;
        exchange(
            &mut self.a,
            &mut self.b,
            plain_turn(slot.saturating_add(1)),
            told,
        )?;
        if slot == 26 && phase != "asked" {
            self.b.key(Some(LTK), 27);
        }
        Ok(())
    }

    /// Writes for each packet whether an end goes on after it, or why it ends.
    fn take_each(
        &mut self,
        call: Call<'_>,
        by_a: bool,
        told: &mut String,
    ) -> Result<(), AllocError> {
        for word in call.words {
            if !word.is_empty() {
                self.take_one(call.name, word, by_a, told)?;
            }
        }
        Ok(())
    }

    /// Writes whether an end goes on after a packet, in a link that came this far, or why it ends.
    fn take_one(
        &mut self,
        phase: &str,
        word: &str,
        by_a: bool,
        told: &mut String,
    ) -> Result<(), AllocError> {
        self.come(phase, told)?;
        let (first, second) = if by_a { ("", word) } else { (word, "") };
        let turn = Turn {
            slot: slot_in(phase),
            first,
            second,
            shows: false,
        };
        exchange(&mut self.a, &mut self.b, turn, told)?;
        let end = if by_a { &mut self.a } else { &mut self.b };
        match end.end_turn() {
            None => told.push_str(" ok"),
            Some(code) => put_octets(told, &[code.0]),
        }
    }
}

/// The slots of the anchors before event 9.
const SLOTS: [u32; 9] = [2, 26, 50, 74, 98, 122, 146, 170, 194];

/// The slot of the next anchor once a link has come this far: nothing was asked; the peripheral
/// took LL_ENC_REQ, and has no key yet, or has it; the central took LL_START_ENC_REQ; both are in Secure; the peripheral
/// took LL_PAUSE_ENC_REQ; the central took LL_PAUSE_ENC_RSP; the peripheral did; or it took the
/// LL_ENC_REQ after the pause.
fn slot_in(phase: &str) -> u32
    ensures { result < 1000 }
{
    match phase {
        "clear" => 26,
        "asked" | "keyed" => 50,
        "started" => 74,
        "secure" => 122,
        "pausing" => 146,
        "paused" => 170,
        "half_clear" => 194,
        _ => 218,
    }
}

/// A turn: its slot, what arrives in place of each packet, and whether their payloads are written.
#[derive(Clone, Copy)]
struct Turn<'a> {
    slot: u32,
    first: &'a str,
    second: &'a str,
    shows: bool,
}

/// The turn of a call.
fn turn_of<'a>(call: Call<'a>, shows: bool) -> Turn<'a> {
    let [first, second, ..] = call.words;
    Turn {
        slot: slot(call.name),
        first,
        second,
        shows,
    }
}

/// A turn in which each packet arrives.
fn plain_turn(slot: u32) -> Turn<'static> {
    Turn {
        slot,
        first: "",
        second: "",
        shows: false,
    }
}

/// Both ends enter their events, and A sends. B hears it, unless that is lost, and may answer.
fn exchange(a: &mut End, b: &mut End, turn: Turn<'_>, told: &mut String) -> Result<(), AllocError> {
    a.begin_turn(turn.slot);
    b.begin_turn(turn.slot);
    if !a.is_in(turn.slot) {
        return Ok(());
    }
    send(a, b, turn, turn.first, told)?;
    if b.replies() {
        send(b, a, turn, turn.second, told)?;
    }
    Ok(())
}

/// An end sends, and the other one hears it, or what arrives in its place.
fn send(
    from: &mut End,
    to: &mut End,
    turn: Turn<'_>,
    way: &str,
    told: &mut String,
) -> Result<(), AllocError> {
    let packet = from.send(turn.slot);
    if way != "x" && to.is_in(turn.slot) {
        hear(to, packet.as_slice(), way, turn.slot, told);
    }
    if turn.shows {
        put_payload(told, from, packet.as_slice())?;
    }
    Ok(())
}

/// Writes what an end noted in a turn, what came of the packet that it took, and for what reason it
/// ends.
fn put_turn(told: &mut String, name: &str, end: &mut End) -> Result<(), AllocError> {
    told.push_str(name)?;
    put_notes(told, &end.out)?;
    put_effect(told, end.effect())?;
    put_effect(told, end.kept_effect())?;
    put_reason(told, end.end_turn())
}

/// Writes for what reason an end ends in a turn.
fn put_end(told: &mut String, name: &str, end: &mut End) -> Result<(), AllocError> {
    told.push_str(name)?;
    put_reason(told, end.end_turn())
}

/// Writes what a PDU reports to the host: the most octets that are received and transmitted, or the
/// intervals that the peer requests.
fn put_effect(told: &mut String, effect: Effect) -> Result<(), AllocError> {
    match effect {
        Effect::Lengths { rx, tx } => {
            put_numbers(told, " lengths", u64::from(rx), u64::from(tx))
        }
        Effect::AskHost { min, max, .. } => {
            put_numbers(told, " requests", u64::from(min), u64::from(max))
        }
        _ => Ok(()),
    }
}
