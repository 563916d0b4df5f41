//! Scripts: calls on the open links of three controllers, each with what it gives.
ghost use Rattle.std.specs.Prelude.{◌<◌, ◌^◌};

use crate::hosts::{ask_named, code_of, few_channels, update};
use crate::setups::{sample_setup, setup};
use crate::sides::Side;
use ble_base::{Role, SlotNo};
use std::alloc::{AllocError, Global};
use std::process::Abort;
use test_words::{
    Call, TakesCalls, first_wrong, number, octet, octets_of, put_number, put_octets, slot,
};

/// Octets that one buffer does not hold.
const LONG: [u8; 252] = [7; 252];

/// Three controllers, and the packet that was sent last.
#[derive(Drop)]
struct Scene {
    sides: Vec<Side>,
    air: Vec<u8>,
}

/// Each line has a call, and after " =" what it gives. No link is open before the first line, nor
/// after a line "new". A line that begins with "#" says what follows.
pub(crate) fn check(rt: &impl Abort, alloc: Global, script: &str) -> Result<(), AllocError> {
    let mut scene = Scene {
        sides: Vec::new(alloc),
        air: Vec::new(alloc),
    };
    scene.begin()?;
    let wrong = first_wrong(&mut scene, alloc, script)?;
    assert_eq!(rt; wrong.as_str(), "");
    Ok(())
}

impl TakesCalls for Scene {
    /// Makes a call, and writes what it gives.
    fn take(&mut self, side: &str, call: Call<'_>, told: &mut String) -> Result<(), AllocError> {
        match side {
            "a" => self.on_side(0, call, told),
            "b" => self.on_side(1, call, told),
            "c" => self.on_side(2, call, told),
            "new" => self.begin(),
            "#" => Ok(()),
            _ => told.push_str(" which controller?"),
        }
    }
}

impl Scene {
    /// No link is open.
    fn begin(&mut self) -> Result<(), AllocError> {
        self.air.clear();
        self.sides.clear();
        for _ in 0..3 {
            let side = Side::start(*self.sides.allocator())?;
            self.sides.push(side)?;
        }
        Ok(())
    }

    /// Makes a call on the controller at this place.
    fn on_side(
        &mut self,
        place: usize,
        call: Call<'_>,
        told: &mut String,
    ) -> Result<(), AllocError> {
        match self.sides.as_mut_slice().get_mut(place) {
            Some(side) => side.on_air(call, &mut self.air, told),
            None => told.push_str(" which controller?"),
        }
    }
}

impl Side {
    /// Makes a call that has to do with the radio.
    fn on_air(
        &mut self,
        call: Call<'_>,
        air: &mut Vec<u8>,
        told: &mut String,
    ) -> Result<(), AllocError> {
        let [first, second, ..] = call.words;
        match call.name {
            "enter" => self.enter(slot(first), told),
            "send" => self.send(number(first), slot(second), air, told),
            "hear" => self.hear(number(first), slot(second), air.as_slice(), told),
            "judge" => self.judge(number(first), air.as_slice(), told),
            "flip" => flip(air, number(first)),
            "air" => put_octets(told, air.as_slice()),
            _ => self.off_air(call, told),
        }
    }

    /// Makes another call.
    fn off_air(&mut self, call: Call<'_>, told: &mut String) -> Result<(), AllocError> {
        let [first, second, ..] = call.words;
        match call.name {
            "central" => self.begin(Role::Central, call.words),
            "peripheral" => self.begin(Role::Peripheral, call.words),
            "sample" => self.open(sample_setup(first == "two", second == "nine"), 0),
            "channels" => self.channels(number(first), told),
            _ => self.with_host(call, told),
        }
    }

    /// Opens a link: handle, slot, peer and latency.
    fn begin(&mut self, role: Role, words: [&str; 8]) -> Result<(), AllocError> {
        let [handle, opened, peer, latency, ..] = words;
        let setup = setup(role, number(handle), octet(peer), number(latency));
        self.open(setup, slot(opened))
    }

    /// Makes a call that has to do with the data of the host, or with the end of a link.
    fn with_host(&mut self, call: Call<'_>, told: &mut String) -> Result<(), AllocError> {
        let [first, second, ..] = call.words;
        match call.name {
            "give" => self.give_octets(number(first), second, told),
            "report" => self.report(told),
            "receive" => self.hand_up(told),
            "shut_all" => self.shut_all(told),
            "shut_due" => self.shut_due(slot(first), told),
            "shut_ended" => self.shut_ended(told),
            _ => self.act(call, told),
        }
    }

    /// Makes a call that gives nothing.
    fn act(&mut self, call: Call<'_>, told: &mut String) -> Result<(), AllocError> {
        let [first, second, third, ..] = call.words;
        let handle = number(first);
        match call.name {
            "serve" => self.links.serve(handle, slot_no(second)),
            "shut" => self.links.shut(handle),
            "ask" => self.links.ask(handle, ask_named(second)),
            "ask_map" => self.links.ask_map(few_channels()),
            "grant" => self.links.answer(handle, Ok(update())),
            "refuse" => self.links.answer(handle, Err(code_of(told, second))),
            "end" => self
                .links
                .end(handle, code_of(told, second), slot_no(third)),
            _ => return self.look(call, told),
        }
        Ok(())
    }

    /// Writes what is known of links.
    fn look(&self, call: Call<'_>, told: &mut String) -> Result<(), AllocError> {
        let [first, second, ..] = call.words;
        match call.name {
            "peer" => self.peer(number(first), told),
            "shape" => self.shape(number(first), told),
            "free" => self.free_handle(told),
            "between" => self.is_between(octet(first), octet(second), told),
            "places" => put_number(told, u64::from(self.links.places())),
            "may_ask" | "awaits_host" | "has_entered" | "has" => self.ask_whether(call, told),
            _ => told.push_str(" which call?"),
        }
    }

    /// The host gives these octets, or the 251 that a buffer holds, or 252.
    fn give_octets(
        &mut self,
        handle: u16,
        word: &str,
        told: &mut String,
    ) -> Result<(), AllocError> {
        if word == "most" {
            return self.give(handle, &LONG[..251], told);
        }
        if word == "long" {
            return self.give(handle, &LONG, told);
        }
        let body = octets_of(*told.allocator(), word);
        self.give(handle, body.as_slice(), told)
    }
}

/// The slot that a word spells.
fn slot_no(word: &str) -> SlotNo
    ensures { result.0 < 2 ^ 32 }
{
    SlotNo(u64::from(slot(word)))
}

/// Changes the least significant bit of an octet of a packet.
fn flip(packet: &mut Vec<u8>, place: u16) -> Result<(), AllocError> {
    if let Some(octet) = packet.as_mut_slice().get_mut(usize::from(place)) {
        *octet ^= 1;
    }
    Ok(())
}
