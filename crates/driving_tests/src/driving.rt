//! Two controllers of three links between their hosts and a radio, driven turn by turn by their
//! public calls.
ghost use Rattle.std.specs.Prelude.{◌≤◌, ◌<◌, length};

use crate::lines::Lines;
use arrayvec::ArrayVec;
use ble_base::{AIR_PACKET_OCTETS, Config, Outbox, Side, SlotNo, Verdict};
use controller::{Controller, Intent};
use journal::Entry;
use radio_replay::{Fate, Schedule};
use std::alloc::{AllocError, Global};

/// What two hosts send, and the journal with which the notes of the controllers are compared.
#[derive(Clone, Copy)]
pub(crate) struct Given<'s> {
    pub(crate) a: &'s [u8],
    pub(crate) b: &'s [u8],
    pub(crate) entries: &'s [Entry],
}

/// One side: its controller, what that wants of the radio, the octets of its host that are not fed
/// yet, and its lines.
#[derive(Drop)]
struct Station<'s> {
    controller: Controller<3, 8, 8>,
    intent: Intent,
    unfed: &'s [u8],
    lines: Lines<'s>,
    /// Whether all notes so far are those of its lines.
    is_same: bool,
}

impl<'s> Station<'s> {
    /// A station whose controller starts with these settings.
    fn start(
        alloc: Global,
        config: Config,
        unfed: &'s [u8],
        lines: Lines<'s>,
    ) -> Result<Self, AllocError>
        requires { 1 ≤ length config.words.items }
    {
        Ok(Station {
            controller: Controller::start(alloc, config)?,
            intent: Intent::Idle,
            unfed,
            lines,
            is_same: true,
        })
    }

    /// The controller noted this.
    fn note(&mut self, out: &Outbox) {
        self.is_same = self.lines.say(out) && self.is_same;
    }

    /// The host sends this many octets, or as many as are left.
    fn feed(&mut self, count: u32) {
        let (octets, unfed) = self.unfed.split_at(self.unfed.len().min(count as usize));
        self.unfed = unfed;
        for octet in octets {
            let mut out = Outbox::new();
            self.controller.host_octet(*octet, &mut out);
            self.note(&out);
        }
    }

    /// A turn begins.
    fn begin(&mut self, turn: u32, radio_on: bool) {
        let slot = SlotNo(u64::from(turn));
        if self.controller.may_begin(slot) {
            let mut out = Outbox::new();
            self.intent = self.controller.begin_turn(slot, radio_on, &mut out);
            self.note(&out);
        } else {
            self.is_same = false;
        }
    }

    /// Whether it listens on a channel.
    fn listens_on(&self, channel: u8) -> bool {
        match &self.intent {
            Intent::Listen { channel: own } => *own == channel,
            Intent::Send { .. } | Intent::Idle => false,
        }
    }

    /// It takes what reached it in a phase, if anything did.
    fn take(&mut self, heard: Option<&[u8]>) {
        let mut out = Outbox::new();
        self.intent = match heard {
            None => self.controller.unheard(&mut out),
            Some(octets) => self.controller.heard(octets, &mut out),
        };
        self.note(&out);
    }

    /// The turn ends.
    fn end(&mut self) {
        let mut out = Outbox::new();
        self.controller.end_turn(&mut out);
        self.note(&out);
    }
}

/// What a listener takes of the packet that a sender wants to send, if it wants to: a packet that is
/// not lost, on the channel of the listener, which judges it good or forged. It counts the packets of
/// the turn.
fn taken(
    sender: &Station<'_>,
    listener: &Station<'_>,
    schedule: &Schedule,
    turn: u32,
    packets: &mut u32,
) -> Option<ArrayVec<u8, AIR_PACKET_OCTETS>>
    requires { turn < length schedule.now.turns }
{
    let Intent::Send { channel, octets } = &sender.intent else {
        return None;
    };
    let fate = schedule.fate(turn, *packets);
    *packets = packets.saturating_add(1);
    if matches!(fate, Fate::Lost) || !listener.listens_on(*channel) {
        return None;
    }
    let mut heard = ArrayVec::new();
    let _ = heard.try_extend_from_slice(octets.as_slice());
    fate.damage_packet(heard.as_mut_slice());
    match listener.controller.judge(heard.as_slice()) {
        Verdict::Good | Verdict::Forged => Some(heard),
        Verdict::Missed | Verdict::Broken => None,
    }
}

/// The octets that were taken, if any were.
fn octets_of(taken: &Option<ArrayVec<u8, AIR_PACKET_OCTETS>>) -> Option<&[u8]> {
    match taken {
        None => None,
        Some(octets) => Some(octets.as_slice()),
    }
}

/// Both sides.
#[derive(Drop)]
struct Pair<'s> {
    a: Station<'s>,
    b: Station<'s>,
}

impl<'s> Pair<'s> {
    /// A phase of a turn: the packet of A is on the air before that of B.
    fn phase(&mut self, schedule: &Schedule, turn: u32, packets: &mut u32)
        requires { turn < length schedule.now.turns }
    {
        let to_b = taken(&self.a, &self.b, schedule, turn, packets);
        let to_a = taken(&self.b, &self.a, schedule, turn, packets);
        self.a.take(octets_of(&to_a));
        self.b.take(octets_of(&to_b));
    }

    /// A turn. It gives whether the notes of both were those of their lines.
    fn turn(&mut self, schedule: &Schedule, turn: u32) -> bool
        requires { turn < length schedule.now.turns }
    {
        self.a.feed(schedule.feed_a(turn));
        self.b.feed(schedule.feed_b(turn));
        self.a.begin(turn, schedule.a_on(turn));
        self.b.begin(turn, schedule.b_on(turn));
        let mut packets = 0;
        self.phase(schedule, turn, &mut packets);
        self.phase(schedule, turn, &mut packets);
        self.phase(schedule, turn, &mut packets);
        self.a.end();
        self.b.end();
        self.a.is_same && self.b.is_same
    }
}

/// The first turn in which the notes of two controllers are not their lines in the journal. Where
/// lines are left over it is the number of turns.
pub(crate) fn first_wrong(
    alloc: Global,
    given: Given<'_>,
    schedule: &Schedule,
) -> Result<Option<u32>, AllocError>
    requires a { 1 ≤ length schedule.now.a.words.items }
    requires b { 1 ≤ length schedule.now.b.words.items }
{
    let lines_a = Lines::new(Side::A, given.entries);
    let lines_b = Lines::new(Side::B, given.entries);
    let mut pair = Pair {
        a: Station::start(alloc, schedule.a.copy(), given.a, lines_a)?,
        b: Station::start(alloc, schedule.b.copy(), given.b, lines_b)?,
    };
    for turn in 0..schedule.turns() {
        if !pair.turn(schedule, turn) {
            return Ok(Some(turn));
        }
    }
    if pair.a.lines.are_over() && pair.b.lines.are_over() {
        Ok(None)
    } else {
        Ok(Some(schedule.turns()))
    }
}
