//! Schedules, reading their text, and their turns.
ghost use Rattle.std.specs.Prelude.{◌≡◌, ◌≤◌, ◌<◌, ◌^◌, Ok, Err, Some, IfOk, IfErr, IfSome, OnOk, [], length, slice_get, drop};
ghost use Rattle.std.specs.List.{All};
ghost use Rattle.std.specs.Option.{option_map};
ghost use Rattle.radio_replay.specs.Schedule.{Right, Wrong, TooMany, Outside, PastLimit, checked_line, read_settings, schedule_of, turns_from, with_line, IsFault, IsLineFault};
ghost use Rattle.radio_replay.specs.Script.{CanBeFed, fate_of};
ghost use Rattle.line_words.specs.Text.{words_of};
ghost use Rattle.radio_replay.specs.TurnLine.{line_in, line_turns};

use crate::fates::Fate;
use crate::faults::ScheduleFault;
use crate::limits::MOST_TURNS;
use crate::lines::{Line, read_line};
use crate::side_lines::read_config_in_line;
use crate::turns::KeptTurn;
use ble_base::{Config, Side};
use line_words::Lines;
use std::alloc::Global;
use std::marker::Model;

/// The schedule of a run (our choice): the settings of both controllers, and the turns in order. It
/// keeps the allocator that it was made with.
#[derive(Debug, Drop)]
pub struct Schedule {
    /// The settings of A.
    pub a: Config,
    /// The settings of B.
    pub b: Config,
    turns: Vec<KeptTurn>,
}

impl Model for Schedule {
    ghost use Rattle.std.specs.Prelude.{◌≤◌, length};
    ghost use Rattle.radio_replay.specs.declared.limits.TheConstants.{MOST_TURNS};
    ghost use Rattle.radio_replay.specs.Script.{Script};

    ghost Value = { Script };

    ghost view = { λ schedule.
        record { a = schedule.a; b = schedule.b; turns = schedule.turns.items } };

    ghost invariant = { λ schedule. length schedule.turns.items ≤ MOST_TURNS };
}

/// The line with this number, if it is in the grammar and there is room for its turns after `turns`
/// turns. The fault is never out of memory.
fn checked_line(line: Option<Line>, turns: usize, number: u32) -> Result<Line, ScheduleFault>
    requires { turns < 2 ^ 63 }
    ensures { result ≡ checked_line line turns number }
{
    let Some(line) = line else {
        return Err(ScheduleFault::BadLine(number));
    };
    if turns + line.count() > MOST_TURNS {
        return Err(ScheduleFault::TooLong(number));
    }
    Ok(line)
}

/// Adds the turns of the line with this number.
fn add_line(
    alloc: Global,
    turns: &mut Vec<KeptTurn>,
    line: &[u8],
    number: u32,
) -> Result<(), ScheduleFault>
    ensures ok { OnOk result
        (with_line turns.old.items (option_map line_turns (line_in (words_of line.now)))
        ≡ Ok turns.new.items) }
    ensures err { IfErr result (IsLineFault number
        (with_line turns.old.items (option_map line_turns (line_in (words_of line.now))))) }
{
    let line = checked_line(read_line(alloc, line)?, turns.len(), number)?;
    line.add_to(alloc, turns)?;
    Ok(())
}

/// The turns of these lines, of which the first has the number 4.
fn read_turns(alloc: Global, mut lines: Lines<'_>) -> Result<Vec<KeptTurn>, ScheduleFault>
    ensures ok { IfOk result (λ turns. turns_from 4 [] lines.entry ≡ Ok turns.items) }
    ensures err { IfErr result (IsFault (λ line. turns_from 4 [] lines.entry ≡ Err (Outside, line))
        (λ line. turns_from 4 [] lines.entry ≡ Err (PastLimit, line))) }
{
    let mut turns = Vec::new(alloc);
    let mut number: u32 = 4;
    while let Some(line) = lines.next_line() {
        add_line(alloc, &mut turns, line, number)?;
        number = number.saturating_add(1);
    }
    Ok(turns)
}

/// The settings of A and of B in the first three of these lines. The fault is never out of memory.
#[tactic(auto, using(crate::proofs::Firsts::second_of, crate::proofs::Firsts::third_of, crate::proofs::Firsts::fourth_on))]
fn read_settings(lines: &mut Lines<'_>) -> Result<(Config, Config), ScheduleFault>
    ensures value { result ≡ read_settings lines.old }
    ensures rest { OnOk result (lines.new ≡ drop 3 lines.old) }
{
    if lines.next_line() != Some(b"ble-schedule 1".as_slice()) {
        return Err(ScheduleFault::BadLine(1));
    }
    let Some(a) = read_config_in_line(Side::A, lines.next_line()) else {
        return Err(ScheduleFault::BadLine(2));
    };
    let Some(b) = read_config_in_line(Side::B, lines.next_line()) else {
        return Err(ScheduleFault::BadLine(3));
    };
    Ok((a, b))
}

/// The schedule of a text.
fn read_text(alloc: Global, octets: &[u8]) -> Result<Schedule, ScheduleFault>
    ensures ok { IfOk result (λ schedule.
        schedule_of octets.now ≡ Right schedule.a schedule.b schedule.turns) }
    ensures err { IfErr result (IsFault (λ line. schedule_of octets.now ≡ Wrong line)
        (λ line. schedule_of octets.now ≡ TooMany line)) }
{
    let mut lines = Lines::of(octets);
    let (a, b) = read_settings(&mut lines)?;
    let turns = read_turns(alloc, lines)?;
    Ok(Schedule { a, b, turns })
}

impl Schedule {
    /// Reads the text of a schedule, in the grammar on the page of this crate.
    ///
    /// Errors: `BadLine` exactly if the first line at fault is outside the grammar, or is one of
    /// the first three and missing; `TooLong` exactly if it is the line with which there are more
    /// than 100,000 turns, each with the number of that line. `Memory` comes only from a refused
    /// allocation; the turns before a line at fault may ask for memory first, and so may the fates
    /// of that line.
    pub fn read(alloc: Global, octets: &[u8]) -> Result<Schedule, ScheduleFault>
        ensures ok { IfOk result (λ schedule.
            schedule_of octets.now ≡ Right schedule.a schedule.b schedule.turns) }
        ensures err { IfErr result (IsFault (λ line. schedule_of octets.now ≡ Wrong line)
            (λ line. schedule_of octets.now ≡ TooMany line)) }
        ensures limit { IfOk result (λ schedule. length schedule.turns ≤ MOST_TURNS) }
        ensures bounded { IfOk result (λ schedule. All CanBeFed schedule.turns) }
        ensures a_has_words { IfOk result (λ schedule. 1 ≤ length schedule.a.words.items) }
        ensures b_has_words { IfOk result (λ schedule. 1 ≤ length schedule.b.words.items) }
    {
        read_text(alloc, octets)
    }

    /// The number of turns.
    pub fn turns(&self) -> u32
        ensures count { result ≡ length self.now.turns }
        ensures limit { result ≤ MOST_TURNS }
    {
        self.turns.len() as u32
    }

    /// A turn, counted from 0.
    fn turn(&self, turn: u32) -> &KeptTurn
        requires { turn < length self.now.turns }
        ensures { slice_get self.now.turns turn ≡ Some result.now }
    {
        &self.turns[turn as usize]
    }

    /// Whether the radio of A is on in a turn, counted from 0.
    pub fn a_on(&self, turn: u32) -> bool
        requires { turn < length self.now.turns }
        ensures { IfSome (slice_get self.now.turns turn) (λ t. result ≡ t.a_on) }
    {
        self.turn(turn).a_on
    }

    /// Whether the radio of B is on in a turn, counted from 0.
    pub fn b_on(&self, turn: u32) -> bool
        requires { turn < length self.now.turns }
        ensures { IfSome (slice_get self.now.turns turn) (λ t. result ≡ t.b_on) }
    {
        self.turn(turn).b_on
    }

    /// The number of octets of its host's stream that A is fed in a turn, counted from 0; 0 if it
    /// is fed nothing. A stream with fewer octets left gives those.
    pub fn feed_a(&self, turn: u32) -> u32
        requires { turn < length self.now.turns }
        ensures { IfSome (slice_get self.now.turns turn) (λ t. result ≡ t.feed_a) }
    {
        self.turn(turn).feed_a
    }

    /// The number of octets of its host's stream that B is fed in a turn, counted from 0; 0 if it
    /// is fed nothing. A stream with fewer octets left gives those.
    pub fn feed_b(&self, turn: u32) -> u32
        requires { turn < length self.now.turns }
        ensures { IfSome (slice_get self.now.turns turn) (λ t. result ≡ t.feed_b) }
    {
        self.turn(turn).feed_b
    }

    /// The fate of a packet of a turn, both counted from 0. A packet past the fates of its turn
    /// passes.
    pub fn fate(&self, turn: u32, packet: u32) -> Fate
        requires { turn < length self.now.turns }
        ensures { IfSome (slice_get self.now.turns turn) (λ t. result ≡ fate_of t packet) }
    {
        self.turn(turn).fate(packet)
    }
}
