//! Runs of two hosts that are drawn from a number: what they send, the schedule, and the lines that
//! the plain second writing expects.
ghost use Rattle.std.specs.Prelude.{◌≤◌, length};

use crate::commands::{
    ADVERTISE, ADVERTISE_NO_MORE, CANCEL, RESET, SCAN, SCAN_NO_MORE, put_create,
};
use crate::journals::put_shown;
use crate::links::Timing;
use crate::pairs::Pair;
use crate::words::put_words;
use journal::write_lines;
use pair_world::{Journal, Octets, Schedule, run_pair};
use std::alloc::{AllocError, Global};
use std::process::Abort;
use test_words::put_number;

/// The first three lines of a schedule. The access addresses of the links of A and of B are apart, or
/// the same in order.
const APART: &str = "ble-schedule 1
side a c0ffee00000a 71764129 0000000000000001
side b c0ffee00000b 2b4d6f81 0000000000000002
";

const SHARED: &str = "ble-schedule 1
side a c0ffee00000a 71764129 0000000000000001
side b c0ffee00000b 71764129 0000000000000002
";

/// The runs, and the turns of each.
const RUNS: u32 = 40;

const TURNS: u32 = 400;

/// A run as it is drawn.
#[derive(Drop)]
struct Run {
    state: u32,
    pair: Pair,
    /// How many links the hosts asked for.
    asked: u32,
    a: Vec<u8>,
    b: Vec<u8>,
    schedule: String,
    expected: String,
    /// In how many turns three links were open at one side.
    full: u32,
}

impl Run {
    /// A run with this number, before its first turn.
    fn new(alloc: Global, number: u32) -> Result<Run, AllocError> {
        let shares_addresses = number % 2 == 1;
        let mut run = Run {
            state: number,
            pair: Pair::new(shares_addresses, Vec::new(alloc)),
            asked: 0,
            a: Vec::new(alloc),
            b: Vec::new(alloc),
            schedule: String::new(alloc),
            expected: String::new(alloc),
            full: 0,
        };
        run.schedule
            .push_str(if shares_addresses { SHARED } else { APART })?;
        Ok(run)
    }

    /// The next number that is drawn.
    fn draw(&mut self) -> u32 {
        self.state = self
            .state
            .wrapping_mul(1_664_525)
            .wrapping_add(1_013_904_223);
        self.state / 65536
    }

    /// Whether something comes about that comes about once in so many turns.
    fn comes(&mut self, turns: u32) -> bool {
        let draw = self.draw();
        draw.checked_rem(turns) == Some(0)
    }

    /// A turn.
    fn turn(&mut self, slot: u32) -> Result<(), AllocError> {
        let radios = (!self.comes(16), !self.comes(16));
        put_turn(&mut self.expected, slot, radios)?;
        let (fed_a, fed_b) = (self.a.len(), self.b.len());
        self.hosts(slot)?;
        put_radios(&mut self.schedule, radios)?;
        put_fed(&mut self.schedule, " a", self.a.len().saturating_sub(fed_a))?;
        put_fed(&mut self.schedule, " b", self.b.len().saturating_sub(fed_b))?;
        let losses = [self.comes(6), self.comes(6), self.comes(6)];
        put_losses(&mut self.schedule, losses)?;
        if self.pair.a.open_links() == 3 || self.pair.b.open_links() == 3 {
            self.full = self.full.saturating_add(1);
        }
        self.pair.turn(slot, radios, losses, &mut self.expected)
    }

    /// What one of the hosts does before a turn, if it does something.
    fn hosts(&mut self, slot: u32) -> Result<(), AllocError> {
        let is_a = self.comes(2);
        if self.comes(150) {
            self.reset(is_a)
        } else if self.comes(30) {
            self.give_up(is_a)
        } else if self.comes(5) {
            self.ask(is_a, slot)
        } else if self.comes(10) {
            self.scan(is_a, slot)
        } else {
            Ok(())
        }
    }

    /// The octets of a host.
    fn host(&mut self, is_a: bool) -> &mut Vec<u8> {
        if is_a { &mut self.a } else { &mut self.b }
    }

    fn send(&mut self, is_a: bool, octets: &[u8]) -> Result<(), AllocError> {
        self.host(is_a).extend_from_slice(octets)
    }

    /// A host resets its controller.
    fn reset(&mut self, is_a: bool) -> Result<(), AllocError> {
        self.send(is_a, RESET)?;
        if is_a {
            self.pair.a.reset(&mut self.expected)
        } else {
            self.pair.b.reset(&mut self.expected)
        }
    }

    /// A host turns its initiator or its advertiser off.
    fn give_up(&mut self, is_a: bool) -> Result<(), AllocError> {
        if self.pair.side(is_a).initiates.is_some() {
            self.pair.side(is_a).initiates = None;
            self.send(is_a, CANCEL)
        } else if self.pair.side(is_a).advertises.is_some() {
            self.pair.side(is_a).advertise_no_more();
            self.send(is_a, ADVERTISE_NO_MORE)
        } else {
            Ok(())
        }
    }

    /// A host turns its scanner on or off.
    fn scan(&mut self, is_a: bool, slot: u32) -> Result<(), AllocError> {
        if self.pair.side(is_a).initiates.is_some() {
            Ok(())
        } else if self.pair.side(is_a).scans.is_some() {
            self.scan_no_more(is_a)
        } else {
            self.pair.side(is_a).scans = Some(slot);
            self.send(is_a, SCAN)
        }
    }

    fn scan_no_more(&mut self, is_a: bool) -> Result<(), AllocError> {
        if self.pair.side(is_a).scans.is_some() {
            self.pair.side(is_a).scans = None;
            self.send(is_a, SCAN_NO_MORE)
        } else {
            Ok(())
        }
    }

    /// A host asks for a link, where there is room for it at both sides, and the other one
    /// advertises.
    fn ask(&mut self, is_a: bool, slot: u32) -> Result<(), AllocError> {
        if !self.may_ask(is_a) {
            return Ok(());
        }
        let timing = self.timing();
        self.scan_no_more(is_a)?;
        self.asked = self.asked.saturating_add(1);
        let (number, peer) = (self.asked, if is_a { 0x0B } else { 0x0A });
        put_create(self.host(is_a), number, peer, timing)?;
        self.pair.side(is_a).initiates = Some((slot, timing));
        if self.pair.side(!is_a).advertises.is_none() {
            self.pair.side(!is_a).advertises = Some(slot);
            self.send(!is_a, ADVERTISE)?;
        }
        Ok(())
    }

    /// Whether a host may ask for a link: nobody does, its own side does not advertise and has room,
    /// and the other one has room or advertises already.
    fn may_ask(&mut self, is_a: bool) -> bool {
        let own = *self.pair.side(is_a);
        let other = *self.pair.side(!is_a);
        own.initiates.is_none()
            && other.initiates.is_none()
            && own.advertises.is_none()
            && own.open_links() < 3
            && (other.advertises.is_some() || other.open_links() < 3)
    }

    /// The parameters of a new link.
    fn timing(&mut self) -> Timing {
        let draw = self.draw();
        let interval = match draw % 4 {
            0 => 6,
            1 => 8,
            2 => 12,
            _ => 24,
        };
        Timing {
            interval,
            latency: draw / 4 % 3,
            timeout: 20,
        }
    }
}

/// Writes the line of a turn.
fn put_turn(told: &mut String, slot: u32, (a_on, b_on): (bool, bool)) -> Result<(), AllocError> {
    told.push_str("turn")?;
    put_number(told, u64::from(slot))?;
    put_words(told, &[" ", sign(a_on), sign(b_on), "\n"])
}

/// Writes which radios are on in a turn.
fn put_radios(schedule: &mut String, (a_on, b_on): (bool, bool)) -> Result<(), AllocError> {
    put_words(schedule, &["t ", sign(a_on), sign(b_on)])
}

fn sign(is_on: bool) -> &'static str {
    if is_on { "+" } else { "-" }
}

/// Writes how many octets a host sends.
fn put_fed(schedule: &mut String, word: &str, octets: usize) -> Result<(), AllocError> {
    if octets == 0 {
        return Ok(());
    }
    put_words(schedule, &[word, itoa::Buffer::new().format(octets)])
}

/// Writes what becomes of the packets of a turn.
fn put_losses(schedule: &mut String, losses: [bool; 3]) -> Result<(), AllocError> {
    for is_lost in losses.as_slice() {
        schedule.push_str(if *is_lost { " x" } else { " ." })?;
    }
    schedule.push('\n')
}

/// A run with this number.
fn drawn(alloc: Global, number: u32) -> Result<Run, AllocError> {
    let mut run = Run::new(alloc, number)?;
    for slot in 0..TURNS {
        run.turn(slot)?;
    }
    Ok(run)
}

/// The journal of a run. Where its schedule cannot be read, or damage ends the run, it is empty.
fn journal_of(alloc: Global, run: &Run) -> Journal {
    match Schedule::read(alloc, run.schedule.as_bytes()) {
        Ok(schedule) => journal_by(alloc, run, &schedule),
        Err(_) => Journal::new(alloc),
    }
}

/// The journal of a run by its schedule.
fn journal_by(alloc: Global, run: &Run, schedule: &Schedule) -> Journal
    requires a { 1 ≤ length schedule.now.a.words.items }
    requires b { 1 ≤ length schedule.now.b.words.items }
{
    match run_pair(alloc, run.a.as_slice(), run.b.as_slice(), schedule) {
        Ok(journal) => journal,
        Err(_) => Journal::new(alloc),
    }
}

/// The lines of the journal of a run.
fn lines_of(alloc: Global, run: &Run) -> Result<Octets, AllocError> {
    let journal = journal_of(alloc, run);
    write_lines(alloc, journal.as_slice())
}

/// Compares the run of a number: in how many turns more than one link of a side wanted the radio, and
/// in how many three links were open.
fn compare(rt: &impl Abort, alloc: Global, number: u32) -> Result<(u32, u32), AllocError> {
    let run = drawn(alloc, number)?;
    let journal = lines_of(alloc, &run)?;
    let mut lines = String::new(alloc);
    put_shown(
        &mut lines,
        std::str::from_utf8(journal.as_slice()).unwrap_or(""),
    )?;
    compare_lines(rt, number, lines.as_str(), run.expected.as_str());
    let contests = run.pair.a.contests.saturating_add(run.pair.b.contests);
    Ok((contests, run.full))
}

/// Compares the lines of a run. The first line is number 1.
fn compare_lines(rt: &impl Abort, number: u32, journal: &str, expected: &str) {
    let mut place: u32 = 0;
    let mut lines = expected.lines();
    for line in journal.lines() {
        place = place.saturating_add(1);
        assert_eq!(rt;
            line,
            lines.next().unwrap_or("no line"),
            "run {number}, its line {place}"
        );
    }
    assert!(rt; lines.next().is_none(), "run {number} has too few lines");
}

#[test]
fn slots_are_shared_as_in_a_second_writing(rt: HostRuntime) -> Result<(), AllocError> {
    let mut contests: u32 = 0;
    let mut full: u32 = 0;
    for number in 0..RUNS {
        let (more_contests, more_full) = compare(&rt, rt.alloc(), number)?;
        contests = contests.saturating_add(more_contests);
        full = full.saturating_add(more_full);
    }
    assert!(rt; contests > RUNS, "{contests} slots are wanted by two links");
    assert!(rt; full > RUNS, "three links are open in {full} turns");
    Ok(())
}
