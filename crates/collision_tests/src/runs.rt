//! Runs of two hosts that are drawn from a number: what they send, the schedule, and the lines on
//! procedures that the plain second writing expects.
use crate::commands::{
    ADVERTISE, ALL_EVENTS, Asking, CREATE_WITH_A, CREATE_WITH_B, GRANT, GRANTED, NO_REQUEST,
    REFUSE, REFUSED, map, phy, request, update,
};
use crate::ends::End;
use crate::journals::{put_shown, put_turn, put_word};
use crate::links::{Link, Loss};
use crate::pdus::Kind;
use outside::{MemFiles, MemSink};
use program::run_words;
use std::alloc::{AllocError, Global};
use std::process::Abort;

/// The first three lines of a schedule.
const SIDES: &str = "ble-schedule 1
side a c0ffee00000a 71764129 0000000000000001
side b c0ffee00000b 71764129 0000000000000002
";

/// The runs, and the turns of each: in the first of them the hosts ask for procedures.
const RUNS: u32 = 150;

const TURNS: u32 = 120;

const ASKING_TURNS: u32 = 80;

/// A run as it is drawn.
#[derive(Drop)]
struct Run {
    state: u32,
    maps: u32,
    link: Link,
    was_lost: bool,
    a: Vec<u8>,
    b: Vec<u8>,
    schedule: String,
    expected: String,
}

impl Run {
    /// A run with this number, whose hosts open a link.
    fn new(alloc: Global, number: u32) -> Result<Run, AllocError> {
        let mut run = Run {
            state: number,
            maps: 0,
            link: link_of(number),
            was_lost: false,
            a: Vec::new(alloc),
            b: Vec::new(alloc),
            schedule: String::new(alloc),
            expected: String::new(alloc),
        };
        run.open()?;
        Ok(run)
    }

    /// The hosts open the link in turn 0.
    fn open(&mut self) -> Result<(), AllocError> {
        self.schedule.push_str(SIDES)?;
        put_turn(&mut self.expected, 0)?;
        let events = if self.link.central.is_masked {
            NO_REQUEST
        } else {
            ALL_EVENTS
        };
        if self.link.central.side == "a" {
            self.feed_both(events, CREATE_WITH_B, ALL_EVENTS, ADVERTISE)
        } else {
            self.feed_both(ALL_EVENTS, ADVERTISE, events, CREATE_WITH_A)
        }
    }

    /// Both hosts send two texts each.
    fn feed_both(
        &mut self,
        first_of_a: &[u8],
        then_of_a: &[u8],
        first_of_b: &[u8],
        then_of_b: &[u8],
    ) -> Result<(), AllocError> {
        self.a.extend_from_slice(first_of_a)?;
        self.a.extend_from_slice(then_of_a)?;
        self.b.extend_from_slice(first_of_b)?;
        self.b.extend_from_slice(then_of_b)?;
        put_turn_line(&mut self.schedule, self.a.len(), self.b.len())?;
        self.schedule.push('\n')
    }

    /// The next number that is drawn.
    fn draw(&mut self) -> u32 {
        self.state = self
            .state
            .wrapping_mul(1_664_525)
            .wrapping_add(1_013_904_223);
        self.state / 65536
    }

    /// A turn after turn 0.
    fn turn(&mut self, turn: u32) -> Result<(), AllocError> {
        put_turn(&mut self.expected, turn)?;
        let central = self.central_host(turn);
        let peripheral = self.peripheral_host(turn);
        self.feed(central, peripheral)?;
        let loss = self.loss(turn);
        put_loss(&mut self.schedule, loss)?;
        self.link.turn(turn, loss, &mut self.expected)
    }

    /// The hosts send these octets.
    fn feed(&mut self, central: &[u8], peripheral: &[u8]) -> Result<(), AllocError> {
        let (a, b) = if self.link.central.side == "a" {
            (central, peripheral)
        } else {
            (peripheral, central)
        };
        self.a.extend_from_slice(a)?;
        self.b.extend_from_slice(b)?;
        put_turn_line(&mut self.schedule, a.len(), b.len())
    }

    /// Which packet of a turn is lost. After a loss the next exchange has none.
    fn loss(&mut self, turn: u32) -> Loss {
        if !self.link.is_heard(turn) {
            return Loss::None;
        }
        let loss = match self.draw() % 8 {
            0 => Loss::OfCentral,
            1 => Loss::OfPeripheral,
            _ => Loss::None,
        };
        let loss = if self.was_lost { Loss::None } else { loss };
        self.was_lost = !matches!(loss, Loss::None);
        loss
    }

    /// What the host of the central sends.
    fn central_host(&mut self, turn: u32) -> &'static [u8] {
        let draw = self.draw();
        if self.link.central.host_is_asked {
            self.answer(draw)
        } else if turn > ASKING_TURNS || draw % 6 != 0 {
            b""
        } else {
            self.ask_central(draw / 6)
        }
    }

    /// The host of the central answers a request, soon or later.
    fn answer(&mut self, draw: u32) -> &'static [u8] {
        match draw % 12 {
            0 => {
                self.link.central.grant(GRANTED);
                GRANT
            }
            1 => {
                self.link
                    .central
                    .refuse(crate::pdus::Kind::Request, REFUSED);
                REFUSE
            }
            _ => b"",
        }
    }

    /// The host of the central asks for a procedure.
    fn ask_central(&mut self, draw: u32) -> &'static [u8] {
        let asking = match draw % 3 {
            0 => update(draw / 3),
            1 => map(self.maps),
            _ => phy(),
        };
        if !self.link.central.may_ask(asking.first.kind) {
            return b"";
        }
        if draw % 3 == 1 {
            self.maps = self.maps.wrapping_add(1);
        }
        self.link.central.ask(asking.first);
        asking.octets
    }

    /// What the host of the peripheral sends.
    fn peripheral_host(&mut self, turn: u32) -> &'static [u8] {
        let draw = self.draw();
        if turn > ASKING_TURNS || draw % 6 != 0 {
            return b"";
        }
        let asking = peripheral_asking(draw / 6);
        if !self.link.peripheral.may_ask(asking.first.kind) {
            return b"";
        }
        self.link.peripheral.ask(asking.first);
        asking.octets
    }
}

/// What the host of a peripheral asks for.
fn peripheral_asking(draw: u32) -> Asking {
    if draw % 2 == 0 {
        request(draw / 2)
    } else {
        phy()
    }
}

/// The link of a run: A or B is the central, and in a quarter of the runs its host masks requests.
fn link_of(number: u32) -> Link {
    let is_masked = number % 4 == 3;
    if number % 2 == 0 {
        Link::new(End::new("a", true, is_masked), End::new("b", false, false))
    } else {
        Link::new(End::new("b", true, is_masked), End::new("a", false, false))
    }
}

/// Writes the first words of a turn.
fn put_turn_line(schedule: &mut String, a: usize, b: usize) -> Result<(), AllocError> {
    schedule.push_str("t ++")?;
    put_fed(schedule, " a", a)?;
    put_fed(schedule, " b", b)
}

/// Writes how many octets a host sends.
fn put_fed(schedule: &mut String, word: &str, octets: usize) -> Result<(), AllocError> {
    if octets == 0 {
        Ok(())
    } else {
        put_word(schedule, word, itoa::Buffer::new().format(octets))
    }
}

/// Writes what becomes of the packets of a turn.
fn put_loss(schedule: &mut String, loss: Loss) -> Result<(), AllocError> {
    schedule.push_str(match loss {
        Loss::None => "\n",
        Loss::OfCentral => " x\n",
        Loss::OfPeripheral => " . x\n",
    })
}

/// A run with this number.
fn drawn(alloc: Global, number: u32) -> Result<Run, AllocError> {
    let mut run = Run::new(alloc, number)?;
    for turn in 1..TURNS {
        run.turn(turn)?;
    }
    Ok(run)
}

/// The journal that the program writes.
fn journal_of(alloc: Global, run: &Run) -> Result<MemSink, AllocError> {
    let mut files = MemFiles::new(alloc);
    hold(&mut files, run)?;
    let words = words_of(alloc)?;
    Ok(called(alloc, &words, &mut files))
}

/// Calls the program over an empty output and an empty error stream.
fn called(alloc: Global, words: &Vec<String>, files: &mut MemFiles) -> MemSink {
    let mut out = MemSink::new(alloc);
    let mut err = MemSink::new(alloc);
    run_words(alloc, words, files, &mut out, &mut err);
    out
}

/// Holds the three files.
fn hold(files: &mut MemFiles, run: &Run) -> Result<(), AllocError> {
    files.hold("a.bin", run.a.as_slice())?;
    files.hold("b.bin", run.b.as_slice())?;
    files.hold("schedule", run.schedule.as_bytes())
}

/// The words of the call.
fn words_of(alloc: Global) -> Result<Vec<String>, AllocError> {
    let mut words = Vec::new(alloc);
    for word in ["pair", "a.bin", "b.bin", "schedule"] {
        words.push(String::from_str(alloc, word)?)?;
    }
    Ok(words)
}

/// The lines of the program on procedures.
fn shown(alloc: Global, run: &Run) -> Result<String, AllocError> {
    let out = journal_of(alloc, run)?;
    let mut lines = String::new(alloc);
    put_shown(&mut lines, std::str::from_utf8(out.octets()).unwrap_or(""))?;
    Ok(lines)
}

/// Compares the run of a number: how many rejections it has.
fn compare(rt: &impl Abort, alloc: Global, number: u32) -> Result<u32, AllocError> {
    let run = drawn(alloc, number)?;
    let lines = shown(alloc, &run)?;
    compare_lines(rt, number, lines.as_str(), run.expected.as_str());
    Ok(rejections(lines.as_str()))
}

/// The number of turns with a further line.
fn turns_with(turns: u32, line: &str) -> u32 {
    if line.starts_with("turn ") {
        turns.saturating_add(1)
    } else {
        turns
    }
}

/// Compares the lines of a run, turn by turn. The first turn is number 1.
fn compare_lines(rt: &impl Abort, number: u32, journal: &str, expected: &str) {
    let mut turns: u32 = 0;
    let mut lines = expected.lines();
    for line in journal.lines() {
        turns = turns_with(turns, line);
        assert_eq!(rt;
            line,
            lines.next().unwrap_or("no line"),
            "run {number}, in its turn {turns}"
        );
    }
    assert!(rt; lines.next().is_none(), "run {number} has too few lines");
}

/// How many procedures are refused in a journal.
fn rejections(journal: &str) -> u32 {
    let mut count: u32 = 0;
    for line in journal.lines() {
        if line.starts_with("refused ") {
            count = count.saturating_add(1);
        }
    }
    count
}

#[test]
fn runs_are_as_in_a_second_writing(rt: HostRuntime) -> Result<(), AllocError> {
    let mut count: u32 = 0;
    for number in 0..RUNS {
        count = count.saturating_add(compare(&rt, rt.alloc(), number)?);
    }
    assert!(rt; count > RUNS, "{count} procedures are refused");
    Ok(())
}
