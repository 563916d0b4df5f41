//! Runs of the program at the limits of its words, its files and its blocks.
use crate::calls::{Run, check_run};
use std::alloc::{AllocError, Global};
use std::test::Fail;

/// The host of an advertiser that answers scanners: its parameters, of type 2, and then on.
const ADVERTISE: &[u8] =
    b"\x01\x06\x20\x0f\x20\x00\x20\x00\x02\x00\x00\x00\x00\x00\x00\x00\x00\x07\x00\
    \x01\x0a\x20\x01\x01";

/// The host of an active scanner: an event mask with the LE events, the parameters, and then on.
const SCAN: &[u8] = b"\x01\x01\x0c\x08\xff\xff\xff\xff\xff\x1f\x00\x20\
    \x01\x0b\x20\x07\x01\x10\x00\x10\x00\x00\x00\x01\x0c\x20\x02\x01\x00";

/// A run of both in one turn, with this turn line.
const fn scanned(turns: &str) -> Run<'_> {
    Run {
        name: "a",
        a: ADVERTISE,
        b: SCAN,
        turns,
    }
}

/// A run in which no host says anything.
const fn idle<'a>(name: &'a str, turns: &'a str) -> Run<'a> {
    Run {
        name,
        a: b"",
        b: b"",
        turns,
    }
}

/// The lines of the turn up to the SCAN_REQ, its second packet.
const FIRST: &str = "in a 0106200f200020000200000000000000000700010a200101
up a 040e0401062000
up a 040e04010a2000
in b 01010c08ffffffffff1f0020010b200701100010000000010c20020100
up b 040e0401010c00
up b 040e04010b2000
up b 040e04010c2000
air a 37 d6be898e8bd45da13d499970822a9e . good
up b 043e0c020102000a0000eeffc0007f
";

/// The line of the SCAN_REQ.
const SECOND: &str = "air b 37 d6be898e8ede5ca13d4999707f3111a669b7b7c9d4 . good\n";

#[test]
fn unseen_damage_of_the_second_packet(rt: HostRuntime) -> Result<(), Fail> {
    let alloc = rt.alloc();
    let journal = format!(in alloc; "turn 0 ++\n{FIRST}")?;
    let line = "unseen damage: turn 0 packet 2 sent d6be898e8ede5ca13d4999707f3111a669b7b7c9d4 \
        heard d6be898e8ede5ca13d499971bf8510a669b7b7c9d4\n";
    let run = scanned("t ++ a24 b29 . e11:01c0b401\n");
    check_run(&rt, alloc, run, (6, journal.as_str(), line))?;
    Ok(())
}

#[test]
fn unseen_damage_of_the_third_packet(rt: HostRuntime) -> Result<(), Fail> {
    let alloc = rt.alloc();
    let journal = format!(in alloc; "turn 0 ++\n{FIRST}{SECOND}")?;
    let line = "unseen damage: turn 0 packet 3 sent d6be898e89d45da13d499970bf1abc \
        heard d6be898e89d45da13d4999717faebd\n";
    let run = scanned("t ++ a24 b29 . . e11:01c0b401\n");
    check_run(&rt, alloc, run, (6, journal.as_str(), line))?;
    Ok(())
}

/// The journal of this number of turns in which nothing happens.
fn idle_journal(alloc: Global, turns: u32) -> Result<String, AllocError> {
    let mut journal = String::new(alloc);
    for turn in 0..turns {
        journal.push_str(format!(in alloc; "turn {turn} ++\n")?.as_str())?;
    }
    Ok(journal)
}

#[test]
fn unseen_damage_after_65_536_turns(rt: HostRuntime) -> Result<(), Fail> {
    let alloc = rt.alloc();
    let idle_turns = idle_journal(alloc, 65_536)?;
    let idle_turns = idle_turns.as_str();
    let journal = format!(in alloc; "{idle_turns}turn 65536 ++\n{FIRST}")?;
    let line = "unseen damage: turn 65536 packet 2 \
        sent d6be898e8ede5ca13d4999707f3111a669b7b7c9d4 \
        heard d6be898e8ede5ca13d499971bf8510a669b7b7c9d4\n";
    let run = scanned("run 65536\nt ++ a24 b29 . e11:01c0b401\n");
    check_run(&rt, alloc, run, (6, journal.as_str(), line))?;
    Ok(())
}

/// A journal is written in blocks. These have a full block, and one entry less and more.
#[test]
fn journals_of_a_block(rt: HostRuntime) -> Result<(), Fail> {
    let alloc = rt.alloc();
    for turns in [255, 256, 257] {
        let journal = idle_journal(alloc, turns)?;
        let schedule = format!(in alloc; "run {turns}\n")?;
        let run = idle("a", schedule.as_str());
        check_run(&rt, alloc, run, (0, journal.as_str(), ""))?;
    }
    Ok(())
}

/// A text of this many letters.
fn letters(alloc: Global, count: u32) -> Result<String, AllocError> {
    let mut text = String::new(alloc);
    for _ in 0..count {
        text.push('a')?;
    }
    Ok(text)
}

#[test]
fn a_file_name_of_200_octets(rt: HostRuntime) -> Result<(), Fail> {
    let alloc = rt.alloc();
    let name = letters(alloc, 200)?;
    let run = Run {
        a: b"\x01\x03\x0c\x00",
        ..idle(name.as_str(), "t ++ a4\n")
    };
    let journal = "turn 0 ++\nin a 01030c00\nup a 040e0401030c00\n";
    check_run(&rt, alloc, run, (0, journal, ""))?;
    Ok(())
}

/// A turn line with the longest counts and three patterns of 264 octets. Nothing is sent, so they do
/// nothing.
#[test]
fn the_longest_words_of_a_turn_line(rt: HostRuntime) -> Result<(), Fail> {
    let alloc = rt.alloc();
    let digits = letters(alloc, 528)?;
    let digits = digits.as_str();
    let fates = format!(in alloc; "e263:{digits} e263:{digits} e263:{digits}")?;
    let turns = format!(in alloc; "t ++ a1048576 b1048576 {fates}\n")?;
    check_run(
        &rt,
        alloc,
        idle("a", turns.as_str()),
        (0, "turn 0 ++\n", ""),
    )?;
    Ok(())
}
