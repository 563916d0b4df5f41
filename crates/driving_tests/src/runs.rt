//! Runs whose controllers are driven by their public calls.
ghost use Rattle.std.specs.Prelude.{◌≤◌, length};

use crate::driving::{Given, first_wrong};
use pair_world::{Journal, Schedule, run_pair};
use std::alloc::{AllocError, Global};
use std::process::Abort;
use test_words::octets_of;

/// What two hosts send, in hexadecimal digits, and the turns.
#[derive(Clone, Copy)]
struct Run {
    a: &'static str,
    b: &'static str,
    schedule: &'static str,
}

/// A session of one link: the length is exchanged, data goes both ways, encryption starts, and A
/// ends the link. Event e is in turn 2 + 24e.
const SESSION: Run = Run {
    a: "01010c08ffffffffff1f0020010120087f00000000000000010d20196000600000000b0000eeffc0000\
        1800180000004800000000000122200600\
        00fb0048080200006400000102030405060708090a0b0c0d0e0f101112131415161718191a1b1c1d1e1f\
        202122232425262728292a2b2c2d2e2f303132333435363738393a3b3c3d3e3f40414243444546474849\
        4a4b4c4d4e4f505152535455565758595a5b5c5d5e5f606162630119201c000000000000000000000000\
        bf01fb9d4ef3bc36d874f5394138684c01060403000013",
    b: "01010c08ffffffffff1f0020010120087f00000000000000010a20010102000014008081828384858687\
        88898a8b8c8d8e8f90919293011a20120000bf01fb9d4ef3bc36d874f5394138684c",
    schedule: "\
ble-schedule 1
side a c0ffee00000a 71764129 0000000000000001
side b c0ffee00000b 71764129 0000000000000002
t ++ a53 b29
run 9
t ++ a10
run 49
t ++ a105 b25
run 49
t ++ a32
run 19
t ++ b22
run 99
t ++ a7
run 12
",
};

/// An update that is lost in six events: B takes it in the event of its Instant, and follows an event
/// later.
const LATE: Run = Run {
    a: "01010c08ffffffffff1f0020010d20196000600000000b0000eeffc000180018000000480000000000\
        0113200e0000180018000000640000000000",
    b: "01010c08ffffffffff1f0020010a200101",
    schedule: "\
ble-schedule 1
side a c0ffee00000a 71764129 0000000000000001
side b c0ffee00000b 71764129 0000000000000002
t ++ a41 b17
run 9
t ++ a18
run 15
t ++ x
run 23
t ++ x
run 23
t ++ x
run 23
t ++ x
run 23
t ++ x
run 23
t ++ x
run 48
",
};

/// Two links whose events share their slots. Data is given to both, a packet of A is damaged, and
/// the radio of B is off in one turn.
const TWO_LINKS: Run = Run {
    a: "01010c08ffffffffff1f0020010520060c0000eeffc0010d20196000600000000b0000eeffc0001800180\
        00000480000000000010d20196000600000000b0000eeffc001180018000000480000000000\
        02000003000102030201000200a1a2",
    b: "01010c08ffffffffff1f0020010a200101010a20010102012001005a",
    schedule: "\
ble-schedule 1
side a c0ffee00000a 71764129 0000000000000001
side b c0ffee00000b 71764129 0000000000000002
t ++ a51 b17
run 23
t ++ a29 b5
run 5
t ++ a15 b6
run 19
t ++ e6:01
run 23
t +-
run 120
",
};

/// A Reset at one side: the other end of the link goes on alone, and a new link begins.
const STALE: Run = Run {
    a: "01010c08ffffffffff1f0020010d20196000600000000b0000eeffc000180018000000480000000000\
        01030c0001010c08ffffffffff1f0020010d20196000600000000b0000eeffc00018001800000048000000\
        0000",
    b: "01010c08ffffffffff1f0020010a200101010a200101",
    schedule: "\
ble-schedule 1
side a c0ffee00000a 71764129 0000000000000001
side b c0ffee00000b 71764129 0000000000000002
t ++ a41 b17
run 9
t ++ a45 b5
run 568
",
};

/// The journal of a run.
fn journal_of(alloc: Global, a: &[u8], b: &[u8], schedule: &Schedule) -> Journal
    requires a { 1 ≤ length schedule.now.a.words.items }
    requires b { 1 ≤ length schedule.now.b.words.items }
{
    match run_pair(alloc, a, b, schedule) {
        Ok(journal) => journal,
        Err(_) => Journal::new(alloc),
    }
}

/// The first turn of a run in which the notes are not the lines of the journal of another run.
fn first_wrong_in(
    rt: &impl Abort,
    alloc: Global,
    driven: Run,
    written: Run,
) -> Result<Option<u32>, AllocError> {
    let (a, b) = (octets_of(alloc, written.a), octets_of(alloc, written.b));
    let schedule = schedule_of(rt, alloc, written.schedule);
    let journal = journal_of(alloc, a.as_slice(), b.as_slice(), &schedule);
    assert!(rt; journal.len() > 100, "there is no journal");
    let (a, b) = (octets_of(alloc, driven.a), octets_of(alloc, driven.b));
    let given = Given {
        a: a.as_slice(),
        b: b.as_slice(),
        entries: journal.as_slice(),
    };
    first_wrong(alloc, given, &schedule_of(rt, alloc, driven.schedule))
}

/// The schedule of a text.
fn schedule_of(rt: &impl Abort, alloc: Global, text: &str) -> Schedule
    ensures a { 1 ≤ length result.a.words.items }
    ensures b { 1 ≤ length result.b.words.items }
{
    match Schedule::read(alloc, text.as_bytes()) {
        Ok(schedule) => schedule,
        Err(_) => panic!(rt; "no schedule"),
    }
}

/// The notes of a run are the lines of its own journal.
fn check(rt: &impl Abort, alloc: Global, run: Run) -> Result<(), AllocError> {
    let wrong = first_wrong_in(rt, alloc, run, run)?;
    assert_eq!(rt; wrong, None);
    Ok(())
}

#[test]
fn a_session_is_driven(rt: HostRuntime) -> Result<(), AllocError> {
    check(&rt, rt.alloc(), SESSION)
}

#[test]
fn a_late_update_is_driven(rt: HostRuntime) -> Result<(), AllocError> {
    check(&rt, rt.alloc(), LATE)
}

#[test]
fn two_links_are_driven(rt: HostRuntime) -> Result<(), AllocError> {
    check(&rt, rt.alloc(), TWO_LINKS)
}

#[test]
fn a_link_of_one_end_is_driven(rt: HostRuntime) -> Result<(), AllocError> {
    check(&rt, rt.alloc(), STALE)
}

/// The notes of one run are not the lines of another: they part in the turn in which the hosts do.
#[test]
fn another_run_is_noticed(rt: HostRuntime) -> Result<(), AllocError> {
    let wrong = first_wrong_in(&rt, rt.alloc(), LATE, STALE)?;
    assert_eq!(rt; wrong, Some(10));
    Ok(())
}
