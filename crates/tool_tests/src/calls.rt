//! Calls of each command over files in memory.
use ble_tool::ble_tool;
use outside::{MemFiles, MemSink};
use std::alloc::{AllocError, Global};
use std::process::Abort;

/// The schedule of one turn.
const SCHEDULE: &[u8] = b"ble-schedule 1
side a c0ffee00000a 71764129 0000000000000001
side b c0ffee00000b 71764129 0000000000000002
t ++ a24 b18
";

/// The host of an advertiser: its parameters, of type 3, and then on.
const ADVERTISE: &[u8] =
    b"\x01\x06\x20\x0f\x20\x00\x20\x00\x03\x00\x00\x00\x00\x00\x00\x00\x00\x07\x00\
    \x01\x0a\x20\x01\x01";

/// The host of a scanner: an event mask with the LE events, and then on.
const SCAN: &[u8] = b"\x01\x01\x0c\x08\xff\xff\xff\xff\xff\x1f\x00\x20\
    \x01\x0c\x20\x02\x01\x00";

/// The journal of both.
const JOURNAL: &str = "turn 0 ++
in a 0106200f200020000300000000000000000700010a200101
up a 040e0401062000
up a 040e04010a2000
in b 01010c08ffffffffff1f0020010c20020100
up b 040e0401010c00
up b 040e04010c2000
air a 37 d6be898e8fd45da13d499970f84ada . good
up b 043e0c020103000a0000eeffc0007f
";

/// The words of a line.
fn words_of(alloc: Global, line: &str) -> Result<Vec<String>, AllocError> {
    let mut words = Vec::new(alloc);
    for word in line.split_whitespace() {
        words.push(String::from_str(alloc, word)?)?;
    }
    Ok(words)
}

/// The files of both hosts and of the schedule.
fn files_of(alloc: Global) -> Result<MemFiles, AllocError> {
    let mut files = MemFiles::new(alloc);
    files.hold("a", ADVERTISE)?;
    files.hold("b", SCAN)?;
    files.hold("schedule", SCHEDULE)?;
    Ok(files)
}

/// Calls the program with the words of a line, and compares what it writes.
fn check_done(rt: &impl Abort, alloc: Global, line: &str, written: &str) -> Result<(), AllocError> {
    let words = words_of(alloc, line)?;
    let mut files = files_of(alloc)?;
    let mut out = MemSink::new(alloc);
    let mut err = MemSink::new(alloc);
    let status = ble_tool(alloc, &words, &mut files, &mut out, &mut err);
    assert_eq!(rt; err.octets(), b"".as_slice());
    assert_eq!(rt; out.octets(), written.as_bytes());
    assert_eq!(rt; status, 0);
    Ok(())
}

#[test]
fn the_journal_of_a_pair(rt: HostRuntime) -> Result<(), AllocError> {
    check_done(&rt, rt.alloc(), "pair a b schedule", JOURNAL)
}

#[test]
fn the_line_on_a_load(rt: HostRuntime) -> Result<(), AllocError> {
    let line = "make 7 turns 5281 links 1 a 2712 b 2712\n";
    check_done(&rt, rt.alloc(), "make 7", line)
}
