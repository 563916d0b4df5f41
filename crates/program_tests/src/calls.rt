//! Calls of the program over files in memory.
use outside::{MemFiles, MemSink};
use program::run_words;
use std::alloc::{AllocError, Global};
use test_words::{octets_of, push_lines};

/// The first three lines of a schedule.
const SIDES: &[u8] = b"ble-schedule 1
side a c0ffee00000a 71764129 0000000000000001
side b c0ffee00000b 71764129 0000000000000002
";

/// What is given to calls, and which of what they leave is shown.
#[derive(Clone, Copy)]
pub(crate) struct Given<'a> {
    /// The file `a.bin`, in hexadecimal digits.
    pub(crate) a: &'a str,
    /// The file `b.bin`, in hexadecimal digits.
    pub(crate) b: &'a str,
    /// The file `schedule`, after its first three lines.
    pub(crate) turns: &'a str,
    /// How the lines of the output begin that are shown, or nothing where it is shown whole, or
    /// "idle" where only turns are counted in which nothing happens.
    pub(crate) only: &'a str,
    /// How many zeros `a.bin` has at its end.
    pub(crate) zeros: u32,
    /// How many turns `schedule` has at its end in which the radio of A is off.
    pub(crate) off: u32,
    /// The read that fails, counted from 1, or 0.
    pub(crate) failing_read: u32,
    /// The write of the output that fails, counted from 1, or 0.
    pub(crate) failing_write: u32,
}

/// What a call left.
#[derive(Drop)]
pub(crate) struct Ending {
    pub(crate) status: u8,
    pub(crate) out: MemSink,
    pub(crate) err: MemSink,
}

/// Calls the program with these words.
pub(crate) fn called(alloc: Global, given: &Given<'_>, line: &str) -> Result<Ending, AllocError> {
    let words = words_of(alloc, line)?;
    let mut files = files_of(alloc, given)?;
    let out = sink_of(alloc, given)?;
    Ok(call(alloc, &words, &mut files, out))
}

/// Calls the program over this output and an empty error stream.
fn call(alloc: Global, words: &Vec<String>, files: &mut MemFiles, mut out: MemSink) -> Ending {
    let mut err = MemSink::new(alloc);
    let status = run_words(alloc, words, files, &mut out, &mut err);
    Ending { status, out, err }
}

/// The words of a line.
fn words_of(alloc: Global, line: &str) -> Result<Vec<String>, AllocError> {
    let mut words = Vec::new(alloc);
    for word in line.split_whitespace() {
        words.push(String::from_str(alloc, word)?)?;
    }
    Ok(words)
}

/// The three files.
fn files_of(alloc: Global, given: &Given<'_>) -> Result<MemFiles, AllocError> {
    let mut files = MemFiles::new(alloc);
    hold_files(alloc, given, &mut files)?;
    Ok(files)
}

/// Holds the three files, of which a read may fail.
fn hold_files(alloc: Global, given: &Given<'_>, files: &mut MemFiles) -> Result<(), AllocError> {
    hold_schedule(alloc, given, files)?;
    files.hold("b.bin", octets_of(alloc, given.b).as_slice())?;
    hold_host_of_a(alloc, given, files)?;
    match given.failing_read {
        0 => Ok(()),
        read => files.fail_at(u64::from(read)),
    }
}

fn hold_schedule(alloc: Global, given: &Given<'_>, files: &mut MemFiles) -> Result<(), AllocError> {
    let text = schedule_of(alloc, given)?;
    files.hold("schedule", text.as_slice())
}

fn hold_host_of_a(
    alloc: Global,
    given: &Given<'_>,
    files: &mut MemFiles,
) -> Result<(), AllocError> {
    let octets = host_of_a(alloc, given)?;
    files.hold("a.bin", octets.as_slice())
}

/// The output.
fn sink_of(alloc: Global, given: &Given<'_>) -> Result<MemSink, AllocError> {
    let mut out = MemSink::new(alloc);
    if given.failing_write != 0 {
        out.fail_at(u64::from(given.failing_write))?;
    }
    Ok(out)
}

/// The octets of the host of A.
fn host_of_a(alloc: Global, given: &Given<'_>) -> Result<Vec<u8>, AllocError> {
    let mut octets = octets_of(alloc, given.a);
    for _ in 0..given.zeros {
        octets.push(0)?;
    }
    Ok(octets)
}

/// The text of the schedule.
fn schedule_of(alloc: Global, given: &Given<'_>) -> Result<Vec<u8>, AllocError> {
    let mut text = Vec::from_slice(alloc, SIDES)?;
    push_lines(&mut text, given.turns)?;
    for _ in 0..given.off {
        text.extend_from_slice(b"t -+\n")?;
    }
    Ok(text)
}
