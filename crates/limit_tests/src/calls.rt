//! Calls of `pair` over files in memory, and what they must leave.
use outside::{MemFiles, MemSink};
use program::run_words;
use std::alloc::{AllocError, Global};
use std::process::Abort;

/// The first three lines of a schedule.
const SIDES: &str = "ble-schedule 1
side a c0ffee00000a 71764129 0000000000000001
side b c0ffee00000b 71764129 0000000000000002
";

/// The streams of two hosts, the turn lines of the schedule, and the name of the first file.
#[derive(Clone, Copy)]
pub(crate) struct Run<'a> {
    pub(crate) name: &'a str,
    pub(crate) a: &'a [u8],
    pub(crate) b: &'a [u8],
    pub(crate) turns: &'a str,
}

/// The files of a run.
fn files_of(alloc: Global, run: Run<'_>) -> Result<MemFiles, AllocError> {
    let mut schedule = String::from_str(alloc, SIDES)?;
    schedule.push_str(run.turns)?;
    let mut files = MemFiles::new(alloc);
    files.hold(run.name, run.a)?;
    files.hold("b", run.b)?;
    files.hold("schedule", schedule.as_bytes())?;
    Ok(files)
}

/// The words of `pair` over those files.
fn words_of(alloc: Global, name: &str) -> Result<Vec<String>, AllocError> {
    let mut words = Vec::new(alloc);
    for word in ["pair", name, "b", "schedule"] {
        words.push(String::from_str(alloc, word)?)?;
    }
    Ok(words)
}

/// What a call left.
#[derive(Drop)]
struct Ending {
    status: u8,
    out: MemSink,
    err: MemSink,
}

/// Makes the run over these files.
fn call(alloc: Global, words: &Vec<String>, files: &mut MemFiles) -> Ending {
    let mut out = MemSink::new(alloc);
    let mut err = MemSink::new(alloc);
    let status = run_words(alloc, words, files, &mut out, &mut err);
    Ending { status, out, err }
}

/// Makes the run.
fn ending_of(alloc: Global, run: Run<'_>) -> Result<Ending, AllocError> {
    let mut files = files_of(alloc, run)?;
    let words = words_of(alloc, run.name)?;
    Ok(call(alloc, &words, &mut files))
}

/// Makes the run, and compares its status, its journal and its error line.
pub(crate) fn check_run(
    rt: &impl Abort,
    alloc: Global,
    run: Run<'_>,
    (status, journal, line): (u8, &str, &str),
) -> Result<(), AllocError> {
    let ending = ending_of(alloc, run)?;
    assert_eq!(rt; ending.err.octets(), line.as_bytes());
    assert_eq!(rt; ending.out.octets(), journal.as_bytes());
    assert_eq!(rt; ending.status, status);
    Ok(())
}
