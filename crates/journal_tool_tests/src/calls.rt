//! Calls of the programs over files in memory.
ghost use Rattle.std.specs.Prelude.{None};

use crate::files::{Given, files_of, sink_failing};
use journal_tool::journal_tool;
use outside::{FileFault, Files, MemFiles, MemSink};
use renderings::{CaptureFile, MessageChart};
use std::alloc::{AllocError, Global};

/// What a call left.
#[derive(Drop)]
pub(crate) struct Ending {
    pub(crate) status: u8,
    pub(crate) out: MemSink,
    pub(crate) err: MemSink,
}

/// The words of a line.
fn words_of(alloc: Global, line: &str) -> Result<Vec<String>, AllocError> {
    let mut words = Vec::new(alloc);
    for word in line.split_whitespace() {
        words.push(String::from_str(alloc, word)?)?;
    }
    Ok(words)
}

/// Makes a call: with the words after "capture", and else with the word `journal`.
pub(crate) fn ending_of(
    alloc: Global,
    given: &Given<'_>,
    name: &str,
    rest: &str,
) -> Result<Ending, AllocError> {
    let line = if name == "capture" { rest } else { "journal" };
    let words = words_of(alloc, line)?;
    if name == "refuse" {
        let are_long = rest == "long";
        return Ok(refuse(alloc, &words, RefusedFiles { are_long }));
    }
    called(alloc, given, &words, name == "chart")
}

/// Calls `ble_chart` or `ble_capture` with these words.
fn called(
    alloc: Global,
    given: &Given<'_>,
    words: &Vec<String>,
    is_chart: bool,
) -> Result<Ending, AllocError> {
    let mut files = files_of(alloc, given)?;
    let out = sink_failing(alloc, given.failing_write)?;
    let err = sink_failing(alloc, given.failing_error)?;
    Ok(if is_chart {
        chart(alloc, words, &mut files, (out, err))
    } else {
        capture(alloc, words, &mut files, (out, err))
    })
}

/// Calls `ble_capture`.
fn capture(
    alloc: Global,
    words: &Vec<String>,
    files: &mut MemFiles,
    (mut out, mut err): (MemSink, MemSink),
) -> Ending {
    let status = journal_tool(
        alloc,
        "ble_capture",
        &CaptureFile,
        words,
        files,
        &mut out,
        &mut err,
    );
    Ending { status, out, err }
}

/// Calls `ble_chart`.
fn chart(
    alloc: Global,
    words: &Vec<String>,
    files: &mut MemFiles,
    (mut out, mut err): (MemSink, MemSink),
) -> Ending {
    let status = journal_tool(
        alloc,
        "ble_chart",
        &MessageChart,
        words,
        files,
        &mut out,
        &mut err,
    );
    Ending { status, out, err }
}

/// Files that are over every limit, or for which no memory is left.
#[derive(Drop)]
struct RefusedFiles {
    are_long: bool,
}

impl Files for RefusedFiles {
    ghost content = { λ _ _. None };

    ghost faults = { λ _ _. 0 };

    ghost is_reliable = { λ _ _. ⊥ };

    fn read_file(
        &mut self,
        _alloc: Global,
        _name: &str,
        _limit: u32,
    ) -> Result<Vec<u8>, FileFault> {
        if self.are_long {
            Err(FileFault::TooLong)
        } else {
            Err(FileFault::Memory)
        }
    }
}

/// Calls `ble_capture` over files that are refused.
fn refuse(alloc: Global, words: &Vec<String>, mut files: RefusedFiles) -> Ending {
    let (mut out, mut err) = (MemSink::new(alloc), MemSink::new(alloc));
    let status = journal_tool(
        alloc,
        "ble_capture",
        &CaptureFile,
        words,
        &mut files,
        &mut out,
        &mut err,
    );
    Ending { status, out, err }
}
