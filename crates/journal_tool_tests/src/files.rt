//! Files that calls are given, and octets of captures.
use outside::{MemFiles, MemSink};
use std::alloc::{AllocError, Global};
use test_words::{octets_of, push_lines};

/// What is given to calls.
#[derive(Clone, Copy)]
pub(crate) struct Given<'a> {
    /// How the file `journal` begins.
    pub(crate) text: &'a str,
    /// How many lines `up a 0405` come next.
    pub(crate) lines: u32,
    /// How many digits 0 come next, and after them a newline.
    pub(crate) zeros: u32,
    /// The read that fails, counted from 1, or 0.
    pub(crate) failing_read: u32,
    /// The write of the output that fails, counted from 1, or 0.
    pub(crate) failing_write: u32,
    /// The write of the error stream that fails, counted from 1, or 0.
    pub(crate) failing_error: u32,
}

/// The octets of a capture before its packets, as another program wrote them.
const START: &[u8] = b"\
\x0a\x0d\x0d\x0a\x1c\x00\x00\x00\x4d\x3c\x2b\x1a\x01\x00\x00\x00\xff\xff\xff\xff\
\xff\xff\xff\xff\x1c\x00\x00\x00\x01\x00\x00\x00\x20\x00\x00\x00\x00\x01\x00\x00\
\x00\x00\x00\x00\x02\x00\x03\x00\x61\x69\x72\x00\x00\x00\x00\x00\x20\x00\x00\x00\
\x01\x00\x00\x00\x24\x00\x00\x00\xc9\x00\x00\x00\x00\x00\x00\x00\x02\x00\x06\x00\
\x68\x6f\x73\x74\x20\x61\x00\x00\x00\x00\x00\x00\x24\x00\x00\x00\x01\x00\x00\x00\
\x24\x00\x00\x00\xc9\x00\x00\x00\x00\x00\x00\x00\x02\x00\x06\x00\x68\x6f\x73\x74\
\x20\x62\x00\x00\x00\x00\x00\x00\x24\x00\x00\x00";

/// The packet of the line `up a 0405` in slot 0, by the layout of its block.
const PACKET: &[u8] = b"\
\x06\x00\x00\x00\x28\x00\x00\x00\x01\x00\x00\x00\x00\x00\x00\x00\x00\x00\x00\x00\
\x06\x00\x00\x00\x06\x00\x00\x00\x00\x00\x00\x01\x04\x05\x00\x00\x28\x00\x00\x00";

/// Appends octets this number of times.
fn push_copies(octets: &mut Vec<u8>, copied: &[u8], count: u32) -> Result<(), AllocError> {
    for _ in 0..count {
        octets.extend_from_slice(copied)?;
    }
    Ok(())
}

/// The start of a capture and this number of its packets.
pub(crate) fn packets_of(alloc: Global, count: u32) -> Result<Vec<u8>, AllocError> {
    let mut octets = Vec::from_slice(alloc, START)?;
    push_copies(&mut octets, PACKET, count)?;
    Ok(octets)
}

/// The octets of a text in which "|" ends a line, and two hexadecimal digits after "~" spell one
/// octet.
pub(crate) fn text_of(alloc: Global, text: &str) -> Result<Vec<u8>, AllocError> {
    let mut octets = Vec::new(alloc);
    let mut pieces = text.split('~');
    push_lines(&mut octets, pieces.next().unwrap_or(""))?;
    for piece in pieces {
        push_piece(&mut octets, piece)?;
    }
    Ok(octets)
}

/// Appends an octet that two digits spell, and what comes after them.
fn push_piece(octets: &mut Vec<u8>, piece: &str) -> Result<(), AllocError> {
    let octet = octets_of(*octets.allocator(), piece.get(..2).unwrap_or(""));
    octets.extend_from_slice(&octet)?;
    push_lines(octets, piece.get(2..).unwrap_or(""))
}

/// The octets of the file.
fn journal_of(alloc: Global, given: &Given<'_>) -> Result<Vec<u8>, AllocError> {
    let mut octets = text_of(alloc, given.text)?;
    push_copies(&mut octets, b"up a 0405\n", given.lines)?;
    push_copies(&mut octets, b"0", given.zeros)?;
    if given.zeros > 0 {
        octets.push(b'\n')?;
    }
    Ok(octets)
}

/// The file.
pub(crate) fn files_of(alloc: Global, given: &Given<'_>) -> Result<MemFiles, AllocError> {
    let mut files = MemFiles::new(alloc);
    files.hold("journal", journal_of(alloc, given)?.as_slice())?;
    if given.failing_read > 0 {
        files.fail_at(u64::from(given.failing_read))?;
    }
    Ok(files)
}

/// A sink of which the write of this number fails, or none if it is 0.
pub(crate) fn sink_failing(alloc: Global, write: u32) -> Result<MemSink, AllocError> {
    let mut sink = MemSink::new(alloc);
    if write > 0 {
        sink.fail_at(u64::from(write))?;
    }
    Ok(sink)
}
