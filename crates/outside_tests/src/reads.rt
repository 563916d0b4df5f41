//! Readers that have no end or break off, and what a read gives, as words.
use outside::{FileFault, SinkFault, read_whole};
use std::alloc::AllocError;
use std::io;
use std::io::{Error, ErrorKind, Read};
use test_words::{put_number, put_text, put_value};

/// Writes the octets that were read, or the fault.
pub(crate) fn put_read(
    told: &mut String,
    answer: Result<Vec<u8>, FileFault>,
) -> Result<(), AllocError> {
    match answer {
        Ok(octets) => put_text(told, octets.as_slice()),
        Err(fault) => put_value(told, &fault),
    }
}

/// Writes the text of a fault.
pub(crate) fn put_fault(told: &mut String, name: &str) -> Result<(), AllocError> {
    match name {
        "file" => put_file_fault(told, FileFault::Failed),
        "long_file" => put_file_fault(told, FileFault::TooLong),
        "file_memory" => put_file_fault(told, FileFault::Memory),
        "sink" => put_sink_fault(told, SinkFault::Failed),
        _ => put_sink_fault(told, SinkFault::Memory),
    }
}

fn put_file_fault(told: &mut String, fault: FileFault) -> Result<(), AllocError> {
    write!(told, " {fault}")
}

fn put_sink_fault(told: &mut String, fault: SinkFault) -> Result<(), AllocError> {
    write!(told, " {fault}")
}

/// A reader without an end, which counts the octets that it gave.
#[derive(Drop)]
struct Endless {
    given: usize,
}

impl Read for Endless {
    fn read(&mut self, buf: &mut [u8]) -> io::Result<usize> {
        self.given = self.given.saturating_add(buf.len());
        buf.fill(b'x');
        Ok(buf.len())
    }
}

/// Reads a file without an end, and writes how many octets it gave.
pub(crate) fn put_endless(told: &mut String, limit: u32) -> Result<(), AllocError> {
    let mut reader = Endless { given: 0 };
    let answer = read_whole(&mut reader, *told.allocator(), limit);
    put_read(told, answer)?;
    put_number(told, reader.given as u64)
}

/// A reader that gives some octets, and then this error.
#[derive(Drop)]
struct Breaking {
    left: usize,
    error: ErrorKind,
}

impl Read for Breaking {
    fn read(&mut self, buf: &mut [u8]) -> io::Result<usize> {
        let count = buf.len().min(self.left);
        if count == 0 {
            return Err(Error::from(self.error));
        }
        self.left -= count;
        buf[..count].fill(b'x');
        Ok(count)
    }
}

/// The error of this name.
fn error_of(name: &str) -> ErrorKind {
    match name {
        "memory" => ErrorKind::OutOfMemory,
        "permission" => ErrorKind::PermissionDenied,
        "invalid" => ErrorKind::InvalidData,
        _ => ErrorKind::Other,
    }
}

/// Reads a file that breaks off after three octets, at most nine.
pub(crate) fn put_breaking(told: &mut String, name: &str) -> Result<(), AllocError> {
    let reader = Breaking {
        left: 3,
        error: error_of(name),
    };
    let answer = read_whole(reader, *told.allocator(), 9);
    put_read(told, answer)
}
