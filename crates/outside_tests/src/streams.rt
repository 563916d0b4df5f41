//! A stream that takes two octets at a time.
use std::alloc::Global;
use std::io;
use std::io::{Error, ErrorKind, Write};

/// A stream that takes two octets at a time, until it has no room. A signal interrupts its first
/// call. It counts the octets that were flushed.
#[derive(Drop)]
pub(crate) struct Narrow {
    pub(crate) taken: Vec<u8>,
    room: usize,
    /// Whether it fails where there is no room, in place of taking nothing.
    breaks: bool,
    was_called: bool,
    pub(crate) flushed: usize,
    /// Whether a flush fails.
    clogs: bool,
}

impl Write for Narrow {
    fn write(&mut self, buf: &[u8]) -> io::Result<usize> {
        if !self.was_called {
            self.was_called = true;
            return Err(Error::from(ErrorKind::Interrupted));
        }
        let count = buf.len().min(2).min(self.room);
        if count == 0 && self.breaks {
            return Err(Error::from(ErrorKind::BrokenPipe));
        }
        self.room -= count;
        self.taken.extend_from_slice(&buf[..count])?;
        Ok(count)
    }

    fn flush(&mut self) -> io::Result<()> {
        if self.clogs {
            return Err(Error::from(ErrorKind::OutOfMemory));
        }
        self.flushed = self.taken.len();
        Ok(())
    }
}

/// A stream with room for this number of octets, which "breaks" or "clogs" or does neither.
pub(crate) fn stream_with(alloc: Global, room: u32, how: &str) -> Narrow {
    Narrow {
        taken: Vec::new(alloc),
        room: room as usize,
        breaks: how == "breaks",
        was_called: false,
        flushed: 0,
        clogs: how == "clogs",
    }
}
