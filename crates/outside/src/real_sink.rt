//! A stream of the system as a sink.
ghost use Rattle.std.specs.Prelude.{◌≡◌, ◌≤◌, None, OnOk, IfErr};
ghost use Rattle.std.specs.Io.KnownBytes.{Appends};
ghost use Rattle.outside.specs.Count.{one_more};

use crate::sink::{Sink, SinkFault};
use std::io::Write;
use std::marker::Model;

/// A stream as a sink, such as standard output. Contracts do not know what was written, and the
/// calls that failed are counted. It needs no allocation.
///
/// Contracts see it as the stream and that count. A call writes all of its octets and flushes, so
/// nothing is left for the end of the program. It fails where a write or the flush fails, and where
/// the stream takes none of the octets that are left.
#[derive(Drop)]
pub struct RealSink<W> {
    stream: W,
    faults: u64,
}

impl<W> Model for RealSink<W> {
    ghost use Rattle.std.specs.Prelude.{ℕ};

    ghost Value = { W × ℕ };

    ghost view = { λ sink. (sink.stream, sink.faults) };
}

impl<W: Write> RealSink<W> {
    /// A sink over a stream, before any write.
    pub fn new(stream: W) -> RealSink<W>
        ensures { result ≡ (stream, 0) }
    {
        RealSink { stream, faults: 0 }
    }
}

impl<W: Write> Sink for RealSink<W> {
    ghost written = { λ _. None };

    ghost faults = { λ sink. sink.1 };

    ghost is_reliable = { λ _. ⊥ };

    ghost wants_memory = { λ _. ⊥ };

    fn put(&mut self, octets: &[u8]) -> Result<(), SinkFault>
        ensures whole { OnOk result
            (Appends (W.contents self.old.0) (W.contents self.new.0) octets.now) }
        ensures ok { OnOk result (self.new.1 ≡ self.old.1) }
        ensures err { IfErr result (λ fault.
            (fault ≡ SinkFault.Failed) × (self.new.1 ≡ one_more self.old.1)) }
        ensures counts { self.old.1 ≤ self.new.1 }
    {
        if self.stream.write_all(octets).is_ok() && self.stream.flush().is_ok() {
            return Ok(());
        }
        self.faults = self.faults.saturating_add(1);
        Err(SinkFault::Failed)
    }
}
