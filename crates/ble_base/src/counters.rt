//! Counters of connection events and of slots.
ghost use Rattle.std.specs.Prelude.{◌≡◌, ◌^◌, ◌%◌};

/// The number of a connection event of one link, counted from 0 without end. What the specification
/// counts, connEventCounter, is this number modulo 65536 (Core 5.2, volume 6 part B, section
/// 4.5.1).
#[derive(Clone, Copy, Debug, PartialEq, Eq, PartialOrd, Ord, Default)]
pub struct EventNo(pub u64);

impl EventNo {
    /// connEventCounter, the 16-bit counter of the connection event.
    pub fn counter(self) -> u16
        ensures { result ≡ self.0 % 2 ^ 16 }
    {
        (self.0 % 65536) as u16
    }
}

/// The number of a slot of 1.25 ms, counted from 0 at the start of the run.
#[derive(Clone, Copy, Debug, PartialEq, Eq, PartialOrd, Ord, Default)]
pub struct SlotNo(pub u64);
