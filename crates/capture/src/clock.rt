//! The time of a packet.
ghost use Rattle.std.specs.Prelude.{◌≡◌};
ghost use Rattle.capture.specs.Clock.{clock_with, first_clock, microseconds};

use journal::Entry;

/// The microseconds of a slot (Core 5.2, volume 6 part B, section 4.5.1).
const SLOT: u64 = 1250;

/// The microseconds from one packet of a slot to the next (our choice).
const STEP: u64 = 125;

/// The packet of a slot after which time stands still (our choice).
const LAST: u8 = 9;

/// The slot, and the number of packets on the air in it so far, at most 9.
#[derive(Clone, Copy, Drop)]
pub struct Clock {
    pub slot: u64,
    pub packets: u8,
}

impl Clock {
    /// No turn has begun.
    pub fn new() -> Clock
        ensures { result ≡ first_clock }
    {
        Clock {
            slot: 0,
            packets: 0,
        }
    }

    /// Goes on by an entry.
    pub fn pass(&mut self, entry: &Entry)
        ensures { self.new ≡ clock_with self.old entry.now }
    {
        match entry {
            Entry::Turn { slot, .. } => {
                *self = Clock {
                    slot: *slot,
                    packets: 0,
                }
            }
            Entry::Air { .. } => self.packets = self.packets.saturating_add(1).min(LAST),
            _ => {}
        }
    }

    /// The time in microseconds; at most 2^64 - 1.
    pub fn microseconds(&self) -> u64
        ensures { result ≡ microseconds self.now }
    {
        let in_slot = u64::from(self.packets) * STEP;
        self.slot.saturating_mul(SLOT).saturating_add(in_slot)
    }
}
