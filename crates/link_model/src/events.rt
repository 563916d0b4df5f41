//! The event that an end entered last, and the last good packet that it received.

/// The connection event that an end entered last.
#[derive(Clone, Copy, Debug, PartialEq, Eq, Default)]
pub struct ConnectionEvent {
    /// Its number, from 0.
    pub number: u64,
    /// The slot of its anchor.
    pub slot: u64,
    /// Its data channel, 0 to 36.
    pub channel: u8,
    /// The latency that is in force in it, in connection events.
    pub latency: u16,
    /// A good packet was received in its first exchange.
    pub heard: bool,
    /// A packet that was sent in its first exchange, or a good one that was received, has an MD bit
    /// of 1.
    pub more: bool,
}

/// A good packet that an end received.
#[derive(Clone, Copy, Debug, PartialEq, Eq, Default)]
pub struct Reception {
    /// Its slot.
    pub slot: u64,
    /// The number of the connection event in which it was received.
    pub event: u64,
}
