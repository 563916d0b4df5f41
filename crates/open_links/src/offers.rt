//! Packets of the host, and those that are complete.

/// What becomes of a packet of the host.
#[derive(Clone, Copy, Debug, PartialEq, Eq)]
pub enum Offer {
    /// There is no link under its handle, so it is dropped.
    NoLink,
    /// It has no octet, so it is complete at once and takes no buffer.
    Empty,
    /// It has more octets than a buffer, or no buffer is free, so it is dropped.
    Overflow,
    /// It is kept to be sent.
    Kept,
}

/// The packets of a link that are complete and were not reported.
#[derive(Clone, Copy, Debug, PartialEq, Eq, Default)]
pub struct Completed {
    /// The handle of the link.
    pub handle: u16,
    /// How many there are.
    pub count: u16,
}
