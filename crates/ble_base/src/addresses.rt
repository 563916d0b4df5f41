//! Device addresses.

/// A device address (Core 5.2, volume 6 part B, section 1.3).
#[derive(Clone, Copy, Debug, PartialEq, Eq, Default)]
pub struct Address {
    /// Whether it is a random device address, else a public one.
    pub random: bool,
    /// Its six octets, least significant octet first, as in a packet.
    pub octets: [u8; 6],
}
