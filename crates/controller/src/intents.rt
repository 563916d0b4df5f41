//! What a controller wants of the radio in a phase.
use arrayvec::ArrayVec;
use ble_base::AIR_PACKET_OCTETS;

/// What a controller does in a phase of a turn.
#[derive(Drop)]
pub enum Intent {
    /// It sends these octets on this channel, 0 to 39: the access address, the PDU and the CRC, in
    /// the order of the air, without preamble (Core 5.2, volume 6 part B, section 2.1).
    Send {
        channel: u8,
        octets: ArrayVec<u8, AIR_PACKET_OCTETS>,
    },
    /// It listens on this channel.
    Listen {
        channel: u8,
    },
    /// It does neither.
    Idle,
}

/// What a controller does in a phase of a turn, without the octets that it sends.
#[derive(Clone, Copy)]
pub enum Action {
    /// It transmits a packet on this channel, 0 to 39.
    Transmit { channel: u8 },
    /// It listens on this channel.
    Listen { channel: u8 },
    /// It does neither.
    Rest,
}
