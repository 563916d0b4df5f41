//! The events of the controller, and the bits that mask them.
use arrayvec::ArrayVec;

/// The octet before an event packet (Core 5.2, volume 4 part A, section 2).
pub(crate) const INDICATOR: u8 = 4;

/// An event with its parameters (Core 5.2, volume 4 part E, section 7.7).
///
/// The fields of a variant are the parameters in the order of the packet. Numbers and addresses
/// have the least significant octet first: `peer[0]` is the least significant octet. A number of
/// entries that is always 1 is not a field. A `status`, `reason` or hardware `code` is any octet, a
/// `latency` is in connection events, and kinds of addresses are codes of the standard.
#[derive(Debug, Drop)]
pub enum Event {
    /// Disconnection Complete (section 7.7.5).
    DisconnectionComplete {
        status: u8,
        handle: u16,
        reason: u8,
    },
    /// Encryption Change (section 7.7.8).
    EncryptionChange {
        status: u8,
        handle: u16,
        enabled: u8,
    },
    /// Read Remote Version Information Complete (section 7.7.12).
    RemoteVersion {
        status: u8,
        handle: u16,
        version: u8,
        company: u16,
        sub: u16,
    },
    /// Command Complete (section 7.7.14). `number` is the number of commands that the host
    /// may send, `fields` the return parameters.
    CommandComplete {
        number: u8,
        opcode: u16,
        fields: ArrayVec<u8, 252>,
    },
    /// Command Status (section 7.7.15). `number` is the number of commands that the host may send.
    CommandStatus {
        status: u8,
        number: u8,
        opcode: u16,
    },
    /// Hardware Error (section 7.7.16), with a code that the controller chooses.
    HardwareError {
        code: u8,
    },
    /// Number Of Completed Packets (section 7.7.19), of one handle.
    CompletedPackets {
        handle: u16,
        count: u16,
    },
    /// Data Buffer Overflow (section 7.7.26).
    BufferOverflow {
        link_kind: u8,
    },
    /// Encryption Key Refresh Complete (section 7.7.39).
    KeyRefresh {
        status: u8,
        handle: u16,
    },
    /// LE Connection Complete (section 7.7.65.1). Interval in 1.25 ms, timeout in 10 ms.
    ConnectionComplete {
        status: u8,
        handle: u16,
        role: u8,
        peer_kind: u8,
        peer: [u8; 6],
        interval: u16,
        latency: u16,
        timeout: u16,
        accuracy: u8,
    },
    /// LE Advertising Report (section 7.7.65.2), of one report. `rssi` is a signed number of dBm in
    /// two's complement.
    AdvertisingReport {
        kind: u8,
        address_kind: u8,
        address: [u8; 6],
        octets: ArrayVec<u8, 31>,
        rssi: u8,
    },
    /// LE Connection Update Complete (section 7.7.65.3). Interval in 1.25 ms, timeout in 10 ms.
    UpdateComplete {
        status: u8,
        handle: u16,
        interval: u16,
        latency: u16,
        timeout: u16,
    },
    /// LE Read Remote Features Complete (section 7.7.65.4).
    RemoteFeatures {
        status: u8,
        handle: u16,
        features: u64,
    },
    /// LE Long Term Key Request (section 7.7.65.5).
    KeyRequest {
        handle: u16,
        rand: u64,
        ediv: u16,
    },
    /// LE Remote Connection Parameter Request (section 7.7.65.6). Intervals in 1.25 ms, timeout in
    /// 10 ms.
    ParamRequest {
        handle: u16,
        min: u16,
        max: u16,
        latency: u16,
        timeout: u16,
    },
    /// LE Data Length Change (section 7.7.65.7). Times in microseconds.
    LengthChange {
        handle: u16,
        tx_octets: u16,
        tx_time: u16,
        rx_octets: u16,
        rx_time: u16,
    },
    /// LE Enhanced Connection Complete (section 7.7.65.10). Interval in 1.25 ms, timeout in 10 ms.
    EnhancedConnection {
        status: u8,
        handle: u16,
        role: u8,
        peer_kind: u8,
        peer: [u8; 6],
        local_private: [u8; 6],
        peer_private: [u8; 6],
        interval: u16,
        latency: u16,
        timeout: u16,
        accuracy: u8,
    },
    /// LE PHY Update Complete (section 7.7.65.12).
    PhyComplete {
        status: u8,
        handle: u16,
        tx: u8,
        rx: u8,
    },
    /// LE Channel Selection Algorithm (section 7.7.65.20): `algorithm` 0 for algorithm 1, 1 for
    /// algorithm 2.
    ChannelSelection {
        handle: u16,
        algorithm: u8,
    },
}

/// What lets an event through to the host (Core 5.2, volume 4 part E, sections 7.3.1 and 7.8.1).
#[derive(Clone, Copy, PartialEq, Eq, Debug)]
pub enum MaskBit {
    /// The event cannot be masked.
    Always,
    /// This bit of the event mask, 0 to 63.
    Main(u8),
    /// This bit of the LE event mask, 0 to 63, and bit 61 of the event mask.
    Meta(u8),
}
