//! The packets of a host, and the result of feeding an octet.

use arrayvec::ArrayVec;
use ble_base::PAYLOAD_OCTETS;

/// A packet from the host.
#[derive(Debug, Drop, PartialEq, Eq)]
pub enum HostPacket {
    /// A command (Core 5.2, volume 4 part E, section 5.4.1).
    Command {
        /// The opcode: the group in the high 6 bits, the command in the low 10.
        opcode: u16,
        /// The parameters, 0 to 255 octets in the order sent.
        body: ArrayVec<u8, 255>,
    },
    /// ACL data (Core 5.2, volume 4 part E, section 5.4.2).
    Acl {
        /// The connection handle, 12 bits.
        handle: u16,
        /// Whether a message starts here. A packet boundary flag of 01 continues one; each other
        /// value starts one.
        start: bool,
        /// The number of data octets of the packet.
        length: u16,
        /// These octets in the order sent, or the first [`PAYLOAD_OCTETS`] of a longer packet.
        body: ArrayVec<u8, PAYLOAD_OCTETS>,
    },
}

/// The result of feeding an octet.
#[derive(Debug, Drop, PartialEq, Eq)]
pub enum Fed {
    /// More octets are needed.
    More,
    /// The octet ends this packet.
    Packet(HostPacket),
    /// Synchronisation is lost: a packet had to begin here, and a host sends none that begins so.
    LostSync,
}
