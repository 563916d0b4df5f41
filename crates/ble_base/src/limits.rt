//! Sizes that several layers share.

/// The most octets in the payload of a data channel PDU, without its message integrity check (Core
/// 5.2, volume 6 part B, section 2.4).
pub const PAYLOAD_OCTETS: usize = 251;

/// The most octets of a packet on the air, without its preamble: an access address of 4 octets, a
/// PDU of at most 257 and a CRC of 3 (Core 5.2, volume 6 part B, section 2.1).
pub const AIR_PACKET_OCTETS: usize = 264;

/// The room for an HCI packet to the host with its packet indicator (our choice): the longest is an
/// event of 258 octets (Core 5.2, volume 4 part E, section 5.4.4).
pub const HOST_PACKET_OCTETS: usize = 260;

/// The most notes of one step of a controller (our choice).
pub const OUTBOX_NOTES: usize = 64;

/// The most random words in the settings of a controller (our choice).
pub const RANDOM_WORDS: usize = 64;
