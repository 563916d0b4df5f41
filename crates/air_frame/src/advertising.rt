//! What all packets on the advertising channels have in common.

/// The access address of all packets on the advertising channels (Core 5.2, volume 6 part B,
/// section 2.1.2).
pub const ADVERTISING_ACCESS: u32 = 0x8E89_BED6;

/// The value from which their CRC starts, 24 bits (Core 5.2, volume 6 part B, section 3.1.1).
pub const ADVERTISING_CRC_INIT: u32 = 0x55_5555;
