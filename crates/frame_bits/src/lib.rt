//! The bit stream processing of a packet: CRC and whitening (Core 5.2, volume 6 part B, section 3).
#![tactic(auto)]

mod crc;
pub mod laws;
mod whitening;

pub use crc::{crc_octets, crc24};
pub use whitening::whiten;
