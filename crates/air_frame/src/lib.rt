//! Packets on the air, without their preamble (Core 5.2, volume 6 part B, sections 2.1 and 3).
#![tactic(auto)]

mod advertising;
mod building;
mod hearing;
pub mod laws;

pub use advertising::{ADVERTISING_ACCESS, ADVERTISING_CRC_INIT};
use arrayvec::ArrayVec;
pub use building::build;
pub use hearing::unframe;

/// What a listener makes of the octets of a packet (Core 5.2, volume 6 part B, sections 2.1 and 3;
/// the three answers are our choice).
#[derive(Debug, PartialEq, Eq, Drop)]
pub enum Heard {
    /// The octets do not begin with the four octets of the access address.
    NotOurs,
    /// The octets after the access address are not one whole PDU with the three octets of its CRC.
    Broken,
    /// The PDU, 2 to 257 octets in the order of the air, not whitened: its header of two octets,
    /// and the number of octets that the second of them counts (section 2.3).
    Whole(ArrayVec<u8, 257>),
}
