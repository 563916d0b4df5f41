//! Fields of packets: numbers of a few octets, the least significant octet first, and octets that
//! are no number (Core 5.2, volume 4 part E, section 5.2, and volume 6 part B, section 1.2).
#![tactic(auto)]

mod fields;
mod kinds;
mod put;

pub use fields::Fields;
pub use put::{put_octets, put_u8, put_u16, put_u24, put_u32, put_u40, put_u64};
