//! What a controller does on the radio without a link: it advertises, scans and initiates (Core 5.2,
//! volume 6 part B, section 4.4). It has what the host set of each of them, what is on, and what
//! holds the radio.
#![tactic(auto)]

mod accepted;
mod advertising;
mod packets;
mod scanning;
mod states;

pub use crate::advertising::advertiser_answer;
pub use crate::packets::{advertising_packet, connect_ind, judge, read_pdu};
pub use crate::states::Activities;
