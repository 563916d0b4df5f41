//! The host's half of H4, the UART transport of HCI (Core 5.2, volume 4 part A, section 2).
//!
//! A [`Framer`] is fed a host's octets one by one and gives each packet at its last octet.
#![tactic(auto)]

mod framer;
mod laws;
mod packet;
mod part;
mod stage;

pub use framer::Framer;
pub use laws::{frames_are_in_order, frames_are_the_division, frames_grow, results_are_the_frames};
pub use packet::{Fed, HostPacket};
