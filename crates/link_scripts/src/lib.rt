//! Scripts of one link: calls on both ends, turns and packets of both, and what they give, as words.
//! Each end has its buffers. The tests of links go by such scripts.
#![tactic(auto)]

mod air;
mod calls;
mod ends;
mod notes;
mod pairs;
mod random_packets;

pub use air::other_packet;
pub use calls::{LTK, ask_named, code_of};
pub use ends::{ACCESS, CRC_INIT, End};
pub use pairs::{Pair, wrong_in};
pub use random_packets::{header_in, octet, random_packet};
