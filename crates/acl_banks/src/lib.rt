//! Buffers for the data of links: packets of the host that wait to be sent in pieces, and pieces
//! that were received and wait for the host (Core 5.2, volume 4 part E, section 4.1).
#![tactic(auto)]

mod laws;
mod packets;
mod pieces;
mod queue;
mod rx_bank;
mod tx_bank;

pub use crate::laws::octets_are_sent_in_order;
pub use crate::pieces::Piece;
pub use crate::rx_bank::{Full, RxBank};
pub use crate::tx_bank::{Overflow, TxBank};
