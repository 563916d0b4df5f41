//! The acknowledgement of the PDUs of a link by one bit each way (Core 5.2, volume 6 part B,
//! section 4.5.9).
#![tactic(auto)]

mod ack_end;
pub mod laws;

pub use crate::ack_end::{AckEnd, AckSeen};
