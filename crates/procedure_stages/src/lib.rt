//! The kinds of control procedures, and how far each is at an end of a link; how stages change as a
//! procedure begins, as a PDU is sent or acknowledged, and as an indication holds; the control PDUs
//! that have no meaning at an end; and those that wait, in their order (Core 5.2, volume 6 part B,
//! section 5).
#![tactic(auto)]

mod acked;
pub mod awaited;
pub mod begun;
mod closing;
pub mod collisions;
mod exclusive;
pub mod foreign;
mod held;
mod in_progress;
pub mod kinds;
pub mod opcodes;
mod queue;
mod reply;
mod sent;
mod stages;
mod steps;

pub use crate::closing::Closing;
pub use crate::queue::Queue;
pub use crate::reply::Reply;
pub use crate::stages::{
    Ahead, Central, Exchange, OwnCentral, OwnPeripheral, Peripheral, Progress,
};
pub use crate::steps::{Effect, Step};
pub use procedure_values::lengths::lengths_asked;
pub use procedure_values::values::are_valid;
pub use procedure_values::{
    Ask, CipherPdu, Draft, Lengths, NewParams, Outgoing, PayloadMax, Rejection, Wants,
};
