//! The control procedures that exclude each other: their PDUs without values, how far each is at
//! either end of a link, and how stages change as a procedure begins, as a PDU is sent or
//! acknowledged, and as an indication holds (Core 5.2, volume 6 part B, sections 5.1 and 5.3).
#![tactic(auto)]

mod acked;
mod awaited;
mod begun;
mod held;
mod kinds;
mod pdus;
mod sent;
mod stages;

pub use crate::pdus::{Exclusive, Pdu, Reason};
pub use crate::stages::{CentralStage, PeerAtCentral, PeerAtPeripheral, PeripheralStage};
