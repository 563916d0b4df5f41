//! Joint runs of the phases of encryption of a central and a peripheral (Core 5.2, volume 6 part B,
//! section 5.1.3), and the laws of what the two ends agree on.
#![tactic(auto)]

mod central;
mod codes;
mod joint;
pub mod laws;
mod peripheral;

pub use crate::central::PhaseCentral;
pub use crate::codes::EVENTS;
pub use crate::joint::{PhaseEvent, PhaseLink, PhaseWay};
pub use crate::peripheral::{PhaseClosing, PhasePeripheral, UnsentRequest};
