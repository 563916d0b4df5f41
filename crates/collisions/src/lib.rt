//! Joint runs of the control procedures of a central and a peripheral (Core 5.2, volume 6 part B,
//! sections 5.1 and 5.3), and the law of their collisions.
#![tactic(auto)]

mod central;
mod codes;
mod events;
mod joint;
pub mod laws;
mod peripheral;
pub mod rows;

pub use crate::central::Central;
pub use crate::codes::EVENTS;
pub use crate::events::{Event, Place};
pub use crate::joint::{End, Link, Way};
pub use crate::peripheral::Peripheral;
