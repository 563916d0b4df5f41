//! The data channel of each connection event: channel selection algorithms #1 and #2 (Core 5.2,
//! volume 6 part B, section 4.5.8).
#![tactic(auto)]

mod hopping;
pub mod laws;
mod pseudo_random;
mod selection;

pub use crate::selection::{Algorithm, Selector};
