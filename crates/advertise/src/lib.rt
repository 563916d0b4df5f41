//! The advertiser: what it sends, when it is due, and which requests it answers (Core 5.2, volume 6
//! part B, section 4.4.2).
#![tactic(auto)]

mod advertiser;
mod answers;
pub mod laws;
mod params;
pub mod rows;

pub use crate::advertiser::{AdvOff, AdvOn};
pub use crate::answers::AdvAnswer;
pub use crate::params::AdvParams;
