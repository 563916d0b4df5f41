//! Who has the radio in a slot: of the activities that want it the first by class, slot last served
//! and handle, and none while the radio is held (our choice: the standard leaves it open).
#![tactic(auto)]

mod activities;
mod laws;
mod plan;
mod wants;

pub use crate::activities::Activity;
pub use crate::laws::{winner_exists, winner_is_unique};
pub use crate::plan::{Hold, Plan};
pub use crate::wants::Want;
