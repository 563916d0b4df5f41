//! One end of a link with its phase of encryption and its keys: the control part, the phase with its
//! session, and what both need of each other (Core 5.2, volume 6 part B, section 5.1.3).
#![tactic(auto)]

mod answering;
mod changes;
mod end;
mod entering;
mod host;
mod laws;
mod material;
mod readers;
mod sealing;
mod sending;
mod taking;

pub use crate::end::PhasedEnd;
pub use crate::laws::{
    ends_stay_reached, entered_ends_stay_entered, keyed_steps_depend_on_what_is_held,
    keyed_steps_keep_lengths, reached_ends_fit, reached_ends_follow_what_they_indicate,
    reached_ends_have_room,
};
pub use crate::taking::TakenKeyed;
