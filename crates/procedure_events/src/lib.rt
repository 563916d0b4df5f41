//! The events that a host gets for what the control procedures of a link did at its end (Core 5.2,
//! volume 4 part E, section 7.7). The layer above applies the masks.
#![tactic(auto)]

mod calls;
mod kinds;

pub use crate::calls::{
    KeptEvents, ReceptionEvents, event_known, event_of_entry, events_of_kept, events_of_reception,
};
pub use crate::kinds::{event_of_done, event_of_effect, event_of_refusal};
