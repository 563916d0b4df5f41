//! The indications of one end of a link by its notes: which of them are in force in each connection
//! event (Core 5.2, volume 6 part B, sections 5.1.1, 5.1.2 and 5.5). Definitions and laws; no code.
#![tactic(auto)]

mod laws;
mod rows;

pub use crate::laws::{
    an_end_follows_its_notes, each_event_is_entered_by_the_notes,
    indications_come_into_force_in_time, only_entered_events_are_noted,
};
pub use crate::rows::{worked_notes, wrong_notes};
