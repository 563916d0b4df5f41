//! The control part of one end of a link: its table of procedures and its parameters together, over
//! all lists of steps (Core 5.2, volume 6 part B, sections 5.1.1, 5.1.2 and 5.5). Definitions and
//! laws; no code.
#![tactic(auto)]

mod laws;
mod rows;

pub use crate::laws::{
    a_central_indicates_as_it_may, an_indication_waits_in_both_parts, ends_keep_their_role,
    what_is_sent_is_followed,
};
pub use crate::rows::{no_steps_come_to_these, worked_ends};
pub use procedures::{Ask, Draft, Effect, ProcTable, Step};
