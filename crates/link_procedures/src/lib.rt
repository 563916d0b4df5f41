//! The control procedures of one end of a link by its notes: which of them it has in progress (Core
//! 5.2, volume 6 part B, sections 5.1 and 5.3). Definitions and laws; no code.
#![tactic(auto)]

mod laws;
mod rows;

pub use crate::laws::an_end_runs_what_it_noted;
pub use crate::rows::{worked_notes, worked_steps, wrong_notes};
