//! What becomes of the procedures of one end of a link, and of the link there, by the notes of the
//! end (Core 5.2, volume 6 part B, sections 5.1 and 5.3). Definitions and laws; no code.
#![tactic(auto)]

mod laws;
mod rows;

pub use crate::laws::{
    a_procedure_is_done_only_as_it_is_answered, an_end_that_took_a_termination_is_over,
};
pub use crate::rows::{worked_answers, wrong_answers};
