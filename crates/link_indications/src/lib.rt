//! The indications of one end of a link by its notes: those that a central sent, and how far ahead
//! their Instants are (Core 5.2, volume 6 part B, sections 5.5 and 5.5.1). Definitions and laws; no
//! code.
#![tactic(auto)]

mod laws;
mod rows;

pub use crate::laws::{
    a_central_keeps_the_indications_that_it_sent, indications_of_an_end_that_goes_on_came_in_time,
};
pub use crate::rows::{worked_takings, wrong_takings};
