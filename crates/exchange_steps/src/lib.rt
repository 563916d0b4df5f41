//! The exchanges of features, lengths and versions in a table of procedures: each call on the table
//! is at most one step of an end of a joint run, and answers what that step does (Core 5.2, volume
//! 6 part B, section 5). Definitions and laws; no code.
#![tactic(auto)]

mod laws;

pub use crate::laws::{
    an_end_runs_one_exchange, answers_are_of_exchanges, calls_are_steps_of_exchanges,
    the_receive_maximum_stays, what_is_sent_is_taken,
};
