//! Which commands of a host the lines of its side answer and accept, and the laws that these are
//! the commands that its controller accepts, and what they set of flow control is what it holds.
//! Definitions and laws; no code.
#![tactic(auto)]

mod answers;
mod rows;

pub use crate::answers::{
    each_line_accepts_what_its_call_accepts, lines_accept_all_that_is_accepted,
    lines_tell_the_flow_that_is_held,
};
pub use crate::rows::worked_answers;
