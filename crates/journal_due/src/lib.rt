//! Where each line of a control procedure stands in a journal, exactly. Definitions and laws; no
//! code.
#![tactic(auto)]

mod ends;
mod journals;
mod rows;
mod runs;

pub use crate::ends::{
    an_end_says_nothing_of_procedures_in_other_steps, an_end_that_enters_an_event_says_what_is_due,
    an_end_that_takes_a_packet_says_what_is_due,
};
pub use crate::journals::{
    one_line_more_changes_what_is_due, the_last_line_of_a_side_tells_of_an_indication,
};
pub use crate::rows::worked_due_lines;
pub use crate::runs::each_line_of_a_procedure_is_where_it_is_due;
