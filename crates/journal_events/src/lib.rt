//! The event of a link that each end entered last, by the lines of a journal, and which events an
//! end skips. Definitions and laws; no code.
#![tactic(auto)]

mod events;
mod rows;

pub use crate::events::the_event_by_lines_is_the_one_that_the_end_holds;
pub use crate::rows::worked_skips;
pub use journal_sending::a_pdu_is_understood;
