//! What each end of a link says and hears and what its host asks of it, by the lines of a journal,
//! and the law that in each run of two stations it is what happened to that end. Definitions and
//! laws; no code.
#![tactic(auto)]

mod ends;
mod lists;
mod rows;

pub use crate::ends::what_is_seen_of_an_end_is_its_past;
pub use crate::lists::{
    what_an_end_hears_last_is_its_last_good_packet,
    what_an_end_knows_of_its_peer_is_what_it_answered, what_an_end_says_is_its_lines,
};
pub use crate::rows::{worked_answers, worked_asks, worked_ends, worked_versions};

// What the crates above call of those below.
pub use journal_acks::a_pdu_is_understood;
