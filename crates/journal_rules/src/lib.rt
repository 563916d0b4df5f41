//! Rules of the standard over the lines of a journal, in its own words: by what was sent, taken and
//! heard before. Definitions and laws; no code.
#![tactic(auto)]

mod rows;
mod rules;
mod sealing;
mod skipping;
mod waiting;

pub use crate::rows::{worked_md, worked_sealing, worked_skipping, worked_waiting_after};
pub use crate::rules::{
    each_end_has_the_latency_of_the_indications, each_journal_keeps_the_rules_in_words,
};
pub use crate::sealing::{
    a_side_seals_from_the_start_that_it_took_last, where_none_is_ignored_all_lines_count,
};
pub use crate::skipping::a_peripheral_skips_events_up_to_the_latency_in_force;
pub use crate::waiting::{
    a_pdu_sent_again_tells_nothing_of_what_was_taken,
    md_tells_what_waits_after_the_pdu_of_its_packet,
};

// What the crates above call of those below.
pub use journal_events::a_pdu_is_understood;
