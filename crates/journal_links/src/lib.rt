//! The links of a journal and their connection events, from the CONNECT_INDs in it, and laws of
//! each run of a pair about its lines. None of them names code.
#![tactic(auto)]

mod lines;
mod rows;

pub use crate::lines::{
    both_ends_enter_an_event_in_one_turn, each_enter_line_is_at_its_anchor,
    each_opened_line_names_its_link, lines_of_a_link_are_its_notes,
    without_changes_events_follow_the_connect_ind,
};
pub use crate::rows::{worked_algorithms, worked_changes, worked_links};

// What the crates above call of those below.
pub use run_laws::a_pdu_is_understood;
