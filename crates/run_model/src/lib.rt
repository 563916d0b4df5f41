//! Definitions and laws of a run of any number of controllers over a simulated radio, and of its
//! journal. None of them names code.
#![tactic(auto)]

mod hosts;
mod laws;
mod links;
mod rows;

pub use crate::hosts::a_host_is_answered_in_order;
pub use crate::laws::{
    a_journal_says_what_happened, a_pair_is_distinct, a_place_between_turns_has_one_history,
    a_run_has_one_journal, a_turn_leaves_nothing_over, all_that_is_due_is_on_the_air,
    each_entry_is_of_an_event, each_event_is_due, each_packet_on_the_air_is_due,
    each_turn_has_three_phases, entries_are_in_order, feeding_follows_the_schedule,
    notes_are_those_of_the_calls, turns_follow_the_schedule, unseen_damage_stops_a_run,
};
pub use crate::links::{
    each_line_of_a_note_is_of_a_call, each_link_has_its_connect_ind, each_note_is_of_a_call,
    each_open_link_has_its_number,
};
pub use crate::rows::{worked_connection, worked_damage, worked_runs};
pub use controller_model::{a_pdu_is_understood, a_sealed_packet_is_opened};
