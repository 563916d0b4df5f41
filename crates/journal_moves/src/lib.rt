//! Which packets are on the air in each phase of a turn, from the lines of a journal, and the laws
//! of each run of two stations about that. None of them names code.
#![tactic(auto)]

mod moves;
mod rows;

pub use crate::moves::{
    each_packet_that_is_listened_for_is_judged, the_moves_of_each_turn_are_owed,
};
pub use crate::rows::{worked_moves, worked_verdicts};

// What the crates above call of those below.
pub use journal_anchors::{
    a_pdu_is_understood, credits_of_a_turn_are_in_the_order_of_handles,
    data_arrives_in_order_in_every_journal, data_fits_the_buffers_of_its_host,
    data_goes_up_as_its_turn_ends, data_of_all_links_comes_in_one_order, each_command_is_answered,
    each_credit_is_of_some_packets, each_early_credit_is_of_one_packet,
    each_enter_line_is_at_its_anchor, each_late_credit_comes_as_its_turn_ends,
    each_late_end_is_reported_at_once, each_line_of_a_procedure_is_where_it_is_due,
    each_link_has_the_next_address, each_new_pdu_is_next_by_the_lines,
    each_opened_line_names_its_link, each_packet_of_a_link_tells_what_waits,
    each_pdu_is_taken_at_once, each_sent_line_is_of_a_new_pdu,
    each_shut_line_has_its_reason_by_the_lines, each_side_enters_its_events_in_order,
    lines_are_of_open_links_in_every_journal, links_end_in_time_by_the_lines,
    no_end_misses_an_event, nothing_is_under_way_between_turns,
    the_line_of_each_new_pdu_is_just_before_its_packet,
};
