//! What goes out on the links of a journal and what is taken, from its lines, while control
//! procedures run: which new PDU comes next, what MD of each packet says, and where the lines of
//! PDUs are. Definitions and laws; no code.
#![tactic(auto)]

mod next;
mod packets;
mod resting;
mod rows;
mod taking;

pub use crate::next::each_new_pdu_is_next_by_the_lines;
pub use crate::packets::{
    each_packet_of_a_link_tells_what_waits, the_line_of_each_new_pdu_is_just_before_its_packet,
};
pub use crate::resting::nothing_is_under_way_between_turns;
pub use crate::rows::{
    worked_control_and_data, worked_counting, worked_new_pdu, worked_pieces, worked_room,
    worked_taking, worked_waiting,
};
pub use crate::taking::each_pdu_is_taken_at_once;

// What the crates above call of those below.
pub use journal_due::each_line_of_a_procedure_is_where_it_is_due;
pub use journal_hosts::{
    credits_of_a_turn_are_in_the_order_of_handles, data_fits_the_buffers_of_its_host,
    data_goes_up_as_its_turn_ends, data_of_all_links_comes_in_one_order, each_command_is_answered,
    each_credit_is_of_some_packets, each_early_credit_is_of_one_packet,
    each_late_credit_comes_as_its_turn_ends, each_late_end_is_reported_at_once,
};
pub use journal_leaving::{
    a_pdu_is_understood, data_arrives_in_order_in_every_journal, each_enter_line_is_at_its_anchor,
    each_link_has_the_next_address, each_opened_line_names_its_link,
    each_sent_line_is_of_a_new_pdu, each_shut_line_has_its_reason_by_the_lines,
    each_side_enters_its_events_in_order, lines_are_of_open_links_in_every_journal,
    links_end_in_time_by_the_lines,
};
