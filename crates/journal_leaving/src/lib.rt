//! How each end of a link is to leave it, by the lines of a journal, why links are shut and which
//! stay open. Definitions and laws; no code.
#![tactic(auto)]

mod calls;
mod due;
mod ends;
mod events;
mod journals;
mod rows;
mod runs;
mod shuts;
mod stays;
mod turns;

pub use crate::calls::{
    a_call_moves_how_an_end_leaves_by_its_lines, lines_that_take_nothing_leave_an_end_as_it_is,
};
pub use crate::due::{
    an_end_is_due_by_its_parts, an_end_is_due_for_its_cause, what_a_host_does_leaves_what_is_due,
};
pub use crate::ends::{
    a_lacking_key_moves_how_an_end_leaves, a_packet_moves_how_an_end_leaves_by_its_lines,
    an_end_that_sends_has_answered, lines_tell_how_an_end_that_hears_leaves,
};
pub use crate::events::{
    a_packet_moves_how_its_two_ends_leave, turns_and_hosts_leave_an_end_as_it_is,
};
pub use crate::journals::only_its_lines_and_packets_move_how_an_end_leaves;
pub use crate::rows::{worked_disconnects, worked_leavings, worked_reasons};
pub use crate::runs::{
    a_link_is_shut_for_what_is_due_by_its_lines, an_end_leaves_by_lines_as_it_holds,
    no_open_end_is_leaving_between_turns, what_is_due_by_lines_is_due_to_an_end,
};
pub use crate::shuts::each_shut_line_has_its_reason_by_the_lines;
pub use crate::stays::{links_end_in_time_by_the_lines, open_ends_stay_open_by_the_lines};
pub use crate::turns::{
    a_packet_that_is_taken_moves_how_an_end_leaves_by_its_lines,
    a_turn_that_begins_moves_how_an_end_leaves_by_its_lines,
};

// What the crates above call of those below.
pub use journal_controls::a_pdu_is_understood;
pub use journal_data::{
    data_arrives_in_order_in_every_journal, each_enter_line_is_at_its_anchor,
    each_link_has_the_next_address, each_opened_line_names_its_link,
    each_sent_line_is_of_a_new_pdu, each_side_enters_its_events_in_order,
    lines_are_of_open_links_in_every_journal,
};
