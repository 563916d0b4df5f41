//! Definitions of one controller: what it holds, what it notes and what it wants of the radio, by
//! the calls on it. They are facts of the standard's words, and none of them names code.
#![tactic(auto)]

mod commands;
mod delivery;
mod doing;
mod laws;
mod rows;

pub use crate::commands::accepted_commands_ask_in_range;
pub use crate::delivery::{
    a_host_takes_the_least_payload, a_link_notes_its_pdus, a_link_notes_what_its_end_notes,
    complete_packets_are_reported, data_is_handed_up_in_order, no_more_than_its_buffers,
    nothing_waits_between_turns, only_open_links_have_notes, the_host_receives_what_it_can_take,
};
pub use crate::doing::{Doing, Turn};
pub use crate::laws::{
    a_controller_opens_links_as_it_may, a_host_is_answered_whatever_the_turns, a_pdu_is_understood,
    an_advertiser_keeps_its_interval, commands_are_answered_in_order,
    each_command_is_answered_once, events_are_entered_at_their_anchors, exchanges_are_in_events,
    links_are_shut_with_their_reason, notes_name_links_of_the_controller, past_grows,
    random_words_go_round, refused_command_changes_nothing, what_is_sent_is_a_pdu,
};
pub use crate::rows::{
    worked_advertisement, worked_answers, worked_connection, worked_data, worked_link, worked_rows,
};
pub use link_commands::{Moment, a_sealed_packet_is_opened};
