//! What the hosts of a pair submit and receive on their links, from the lines of a journal, and the
//! laws of each run of a pair about that. None of them names code.
#![tactic(auto)]

mod delivery;
mod held;
mod rows;

pub use crate::delivery::{
    data_arrives_in_order_in_every_journal, data_of_two_stations_arrives_in_order,
};
pub use crate::held::{
    lines_are_of_open_links_in_every_journal, lines_of_two_stations_are_of_open_links,
};
pub use crate::rows::{
    worked_buffers, worked_delivery, worked_dropped, worked_next_link, worked_open_links,
    worked_received, worked_submitted,
};

// What the crates above call of those below.
pub use journal_acks::{
    a_pdu_is_understood, each_enter_line_is_at_its_anchor, each_link_has_the_next_address,
    each_opened_line_names_its_link, each_sent_line_is_of_a_new_pdu,
    each_side_enters_its_events_in_order,
};
