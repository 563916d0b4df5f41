//! Which PDUs of a link are accepted and acknowledged, from the lines of a journal, and the laws of
//! each run of a pair about them. None of them names code.
#![tactic(auto)]

mod counts;
mod events;
mod exchanges;
mod packets;
mod rows;
mod stations;

pub use crate::counts::counts_of_any_journal;
pub use crate::events::each_side_enters_its_events_in_order;
pub use crate::exchanges::each_end_counts_as_the_journal_says;
pub use crate::packets::{
    each_link_packet_carries_what_the_journal_says, each_sent_line_is_of_a_new_pdu,
};
pub use crate::rows::{worked_data, worked_exchange};
pub use crate::stations::links_of_two_stations_keep_to_the_journal;

// What the crates above call of those below.
pub use journal_packets::{
    a_pdu_is_understood, each_enter_line_is_at_its_anchor, each_link_has_the_next_address,
    each_opened_line_names_its_link,
};
