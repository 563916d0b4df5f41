//! Which link a packet of a journal is of, the law that it is the link of the end that sent it, and
//! that of the access addresses of links. None of them names code.
#![tactic(auto)]

mod addresses;
mod rows;
mod senders;

pub use crate::addresses::each_link_has_the_next_address;
pub use crate::rows::worked_packets;
pub use crate::senders::each_packet_is_of_its_senders_link;

// What the crates above call of those below.
pub use journal_links::{
    a_pdu_is_understood, each_enter_line_is_at_its_anchor, each_opened_line_names_its_link,
};
