//! What goes out on the links of a journal and what is taken, from its lines, and the law of each
//! run of a pair about that and about data. None of them names code.
#![tactic(auto)]

mod credits;
mod keys;
mod lawful;
mod links;
mod rows;

pub use crate::credits::each_complete_packet_is_reported_at_once;
pub use crate::keys::with_one_key_nothing_is_mixed;
pub use crate::lawful::each_journal_is_lawful;
pub use crate::links::{
    a_reset_leaves_no_link, each_answer_on_a_link_is_heard, each_link_is_opened_at_its_central,
    each_packet_is_in_its_event,
};
pub use crate::rows::worked_acknowledged;
