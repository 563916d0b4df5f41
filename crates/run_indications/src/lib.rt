//! The LL_CONNECTION_UPDATE_IND or LL_CHANNEL_MAP_IND that a peripheral takes before its Instant
//! has passed is the one that the central sent last, and its Instant is one event at both ends:
//! over the ends of a link, and in every run of controllers. Laws; no code.
#![tactic(auto)]

mod laws;
mod links;
mod pairs;

pub use crate::laws::a_peripheral_takes_what_the_central_sent_last;
pub use crate::links::a_peripheral_reads_what_the_central_sent_last;
pub use crate::pairs::a_peripheral_of_two_takes_what_the_central_sent_last;

// What the crates above call of those below.
pub use run_pairs::{
    ends_that_last_are_sound, no_procedure_ends_a_link_but_a_late_one,
    packets_of_a_link_are_read_as_sent, what_hosts_ask_may_come,
};
