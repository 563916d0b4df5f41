//! Laws of both ends of a link in every run of controllers, with any number of stations and links,
//! where the link may carry control procedures. The definitions are in `specs`; no code is here.
#![tactic(auto)]

mod entries;
mod laws;
mod pairs;

pub use crate::entries::each_end_enters_its_events;
pub use crate::laws::{
    ends_that_last_are_sound, no_procedure_ends_a_link_but_a_late_one, open_ends_are_linked,
    packets_of_a_link_are_read_as_sent, packets_of_a_link_are_understood,
};
pub use crate::pairs::{
    both_ends_hear_each_other_in_turns, ends_of_a_pair_are_linked, ends_of_a_pair_are_sound,
    packets_of_a_pair_are_read_as_sent, packets_of_a_pair_are_understood,
};
pub use known_ends::what_hosts_ask_may_come;
