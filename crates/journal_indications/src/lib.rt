//! The indications of the links of two stations in each run, by the lines of its journal: what a
//! peripheral reads is what its central sent last, and what it follows came in time. So both ends
//! of a link enter each event alike. Laws; no code.
#![tactic(auto)]

mod alike;
mod in_time;
mod read;

pub use crate::alike::{
    ends_enter_each_event_alike_in_every_journal, ends_follow_their_central_in_every_journal,
};
pub use crate::in_time::indications_that_are_followed_came_in_time;
pub use crate::read::peripherals_read_what_the_central_sent_last;

// What the crates above call of those below.
pub use journal_agreement::data_of_two_stations_arrives_in_order;
pub use run_indications::{
    ends_that_last_are_sound, no_procedure_ends_a_link_but_a_late_one,
    packets_of_a_link_are_read_as_sent, what_hosts_ask_may_come,
};
