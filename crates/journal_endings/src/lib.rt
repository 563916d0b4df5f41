//! With which errors no link ends, by the lines of the journal of each run of two stations.
//! Definitions and laws; no code.
#![tactic(auto)]

mod laws;
mod rows;

pub use crate::laws::no_link_ends_by_a_protocol_error;
pub use crate::rows::links_that_end_with_an_error;

// What the crates above call of those below.
pub use controller_model::a_pdu_is_understood;
pub use journal_indications::{
    data_of_two_stations_arrives_in_order, ends_enter_each_event_alike_in_every_journal,
    ends_follow_their_central_in_every_journal, ends_that_last_are_sound,
    no_procedure_ends_a_link_but_a_late_one, packets_of_a_link_are_read_as_sent,
    what_hosts_ask_may_come,
};
pub use link_runs::a_sealed_packet_is_opened;
