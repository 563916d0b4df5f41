//! Control PDUs of a link never cross on the air, and none is taken after the termination of the
//! link, by the lines of the journal of each run. Definitions and laws; no code.
#![tactic(auto)]

mod laws;
mod rows;

pub use crate::laws::{control_pdus_do_not_cross, nothing_is_taken_after_a_termination};
pub use crate::rows::{crossing_journals_are_refused, worked_controls};

// What the crates above call of those below.
pub use journal_collisions::{
    a_pdu_is_understood, a_sealed_packet_is_opened, colliding_procedures_are_rejected_next,
    data_of_two_stations_arrives_in_order, ends_enter_each_event_alike_in_every_journal,
    ends_follow_their_central_in_every_journal, no_link_ends_by_a_protocol_error,
    no_procedure_ends_a_link_but_a_late_one, packets_of_a_link_are_read_as_sent,
    rejected_procedures_are_not_indicated, rejected_procedures_are_refused,
    what_hosts_ask_may_come,
};
pub use link_outcomes::a_procedure_is_done_only_as_it_is_answered;
