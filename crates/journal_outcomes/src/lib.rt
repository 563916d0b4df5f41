//! What becomes of a control procedure of a peripheral, by the lines of the journal of each run: it
//! is done only where it was answered, and it is not done where it collided with one of the
//! central. Definitions and laws; no code.
#![tactic(auto)]

mod laws;
mod rows;

pub use crate::laws::{
    pdus_have_the_next_number, procedures_are_done_as_they_are_answered,
    rejected_procedures_are_not_done,
};
pub use crate::rows::wrong_completions_are_refused;

// What the crates above call of those below.
pub use journal_crossing::{
    a_pdu_is_understood, a_sealed_packet_is_opened, colliding_procedures_are_rejected_next,
    ends_enter_each_event_alike_in_every_journal, ends_follow_their_central_in_every_journal,
    no_link_ends_by_a_protocol_error, no_procedure_ends_a_link_but_a_late_one,
    packets_of_a_link_are_read_as_sent, rejected_procedures_are_not_indicated,
    rejected_procedures_are_refused, what_hosts_ask_may_come,
};
