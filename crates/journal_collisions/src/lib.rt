//! Control procedures that collide, by the lines of the journal of each run: the central rejects
//! that of the peripheral next and sends no indication of it, and where the peripheral takes the
//! rejection, its procedure is refused. Definitions and laws; no code.
#![tactic(auto)]

mod laws;
mod rows;

pub use crate::laws::{
    colliding_procedures_are_rejected_next, rejected_procedures_are_not_indicated,
    rejected_procedures_are_refused,
};
pub use crate::rows::{worked_collision, wrong_collisions_are_refused, wrong_outcomes_are_refused};

// What the crates above call of those below.
pub use journal_endings::{
    a_pdu_is_understood, a_sealed_packet_is_opened, data_of_two_stations_arrives_in_order,
    ends_enter_each_event_alike_in_every_journal, ends_follow_their_central_in_every_journal,
    ends_that_last_are_sound, no_link_ends_by_a_protocol_error,
    no_procedure_ends_a_link_but_a_late_one, packets_of_a_link_are_read_as_sent,
    what_hosts_ask_may_come,
};
pub use run_collisions::control_pdus_do_not_cross_in_each_run;
