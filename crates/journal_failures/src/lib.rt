//! Where a link ends for a failed integrity, by the lines of the journal of each run of two stations.
//! Definitions and laws; no code.
#![tactic(auto)]

mod laws;
mod rows;

pub use crate::laws::a_link_fails_only_after_a_forged_packet;
pub use crate::rows::links_that_fail;

// What the crates above call of those below.
pub use journal_outcomes::{
    colliding_procedures_are_rejected_next, ends_enter_each_event_alike_in_every_journal,
    ends_follow_their_central_in_every_journal, no_link_ends_by_a_protocol_error,
    rejected_procedures_are_not_done, rejected_procedures_are_not_indicated,
    rejected_procedures_are_refused,
};
