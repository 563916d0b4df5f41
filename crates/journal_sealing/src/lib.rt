//! The payload that each packet of a link has on the air, by the lines of a journal: the body of its
//! PDU, sealed by the end as it was before the line of that PDU; which packets are forged for the end
//! that hears them, and which mix two session keys. Definitions and laws; no code.
#![tactic(auto)]

mod lines;
mod mixtures;
mod rows;
mod runs;

pub use crate::lines::{
    a_counter_is_used_once_in_a_session, a_payload_by_lines_is_of_the_pdu_that_is_carried,
    an_end_that_never_seals_sends_bodies, nothing_is_forged_for_an_end_that_opens_nothing,
    the_payload_by_lines_stays_until_an_acknowledgement,
};
pub use crate::mixtures::{a_mixed_journal_stays_mixed, only_packets_between_two_keys_are_mixed};
pub use crate::rows::{worked_forgeries, worked_mixtures, worked_payloads, worked_starts};
pub use crate::runs::{
    a_new_pdu_is_sealed_with_the_keys_of_the_lines, a_pdu_is_sent_again_with_its_payload,
    each_packet_has_the_payload_of_the_lines, each_verdict_is_that_of_the_lines,
    ends_hear_no_mixed_packet_while_their_journal_is_not_mixed,
};

// What the crates above call of those below.
pub use journal_acks::links_of_two_stations_keep_to_the_journal;
pub use journal_controls::{a_pdu_is_understood, the_keys_by_lines_are_those_that_the_end_holds};
pub use link_runs::a_sealed_packet_is_opened;
