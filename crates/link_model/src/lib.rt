//! Definitions of one end of a link: what it holds and what it notes, by what happens to it; and the
//! laws of one end and of both ends of a link. None of them names code.
#![tactic(auto)]

mod events;
mod laws;
mod setup;
mod state;

pub use crate::events::{ConnectionEvent, Reception};
pub use crate::laws::{
    a_forged_packet_ends_the_link, a_packet_is_understood, a_packet_says_what_was_accepted,
    a_payload_is_sent_again, a_sealed_packet_is_opened, an_end_goes_by_its_steps,
    an_end_without_encryption_stays_clear, control_pdus_go_before_data, data_is_sent_in_order,
    ends_stay_in_agreement, lengths_hold_a_second_exchange, notes_are_numbered,
    nothing_is_taken_after_the_end, one_pdu_is_out_at_a_time, only_latency_skips_events,
    past_grows, what_is_taken_was_given,
};
pub use crate::setup::LinkSetup;
pub use crate::state::{KnownLengths, Leaving, PeerFacts, PeerVersion};
pub use phased_end::{PhasedEnd, TakenKeyed};
