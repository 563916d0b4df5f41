//! Which packets of a link are sealed, by the lines of a journal: those of new PDUs that the end of
//! the other side opens. Definitions and laws; no code.
#![tactic(auto)]

mod runs;

pub use crate::runs::both_ends_agree_on_what_is_sealed;

// What the crates above call of those below.
pub use journal_forgeries::{
    a_mixed_journal_stays_mixed, a_packet_is_forged_only_between_two_keys,
    a_pdu_is_sent_again_with_its_payload, each_packet_has_the_payload_of_the_lines,
    each_verdict_is_that_of_the_lines, ends_hear_no_mixed_packet_while_their_journal_is_not_mixed,
    only_packets_between_two_keys_are_mixed,
};
