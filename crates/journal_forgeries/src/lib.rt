//! Which packets of a link are forged though the radio changed nothing of them, by the lines of a
//! journal: those between two session keys. Definitions and laws; no code.
#![tactic(auto)]

mod runs;

pub use crate::runs::a_packet_is_forged_only_between_two_keys;

// What the crates above call of those below.
pub use journal_sealing::{
    a_mixed_journal_stays_mixed, a_pdu_is_sent_again_with_its_payload, a_pdu_is_understood,
    a_sealed_packet_is_opened, each_packet_has_the_payload_of_the_lines,
    each_verdict_is_that_of_the_lines, ends_hear_no_mixed_packet_while_their_journal_is_not_mixed,
    links_of_two_stations_keep_to_the_journal, only_packets_between_two_keys_are_mixed,
    the_keys_by_lines_are_those_that_the_end_holds,
};
pub use run_keys::{both_ends_hear_each_other_in_turns, what_hosts_ask_may_come};
