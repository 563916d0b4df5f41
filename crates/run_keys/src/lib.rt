//! With one session key at both ends of a link, a packet of one end is not forged for the other, in
//! every run of controllers. Laws; no code.
#![tactic(auto)]

mod laws;

pub use crate::laws::a_packet_is_forged_only_with_other_keys;

// What the crates above call of those below.
pub use run_pairs::{both_ends_hear_each_other_in_turns, what_hosts_ask_may_come};
