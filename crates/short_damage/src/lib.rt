//! Damage of at most 24 consecutive bits of a packet is never judged good, over all runs of two
//! controllers. Definitions and laws; no code.
#![tactic(auto)]

mod packets;
mod rows;
mod runs;

pub use crate::packets::{
    a_changed_access_address_is_not_heard, a_short_damage_is_never_whole,
    a_short_pattern_is_a_short_damage,
};
pub use crate::rows::{a_damage_of_25_bits_may_pass, worked_damages};
pub use crate::runs::short_damage_never_ends_a_run;
