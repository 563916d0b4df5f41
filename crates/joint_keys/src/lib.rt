//! Joint runs of both ends of a link with their keys: what one end seals the other opens, wherever
//! their session keys are equal (Core 5.2, volume 6 part B, section 5.1.3, and part E, section 2).
//! Definitions and laws; no code.
#![tactic(auto)]

mod closing;
mod laws;
mod ranges;
mod rows;

pub use crate::closing::{
    a_peripheral_without_a_key_stays_loud, in_quiet_a_link_is_to_end_by_its_host_alone,
};
pub use crate::laws::{
    both_ends_open_what_the_other_seals, each_session_is_in_the_phase_of_its_end,
    keyed_links_are_links, keyed_runs_are_joint_runs, keys_are_equal,
};
pub use crate::ranges::values_stay_in_their_ranges_in_each_phase;
pub use crate::rows::{a_start_comes_by_turns, a_start_with_one_key, a_start_with_two_keys};
