//! The parameters of both ends of a link over every run: which indications hold at each end, and in
//! which events the ends meet (Core 5.2, volume 6 part B, sections 4.5.1 and 5.5). Definitions and
//! laws; no code.
#![tactic(auto)]

mod laws;
mod rows;

pub use crate::laws::{
    each_event_has_its_parameters, ends_enter_the_same_events, indications_come_one_by_one,
    instants_are_ahead, no_anchor_is_missed, packets_pass_within_an_event, two_ends_go_on,
};
pub use crate::rows::{no_run_comes_to_these, worked_runs};
