//! The table of procedures of one end, as joint runs of two ends see it: each call on it is a step
//! of a joint run, or none, and answers what that step means (Core 5.2, volume 6 part B, section 5).
#![tactic(auto)]

mod laws;
mod ways;

pub use crate::laws::{
    a_central_sends_as_in_a_joint_run, a_central_takes_as_in_a_joint_run,
    a_peripheral_sends_as_in_a_joint_run, a_peripheral_takes_as_in_a_joint_run,
    a_table_without_room_is_unchanged, a_taken_termination_stops_a_joint_run,
    calls_on_a_central_are_steps, calls_on_a_peripheral_are_steps, few_pdus_wait_at_a_table,
    other_pdus_may_be_left_out,
};
pub use crate::ways::each_move_sends_or_takes_at_most_one;
