//! What the hosts of a run receive, by the lines of its journal: answers to their commands,
//! reports of complete packets, and data. None of it names code.
#![tactic(auto)]

mod answers;
mod credits;
mod flow;
mod rows;

pub use crate::answers::each_command_is_answered;
pub use crate::credits::{
    credits_of_a_turn_are_in_the_order_of_handles, each_credit_is_of_some_packets,
    each_early_credit_is_of_one_packet, each_late_credit_comes_as_its_turn_ends,
    each_late_end_is_reported_at_once,
};
pub use crate::flow::{
    data_fits_the_buffers_of_its_host, data_goes_up_as_its_turn_ends,
    data_of_all_links_comes_in_one_order,
};
pub use crate::rows::{
    lines_after_data_are_refused, worked_credit, worked_ends_of_turns, worked_host_flow,
    worked_order, wrong_credits_are_refused, wrong_data_for_a_host_is_refused,
    wrong_orders_of_data_are_refused, wrong_packets_after_ends_are_refused,
};
