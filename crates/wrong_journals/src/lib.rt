//! Small wrong journals, each of which the definition of a lawful journal refuses, at the clause that
//! its law names. No code.
#![tactic(auto)]

mod again;
mod alike;
mod answers;
mod commanded;
mod encrypting;
mod events;
mod exchanges;
mod hearings;
mod held;
mod hosts;
mod latency;
mod moves;
mod orders;
mod procedure_lines;
mod resets;
mod right;
mod shuts;
mod slots;
mod turns;
mod unanswered;

pub use crate::again::wrong_more_bits_are_not_sent_again;
pub use crate::alike::ends_that_differ_are_refused;
pub use crate::answers::{missed_answers_are_refused, unopened_links_are_refused};
pub use crate::commanded::{
    late_taking_is_refused, wrong_more_bits_are_refused, wrong_pdus_are_refused,
};
pub use crate::encrypting::{failures_without_forgeries_are_refused, wrong_starts_are_refused};
pub use crate::events::{wrong_links_are_refused, wrong_orders_of_events_are_refused};
pub use crate::exchanges::{
    wrong_packets_are_refused, wrong_sending_is_refused, wrong_taking_is_refused,
    wrong_turns_of_exchanges_are_refused,
};
pub use crate::hearings::wrong_hearings_are_refused;
pub use crate::held::{lines_of_no_link_are_refused, packets_of_no_link_are_refused};
pub use crate::hosts::{
    wrong_credits_are_refused, wrong_data_is_refused, wrong_flow_to_a_host_is_refused,
    wrong_orders_of_data_are_refused,
};
pub use crate::latency::events_by_the_latency_of_before_are_refused;
pub use crate::moves::{
    misjudged_packets_are_refused, silent_sides_are_refused, wrong_moves_are_refused,
};
pub use crate::orders::wrong_orders_of_turns_are_refused;
pub use crate::procedure_lines::{
    lines_that_are_due_are_right, lines_that_are_not_due_are_refused,
    wrong_lines_of_procedures_are_refused,
};
pub use crate::resets::links_left_by_a_reset_are_refused;
pub use crate::right::{right_journals_are_lawful, worked_first_runs, worked_link_runs};
pub use crate::shuts::{links_that_stay_open_are_refused, wrong_reasons_are_refused};
pub use crate::slots::packets_outside_events_are_refused;
pub use crate::turns::{
    wrong_fates_are_refused, wrong_feeds_are_refused, wrong_radios_are_refused,
    wrong_stops_are_refused, wrong_turns_are_refused, wrong_verdicts_are_refused,
};
pub use crate::unanswered::wrong_answers_are_refused;
