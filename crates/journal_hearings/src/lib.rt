//! Which packets of the advertising channels are heard, and which links are opened, from the lines
//! of a journal, and the laws of each run of a pair about that. None of them names code.
#![tactic(auto)]

mod hearings;
mod rows;

pub use crate::hearings::{
    each_heard_link_is_opened, each_opened_link_was_to_open, each_request_is_heard,
    each_taken_link_is_heard,
};
pub use crate::rows::{
    worked_connects, worked_offers, worked_openings, worked_refusals, worked_requests,
    worked_settings,
};
