//! Journals of a link that encrypts with the sample data of the standard: what its packets have on the
//! air, and packets that are refused. No code.
#![tactic(auto)]

mod packets;
mod rows;

pub use crate::packets::{
    a_response_sealed_anew_is_not_sent_again, payloads_of_the_sample_data_are_due,
    wrong_payloads_are_refused, wrong_verdicts_are_refused,
};
pub use crate::rows::{worked_payloads, worked_session_key};
