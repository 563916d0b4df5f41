//! The control part of one end of a link with its phase of encryption, over all lists of steps
//! (Core 5.2, volume 6 part B, section 5.1.3). Definitions and laws; no code.
#![tactic(auto)]

mod laws;
mod rows;

pub use crate::laws::{
    a_central_has_the_request_of_its_encryption, a_central_only_encrypts_outside_clear_and_secure,
    a_central_with_its_phase_indicates_as_it_may, a_phase_says_whether_a_pdu_is_kept,
    an_end_moves_by_control_steps, calls_of_an_end_may_come, each_change_of_a_phase_owes_its_pdu,
    encryption_runs_outside_clear_and_secure, few_pdus_of_the_encryption_wait,
};
pub use crate::rows::{
    a_peer_that_answers_too_early_breaks_the_rules, a_peer_that_goes_on_too_early_lets_three_wait,
    a_start_is_secure, a_start_without_a_key_is_clear,
};
