//! Joint runs of the control parts of both ends of a link, as runs of the exchanges of features,
//! lengths and versions (Core 5.2, volume 6 part B, sections 5.1.4, 5.1.5 and 5.1.9). Definitions
//! and laws; no code.
#![tactic(auto)]

mod laws;
mod rows;

pub use crate::laws::{
    a_version_goes_once, answers_meet_their_questions, ends_send_pdus_of_their_role,
    exchanges_are_in_one_place, few_control_pdus_wait_by_kind, few_pdus_of_exchanges_wait,
    joint_runs_are_runs_of_exchanges, lengths_fit_their_receiver,
};
pub use crate::rows::{a_question_is_kept, features_are_five_moves};
