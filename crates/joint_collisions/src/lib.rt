//! Joint runs of both ends of a link are joint runs of the procedures that exclude each other (Core
//! 5.2, volume 6 part B, section 5.3). Definitions and laws; no code.
#![tactic(auto)]

mod laws;

pub use crate::laws::{
    a_collision_of_a_joint_run_is_rejected_next, joint_runs_are_runs_of_exclusive_procedures,
    no_joint_run_ends_by_a_collision, no_pdu_of_a_joint_run_outlives_its_procedure,
    pdus_of_a_joint_run_mean_what_they_were_sent_as, tables_of_a_joint_run_agree,
};
