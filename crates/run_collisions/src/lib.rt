//! Of two procedures that collide the central's prevails: laws of both ends of a link, and of each
//! run of controllers (Core 5.2, volume 6 part B, section 5.3). Definitions and laws; no code.
#![tactic(auto)]

mod links;
mod rows;
mod runs;

pub use crate::links::{
    a_rejected_procedure_is_refused, a_rejection_that_waits_goes_next,
    the_central_prevails_as_it_hears,
};
pub use crate::rows::{an_update_and_a_phy_update_collide, two_phy_updates_collide};
pub use crate::runs::{
    control_pdus_do_not_cross_in_each_run, rejected_procedures_are_refused_in_a_run_of_a_pair,
    rejected_procedures_are_refused_in_each_run, the_central_prevails_in_a_run_of_a_pair,
    the_central_prevails_in_each_run,
};
