//! The parameters of both ends of a link in a joint run: which indications the peripheral takes,
//! that both ends have equal parameters in an event, and that a link by turns and packets is a
//! joint run (Core 5.2, volume 6 part B, sections 5.1.1, 5.1.2 and 5.5). Definitions and laws; no
//! code.
#![tactic(auto)]

mod laws;
mod rows;

pub use crate::laws::{
    a_link_by_turns_is_a_joint_run, an_indication_finds_no_other, both_ends_have_equal_parameters,
    indications_arrive_in_order, instants_have_one_event, only_a_late_indication_ends_the_link,
};
pub use crate::rows::{
    a_late_update_ends_the_link, a_request_is_fixed_before_a_map_is_taken,
    an_update_comes_by_turns, an_update_holds_at_both_ends,
};
