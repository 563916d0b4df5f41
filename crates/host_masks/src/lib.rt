//! The event masks of a host, by the octets that its controller was fed, and the laws that each
//! controller holds these masks, alone, in a run and by the lines of a journal. None of them names
//! code.
#![tactic(auto)]

mod masks;
mod rows;

pub use crate::masks::{
    a_controller_holds_the_masks_of_its_octets, each_side_holds_the_masks_of_its_lines,
    each_station_holds_the_masks_of_its_host, masks_are_set_at_any_time, masks_decide_what_passes,
};
pub use crate::rows::{worked_masks, worked_withholding, wrong_masks};
