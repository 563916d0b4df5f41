//! When an event of a link has a second slot, from the lines of a journal, and the law of each run
//! of two stations about that. None of them names code.
#![tactic(auto)]

mod rows;
mod slots;

pub use crate::rows::{
    second_slots_without_reason_are_refused, worked_more_bits, worked_second_slots,
};
pub use crate::slots::each_second_slot_has_its_reason;
