//! What each side wants of the radio in a turn, which of that wins the slot, and what the side does
//! first in it, from the lines of a journal. Definitions and lemmas of runs; no code.
#![tactic(auto)]

mod rows;

pub use crate::rows::{worked_anchors, worked_first_turns, worked_held_slots, worked_winners};
pub use journal_events::a_pdu_is_understood;
