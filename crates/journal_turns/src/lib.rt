//! The turns of a journal, by its lines and its schedule: which there are, what is fed in them, the
//! fates of their packets and the verdicts on these; and the law of each run of a pair about that.
//! None of them names code.
#![tactic(auto)]

mod lines;

pub use crate::lines::{a_run_stops_in_its_turn, each_journal_follows_its_schedule};
