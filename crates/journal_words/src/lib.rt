//! The random words that each side draws, by the lines of a journal. Definitions and laws; no code.
#![tactic(auto)]

mod counts;
mod rows;
mod runs;

pub use crate::counts::each_line_adds_what_it_draws;
pub use crate::rows::worked_words;
pub use crate::runs::{a_station_draws_what_its_lines_say, the_words_of_a_run_are_given};
