//! The inside of the program `ble`, from its words, its files and its two streams to its status. Its
//! journals are those of runs; the crate above says what is lawful of them.
#![tactic(auto)]

mod commands;
mod counts;
mod faults;
mod makes;
mod messages;
mod pairs;
mod reading;
mod tool;
mod writing;

pub use crate::commands::{Command, CommandFile, FILE_LIMIT, PairNames};
pub use crate::faults::Fault;
pub use crate::tool::run_words;
