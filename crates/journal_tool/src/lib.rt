//! Programs that make one file of a journal: from their words to their status.
#![tactic(auto)]

mod faults;
mod messages;
mod programs;
mod rendering;
mod tool;

pub use crate::faults::Fault;
pub use crate::programs::start;
pub use crate::rendering::Rendering;
pub use crate::tool::journal_tool;
