//! The journal of a run, entry by entry, and its text: a line for each entry (our choice).
#![tactic(auto)]

mod entries;
mod faults;
mod fields;
mod journal_reading;
mod journals;
mod laws;
mod line_reading;
mod lines;
mod octets;
mod readers;
mod word_tuples;
mod words;

pub use crate::entries::{Entry, Mark};
pub use crate::faults::JournalFault;
pub use crate::journals::Journal;
pub use crate::laws::{a_line_has_one_entry, a_text_has_one_journal, a_text_is_its_lines};
pub use crate::line_reading::read_line;
pub use crate::lines::{write_line, write_lines};
pub use crate::octets::Octets;
