//! Text of lines and words: its lines, the words of a line, and the numbers and signs that words spell
//! (our choice).
//!
//! Each line ends with a newline, which the last may lack. Exactly one space is between two words. A
//! number has decimal digits alone: no sign, and no zero before other digits.
#![tactic(auto)]

mod cursors;
mod cuts;
mod numbers;
mod signs;

pub use crate::cursors::{Lines, Words};
pub use crate::cuts::{cut, two_parts};
pub use crate::numbers::read_number;
pub use crate::signs::read_sign;
