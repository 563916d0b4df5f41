//! Scripts of tests: each line has a call, and after " =" what it gives, as words.
#![tactic(auto)]

mod notes;
mod reading;
mod scenes;
mod texts;
mod writing;

pub use notes::{put_notes, put_verdict};
pub use reading::{
    Call, call_of, hex_number, number, octet, octets_of, parts_of, side_and_call, slot,
};
pub use scenes::{TakesCalls, first_wrong};
pub use texts::{push_lines, put_text, rest_of};
pub use writing::{decimal_of, put_answer, put_number, put_octets, put_value};
