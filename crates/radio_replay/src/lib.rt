//! The schedule of a run: the settings of the two controllers, and for each turn which radios are
//! on, what is fed, and the fates of its packets. This crate reads its text, a format of this
//! product (our choice).
//!
//! The text has lines; each ends with a newline, which the last may lack. Exactly one space is
//! between two words.
//!
//! - Line 1 is `ble-schedule 1`.
//! - Line 2 is `side a PUBLIC CURSOR WORD..`: the public device address in 12 hexadecimal digits,
//!   most significant octet first; the access address at which the search begins in 8; and one to
//!   64 random words of 16 each. Digits have either case. Line 3 is `side b ..` with the same
//!   parts.
//! - Each further line is a turn or a run of turns. There are at most 100,000 turns.
//! - A run is `run N`, N from 1 and of at most six digits: N turns with both radios on, in which
//!   nothing is fed and all packets pass.
//! - A turn is `t`; then a `+` or a `-` for the radio of A and one for that of B, in one word; then
//!   `aN` and `bN`, each of which may be left out, for N octets that are fed, 1 to 1048576; then
//!   the fates of its packets: `.` for one that passes, `x` for one that is lost, and `eP:HEX` for
//!   one into which 1 to 264 octets are xored from place P on, 0 to 263.
#![tactic(auto)]

mod draws;
mod fate_words;
mod fates;
mod faults;
mod kept_fates;
mod laws;
mod limits;
mod lines;
mod load_text;
mod loads;
mod numbers;
mod schedules;
mod side_lines;
mod streams;
mod turns;

pub use crate::fates::Fate;
pub use crate::faults::ScheduleFault;
pub use crate::laws::{a_load_has_a_schedule, a_run_is_plain_turns, every_schedule_is_read};
pub use crate::limits::{LAST_PLACE, MOST_FED, MOST_REPEATED, MOST_TURNS};
pub use crate::loads::{Load, make_load};
pub use crate::schedules::Schedule;
