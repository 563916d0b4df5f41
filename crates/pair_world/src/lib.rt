//! Two controllers, the streams of their hosts and a schedule, and the run that they make: a
//! journal.
//!
//! Each turn of the schedule, a slot of 1.25 ms, feeds each controller some octets of its host's
//! stream. Then, in three phases, the controllers transmit and listen, and the schedule says what
//! becomes of each packet.
#![tactic(auto)]

mod air;
mod connect_inds;
mod links;
mod logs;
mod note_entries;
mod notes;
mod phases;
mod run;
mod stations;
mod stops;
mod turns;
mod wishes;

pub use crate::run::{RunFault, run_pair};
pub use ble_base::{Config, Side};
pub use journal::{Entry, Journal, Octets};
pub use radio_replay::Schedule;
