//! A journal as a capture file, which analysers of Bluetooth read (our choice).
#![tactic(auto)]

mod air;
mod blocks;
mod captures;
mod centrals;
mod clock;
mod hosts;
mod laws;
mod recorder;

pub use crate::captures::capture_start;
pub use crate::laws::a_capture_is_its_parts;
pub use crate::recorder::Recorder;
