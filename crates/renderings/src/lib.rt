//! What the programs over journals make of one, written a block of entries at a time (our choice).
#![tactic(auto)]

mod blocks;
mod captures;
mod charts;

pub use crate::captures::CaptureFile;
pub use crate::charts::MessageChart;
