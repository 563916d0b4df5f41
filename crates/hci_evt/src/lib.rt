//! The events that a controller gives its host: their packets, read and written, and the bits that
//! mask them.
#![tactic(auto)]

mod event;
mod mask;
mod reading;
mod rows;
mod writing;

pub use event::{Event, MaskBit};
pub use mask::mask_bit;
pub use reading::read;
pub use writing::{put_event, write};
