//! The control part of one end of a link, which its phase of encryption may end with an error of its
//! own (Core 5.2, volume 6 part B, section 5.1.3).
#![tactic(auto)]

mod part;
mod readers;

pub use crate::part::{ControlPart, nothing_taken};
pub use control_end::{Entry, Taken};
