//! Data channel PDUs: their header, and the control PDUs (Core 5.2, volume 6 part B, section 2.4).
#![tactic(auto)]

mod ctrl;
mod header;
pub mod laws;
mod layouts;
mod ranges;
mod reading;
mod writing;

pub use crate::ctrl::{Ctrl, CtrlRead};
pub use crate::header::{DataHeader, read_header, write_header};
pub use crate::ranges::is_update;
pub use crate::reading::read_ctrl;
pub use crate::writing::write_ctrl;
