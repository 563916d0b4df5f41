//! The commands that a host gives its controller, read from their octets (Core 5.2, volume 4 part
//! E, section 7).
#![tactic(auto)]

mod command;
mod reading;
mod rows;

pub use command::{CmdRead, Command, HandleCount};
pub use reading::read;
