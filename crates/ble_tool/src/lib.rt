//! The program `ble` as a function: from its words, its files and its two streams to its status. The
//! journals that it writes are lawful.
#![tactic(auto)]

mod tool;

pub use crate::tool::ble_tool;
