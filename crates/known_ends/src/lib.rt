//! The view of a controller knows the end of each open link, at any time; so what its host asks of
//! a link by a command may come there. Laws alone; no code.
#![tactic(auto)]

mod known;
mod steps;

pub use crate::known::a_view_knows_each_open_end;
pub use crate::steps::what_hosts_ask_may_come;
