//! What the status of a command depends on, the settings that the host has made and the links
//! (Core 5.2, volume 4 part E, section 7): the view, the status of each command in it, and how
//! accepted commands and notes change it.
#![tactic(auto)]

mod accepted;
mod advertising;
mod changes;
mod connecting;
mod flow;
pub mod laws;
mod link_commands;
mod links;
mod noted;
mod on_links;
mod refusals;
mod scanning;
mod statuses;
mod view;

pub use crate::links::{Asked, Link};
pub use crate::statuses::status;
pub use crate::view::{Advertising, HostFlow, HostView, MOST_LINKS, Scanning};
pub use scan_init::ACCEPT_LIST_SIZE;
