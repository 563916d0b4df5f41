//! A controller, call by call: the octets of its host, the turns of the radio, and what it sends to
//! the air and to its host.
//!
//! It answers all commands of the table, and carries out those that are built. It advertises, scans,
//! initiates, keeps its links, and carries the data of their hosts over them (Core 5.2, volume 6
//! part B, sections 2.4, 4.4 and 4.5, and volume 4 part E). A turn is a slot of 1.25 ms and has
//! three phases; in each the controller sends a packet, listens on a channel, or is idle. What it
//! does is defined in `controller_model`, by the calls on it.
#![tactic(auto)]

mod answers;
mod commands;
mod controllers;
mod exchanges;
mod host_data;
mod intents;
mod opening;
mod packets;
mod phases;
mod radio;
mod turns;

pub use crate::controllers::Controller;
pub use crate::intents::{Action, Intent};
