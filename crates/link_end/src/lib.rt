//! One end of a link: its connection events, its packets, its data, its control procedures and its
//! encryption, and when it ends (Core 5.2, volume 6 part B, sections 4.5 and 5).
#![tactic(auto)]

mod controls;
mod ends;
mod entering;
mod first;
mod fixing;
mod hearing;
mod hosts;
mod laws;
mod packets;
mod pdus;
mod readers;
mod reading;
mod sending;
mod steps;
mod taking;

pub use crate::ends::{LinkEnd, LinkStep};
pub use crate::laws::{a_bank_changes_alone, a_link_leaves_others, a_link_that_knows_is_tied};
pub use control_end::Entry;
pub use link_model::{LinkSetup, PeerFacts, PeerVersion, a_sealed_packet_is_opened};
