//! What an accepted command of the host asks of the links of a controller: which step it makes on
//! which link, how the view of the links changes, and what is answered at once. Definitions and
//! laws; no code but the type of the moment of a command.
#![tactic(auto)]

mod laws;
mod moments;

pub use crate::laws::{accepted_commands_ask_in_range, each_command_is_one_call};
pub use crate::moments::Moment;
pub use open_links::{LinkSetup, a_sealed_packet_is_opened};
