//! Joint runs of the control parts of both ends of a link: procedures, parameters and phases of
//! encryption of a central and a peripheral, by the rules of a link (Core 5.2, volume 6 part B,
//! section 5). Definitions and laws; no code.
#![tactic(auto)]

mod laws;
mod rows;

pub use crate::laws::{a_last_pdu_is_on_its_way, each_end_makes_its_own_steps};
pub use crate::rows::{a_link_starts_encryption, a_map_and_a_request_cross};
