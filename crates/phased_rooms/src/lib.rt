//! How few control PDUs wait at an end with its phase of encryption, and that it can follow the
//! indications that it sends, whatever its peer sends (Core 5.2, volume 6 part B, sections 5.1.3
//! and 5.5). Laws; no code.
#![tactic(auto)]

mod laws;
mod rows;

pub use crate::laws::{few_control_pdus_wait_at_any_end, phased_ends_can_follow_what_they_send};
pub use crate::rows::{
    no_steps_lead_to_twenty_one, twenty_may_wait_at_a_central, two_requests_may_wait,
};
