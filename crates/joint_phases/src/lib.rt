//! The phases of encryption of both ends of a joint run (Core 5.2, volume 6 part B, section 5.1.3):
//! what the machine of phases sees of it, and the laws that follow. Definitions and laws; no code.
#![tactic(auto)]

pub mod laws;
mod rows;

pub use crate::rows::{a_kept_version_is_answered, crossed_versions_are_known};
