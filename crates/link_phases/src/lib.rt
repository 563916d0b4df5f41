//! When the encryption of a link runs at one of its ends, by the notes of that end (Core 5.2, volume
//! 6 part B, section 5.1.3). Laws; no code.
#![tactic(auto)]

mod laws;

pub use crate::laws::an_encryption_runs_outside_clear_and_secure;
