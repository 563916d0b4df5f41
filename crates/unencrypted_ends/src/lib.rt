//! Ends of a link that encrypt nothing: until an encryption starts, an end with its phase goes by
//! its control part alone (Core 5.2, volume 6 part B, section 5.1.3). Definitions and laws; no code.
#![tactic(auto)]

mod laws;

pub use crate::laws::{
    an_unencrypted_end_goes_by_its_control_part, an_unencrypted_end_sends_no_encryption,
    an_unencrypted_end_stays_unencrypted, ends_begin_unencrypted,
};
