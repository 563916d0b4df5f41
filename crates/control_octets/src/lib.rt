//! The values that the control PDUs of one end carry: what it sends fits the octets of its PDU, and
//! the peer reads it as that PDU (Core 5.2, volume 6 part B, section 2.4.2). Definitions and laws;
//! no code.
#![tactic(auto)]

mod laws;

pub use crate::laws::{
    an_encryption_that_is_asked_for_fits, control_pdus_are_short, values_stay_in_their_ranges,
    what_is_sent_is_read,
};
