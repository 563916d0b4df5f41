//! The values of control procedures: what a host asks for, the longest payloads, and the control PDUs
//! that wait, without what is fixed as each is sent (Core 5.2, volume 6 part B, sections 2.4.2 and 5).
#![tactic(auto)]

pub mod asks;
pub mod drafts;
pub mod lengths;
pub mod values;
mod wants;

pub use crate::asks::Ask;
pub use crate::drafts::{Draft, Outgoing, Rejection};
pub use crate::lengths::Lengths;
pub use crate::values::{CipherPdu, NewParams, PayloadMax};
pub use crate::wants::Wants;
