//! The PDUs of the advertising channels, read from their octets and written into them (Core 5.2,
//! volume 6 part B, section 2.3).
#![tactic(auto)]

mod header;
mod parts;
mod pdu;
mod ranges;
mod reading;
mod writing;

pub use pdu::{AdvPdu, ConnectFields};
