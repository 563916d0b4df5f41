//! The phases of encryption at one end of a link, as types: which PDUs it sends sealed and with
//! which counter, and which it may take (Core 5.2, volume 6 part B, section 5.1.3).
#![tactic(auto)]

mod asked;
mod classes;
mod clear;
mod facts;
mod half_clear;
mod half_keyed;
pub mod laws;
mod pausing;
mod phase;
mod secure;
mod session;

pub use crate::asked::Asked;
pub use crate::classes::PduClass;
pub use crate::clear::Clear;
pub use crate::facts::{PhaseFacts, Transition};
pub use crate::half_clear::HalfClear;
pub use crate::half_keyed::HalfKeyed;
pub use crate::pausing::Pausing;
pub use crate::phase::Phase;
pub use crate::secure::Secure;
pub use crate::session::Session;
pub use ccm_link::Forged;
