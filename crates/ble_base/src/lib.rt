//! The types that all layers of the controller share: sides and roles, addresses, error codes,
//! counters of events and slots, channel maps, instants, and the notes of a controller.
#![tactic(auto)]

mod addresses;
mod bits;
mod channel_map;
mod counters;
mod error_codes;
mod instants;
mod laws;
mod limits;
mod notes;
mod procedure_kinds;
mod roles;
mod settings;
mod verdicts;

pub use crate::addresses::Address;
pub use crate::bits::has_bit;
pub use crate::channel_map::ChannelMap;
pub use crate::counters::{EventNo, SlotNo};
pub use crate::error_codes::ErrCode;
pub use crate::instants::instant_gap;
pub use crate::limits::{
    AIR_PACKET_OCTETS, HOST_PACKET_OCTETS, OUTBOX_NOTES, PAYLOAD_OCTETS, RANDOM_WORDS,
};
pub use crate::notes::{Note, Outbox};
pub use crate::procedure_kinds::Kind;
pub use crate::roles::{Role, Side};
pub use crate::settings::Config;
pub use crate::verdicts::Verdict;
