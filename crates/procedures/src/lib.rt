//! The control procedures of one end of a link: what its host wants, what either end began, the
//! control PDUs that wait to be sent, and what each PDU of the peer does (Core 5.2, volume 6 part
//! B, section 5).
#![tactic(auto)]

mod beginning;
mod encryption;
mod features;
mod going;
mod laws;
mod length;
mod map;
mod outcome;
mod phy;
mod queue;
mod refusals;
mod request;
mod sending;
mod table;
mod taking;
mod termination;
mod update;
mod version;

pub use crate::laws::{
    central_goes_on, first_that_may_begins, nothing_goes_before_the_end,
    nothing_is_queued_at_the_end, rejections_go_first, response_time,
    unawaited_answers_are_ignored, unknown_rsp_refuses, version_is_sent_once,
};
pub use crate::outcome::Outcome;
pub use crate::table::ProcTable;
pub use exclusive_stages::{CentralStage, PeerAtCentral, PeerAtPeripheral, PeripheralStage};
pub use procedure_stages::{
    Ahead, Ask, Central, CipherPdu, Closing, Draft, Effect, Exchange, Lengths, NewParams, Outgoing,
    OwnCentral, OwnPeripheral, PayloadMax, Peripheral, Progress, Rejection, Reply, Step,
};
