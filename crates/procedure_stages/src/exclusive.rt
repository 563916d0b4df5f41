//! What of an end's procedures, and of its PDUs, is of those that exclude each other.
ghost use Rattle.std.specs.Prelude.{◌≡◌};
ghost use Rattle.procedure_stages.specs.Exclusive.{pdu_of_draft, pdu_of_outgoing};
ghost use Rattle.procedure_stages.specs.Exclusive.{central_stage, peripheral_stage};

use crate::stages::{OwnCentral, OwnPeripheral};
use exclusive_stages::{CentralStage, Pdu, PeripheralStage};
use procedure_values::{Draft, Outgoing};

/// A PDU that waits, without its values, if it is of these procedures.
pub(crate) fn pdu_of_draft(draft: &Draft) -> Option<Pdu>
    ensures { result ≡ pdu_of_draft draft.now }
{
    match draft {
        Draft::Update(_) => Some(Pdu::UpdateInd),
        Draft::Grant(_) => Some(Pdu::GrantInd),
        Draft::Map(_) => Some(Pdu::MapInd),
        Draft::Request { .. } => Some(Pdu::ParamReq),
        Draft::PhyReq => Some(Pdu::PhyReq),
        Draft::PhyRsp => Some(Pdu::PhyRsp),
        Draft::PhyInd => Some(Pdu::PhyInd),
        _ => None,
    }
}

/// The same of one that is sent, but for rejections.
pub(crate) fn pdu_of_outgoing(outgoing: &Outgoing) -> Option<Pdu>
    ensures { result ≡ pdu_of_outgoing outgoing.now }
{
    match outgoing {
        Outgoing::Other(draft) => pdu_of_draft(draft),
        _ => None,
    }
}

impl OwnCentral {
    /// The stage of the own procedure that excludes others; one that excludes none counts as none.
    pub fn stage(self) -> CentralStage
        ensures { result ≡ central_stage self }
    {
        match self {
            OwnCentral::Exclusive(stage) => stage,
            _ => CentralStage::Idle,
        }
    }
}

impl OwnPeripheral {
    /// The stage of the own procedure that excludes others; one that excludes none counts as none.
    pub fn stage(self) -> PeripheralStage
        ensures { result ≡ peripheral_stage self }
    {
        match self {
            OwnPeripheral::Exclusive(stage) => stage,
            _ => PeripheralStage::Idle,
        }
    }
}
