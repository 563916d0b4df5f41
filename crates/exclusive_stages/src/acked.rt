//! The stages of procedures after a PDU was acknowledged.
ghost use Rattle.std.specs.Prelude.{◌≡◌};
ghost use Rattle.exclusive_stages.specs.Acked.{own_acked_at_central, peer_acked_at_central};
ghost use Rattle.exclusive_stages.specs.Acked.{own_acked_at_peripheral, done_by_ack_at_central};

use crate::pdus::{Exclusive, Pdu};
use crate::stages::{CentralStage, PeerAtCentral, PeripheralStage};

impl CentralStage {
    /// The stage after this PDU was acknowledged.
    pub fn acked(self, pdu: Pdu) -> CentralStage
        ensures { result ≡ own_acked_at_central pdu self }
    {
        match (pdu, self) {
            (Pdu::PhyInd, CentralStage::PhyIndicated) => CentralStage::Idle,
            _ => self,
        }
    }

    /// The procedure that the acknowledgement of this PDU completes.
    pub fn done_by_ack(self, pdu: Pdu) -> Option<Exclusive>
        ensures { result ≡ done_by_ack_at_central pdu self }
    {
        match (pdu, self) {
            (Pdu::PhyInd, CentralStage::PhyIndicated) => Some(Exclusive::Phy),
            _ => None,
        }
    }
}

impl PeerAtCentral {
    /// The stage after this PDU was acknowledged.
    pub fn acked(self, pdu: Pdu) -> PeerAtCentral
        ensures { result ≡ peer_acked_at_central pdu self }
    {
        match (pdu, self) {
            (Pdu::PhyInd, PeerAtCentral::PhyIndSent) => PeerAtCentral::Absent,
            _ => self,
        }
    }
}

impl PeripheralStage {
    /// The stage after this PDU was acknowledged.
    pub fn acked(self, pdu: Pdu) -> PeripheralStage
        ensures { result ≡ own_acked_at_peripheral pdu self }
    {
        match (pdu, self) {
            (Pdu::ParamReq, PeripheralStage::RequestSent) => PeripheralStage::RequestAcknowledged,
            _ => self,
        }
    }
}
