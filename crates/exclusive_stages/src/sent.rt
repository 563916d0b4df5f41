//! The stages of procedures after a PDU was first sent.
ghost use Rattle.std.specs.Prelude.{◌≡◌};
ghost use Rattle.exclusive_stages.specs.Sent.{own_sent_by_central, own_sent_by_peripheral};
ghost use Rattle.exclusive_stages.specs.Sent.{peer_sent_by_central, peer_sent_by_peripheral};

use crate::pdus::Pdu;
use crate::stages::{CentralStage, PeerAtCentral, PeerAtPeripheral, PeripheralStage};

impl CentralStage {
    /// The stage after this PDU was sent, if it is of the procedure.
    pub fn sent(self, pdu: Pdu) -> Option<CentralStage>
        ensures { result ≡ own_sent_by_central pdu self }
    {
        match (pdu, self) {
            (Pdu::UpdateInd, CentralStage::UpdateUnsent) => Some(CentralStage::UpdateSent),
            (Pdu::MapInd, CentralStage::MapUnsent) => Some(CentralStage::MapSent),
            (Pdu::PhyReq, CentralStage::PhyUnsent) => Some(CentralStage::PhySent),
            (Pdu::PhyInd, CentralStage::PhyAnswered) => Some(CentralStage::PhyIndicated),
            _ => None,
        }
    }
}

impl PeerAtCentral {
    /// The stage after the central sent this PDU.
    pub fn sent(self, pdu: Pdu) -> PeerAtCentral
        ensures { result ≡ peer_sent_by_central pdu self }
    {
        match (pdu, self) {
            (Pdu::GrantInd, PeerAtCentral::GrantUnsent) => PeerAtCentral::GrantSent,
            (Pdu::PhyInd, PeerAtCentral::PhyIndUnsent) => PeerAtCentral::PhyIndSent,
            _ => self,
        }
    }
}

impl PeripheralStage {
    /// The stage after this PDU was sent, if it is of the procedure.
    pub fn sent(self, pdu: Pdu) -> Option<PeripheralStage>
        ensures { result ≡ own_sent_by_peripheral pdu self }
    {
        match (pdu, self) {
            (Pdu::ParamReq, PeripheralStage::RequestUnsent) => Some(PeripheralStage::RequestSent),
            (Pdu::PhyReq, PeripheralStage::PhyUnsent) => Some(PeripheralStage::PhySent),
            _ => None,
        }
    }
}

impl PeerAtPeripheral {
    /// The stage after the peripheral sent this PDU.
    pub fn sent(self, pdu: Pdu) -> PeerAtPeripheral
        ensures { result ≡ peer_sent_by_peripheral pdu self }
    {
        match (pdu, self) {
            (Pdu::PhyRsp, PeerAtPeripheral::PhyRspUnsent) => PeerAtPeripheral::PhyRspSent,
            _ => self,
        }
    }
}
