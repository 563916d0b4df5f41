//! Which PDUs of the peer a procedure awaits, and of which the peer has sent one.
ghost use Rattle.std.specs.Prelude.{◌≡◌};
ghost use Rattle.exclusive_stages.specs.Awaited.{awaits_phy_rsp, peer_answered};
ghost use Rattle.exclusive_stages.specs.Awaited.{has_phy_of_central, awaits_phy_ind};
ghost use Rattle.exclusive_stages.specs.Awaited.{reads_as_answer, central_answered};

use crate::stages::{CentralStage, PeerAtPeripheral, PeripheralStage};

impl CentralStage {
    /// Whether the central awaits LL_PHY_RSP.
    pub fn awaits_phy_rsp(self) -> bool
        ensures { result ≡ awaits_phy_rsp self }
    {
        matches!(self, CentralStage::PhySent)
    }

    /// Whether the peripheral has sent a PDU of the central's own procedure.
    pub fn is_answered(self) -> bool
        ensures { result ≡ peer_answered self }
    {
        matches!(self, CentralStage::PhyAnswered | CentralStage::PhyIndicated)
    }
}

impl PeripheralStage {
    /// Whether the peripheral awaits LL_PHY_UPDATE_IND for its own procedure.
    pub fn awaits_phy_ind(self) -> bool
        ensures { result ≡ awaits_phy_ind self }
    {
        matches!(self, PeripheralStage::PhySent)
    }

    /// Whether LL_CONNECTION_UPDATE_IND answers the request of the peripheral, which is so exactly
    /// if that was acknowledged.
    pub fn reads_as_answer(self) -> bool
        ensures { result ≡ reads_as_answer self }
    {
        matches!(
            self,
            PeripheralStage::RequestAcknowledged | PeripheralStage::RequestGranted
        )
    }

    /// Whether the central has sent a PDU of the peripheral's own procedure.
    pub fn is_answered(self) -> bool
        ensures { result ≡ central_answered self }
    {
        matches!(self, PeripheralStage::RequestGranted)
    }
}

impl PeerAtPeripheral {
    /// Whether a PHY update of the central is in progress at the peripheral.
    pub fn is_phy(self) -> bool
        ensures { result ≡ has_phy_of_central self }
    {
        matches!(
            self,
            PeerAtPeripheral::PhyRspUnsent | PeerAtPeripheral::PhyRspSent
        )
    }
}
