//! The kind of each stage.
ghost use Rattle.std.specs.Prelude.{◌≡◌, not};
ghost use Rattle.exclusive_stages.specs.Kinds.{kind_of, central_kind, peripheral_kind};
ghost use Rattle.exclusive_stages.specs.Kinds.{has_peer_at_central, has_peer_at_peripheral};
ghost use Rattle.exclusive_stages.specs.Kinds.{is_host_asked_at_central};
ghost use Rattle.exclusive_stages.specs.Kinds.{is_idle_at_central, is_idle_at_peripheral};
ghost use Rattle.exclusive_stages.specs.Kinds.{kind_sent_by_central, kind_sent_by_peripheral};

use crate::pdus::Exclusive;
use crate::stages::{CentralStage, PeerAtCentral, PeerAtPeripheral, PeripheralStage};
use ble_base::Kind;

impl Exclusive {
    /// The same kind among all kinds of control procedures.
    pub fn kind(self) -> Kind
        ensures { result ≡ kind_of self }
    {
        match self {
            Exclusive::Update => Kind::Update,
            Exclusive::Request => Kind::Request,
            Exclusive::Map => Kind::Map,
            Exclusive::Phy => Kind::Phy,
        }
    }
}

impl CentralStage {
    /// The procedure that the central began, if it began one of these.
    pub fn kind(self) -> Option<Exclusive>
        ensures { result ≡ central_kind self }
    {
        match self {
            CentralStage::Idle => None,
            CentralStage::UpdateUnsent | CentralStage::UpdateSent => Some(Exclusive::Update),
            CentralStage::MapUnsent | CentralStage::MapSent => Some(Exclusive::Map),
            _ => Some(Exclusive::Phy),
        }
    }

    /// The procedure whose first PDU the central sent, if there is one.
    pub fn sent_kind(self) -> Option<Exclusive>
        ensures { result ≡ kind_sent_by_central self }
    {
        match self {
            CentralStage::UpdateSent => Some(Exclusive::Update),
            CentralStage::MapSent => Some(Exclusive::Map),
            CentralStage::PhySent | CentralStage::PhyAnswered | CentralStage::PhyIndicated => {
                Some(Exclusive::Phy)
            }
            _ => None,
        }
    }

    /// Whether the central began none of these procedures.
    pub fn is_idle(self) -> bool
        ensures { result ≡ is_idle_at_central self }
    {
        matches!(self, CentralStage::Idle)
    }
}

impl PeripheralStage {
    /// The procedure that the peripheral began, if it began one of these.
    pub fn kind(self) -> Option<Exclusive>
        ensures { result ≡ peripheral_kind self }
    {
        match self {
            PeripheralStage::Idle => None,
            PeripheralStage::PhyUnsent | PeripheralStage::PhySent => Some(Exclusive::Phy),
            _ => Some(Exclusive::Request),
        }
    }

    /// The procedure whose first PDU the peripheral sent, if there is one.
    pub fn sent_kind(self) -> Option<Exclusive>
        ensures { result ≡ kind_sent_by_peripheral self }
    {
        match self {
            PeripheralStage::RequestSent
            | PeripheralStage::RequestAcknowledged
            | PeripheralStage::RequestGranted => Some(Exclusive::Request),
            PeripheralStage::PhySent => Some(Exclusive::Phy),
            _ => None,
        }
    }

    /// Whether the peripheral began none of these procedures.
    pub fn is_idle(self) -> bool
        ensures { result ≡ is_idle_at_peripheral self }
    {
        matches!(self, PeripheralStage::Idle)
    }
}

impl PeerAtCentral {
    /// Whether a procedure of the peripheral is in progress.
    pub fn is_some(self) -> bool
        ensures { result ≡ has_peer_at_central self }
    {
        !matches!(self, PeerAtCentral::Absent)
    }

    /// Whether a request of the peripheral waits for the host's answer.
    pub fn is_host_asked(self) -> bool
        ensures { result ≡ is_host_asked_at_central self }
    {
        matches!(self, PeerAtCentral::HostAsked)
    }
}

impl PeerAtPeripheral {
    /// Whether a procedure of the central is in progress.
    pub fn is_some(self) -> bool
        ensures { result ≡ has_peer_at_peripheral self }
    {
        !matches!(self, PeerAtPeripheral::Absent)
    }
}
