//! The stages of procedures after an event was entered from which an indication holds.
ghost use Rattle.std.specs.Prelude.{◌≡◌};
ghost use Rattle.exclusive_stages.specs.Held.{own_held_at_central, peer_held_at_central};
ghost use Rattle.exclusive_stages.specs.Held.{own_held_at_peripheral, peer_held_at_peripheral};
ghost use Rattle.exclusive_stages.specs.Held.{done_at_central, done_at_peripheral};

use crate::pdus::Exclusive;
use crate::stages::{CentralStage, PeerAtCentral, PeerAtPeripheral, PeripheralStage};

impl CentralStage {
    /// The same after its indication holds.
    pub fn held(self) -> CentralStage
        ensures { result ≡ own_held_at_central self }
    {
        match self {
            CentralStage::UpdateSent | CentralStage::MapSent => CentralStage::Idle,
            _ => self,
        }
    }

    /// The procedure that is completed as its indication holds.
    pub fn done(self) -> Option<Exclusive>
        ensures { result ≡ done_at_central self }
    {
        match self {
            CentralStage::UpdateSent => Some(Exclusive::Update),
            CentralStage::MapSent => Some(Exclusive::Map),
            _ => None,
        }
    }
}

impl PeerAtCentral {
    /// The same after an indication holds.
    pub fn held(self) -> PeerAtCentral
        ensures { result ≡ peer_held_at_central self }
    {
        match self {
            PeerAtCentral::GrantSent => PeerAtCentral::Absent,
            _ => self,
        }
    }
}

impl PeripheralStage {
    /// The same after an indication holds.
    pub fn held(self) -> PeripheralStage
        ensures { result ≡ own_held_at_peripheral self }
    {
        match self {
            PeripheralStage::RequestGranted => PeripheralStage::Idle,
            _ => self,
        }
    }

    /// The procedure that is completed as an indication holds.
    pub fn done(self) -> Option<Exclusive>
        ensures { result ≡ done_at_peripheral self }
    {
        match self {
            PeripheralStage::RequestGranted => Some(Exclusive::Request),
            _ => None,
        }
    }
}

impl PeerAtPeripheral {
    /// The same after an indication holds.
    pub fn held(self) -> PeerAtPeripheral
        ensures { result ≡ peer_held_at_peripheral self }
    {
        match self {
            PeerAtPeripheral::UpdateTaken | PeerAtPeripheral::MapTaken => PeerAtPeripheral::Absent,
            _ => self,
        }
    }
}
