//! What is in progress at an end.
ghost use Rattle.std.specs.Prelude.{◌≡◌};
ghost use Rattle.procedure_stages.specs.InProgress.{first_progress, has_peer, is_encrypting};
ghost use Rattle.procedure_stages.specs.InProgress.{is_busy, is_host_asked, peer_becomes};

use crate::stages::{Ahead, Central, OwnCentral, OwnPeripheral, Peripheral, Progress};
use ble_base::Role;
use exclusive_stages::{CentralStage, PeerAtCentral, PeerAtPeripheral, PeripheralStage};

impl Progress {
    /// Nothing is in progress.
    pub fn first(role: Role) -> Self
        ensures { result ≡ first_progress role }
    {
        match role {
            Role::Central => Progress::Central(Central {
                own: OwnCentral::Exclusive(CentralStage::Idle),
                peer: PeerAtCentral::Absent,
                last_instant: None,
            }),
            Role::Peripheral => Progress::Peripheral(Peripheral {
                own: OwnPeripheral::Exclusive(PeripheralStage::Idle),
                peer: PeerAtPeripheral::Absent,
                ahead: Ahead::Nothing,
                encrypting: false,
            }),
        }
    }

    /// Whether a procedure of the peer that excludes others is in progress here.
    pub fn has_peer(self) -> bool
        ensures { result ≡ has_peer self }
    {
        match self {
            Progress::Central(c) => c.peer.is_some(),
            Progress::Peripheral(p) => p.peer.is_some(),
        }
    }

    /// Whether an encryption of the peer is in progress here.
    pub fn is_encrypting(self) -> bool
        ensures { result ≡ is_encrypting self }
    {
        match self {
            Progress::Central(_) => false,
            Progress::Peripheral(p) => p.encrypting,
        }
    }

    /// Whether a procedure that either end began is in progress here.
    pub fn is_busy(self) -> bool
        ensures { result ≡ is_busy self }
    {
        self.own_kind().is_some() || self.has_peer() || self.is_encrypting()
    }

    /// Whether a request of the peripheral waits for the host's answer.
    pub fn is_host_asked(self) -> bool
        ensures { result ≡ is_host_asked self }
    {
        match self {
            Progress::Central(c) => c.peer.is_host_asked(),
            Progress::Peripheral(_) => false,
        }
    }

    /// The same with another stage of the peripheral's procedure, at a central.
    pub fn with_peer(self, peer: PeerAtCentral) -> Self
        ensures { result ≡ peer_becomes peer self }
    {
        match self {
            Progress::Central(c) => Progress::Central(Central { peer, ..c }),
            Progress::Peripheral(_) => self,
        }
    }
}
