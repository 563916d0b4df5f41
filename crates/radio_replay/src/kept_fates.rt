//! The fates of a schedule as it keeps them: in little memory, since most packets pass.
ghost use Rattle.std.specs.Prelude.{◌≡◌, ◌≤◌, IfOk, length};

use crate::fates::Fate;
use arrayvec::ArrayVec;
use ble_base::AIR_PACKET_OCTETS;
use std::alloc::{AllocError, Global};
use std::marker::Model;
use wire_fields::put_octets;

/// A fate whose pattern takes as much memory as it is long.
#[derive(Debug, Drop)]
enum Storage {
    Pass,
    Lost,
    Damage { at: u16, pattern: Vec<u8> },
}

/// A fate that is kept. A clause sees it as the fate.
#[derive(Debug, Drop)]
pub(crate) struct KeptFate {
    storage: Storage,
}

impl Model for KeptFate {
    ghost use Rattle.radio_replay.specs.declared.fates.Fate.{Fate};
    ghost use Rattle.radio_replay.specs.Storage.{stored_fate, Fits};

    ghost Value = { Fate };

    ghost view = { λ fate. stored_fate fate.storage };

    ghost invariant = { λ fate. Fits fate.storage };
}

/// A copy of these octets that takes no memory.
fn copy_of(octets: &[u8]) -> ArrayVec<u8, AIR_PACKET_OCTETS>
    requires { length octets.now ≤ AIR_PACKET_OCTETS }
    ensures { result.items ≡ octets.now }
{
    let mut copy = ArrayVec::new();
    put_octets(&mut copy, octets);
    copy
}

impl KeptFate {
    /// Keeps a fate. Only a damage takes memory.
    pub(crate) fn keep(alloc: Global, fate: &Fate) -> Result<KeptFate, AllocError>
        ensures { IfOk result (λ kept. kept ≡ fate.now) }
    {
        let storage = match fate {
            Fate::Pass => Storage::Pass,
            Fate::Lost => Storage::Lost,
            Fate::Damage { at, pattern } => Storage::Damage {
                at: *at,
                pattern: Vec::from_slice(alloc, pattern.as_slice())?,
            },
        };
        Ok(KeptFate { storage })
    }

    /// The fate. It takes no memory.
    pub(crate) fn fate(&self) -> Fate
        ensures { result ≡ self.now }
    {
        match &self.storage {
            Storage::Pass => Fate::Pass,
            Storage::Lost => Fate::Lost,
            Storage::Damage { at, pattern } => Fate::Damage {
                at: *at,
                pattern: copy_of(pattern.as_slice()),
            },
        }
    }
}
