//! The centrals of links, by their access addresses.
ghost use Rattle.std.specs.Prelude.{◌≡◌, ◌++◌, ◌∷◌, [], ℕ, List, IfOk, OnOk};
ghost use Rattle.journal.specs.declared.entries.Entry.{Entry};
ghost use Rattle.capture.specs.Centrals.{begun_access, direction_of, new_access, new_link, sent_by};
ghost use Rattle.capture.specs.Knowing.{KnowsCentrals};

use crate::air::plain;
use ble_base::Side;
use journal::Entry;
use std::alloc::{AllocError, Global};
use std::collections::BTreeMap;
use wire_fields::Fields;

/// Who sent a packet of a link.
#[derive(Clone, Copy, Drop)]
pub enum Direction {
    /// It is not known, or the packet is not of a link.
    Unknown,
    /// The central.
    FromCentral,
    /// The peripheral.
    FromPeripheral,
}

/// The access address of the link that a packet begins, if it begins one. Its whitening is off.
fn new_access(octets: &[u8]) -> Option<u32>
    ensures { result ≡ new_access octets.now }
{
    if octets.len() < 22 || octets[4] % 16 != 5 || octets[5] != 34 {
        return None;
    }
    Some(Fields::new(&octets[18..]).u32())
}

/// The same of a packet as it was sent.
fn begun_access(alloc: Global, channel: u8, octets: &[u8]) -> Result<Option<u32>, AllocError>
    ensures { IfOk result (λ access. access ≡ begun_access channel octets.now) }
{
    if channel < 37 || channel >= 40 {
        return Ok(None);
    }
    Ok(new_access(&plain(alloc, channel, octets)?))
}

/// The access address and the central of the link that an entry begins, if it begins one.
fn new_link(alloc: Global, entry: &Entry) -> Result<Option<(u32, Side)>, AllocError>
    ensures { IfOk result (λ link. link ≡ new_link entry.now) }
{
    let Entry::Air {
        side,
        channel,
        octets,
        ..
    } = entry
    else {
        return Ok(None);
    };
    match begun_access(alloc, *channel, octets.as_slice())? {
        Some(access) => Ok(Some((access, *side))),
        None => Ok(None),
    }
}

/// Who sent a packet of a link with this central.
fn sent_by(side: Side, central: Option<Side>) -> Direction
    ensures { result ≡ sent_by side central }
{
    match (central, side) {
        (None, _) => Direction::Unknown,
        (Some(Side::A), Side::A) | (Some(Side::B), Side::B) => Direction::FromCentral,
        (Some(_), _) => Direction::FromPeripheral,
    }
}

/// Which side sent the last CONNECT_IND with each access address.
#[derive(Drop)]
pub struct Centrals {
    by_access: BTreeMap<u32, Side>,
}

impl Centrals {
    /// None was sent.
    pub fn new(alloc: Global) -> Centrals
        ensures { KnowsCentrals result [] }
    {
        Centrals {
            by_access: BTreeMap::new(alloc),
        }
    }

    /// Notes the sender of a CONNECT_IND.
    pub fn note(&mut self, alloc: Global, entry: &Entry) -> Result<(), AllocError>
        ensures { (past : List Entry) → KnowsCentrals self.old past
            → OnOk result (KnowsCentrals self.new (past ++ entry.now ∷ [])) }
    {
        if let Some((access, side)) = new_link(alloc, entry)? {
            self.by_access.insert(access, side)?;
        }
        Ok(())
    }

    /// Who sent a packet.
    pub fn direction_of(&self, side: Side, channel: u8, octets: &[u8]) -> Direction
        ensures { (past : List Entry) → KnowsCentrals self.now past
            → result ≡ direction_of past side channel octets.now }
    {
        if channel >= 37 || octets.len() < 4 {
            return Direction::Unknown;
        }
        let access = Fields::new(octets).u32();
        sent_by(side, self.by_access.get(&access).copied())
    }
}
