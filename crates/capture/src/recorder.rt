//! From the entries of a journal to the packets of a capture.
ghost use Rattle.std.specs.Prelude.{◌≡◌, ◌++◌, ◌∷◌, [], List, ℕ, flat_map, IfOk, OnOk};
ghost use Rattle.h4_frames.specs.Frames.{rest};
ghost use Rattle.journal.specs.declared.entries.Entry.{Entry};
ghost use Rattle.capture.specs.Capture.{blocks_after, host_interface, host_packet, octets_of};
ghost use Rattle.capture.specs.Capture.{packets_of};
ghost use Rattle.capture.specs.Centrals.{direction_of};
ghost use Rattle.capture.specs.Hosts.{fed_in, packet_at, packets_ended};
ghost use Rattle.capture.specs.Knowing.{Knows, KnowsCentrals, KnowsHost};
ghost use Rattle.capture.specs.Parts.{host_blocks, packet_by};

use crate::air::air_packet;
use crate::blocks::put_packet;
use crate::centrals::Centrals;
use crate::clock::Clock;
use crate::hosts::{HostStream, fed_in};
use ble_base::Side;
use journal::Entry;
use std::alloc::{AllocError, Global};

/// The interface of the air.
const AIR: u64 = 0;

/// The interface of a host.
fn host_interface(side: Side) -> u64
    ensures { result ≡ host_interface side }
{
    match side {
        Side::A => 1,
        Side::B => 2,
    }
}

/// Writes a packet between a host and its controller: `direction` is 0 for one of the host and 1
/// for one of the controller.
fn put_host_packet(
    alloc: Global,
    out: &mut Vec<u8>,
    direction: u8,
    side: Side,
    time: u64,
    octets: &[u8],
) -> Result<(), AllocError>
    ensures { OnOk result (out.new.items
        ≡ out.old.items ++ octets_of (host_packet direction side time octets.now)) }
{
    let mut packet = Vec::from_slice(alloc, &[0, 0, 0, direction])?;
    packet.extend_from_slice(octets)?;
    put_packet(alloc, out, host_interface(side), time, &packet)
}

/// Writes the packet that this octet of a host ends, if it ends one.
fn put_octet(
    alloc: Global,
    out: &mut Vec<u8>,
    stream: &mut HostStream,
    side: Side,
    time: u64,
    octet: u8,
) -> Result<(), AllocError>
    ensures packets { (past : List ℕ) → KnowsHost stream.old past → OnOk result (out.new.items
        ≡ out.old.items ++ host_blocks side time
        (packet_at (rest past) octet (rest (past ++ octet ∷ [])))) }
    ensures knows { (past : List ℕ) → KnowsHost stream.old past
        → OnOk result (KnowsHost stream.new (past ++ octet ∷ [])) }
{
    match stream.feed(alloc, octet)? {
        Some(packet) => put_host_packet(alloc, out, 0, side, time, &packet),
        None => Ok(()),
    }
}

/// Writes the packets that these octets of a host end.
fn put_fed(
    alloc: Global,
    out: &mut Vec<u8>,
    stream: &mut HostStream,
    side: Side,
    time: u64,
    octets: &[u8],
) -> Result<(), AllocError>
    ensures packets { (past : List ℕ) → KnowsHost stream.old past → OnOk result (out.new.items
        ≡ out.old.items ++ host_blocks side time (packets_ended past octets.now)) }
    ensures knows { (past : List ℕ) → KnowsHost stream.old past
        → OnOk result (KnowsHost stream.new (past ++ octets.now)) }
{
    let mut left = octets;
    while let Some((octet, later)) = left.split_first() {
        put_octet(alloc, out, stream, side, time, *octet)?;
        left = later;
    }
    Ok(())
}

/// Writes the packet of an entry that is not one of a host: `before` and `now` are the times before
/// the entry and with it.
fn put_own(
    alloc: Global,
    out: &mut Vec<u8>,
    centrals: &Centrals,
    before: u64,
    now: u64,
    entry: &Entry,
) -> Result<(), AllocError>
    ensures { (past : List Entry) → KnowsCentrals centrals.now past → OnOk result (out.new.items
        ≡ out.old.items ++ flat_map octets_of
        (packet_by (direction_of past) before now entry.now)) }
{
    match entry {
        Entry::Up { side, octets } => {
            put_host_packet(alloc, out, 1, *side, before, octets.as_slice())
        }
        Entry::Air {
            side,
            channel,
            octets,
            fate,
            verdict,
        } => {
            let octets = octets.as_slice();
            let direction = centrals.direction_of(*side, *channel, octets);
            let packet = air_packet(alloc, *channel, octets, fate, *verdict, direction)?;
            put_packet(alloc, out, AIR, now, &packet)
        }
        _ => Ok(()),
    }
}

/// Makes the packets of a capture, entry by entry.
///
/// Contracts speak of the entries that were recorded so far (`Knows`). After an `Err`, which is out
/// of memory, nothing is known of it.
#[derive(Drop)]
pub struct Recorder {
    clock: Clock,
    a: HostStream,
    b: HostStream,
    centrals: Centrals,
}

impl Recorder {
    /// No entry was recorded.
    pub fn new(alloc: Global) -> Recorder
        ensures { Knows result [] }
    {
        Recorder {
            clock: Clock::new(),
            a: HostStream::new(alloc),
            b: HostStream::new(alloc),
            centrals: Centrals::new(alloc),
        }
    }

    /// Writes the packets of an entry.
    fn put_entry(
        &mut self,
        alloc: Global,
        out: &mut Vec<u8>,
        entry: &Entry,
    ) -> Result<(), AllocError>
        ensures packets { (past : List Entry) → Knows self.old past → OnOk result (out.new.items
            ≡ out.old.items ++ flat_map octets_of (packets_of past entry.now)) }
        ensures knows { (past : List Entry) → Knows self.old past
            → OnOk result (Knows self.new (past ++ entry.now ∷ [])) }
    {
        let before = self.clock.microseconds();
        self.clock.pass(entry);
        let now = self.clock.microseconds();
        put_fed(
            alloc,
            out,
            &mut self.a,
            Side::A,
            before,
            fed_in(Side::A, entry),
        )?;
        put_fed(
            alloc,
            out,
            &mut self.b,
            Side::B,
            before,
            fed_in(Side::B, entry),
        )?;
        put_own(alloc, out, &self.centrals, before, now, entry)?;
        self.centrals.note(alloc, entry)?;
        Ok(())
    }

    /// Writes the packets of entries.
    fn put_entries(
        &mut self,
        alloc: Global,
        out: &mut Vec<u8>,
        entries: &[Entry],
    ) -> Result<(), AllocError>
        ensures packets { (past : List Entry) → Knows self.old past → OnOk result (out.new.items
            ≡ out.old.items ++ blocks_after past entries.now) }
        ensures knows { (past : List Entry) → Knows self.old past
            → OnOk result (Knows self.new (past ++ entries.now)) }
    {
        let mut left = entries;
        while let Some((entry, later)) = left.split_first() {
            self.put_entry(alloc, out, entry)?;
            left = later;
        }
        Ok(())
    }

    /// The octets of the packets of the next entries.
    pub fn record(&mut self, alloc: Global, entries: &[Entry]) -> Result<Vec<u8>, AllocError>
        ensures packets { (past : List Entry) → Knows self.old past
            → IfOk result (λ made. made.items ≡ blocks_after past entries.now) }
        ensures knows { (past : List Entry) → Knows self.old past
            → OnOk result (Knows self.new (past ++ entries.now)) }
    {
        let mut out = Vec::new(alloc);
        self.put_entries(alloc, &mut out, entries)?;
        Ok(out)
    }
}
