//! The packets in the octets of a host.
ghost use Rattle.std.specs.Prelude.{◌≡◌, ◌++◌, ◌∷◌, [], List, ℕ, false, IfOk, OnOk, if◌then◌else◌};
ghost use Rattle.std.specs.Option.{option_map, option_to_list};
ghost use Rattle.h4_frames.specs.Frames.{reset_octets, rest};
ghost use Rattle.capture.specs.Hosts.{fed_in, packet_at};
ghost use Rattle.capture.specs.Knowing.{KnowsHost};

use ble_base::Side;
use h4_frames::{Fed, Framer};
use journal::Entry;
use std::alloc::{AllocError, Global};
use std::mem;

/// An HCI_Reset with its indicator (Core 5.2, volume 4 part E, section 7.3.2).
const RESET: [u8; 4] = [0x01, 0x03, 0x0C, 0x00];

/// The octets that a host sent in an entry.
pub fn fed_in(side: Side, entry: &Entry) -> &[u8]
    ensures { result.now ≡ fed_in side entry.now }
{
    match (side, entry) {
        (
            Side::A,
            Entry::Fed {
                side: Side::A,
                octets,
            },
        ) => octets.as_slice(),
        (
            Side::B,
            Entry::Fed {
                side: Side::B,
                octets,
            },
        ) => octets.as_slice(),
        _ => &[],
    }
}

/// Cuts the octets of a host into packets.
#[derive(Drop)]
pub struct HostStream {
    framer: Framer,
    /// The octets of the packet that is begun.
    front: Vec<u8>,
    /// Whether synchronisation is lost.
    is_lost: bool,
}

impl HostStream {
    /// Nothing was sent.
    pub fn new(alloc: Global) -> HostStream
        ensures { KnowsHost result [] }
    {
        let framer = Framer::new();
        let front = Vec::new(alloc);
        HostStream {
            framer,
            front,
            is_lost: false,
        }
    }

    /// Takes an octet after which more are needed; in the search for an HCI_Reset it is skipped.
    fn keep(&mut self, octet: u8) -> Result<(), AllocError>
        ensures front { OnOk result (self.new.front.items ≡ (if self.old.is_lost
            then self.old.front.items else self.old.front.items ++ octet ∷ [])) }
        ensures lost { self.new.is_lost ≡ self.old.is_lost }
        ensures framer { self.new.framer ≡ self.old.framer }
    {
        if self.is_lost {
            return Ok(());
        }
        self.front.push(octet)?;
        Ok(())
    }

    /// Takes the last octet of a packet, and gives the packet.
    fn end(&mut self, alloc: Global, octet: u8) -> Result<Vec<u8>, AllocError>
        ensures packet { IfOk result (λ packet. packet.items ≡ (if self.old.is_lost
            then reset_octets else self.old.front.items ++ octet ∷ [])) }
        ensures front { OnOk result (self.new.front.items
            ≡ (if self.old.is_lost then self.old.front.items else [])) }
        ensures lost { OnOk result (self.new.is_lost ≡ false) }
        ensures framer { self.new.framer ≡ self.old.framer }
    {
        if self.is_lost {
            self.is_lost = false;
            return Vec::from_slice(alloc, &RESET);
        }
        self.front.push(octet)?;
        Ok(mem::replace(&mut self.front, Vec::new(alloc)))
    }

    /// Takes the next octet, and gives the packet that ends with it. The error is out of memory.
    pub fn feed(&mut self, alloc: Global, octet: u8) -> Result<Option<Vec<u8>>, AllocError>
        ensures packet { (past : List ℕ) → KnowsHost self.old past → IfOk result (λ packet.
            option_to_list (option_map (λ octets. octets.items) packet)
            ≡ packet_at (rest past) octet (rest (past ++ octet ∷ []))) }
        ensures knows { (past : List ℕ) → KnowsHost self.old past
            → OnOk result (KnowsHost self.new (past ++ octet ∷ [])) }
    {
        match self.framer.feed(octet) {
            Fed::More => {
                self.keep(octet)?;
                Ok(None)
            }
            Fed::LostSync => {
                self.is_lost = true;
                Ok(None)
            }
            Fed::Packet(_) => Ok(Some(self.end(alloc, octet)?)),
        }
    }
}
