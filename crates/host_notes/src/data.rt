//! Data for the host: the pieces that it receives, which of its packets are complete, and what
//! becomes of those that are not kept (Core 5.2, volume 4 part E, sections 5.4.2, 7.7.19 and 7.7.26).
ghost use Rattle.std.specs.Prelude.{◌≡◌, ◌≤◌, ◌<◌, ◌+◌, ◌++◌, ℕ, List, [], ◌∷◌, drop, length, map, take};
ghost use Rattle.arrayvec.specs.ArrayVec.{array_vec_len};
ghost use Rattle.hci_evt.specs.declared.event.Event.TheVariants.{CompletedPackets};
ghost use Rattle.acl_banks.specs.declared.pieces.Piece.{Piece};
ghost use Rattle.open_links.specs.Knowing.{Knows as KnowsLinks};
ghost use Rattle.open_links.specs.OpenLinks.{Links};
ghost use Rattle.controller_model.specs.Data.{acl_packet, boundary_of, event_completed};
ghost use Rattle.controller_model.specs.Data.{note_received, notes_offered};
ghost use Rattle.controller_model.specs.Events.{notes_of_events};

use crate::masks::tell;
use acl_banks::Piece;
use arrayvec::ArrayVec;
use ble_base::{HOST_PACKET_OCTETS, Note, Outbox};
use hci_evt::Event;
use host_view::HostView;
use open_links::{Completed, Offer, OpenLinks};
use wire_fields::{put_octets, put_u16};

/// The packet indicator of ACL data (Core 5.2, volume 4 part A, section 2).
const ACL_INDICATOR: u8 = 0x02;

/// The packet boundary flags of the start of a message and of a continuation, in bits 12 and 13
/// (volume 4 part E, section 5.4.2).
const START: u16 = 0x2000;

const CONTINUATION: u16 = 0x1000;

/// The link type of ACL in Data Buffer Overflow (section 7.7.26).
const ACL_LINK: u8 = 0x01;

/// The packet boundary flags of a piece to the host.
fn boundary(start: bool) -> u16
    ensures { result ≡ boundary_of start }
{
    if start { START } else { CONTINUATION }
}

/// A piece of the link under a handle as an ACL packet to the host.
fn acl_packet(handle: u16, piece: &Piece) -> ArrayVec<u8, HOST_PACKET_OCTETS>
    ensures { result.items ≡ acl_packet (handle, piece.now) }
{
    let mut packet = ArrayVec::new();
    packet.push(ACL_INDICATOR);
    put_u16(&mut packet, handle.wrapping_add(boundary(piece.start)));
    put_u16(&mut packet, piece.body.len() as u16);
    put_octets(&mut packet, piece.body.as_slice());
    packet
}

/// The host receives a piece of the link under a handle.
fn tell_piece(handle: u16, piece: &Piece, out: &mut Outbox)
    requires { array_vec_len out.old < 64 }
    ensures notes { out.new.items ≡ out.old.items ++ note_received (handle, piece.now) ∷ [] }
    ensures few { array_vec_len out.new ≤ array_vec_len out.old + 1 }
{
    out.push(Note::Up(acl_packet(handle, piece)));
}

/// The host receives the pieces that links took, in order, at most this many of them.
pub fn hand_up<const L: usize, const T: usize, const R: usize>(
    links: &mut OpenLinks<L, T, R>,
    most: usize,
    out: &mut Outbox,
)
    requires room { array_vec_len out.old + most ≤ 64 }
    ensures knows { (known : Links) (received : List (ℕ × Piece))
        → KnowsLinks links.old known received → KnowsLinks links.new known (drop most received) }
    ensures notes { (known : Links) (received : List (ℕ × Piece))
        → KnowsLinks links.old known received
        → out.new.items ≡ out.old.items ++ map note_received (take most received) }
    ensures few { array_vec_len out.new ≤ array_vec_len out.old + most }
    ensures counts { (links.new.heard_to ≡ links.old.heard_to)
        × (links.new.unreported ≡ links.old.unreported) }
{
    if most == 0 {
        return;
    }
    let Some((handle, piece)) = links.hand_up() else {
        return;
    };
    tell_piece(handle, &piece, out);
    hand_up(links, most - 1, out);
}

/// The host receives which packets of one link are complete. Most turns complete none, so this is
/// kept out of their code.
#[inline(never)]
fn tell_link_completed(view: &HostView, completed: &Completed, out: &mut Outbox)
    requires { array_vec_len out.old < 64 }
    ensures notes { out.new.items
        ≡ out.old.items ++ notes_of_events view.now (event_completed completed.now ∷ []) }
    ensures few { array_vec_len out.new ≤ array_vec_len out.old + 1 }
{
    let event = Event::CompletedPackets {
        handle: completed.handle,
        count: completed.count,
    };
    tell(view, &event, out);
}

/// The host receives which packets are complete.
pub fn tell_completed(view: &HostView, completed: &[Completed], out: &mut Outbox)
    requires { array_vec_len out.old + length completed.now ≤ 64 }
    ensures notes { out.new.items ≡ out.old.items
        ++ notes_of_events view.now (map event_completed completed.now) }
    ensures few { array_vec_len out.new ≤ array_vec_len out.old + length completed.now }
{
    let Some((one, rest)) = completed.split_first() else {
        return;
    };
    tell_link_completed(view, one, out);
    tell_completed(view, rest, out);
}

/// The host receives that one packet of the link under a handle is complete.
fn tell_one(view: &HostView, handle: u16, out: &mut Outbox)
    requires { array_vec_len out.old < 64 }
    ensures { out.new.items
        ≡ out.old.items ++ notes_of_events view.now (CompletedPackets handle 1 ∷ []) }
{
    tell(view, &Event::CompletedPackets { handle, count: 1 }, out);
}

/// The host receives what becomes of a packet that is not kept: an empty one is complete at once,
/// and one for which there is no room is lost.
pub fn tell_offer(view: &HostView, offer: Offer, handle: u16, out: &mut Outbox)
    requires { array_vec_len out.old < 64 }
    ensures { out.new.items ≡ out.old.items ++ notes_offered view.now offer handle }
{
    match offer {
        Offer::NoLink | Offer::Kept => {}
        Offer::Empty => tell_one(view, handle, out),
        Offer::Overflow => {
            let event = Event::BufferOverflow {
                link_kind: ACL_LINK,
            };
            tell(view, &event, out);
        }
    }
}
