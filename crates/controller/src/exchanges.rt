//! Links that exchange packets: they have entered an event.
ghost use Rattle.std.specs.Prelude.{◌≡◌, ◌≤◌, ◌<◌, ◌+◌, ◌^◌, ◌++◌, ℕ, List};
ghost use Rattle.std.specs.Option.{option_map};
ghost use Rattle.arrayvec.specs.ArrayVec.{array_vec_len};
ghost use Rattle.acl_banks.specs.declared.pieces.Piece.{Piece};
ghost use Rattle.link_model.specs.Packets.{packet_sent};
ghost use Rattle.link_model.specs.Step.{PacketSent, PduFixed};
ghost use Rattle.open_links.specs.Knowing.{Knows as KnowsLinks};
ghost use Rattle.open_links.specs.OpenLinks.{Links, facts_in, link_after, link_at, with_change};
ghost use Rattle.controller_model.specs.Entering.{HasEntered};
ghost use Rattle.controller_model.specs.Packets.{notes_sent};

use arrayvec::ArrayVec;
use ble_base::{AIR_PACKET_OCTETS, Outbox, SlotNo};
use open_links::OpenLinks;

/// The link under a handle fixes the PDU that it sends next.
pub(crate) fn ready<const L: usize, const T: usize, const R: usize>(
    links: &mut OpenLinks<L, T, R>,
    handle: u16,
)
    ensures knows { (known : Links) (received : List (ℕ × Piece))
        → KnowsLinks links.old known received → HasEntered (link_at handle known)
        → KnowsLinks links.new (with_change handle (link_after PduFixed) known) received }
    ensures counts { (links.new.heard_to ≡ links.old.heard_to)
        × (links.new.unreported ≡ links.old.unreported) }
{
    links.ready(handle);
}

/// The packet that the link under a handle sends in this slot. A new PDU in it is noted.
pub(crate) fn send<const L: usize, const T: usize, const R: usize>(
    links: &mut OpenLinks<L, T, R>,
    handle: u16,
    slot: SlotNo,
    out: &mut Outbox,
) -> Option<ArrayVec<u8, AIR_PACKET_OCTETS>>
    requires slot { slot.0 < 2 ^ 32 }
    requires room { array_vec_len out.old ≤ 59 }
    ensures knows { (known : Links) (received : List (ℕ × Piece))
        → KnowsLinks links.old known received → HasEntered (link_at handle known)
        → KnowsLinks links.new (with_change handle (link_after (PacketSent slot.0)) known)
        received }
    ensures notes { (known : Links) (received : List (ℕ × Piece))
        → KnowsLinks links.old known received → HasEntered (link_at handle known)
        → out.new.items ≡ out.old.items ++ notes_sent slot.0 (link_at handle known) }
    ensures packet { (known : Links) (received : List (ℕ × Piece))
        → KnowsLinks links.old known received → HasEntered (link_at handle known)
        → option_map (λ packet. packet.items) result
        ≡ option_map (λ link. packet_sent link.setup (facts_in link)) (link_at handle known) }
    ensures counts { (links.new.heard_to ≡ links.old.heard_to)
        × (links.new.unreported ≡ links.old.unreported) }
{
    links.to_send(handle, slot, out)
}
