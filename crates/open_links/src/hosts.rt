//! What the host asks for on the open links of a controller, answers and ends.
#![tactic(auto, unfolding(crate::specs::Knowing::Knows))]

ghost use Rattle.std.specs.Prelude.{◌≡◌, ◌≤◌, ◌^◌, List, ℕ};
ghost use Rattle.std.specs.Option.{option_map};
ghost use Rattle.std.specs.Result.{ForOk};
ghost use Rattle.acl_banks.specs.declared.pieces.Piece.{Piece};
ghost use Rattle.procedures.specs.procedure_values.Wants.{IsAsk};
ghost use Rattle.open_links.specs.Hosts.{awaits_host_in, links_answered, links_asked};
ghost use Rattle.open_links.specs.Hosts.{links_asked_map, links_disconnected, may_ask_in};
ghost use Rattle.open_links.specs.OpenLinks.{Links, facts_in, link_at};
ghost use Rattle.open_links.specs.Knowing.{HeldLinks, Knows};

use crate::hosting::{answer_at, ask_at, ask_map_all, end_at};
use crate::links::OpenLinks;
use ble_base::{ChannelMap, ErrCode, Kind, SlotNo};
use link_end::PeerFacts;
use procedures::Ask;

impl<const L: usize, const T: usize, const R: usize> OpenLinks<L, T, R> {
    /// Whether the host may ask for a procedure of this kind on the link under a handle: it is
    /// neither wanted nor running there, and none of its procedures ended the link. None where the
    /// link is not open.
    pub fn may_ask(&self, handle: u16, kind: Kind) -> Option<bool>
        ensures { (links : Links) (received : List (ℕ × Piece))
            → Knows self.now links received
            → result ≡ option_map (may_ask_in kind) (link_at handle links) }
    {
        Some(self.link(handle)?.end.may_ask(kind))
    }

    /// The host asks for a procedure on the link under a handle, if it is open, with values in
    /// their ranges (Core 5.2, volume 6 part B, section 5.1). It begins as an event is entered. A
    /// channel map that the link is to have already changes nothing.
    pub fn ask(&mut self, handle: u16, ask: Ask)
        requires { IsAsk ask }
        ensures knows { (links : Links) (received : List (ℕ × Piece))
            → Knows self.old links received
            → Knows self.new (links_asked handle ask links) received }
        ensures counts { (self.new.heard_to ≡ self.old.heard_to)
            × (self.new.unreported ≡ self.old.unreported) }
    {
        ask_at(&mut self.places, handle, ask);
    }

    /// The host asks for a channel map on each open link of which this end is the central (Core
    /// 5.2, volume 6 part B, section 5.1.2).
    pub fn ask_map(&mut self, map: ChannelMap)
        ensures knows { (links : Links) (received : List (ℕ × Piece))
            → Knows self.old links received
            → Knows self.new (links_asked_map map links) received }
        ensures counts { (self.new.heard_to ≡ self.old.heard_to)
            × (self.new.unreported ≡ self.old.unreported) }
    {
        ask_map_all(&mut self.places, 0, map);
    }

    /// Whether a request of the peripheral waits for the host's answer on the link under a handle
    /// (Core 5.2, volume 6 part B, section 5.1.7). None where the link is not open.
    pub fn awaits_host(&self, handle: u16) -> Option<bool>
        ensures { (links : Links) (received : List (ℕ × Piece))
            → Knows self.now links received
            → result ≡ option_map awaits_host_in (link_at handle links) }
    {
        Some(self.link(handle)?.end.awaits_host())
    }

    /// The host answers a request of the peripheral on the link under a handle, if it is open: it
    /// grants it with the values of an update, or refuses it with an error (Core 5.2, volume 6
    /// part B, section 5.1.7). Nothing happens where no request waits, or the answer grants it by
    /// something else.
    pub fn answer(&mut self, handle: u16, answer: Result<Ask, ErrCode>)
        requires { ForOk answer IsAsk }
        ensures knows { (links : Links) (received : List (ℕ × Piece))
            → Knows self.old links received
            → Knows self.new (links_answered handle answer links) received }
        ensures counts { (self.new.heard_to ≡ self.old.heard_to)
            × (self.new.unreported ≡ self.old.unreported) }
    {
        answer_at(&mut self.places, handle, answer);
    }

    /// The host ends the link under a handle in this slot, if it is open, for this reason:
    /// LL_TERMINATE_IND is queued, unless the link is to end already, and no data goes any more
    /// (Core 5.2, volume 6 part B, section 5.1.6).
    pub fn end(&mut self, handle: u16, reason: ErrCode, slot: SlotNo)
        requires { slot.0 ≤ 2 ^ 32 }
        ensures knows { (links : Links) (received : List (ℕ × Piece))
            → Knows self.old links received
            → Knows self.new (links_disconnected handle reason slot.0 links) received }
        ensures counts { (self.new.heard_to ≡ self.old.heard_to)
            × (self.new.unreported ≡ self.old.unreported) }
    {
        end_at(&mut self.places, handle, reason, slot);
    }

    /// What is known of the peer of the link under a handle: its features and its version, as far
    /// as a PDU had them. None where the link is not open.
    pub fn peer(&self, handle: u16) -> Option<PeerFacts>
        ensures { (links : Links) (received : List (ℕ × Piece))
            → Knows self.now links received
            → result ≡ option_map (λ link. (facts_in link).peer) (link_at handle links) }
    {
        Some(self.link(handle)?.end.peer())
    }
}
