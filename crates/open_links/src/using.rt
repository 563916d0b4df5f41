//! What happens to the link under one handle.
ghost use Rattle.std.specs.Prelude.{◌≡◌, ◌<◌, ◌≤◌, ◌+◌, ◌^◌, ◌++◌, IfSome, Option, Some, length};
ghost use Rattle.std.specs.Prelude.{None, is_some, nat_lt, slice_index_or, slice_set};
ghost use Rattle.std.specs.Option.{option_map};
ghost use Rattle.arrayvec.specs.ArrayVec.{array_vec_len};
ghost use Rattle.link_end.specs.link_model.Packets.{packet_sent};
ghost use Rattle.link_end.specs.link_model.Receiving.{HasPayloadLengths};
ghost use Rattle.link_end.specs.link_model.Step.{PacketReceived, PacketSent, PduFixed};
ghost use Rattle.open_links.specs.Data.{kept_at, notes_at};
ghost use Rattle.open_links.specs.Hearing.{step_at};
ghost use Rattle.open_links.specs.OpenLinks.{Links, OpenLink, facts_in, in_event};
ghost use Rattle.open_links.specs.OpenLinks.{link_after_in_event, link_at, link_served};
ghost use Rattle.open_links.specs.OpenLinks.{with_change, with_change_from};
ghost use Rattle.link_end.specs.Tied.{IsTied};
ghost use Rattle.open_links.specs.Knowing.{BankGoes, BankStep, CanHear, CanHearIn};
ghost use Rattle.open_links.specs.Knowing.{HoldsPlace, IsTiedIn, KnowsLink, KnowsPlace};
ghost use Rattle.open_links.specs.Knowing.{KnowsPlaces};

use crate::places::OpenEnd;
use acl_banks::{RxBank, TxBank};
use arrayvec::ArrayVec;
use ble_base::{AIR_PACKET_OCTETS, Outbox, SlotNo};
use cell_table::CellTable;
use link_end::LinkStep;

/// Puts a link, or none, under a handle.
pub(crate) fn put_at<const L: usize>(
    places: &mut CellTable<OpenEnd, L>,
    handle: u16,
    link: Option<OpenEnd>,
)
    ensures { (links : Links) (known : Option OpenLink) → KnowsPlaces places.old links
        → KnowsPlace link known
        → KnowsPlaces places.new (with_change_from 0 handle (λ place. known) links) }
{
    take_at(places, handle);
    let place = handle as usize;
    if let Some(link) = link {
        if place < places.places() {
            places.put(place, link);
        }
    }
}

/// Removes the link under a handle, and says whether there was one.
pub(crate) fn take_at<const L: usize>(places: &mut CellTable<OpenEnd, L>, handle: u16) -> bool
    ensures was { result ≡ is_some (slice_index_or places.old handle None) }
    ensures gone { places.new ≡ slice_set places.old handle None }
{
    let place = handle as usize;
    let is_open = places.holds(place);
    if is_open {
        places.take(place);
    }
    is_open
}

/// The link under a handle, if it is open, has the radio in this slot.
pub(crate) fn serve_at<const L: usize>(
    places: &mut CellTable<OpenEnd, L>,
    handle: u16,
    slot: SlotNo,
)
    ensures { (links : Links) → KnowsPlaces places.old links
        → KnowsPlaces places.new (with_change handle (link_served slot.0) links) }
{
    let place = handle as usize;
    if places.holds(place) {
        places.get_mut(place).serve(slot);
    }
}

/// The link under a handle fixes the PDU that it sends next, once it entered an event.
pub(crate) fn ready_at<const L: usize, const T: usize>(
    places: &mut CellTable<OpenEnd, L>,
    handle: u16,
    tx: &TxBank<T>,
)
    requires { IsTiedIn tx.now (slice_index_or places.old handle None) }
    ensures knows { (links : Links) → KnowsPlaces places.old links
        → HoldsPlace tx.now (link_at handle links)
        → KnowsPlaces places.new (with_change handle (link_after_in_event PduFixed) links) }
    ensures bank { (links : Links) → KnowsPlaces places.old links
        → BankGoes (link_after_in_event PduFixed) (link_at handle links) tx.now tx.now }
{
    let place = handle as usize;
    if places.holds(place) {
        places.get_mut(place).ready(tx);
    }
}

/// The packet that the link under a handle sends in this slot, once it entered an event.
pub(crate) fn send_at<const L: usize, const T: usize>(
    places: &mut CellTable<OpenEnd, L>,
    handle: u16,
    slot: SlotNo,
    tx: &mut TxBank<T>,
    out: &mut Outbox,
) -> Option<ArrayVec<u8, AIR_PACKET_OCTETS>>
    requires tied { IsTiedIn tx.old (slice_index_or places.old handle None) }
    requires slot { slot.0 < 2 ^ 32 }
    requires room { array_vec_len out.old ≤ 59 }
    ensures knows { (links : Links) → KnowsPlaces places.old links → KnowsPlaces places.new
        (with_change handle (link_after_in_event (PacketSent slot.0)) links) }
    ensures bank { (links : Links) → KnowsPlaces places.old links
        → BankGoes (link_after_in_event (PacketSent slot.0)) (link_at handle links)
        tx.old tx.new }
    ensures notes { (links : Links) → KnowsPlaces places.old links → out.new.items
        ≡ out.old.items ++ notes_at (PacketSent slot.0) (in_event (link_at handle links)) }
    ensures packet { (links : Links) → KnowsPlaces places.old links
        → option_map (λ packet. packet.items) result
        ≡ option_map (λ link. packet_sent link.setup (facts_in link))
        (in_event (link_at handle links)) }
    ensures few { array_vec_len out.new ≤ array_vec_len out.old + 5 }
{
    let place = handle as usize;
    if !places.holds(place) {
        return None;
    }
    places.get_mut(place).send(slot, tx, out)
}

/// The link under a handle takes octets in this slot, once it entered an event.
pub(crate) fn hear_at<const L: usize, const T: usize, const R: usize>(
    places: &mut CellTable<OpenEnd, L>,
    handle: u16,
    octets: &[u8],
    slot: SlotNo,
    tx: &mut TxBank<T>,
    rx: &mut RxBank<R>,
    out: &mut Outbox,
) -> Option<LinkStep>
    requires can { CanHearIn slot.0 tx.old (slice_index_or places.old handle None) }
    requires slot { slot.0 < 2 ^ 32 }
    requires room { array_vec_len out.old ≤ 59 }
    ensures knows { (links : Links) → KnowsPlaces places.old links
        → KnowsPlaces places.new (with_change handle (link_after_in_event
        (PacketReceived slot.0 octets.now (nat_lt (length rx.old) R))) links) }
    ensures bank { (links : Links) → KnowsPlaces places.old links → BankGoes
        (link_after_in_event (PacketReceived slot.0 octets.now (nat_lt (length rx.old) R)))
        (link_at handle links) tx.old tx.new }
    ensures kept { (links : Links) → KnowsPlaces places.old links → rx.new ≡ rx.old
        ++ kept_at slot.0 octets.now (nat_lt (length rx.old) R)
        (in_event (link_at handle links)) }
    ensures notes { (links : Links) → KnowsPlaces places.old links → out.new.items
        ≡ out.old.items ++ notes_at (PacketReceived slot.0 octets.now (nat_lt (length rx.old) R))
        (in_event (link_at handle links)) }
    ensures step { (links : Links) → KnowsPlaces places.old links → result
        ≡ step_at slot.0 octets.now (nat_lt (length rx.old) R) (link_at handle links) }
    ensures payloads { IfSome result (λ step. HasPayloadLengths step.effect) }
    ensures kept_payloads { IfSome result (λ step. HasPayloadLengths step.kept_effect) }
    ensures few { array_vec_len out.new ≤ array_vec_len out.old + 5 }
{
    let place = handle as usize;
    if !places.holds(place) {
        return None;
    }
    places.get_mut(place).hear(octets, slot, tx, rx, out)
}

impl OpenEnd {
    /// It has the radio in this slot.
    fn serve(&mut self, slot: SlotNo)
        ensures { (link : OpenLink) → KnowsLink self.old link
            → KnowsLink self.new (link_served slot.0 link) }
    {
        self.last_served = slot.0;
    }

    /// It fixes the PDU that it sends next, once it entered an event.
    fn ready<const T: usize>(&mut self, tx: &TxBank<T>)
        requires { IsTied self.old.end tx.now }
        ensures knows { (link : OpenLink) → KnowsLink self.old link → HoldsPlace tx.now (Some link)
            → KnowsLink self.new (link_after_in_event PduFixed link) }
        ensures bank { (link : OpenLink) → KnowsLink self.old link
            → BankStep (link_after_in_event PduFixed) link tx.now tx.now }
    {
        if self.end.has_entered() {
            self.end.ready(tx);
        }
    }

    /// The packet that it sends in this slot, once it entered an event.
    fn send<const T: usize>(
        &mut self,
        slot: SlotNo,
        tx: &mut TxBank<T>,
        out: &mut Outbox,
    ) -> Option<ArrayVec<u8, AIR_PACKET_OCTETS>>
        requires tied { IsTied self.old.end tx.old }
        requires slot { slot.0 < 2 ^ 32 }
        requires room { array_vec_len out.old ≤ 59 }
        ensures knows { (link : OpenLink) → KnowsLink self.old link
            → KnowsLink self.new (link_after_in_event (PacketSent slot.0) link) }
        ensures bank { (link : OpenLink) → KnowsLink self.old link
            → BankStep (link_after_in_event (PacketSent slot.0)) link tx.old tx.new }
        ensures notes { (link : OpenLink) → KnowsLink self.old link → out.new.items
            ≡ out.old.items ++ notes_at (PacketSent slot.0) (in_event (Some link)) }
        ensures packet { (link : OpenLink) → KnowsLink self.old link
            → option_map (λ packet. packet.items) result
            ≡ option_map (λ link. packet_sent link.setup (facts_in link)) (in_event (Some link)) }
        ensures few { array_vec_len out.new ≤ array_vec_len out.old + 5 }
    {
        if !self.end.has_entered() {
            return None;
        }
        Some(self.end.to_send(slot, tx, out))
    }

    /// It takes octets in this slot, once it entered an event.
    fn hear<const T: usize, const R: usize>(
        &mut self,
        octets: &[u8],
        slot: SlotNo,
        tx: &mut TxBank<T>,
        rx: &mut RxBank<R>,
        out: &mut Outbox,
    ) -> Option<LinkStep>
        requires can { CanHear slot.0 tx.old self.old.end }
        requires slot { slot.0 < 2 ^ 32 }
        requires room { array_vec_len out.old ≤ 59 }
        ensures knows { (link : OpenLink) → KnowsLink self.old link → KnowsLink self.new
            (link_after_in_event (PacketReceived slot.0 octets.now (nat_lt (length rx.old) R))
            link) }
        ensures bank { (link : OpenLink) → KnowsLink self.old link → BankStep (link_after_in_event
            (PacketReceived slot.0 octets.now (nat_lt (length rx.old) R))) link tx.old tx.new }
        ensures kept { (link : OpenLink) → KnowsLink self.old link → rx.new ≡ rx.old
            ++ kept_at slot.0 octets.now (nat_lt (length rx.old) R) (in_event (Some link)) }
        ensures notes { (link : OpenLink) → KnowsLink self.old link → out.new.items
            ≡ out.old.items
            ++ notes_at (PacketReceived slot.0 octets.now (nat_lt (length rx.old) R))
            (in_event (Some link)) }
        ensures step { (link : OpenLink) → KnowsLink self.old link
            → result ≡ step_at slot.0 octets.now (nat_lt (length rx.old) R) (Some link) }
        ensures payloads { IfSome result (λ step. HasPayloadLengths step.effect) }
        ensures kept_payloads { IfSome result (λ step. HasPayloadLengths step.kept_effect) }
        ensures few { array_vec_len out.new ≤ array_vec_len out.old + 5 }
    {
        if !self.end.has_entered() {
            return None;
        }
        Some(self.end.heard(octets, slot, tx, rx, out))
    }
}
