//! The open links of a controller.
#![tactic(auto, unfolding(crate::specs::Knowing::Knows))]

ghost use Rattle.std.specs.Prelude.{◌≡◌, ◌+◌, ◌<◌, ◌≤◌, ◌^◌, ◌++◌, length, replicate};
ghost use Rattle.std.specs.Prelude.{IfOk, IfSome, List, None, [], drop, nat_lt, slice_get, ℕ};
ghost use Rattle.std.specs.Option.{option_map};
ghost use Rattle.arrayvec.specs.ArrayVec.{array_vec_len};
ghost use Rattle.acl_banks.specs.declared.pieces.Piece.{Piece};
ghost use Rattle.adv_pdu.specs.Ranges.{IsInRange};
ghost use Rattle.open_links.specs.Ended.{received_ended, received_without};
ghost use Rattle.link_end.specs.link_model.Facts.{params_of};
ghost use Rattle.link_end.specs.link_model.Packets.{packet_sent, verdict_of};
ghost use Rattle.link_end.specs.link_model.Receiving.{HasPayloadLengths};
ghost use Rattle.link_end.specs.link_model.Step.{PacketReceived, PacketSent};
ghost use Rattle.link_end.specs.link_model.Times.{has_second_exchange, span_of};
ghost use Rattle.open_links.specs.Data.{completed_from, kept_at, links_fixed};
ghost use Rattle.open_links.specs.Data.{links_offered, links_reported, notes_at, offer_of};
ghost use Rattle.open_links.specs.Data.{received_past};
ghost use Rattle.open_links.specs.Hearing.{step_at};
ghost use Rattle.open_links.specs.OpenLinks.{Links, facts_in, free_from, handles_from};
ghost use Rattle.open_links.specs.OpenLinks.{has_entered, has_link_between, in_event};
ghost use Rattle.open_links.specs.OpenLinks.{link_after_in_event, link_at, link_served};
ghost use Rattle.open_links.specs.OpenLinks.{with_change, with_link, without_link};
ghost use Rattle.open_links.specs.OpenLinks.{without_links};
ghost use Rattle.open_links.specs.Turns.{due_in, ending_in, ends_by, entry_at};
ghost use Rattle.open_links.specs.Turns.{links_entered, links_without, notes_entering};
ghost use Rattle.open_links.specs.Turns.{some_ends, want_entering};
ghost use Rattle.open_links.specs.Knowing.{HeldLinks, Knows, KnowsPlace};
ghost use Rattle.open_links.specs.Sound.{AreSound};

use crate::ending::{
    drop_ended, drop_received, drop_received_if, drop_unsent, shut_due_from, shut_ended_from,
    shut_from,
};
use crate::entering::enter_at;
use crate::places::{OpenEnd, free_from, has_any_ending, is_any_between};
use crate::reporting::{completed_from, offer, report_all};
use crate::using::{hear_at, put_at, ready_at, send_at, serve_at};
use crate::{Completed, LinkEnded, MOST_LINKS, Offer};
use acl_banks::{Piece, RxBank, TxBank};
use arrayvec::ArrayVec;
use ble_base::{AIR_PACKET_OCTETS, Address, Outbox, SlotNo, Verdict};
use cell_table::CellTable;
use instants::Params;
use link_end::{Entry, LinkSetup, LinkStep};
use slot_plan::Plan;
use std::alloc::{AllocError, Global};
use std::marker::Model;

/// The open links of a controller that holds at most `L`, each under its handle, 0 to `L` - 1.
///
/// Data goes through two banks that all links share. One has at most `T` packets of the host, each
/// of up to 251 octets. They go out in pieces of up to the effective length, and each takes its
/// buffer until its last octet is acknowledged. The other has at most `R` received pieces, each of
/// up to 251 octets, that wait for the host.
///
/// A slot is 1.25 ms. Octets on the air are in the order of the air, without preamble.
#[derive(Drop)]
pub struct OpenLinks<const L: usize, const T: usize, const R: usize> {
    /// What is under each handle, from 0 on.
    pub(crate) places: CellTable<OpenEnd, L>,
    pub(crate) tx: TxBank<T>,
    pub(crate) rx: RxBank<R>,
    /// All octets were taken before this slot.
    pub(crate) heard_to: u64,
    /// How often octets were taken since complete packets were reported.
    pub(crate) unreported: u16,
}

impl<const L: usize, const T: usize, const R: usize> Model for OpenLinks<L, T, R> {
    ghost use Rattle.std.specs.Prelude.{◌≤◌, ◌<◌, ◌^◌};
    ghost use Rattle.open_links.specs.Knowing.{HeldLinks};
    ghost use Rattle.open_links.specs.Sound.{AreSound};

    ghost Value = { HeldLinks };

    ghost view = { λ l. record {
      places = l.places;
      bank = l.tx;
      received = l.rx;
      heard_to = l.heard_to;
      unreported = l.unreported;
    } };

    ghost invariant = { λ l. (L ≤ 6) × AreSound (record {
      places = l.places;
      bank = l.tx;
      received = l.rx;
      heard_to = l.heard_to;
      unreported = l.unreported;
    }) };
}

impl<const L: usize, const T: usize, const R: usize> OpenLinks<L, T, R> {
    /// No link is open, and no data waits. It takes the memory for all links and both banks.
    ///
    /// # Errors
    ///
    /// Out of memory.
    pub fn new(alloc: Global) -> Result<Self, AllocError>
        requires link { 1 ≤ L }
        requires links { L ≤ 6 }
        requires host_buffers { (1 ≤ T) × (T ≤ 255) }
        requires air_buffers { (1 ≤ R) × (R < 2 ^ 32) }
        ensures knows { IfOk result (λ links. Knows links (replicate L None) []) }
        ensures counts { IfOk result (λ links. (links.heard_to ≡ 0) × (links.unreported ≡ 0)) }
    {
        let places = CellTable::make(alloc)?;
        let tx = TxBank::make(alloc)?;
        let rx = RxBank::make(alloc)?;
        Ok(OpenLinks {
            places,
            tx,
            rx,
            heard_to: 0,
            unreported: 0,
        })
    }

    /// The handle of a new link: the least one that no open link has. None where `L` are open.
    pub fn free_handle(&self) -> Option<u16>
        ensures known { (links : Links) (received : List (ℕ × Piece))
            → Knows self.now links received → result ≡ free_from 0 links }
        ensures within { IfSome result (λ handle. handle < L) }
    {
        free_from(&self.places, 0)
    }

    /// How many links may be open: their handles are below that.
    pub fn places(&self) -> u16
        ensures value { result ≡ L }
        ensures known { (links : Links) (received : List (ℕ × Piece))
            → Knows self.now links received → result ≡ length links }
    {
        self.places.places() as u16
    }

    /// Opens a link under the handle of this setup, from a CONNECT_IND in this slot. An open link
    /// with the handle is shut first, and its data is dropped.
    pub fn open(&mut self, setup: LinkSetup, slot: SlotNo)
        requires handle { setup.handle < L }
        requires fields { IsInRange setup.fields }
        requires crc_init { setup.fields.crc_init < 2 ^ 24 }
        requires max_rx { (27 ≤ setup.max_rx) × (setup.max_rx ≤ 251) }
        requires slot { slot.0 < 2 ^ 32 }
        ensures knows { (links : Links) (received : List (ℕ × Piece))
            → Knows self.old links received
            → Knows self.new (with_link (record { link = setup; opened = slot.0 }) links)
            (received_past (link_at setup.handle links) setup.handle received) }
        ensures counts { (self.new.heard_to ≡ self.old.heard_to)
            × (self.new.unreported ≡ self.old.unreported) }
    {
        let handle = setup.handle;
        let was_open = self.link(handle).is_some();
        let link = OpenEnd::new(setup, slot);
        put_at(&mut self.places, handle, Some(link));
        self.tx.drop_link(handle);
        drop_received_if(was_open, handle, &mut self.rx);
    }

    /// Shuts the link under a handle, if it is open. Its data is dropped in both directions: what
    /// waits to be sent, the count of complete packets, and what waits for the host.
    pub fn shut(&mut self, handle: u16)
        ensures knows { (links : Links) (received : List (ℕ × Piece))
            → Knows self.old links received
            → Knows self.new (without_link handle links) (received_without handle received) }
        ensures counts { (self.new.heard_to ≡ self.old.heard_to)
            × (self.new.unreported ≡ self.old.unreported) }
    {
        put_at(&mut self.places, handle, None);
        self.tx.drop_link(handle);
        self.rx.drop_link(handle);
    }

    /// Shuts all links and drops all data. It gives the handles of the links that were open, in
    /// ascending order.
    pub fn shut_all(&mut self) -> ArrayVec<u16, MOST_LINKS>
        ensures knows { (links : Links) (received : List (ℕ × Piece))
            → Knows self.old links received → Knows self.new (without_links links) [] }
        ensures handles { (links : Links) (received : List (ℕ × Piece))
            → Knows self.old links received → result.items ≡ handles_from 0 links }
        ensures counts { (self.new.heard_to ≡ self.old.heard_to)
            × (self.new.unreported ≡ self.old.unreported) }
    {
        let mut handles = ArrayVec::new();
        shut_from(&mut self.places, 0, &mut handles);
        drop_unsent(handles.as_slice(), &mut self.tx);
        drop_received(&mut self.rx);
        handles
    }

    /// Shuts the links that end by themselves at the start of a turn in this slot: nothing good was
    /// received in time, the peer has not answered a procedure in time, or a Disconnect of the host
    /// was not acknowledged in time. Their data is dropped in both directions. It gives each with
    /// its reason, by ascending handle.
    pub fn shut_due(&mut self, slot: SlotNo) -> ArrayVec<LinkEnded, MOST_LINKS>
        ensures knows { (links : Links) (received : List (ℕ × Piece))
            → Knows self.old links received → Knows self.new (links_without (due_in slot.0) links)
            (received_ended (ends_by (due_in slot.0) 0 links) received) }
        ensures ends { (links : Links) (received : List (ℕ × Piece))
            → Knows self.old links received → result.items ≡ ends_by (due_in slot.0) 0 links }
        ensures counts { (self.new.heard_to ≡ self.old.heard_to)
            × (self.new.unreported ≡ self.old.unreported) }
    {
        let mut ended = ArrayVec::new();
        shut_due_from(&mut self.places, 0, slot, &mut ended);
        drop_ended(ended.as_slice(), &mut self.tx, &mut self.rx);
        ended
    }

    /// Shuts the links that end at the end of a turn: LL_TERMINATE_IND of this end is acknowledged,
    /// one of its procedures ended the link, or a packet was sent after LL_TERMINATE_IND of the
    /// peer was taken (Core 5.2, volume 6 part B, section 5.1.6). Their data is dropped in both
    /// directions. It gives each with its reason, by ascending handle.
    pub fn shut_ended(&mut self) -> ArrayVec<LinkEnded, MOST_LINKS>
        ensures knows { (links : Links) (received : List (ℕ × Piece))
            → Knows self.old links received → Knows self.new (links_without ending_in links)
            (received_ended (ends_by ending_in 0 links) received) }
        ensures ends { (links : Links) (received : List (ℕ × Piece))
            → Knows self.old links received → result.items ≡ ends_by ending_in 0 links }
        ensures few { length result.items ≤ L }
        ensures counts { (self.new.heard_to ≡ self.old.heard_to)
            × (self.new.unreported ≡ self.old.unreported) }
    {
        let mut ended = ArrayVec::new();
        shut_ended_from(&mut self.places, 0, &mut ended);
        drop_ended(ended.as_slice(), &mut self.tx, &mut self.rx);
        ended
    }

    /// Whether `shut_ended` would shut a link.
    pub fn has_ending(&self) -> bool
        ensures { (links : Links) (received : List (ℕ × Piece))
            → Knows self.now links received → result ≡ some_ends ending_in links }
    {
        has_any_ending(&self.places, 0)
    }

    /// Whether a link is open whose own address is `own` and whose peer has `peer`.
    pub fn has_link_between(&self, own: &Address, peer: &Address) -> bool
        ensures { (links : Links) (received : List (ℕ × Piece))
            → Knows self.now links received
            → result ≡ has_link_between own.now peer.now links }
    {
        is_any_between(&self.places, 0, own, peer)
    }

    /// The link under a handle enters its event, if it is open, goes on and has its anchor in this
    /// slot. The event is noted. A link that wants the radio for it is added to the plan, with the
    /// slot in which it had the radio last. It gives what comes of the event, and None where it
    /// enters none.
    pub fn enter(
        &mut self,
        handle: u16,
        slot: SlotNo,
        plan: &mut Plan,
        out: &mut Outbox,
    ) -> Option<Entry>
        requires slot { slot.0 < 2 ^ 32 }
        requires room { array_vec_len out.old ≤ 59 }
        requires wants { length plan.old.wants < 16 }
        ensures knows { (links : Links) (received : List (ℕ × Piece))
            → Knows self.old links received
            → Knows self.new (links_entered slot.0 handle links) received }
        ensures notes { (links : Links) (received : List (ℕ × Piece))
            → Knows self.old links received
            → out.new.items ≡ out.old.items ++ notes_entering slot.0 (link_at handle links) }
        ensures entry { (links : Links) (received : List (ℕ × Piece))
            → Knows self.old links received → result ≡ entry_at slot.0 (link_at handle links) }
        ensures wants { (links : Links) (received : List (ℕ × Piece))
            → Knows self.old links received → plan.new.wants
            ≡ plan.old.wants ++ want_entering slot.0 handle (link_at handle links) }
        ensures hold { plan.new.hold ≡ plan.old.hold }
        ensures few { array_vec_len out.new ≤ array_vec_len out.old + 5 }
        ensures few_wants { length plan.new.wants ≤ length plan.old.wants + 1 }
        ensures counts { (self.new.heard_to ≡ self.old.heard_to)
            × (self.new.unreported ≡ self.old.unreported) }
    {
        enter_at(&mut self.places, handle, slot, &self.tx, plan, out)
    }

    /// Keeps that the link under a handle, if it is open, has the radio in this slot. Of two links
    /// that want one slot, the plan serves the one that had the radio earlier.
    pub fn serve(&mut self, handle: u16, slot: SlotNo)
        ensures knows { (links : Links) (received : List (ℕ × Piece))
            → Knows self.old links received
            → Knows self.new (with_change handle (link_served slot.0) links) received }
        ensures counts { (self.new.heard_to ≡ self.old.heard_to)
            × (self.new.unreported ≡ self.old.unreported) }
    {
        serve_at(&mut self.places, handle, slot);
    }

    /// The link under a handle, if it is open and entered an event, fixes the PDU that it sends
    /// after the last one is acknowledged: a control PDU that may be sent, or else the next piece
    /// of its data, of up to the effective length, or an empty PDU. It is called before
    /// [`OpenLinks::to_send`], as a turn begins in which the link may send.
    pub fn ready(&mut self, handle: u16)
        ensures knows { (links : Links) (received : List (ℕ × Piece))
            → Knows self.old links received → Knows self.new (links_fixed handle links) received }
        ensures counts { (self.new.heard_to ≡ self.old.heard_to)
            × (self.new.unreported ≡ self.old.unreported) }
    {
        ready_at(&mut self.places, handle, &self.tx);
    }

    /// The packet that the link under a handle sends in this slot, from its access address to its
    /// CRC. It carries the last PDU again until that is acknowledged, and then the one that was
    /// fixed. A new PDU in it that is not empty is noted. None where the link is not open or has
    /// entered no event.
    pub fn to_send(
        &mut self,
        handle: u16,
        slot: SlotNo,
        out: &mut Outbox,
    ) -> Option<ArrayVec<u8, AIR_PACKET_OCTETS>>
        requires slot { slot.0 < 2 ^ 32 }
        requires room { array_vec_len out.old ≤ 59 }
        ensures knows { (links : Links) (received : List (ℕ × Piece))
            → Knows self.old links received
            → Knows self.new (with_change handle (link_after_in_event (PacketSent slot.0)) links)
            received }
        ensures notes { (links : Links) (received : List (ℕ × Piece))
            → Knows self.old links received → out.new.items
            ≡ out.old.items ++ notes_at (PacketSent slot.0) (in_event (link_at handle links)) }
        ensures packet { (links : Links) (received : List (ℕ × Piece))
            → Knows self.old links received
            → option_map (λ packet. packet.items) result
            ≡ option_map (λ link. packet_sent link.setup (facts_in link))
            (in_event (link_at handle links)) }
        ensures few { array_vec_len out.new ≤ array_vec_len out.old + 5 }
        ensures counts { (self.new.heard_to ≡ self.old.heard_to)
            × (self.new.unreported ≡ self.old.unreported) }
    {
        send_at(&mut self.places, handle, slot, &mut self.tx, out)
    }

    /// What the link under a handle makes of octets on its channel, from the access address on. It
    /// changes nothing. None where the link is not open.
    pub fn judge(&self, handle: u16, octets: &[u8]) -> Option<Verdict>
        ensures { (links : Links) (received : List (ℕ × Piece))
            → Knows self.now links received
            → result ≡ option_map (λ link. verdict_of link.setup (facts_in link) octets.now)
            (link_at handle links) }
    {
        Some(self.link(handle)?.end.judge(octets))
    }

    /// The link under a handle takes octets on its channel in this slot, from the access address
    /// on, and says what comes of them. None where it is not open or has entered no event.
    ///
    /// Only a good packet changes the link: it may acknowledge the last PDU, and may carry a new
    /// one. New data is kept for the host where there is room. Without room it is not accepted, so
    /// that the peer sends it again. The procedures of the link take a new control PDU. A new PDU
    /// that is not empty is noted as it is accepted, and so is a procedure that is done or refused.
    ///
    /// Octets are taken at most once in a slot, in ascending slots, and at most 65535 times before
    /// complete packets are reported again.
    pub fn heard(
        &mut self,
        handle: u16,
        octets: &[u8],
        slot: SlotNo,
        out: &mut Outbox,
    ) -> Option<LinkStep>
        requires slot { slot.0 < 2 ^ 32 }
        requires once { self.old.heard_to ≤ slot.0 }
        requires counts { self.old.unreported < 65535 }
        requires room { array_vec_len out.old ≤ 59 }
        ensures knows { (links : Links) (received : List (ℕ × Piece))
            → Knows self.old links received → Knows self.new
            (with_change handle (link_after_in_event
            (PacketReceived slot.0 octets.now (nat_lt (length received) R))) links)
            (received ++ kept_at slot.0 octets.now (nat_lt (length received) R)
            (in_event (link_at handle links))) }
        ensures notes { (links : Links) (received : List (ℕ × Piece))
            → Knows self.old links received → out.new.items ≡ out.old.items
            ++ notes_at (PacketReceived slot.0 octets.now (nat_lt (length received) R))
            (in_event (link_at handle links)) }
        ensures step { (links : Links) (received : List (ℕ × Piece))
            → Knows self.old links received → result
            ≡ step_at slot.0 octets.now (nat_lt (length received) R) (link_at handle links) }
        ensures payloads { IfSome result (λ step. HasPayloadLengths step.effect) }
        ensures kept_payloads { IfSome result (λ step. HasPayloadLengths step.kept_effect) }
        ensures few { array_vec_len out.new ≤ array_vec_len out.old + 5 }
        ensures counts { (self.new.heard_to ≡ slot.0 + 1)
            × (self.new.unreported ≡ self.old.unreported + 1) }
    {
        self.heard_to = slot.0 + 1;
        self.unreported += 1;
        let (places, tx, rx) = (&mut self.places, &mut self.tx, &mut self.rx);
        hear_at(places, handle, octets, slot, tx, rx, out)
    }

    /// The data channel of the event that the link under a handle entered last, 0 to 36. None where
    /// the link is not open.
    pub fn channel(&self, handle: u16) -> Option<u8>
        ensures data { IfSome result (λ channel. channel < 37) }
        ensures known { (links : Links) (received : List (ℕ × Piece))
            → Knows self.now links received
            → result ≡ option_map (λ link. (facts_in link).event.channel)
            (link_at handle links) }
    {
        Some(self.link(handle)?.end.channel())
    }

    /// Whether the link under a handle has entered an event: before its first one it neither sends
    /// nor receives. None where the link is not open.
    pub fn has_entered(&self, handle: u16) -> Option<bool>
        ensures { (links : Links) (received : List (ℕ × Piece))
            → Knows self.now links received
            → result ≡ option_map has_entered (link_at handle links) }
    {
        Some(self.link(handle)?.end.has_entered())
    }

    /// The slots for which an event of the link under a handle holds the radio: 2 while no payload
    /// is longer than 27 octets, else 4. None where the link is not open.
    pub fn span(&self, handle: u16) -> Option<u8>
        ensures { (links : Links) (received : List (ℕ × Piece))
            → Knows self.now links received
            → result ≡ option_map (λ link. span_of (facts_in link)) (link_at handle links) }
    {
        Some(self.link(handle)?.end.span())
    }

    /// Whether the event that the link under a handle entered last has a second exchange, in the
    /// slot after its anchor. None where the link is not open.
    pub fn again(&self, handle: u16) -> Option<bool>
        ensures { (links : Links) (received : List (ℕ × Piece))
            → Knows self.now links received
            → result ≡ option_map (λ link. has_second_exchange (facts_in link))
            (link_at handle links) }
    {
        Some(self.link(handle)?.end.again())
    }

    /// What the link under a handle was set up with. None where the link is not open.
    pub fn setup(&self, handle: u16) -> Option<LinkSetup>
        ensures { (links : Links) (received : List (ℕ × Piece))
            → Knows self.now links received
            → result ≡ option_map (λ link. link.setup.link) (link_at handle links) }
    {
        Some(self.link(handle)?.end.setup())
    }

    /// The parameters of the link under a handle in the event that it entered last, and its first
    /// ones before event 0. None where the link is not open.
    pub fn params(&self, handle: u16) -> Option<Params>
        ensures { (links : Links) (received : List (ℕ × Piece))
            → Knows self.now links received
            → result ≡ option_map (λ link. params_of (facts_in link)) (link_at handle links) }
    {
        Some(self.link(handle)?.end.params())
    }

    /// The host gives a packet to the link under a handle, after those that wait, and learns what
    /// becomes of it. `start` says that it starts a message, and does not continue one. It is kept
    /// where the link is open, it has 1 to 251 octets, and a buffer is free.
    pub fn give(&mut self, handle: u16, start: bool, body: &[u8]) -> Offer
        ensures offer { (links : Links) (received : List (ℕ × Piece))
            → Knows self.old links received
            → result ≡ offer_of T handle (length body.now) links }
        ensures knows { (links : Links) (received : List (ℕ × Piece))
            → Knows self.old links received → Knows self.new
            (links_offered (offer_of T handle (length body.now) links) handle start body.now links)
            received }
        ensures counts { (self.new.heard_to ≡ self.old.heard_to)
            × (self.new.unreported ≡ self.old.unreported) }
    {
        let is_open = self.link(handle).is_some();
        offer(is_open, handle, start, body, &mut self.tx)
    }

    /// Takes out the piece that was received first, of all links, with the handle of its link. None
    /// where no piece waits for the host.
    pub fn hand_up(&mut self) -> Option<(u16, Piece)>
        ensures first { (links : Links) (received : List (ℕ × Piece))
            → Knows self.old links received → result ≡ slice_get received 0 }
        ensures knows { (links : Links) (received : List (ℕ × Piece))
            → Knows self.old links received → Knows self.new links (drop 1 received) }
        ensures counts { (self.new.heard_to ≡ self.old.heard_to)
            × (self.new.unreported ≡ self.old.unreported) }
    {
        self.rx.hand_up()
    }

    /// How many packets of each link are complete, by ascending handle: all their octets were
    /// acknowledged, and they were not reported before. Links with none are left out. They count as
    /// reported from then on.
    pub fn report(&mut self) -> ArrayVec<Completed, MOST_LINKS>
        ensures completed { (links : Links) (received : List (ℕ × Piece))
            → Knows self.old links received → result.items ≡ completed_from 0 links }
        ensures knows { (links : Links) (received : List (ℕ × Piece))
            → Knows self.old links received → Knows self.new (links_reported links) received }
        ensures few { length result.items ≤ L }
        ensures counts { (self.new.heard_to ≡ self.old.heard_to) × (self.new.unreported ≡ 0) }
    {
        let mut completed = ArrayVec::new();
        completed_from(&self.places, 0, &self.tx, &mut completed);
        report_all(completed.as_slice(), &mut self.tx);
        self.unreported = 0;
        completed
    }

    /// The link under a handle.
    pub(crate) fn link(&self, handle: u16) -> Option<&OpenEnd>
        ensures { (links : Links) (received : List (ℕ × Piece))
            → Knows self.now links received
            → KnowsPlace (option_map (λ link. link.now) result) (link_at handle links) }
    {
        let place = handle as usize;
        if self.places.holds(place) {
            Some(self.places.get(place))
        } else {
            None
        }
    }
}
