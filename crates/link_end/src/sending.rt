//! What an end sends: its packet, and the notes of new PDUs.
ghost use Rattle.std.specs.Prelude.{◌≡◌, ◌+◌, ◌<◌, ◌≤◌, ◌^◌, ◌++◌, true, not, IsSome, None};
ghost use Rattle.std.specs.Prelude.{length};
ghost use Rattle.arrayvec.specs.ArrayVec.{array_vec_len};
ghost use Rattle.ack_bit.specs.AckBits.{header_of};
ghost use Rattle.acl_banks.specs.Banks.{next_piece, packet_out};
ghost use Rattle.air_frame.specs.Packet.{on_air};
ghost use Rattle.data_pdu.specs.Header.{octets_of};
ghost use Rattle.link_model.specs.phased_end.Reached.{IsReached};
ghost use Rattle.link_model.specs.Data.{is_data, is_empty};
ghost use Rattle.link_model.specs.Events.{event_sent};
ghost use Rattle.link_model.specs.Payload.{end_sending, payload_made};
ghost use Rattle.link_model.specs.Sending.{leaving_sent, sent_notes_if};
ghost use Rattle.link_end.specs.Held.{count_if};
ghost use Rattle.link_end.specs.Pdus.{pdu_value};
ghost use Rattle.link_end.specs.Sending.{carries_next, held_gone, held_gone_if, held_out};
ghost use Rattle.link_end.specs.Sending.{more_out, sent_notes};
ghost use Rattle.link_end.specs.Sending.{takes_leave, with_next_sent};
ghost use Rattle.link_end.specs.Tied.{IsTied, bank_went_if};

use crate::controls::{next_pdu, send};
use crate::ends::LinkEnd;
use crate::packets::packet;
use crate::pdus::Pdu;
use acl_banks::TxBank;
use arrayvec::ArrayVec;
use ble_base::{AIR_PACKET_OCTETS, Note, Outbox};
use link_model::{ConnectionEvent, Leaving, PhasedEnd};
use std::mem;
use wire_fields::put_octets;

/// The most octets of a payload, with the four of an integrity code (Core 5.2, volume 6 part B,
/// section 2.4).
pub(crate) const SEALED_OCTETS: usize = 255;

impl LinkEnd {
    /// Whether the control PDU that is fixed leaves the queue with the next packet.
    pub(crate) fn takes_leave(&self) -> bool
        ensures { result ≡ takes_leave self.now }
    {
        self.is_acked && self.fixes_control
    }

    /// The control PDU that is fixed leaves the queue, or does not: it is made, and counts as first
    /// sent in this slot.
    pub(crate) fn go_if(&mut self, goes: bool, slot: u64)
        requires entered { 1 ≤ self.old.control.control.track.entered }
        requires fixes { goes ≡ true → self.old.fixes_control ≡ true }
        ensures held { self.new ≡ held_gone_if goes slot self.old }
        ensures entered { 1 ≤ self.new.control.control.track.entered }
    {
        if goes {
            self.leave(slot);
        }
    }

    /// The control PDU that is fixed leaves the queue. Few packets carry one, so this is kept out of
    /// the code of all.
    #[inline(never)]
    fn leave(&mut self, slot: u64)
        requires entered { 1 ≤ self.old.control.control.track.entered }
        requires fixes { self.old.fixes_control ≡ true }
        ensures held { self.new ≡ held_gone_if true slot self.old }
        ensures entered { 1 ≤ self.new.control.control.track.entered }
    {
        self.fixed = next_pdu(&self.control);
        send(&mut self.control, slot);
        self.fixes_control = false;
    }

    /// The control PDU that is fixed leaves the queue where the last PDU is acknowledged.
    pub(crate) fn go(&mut self, slot: u64)
        requires entered { 1 ≤ self.old.control.control.track.entered }
        ensures held { self.new ≡ held_gone slot self.old }
        ensures entered { 1 ≤ self.new.control.control.track.entered }
    {
        self.go_if(self.takes_leave(), slot);
    }

    /// Whether its packet says that more waits: what waited as the turn began.
    pub(crate) fn more_out(&self) -> bool
        ensures { result ≡ more_out self.now }
    {
        if self.is_acked {
            self.more
        } else {
            self.more_again
        }
    }

    /// The packet of the PDU that was sent last, with this MD bit and the payload that was made as
    /// that was first sent.
    pub(crate) fn packet_out(&self, more: bool) -> ArrayVec<u8, AIR_PACKET_OCTETS>
        ensures { result.items ≡ on_air self.now.event.channel self.now.setup.link.fields.access
            self.now.setup.link.fields.crc_init
            (octets_of (header_of self.now.bits self.now.last.llid more
            (length self.now.payload)) ++ self.now.payload) }
    {
        let count = self.payload.len() as u8;
        let header = self.acknowledgement.header(self.last.llid, more, count);
        packet(self.place(), header, self.payload.as_slice())
    }

    /// The fixed PDU is the last one then, and its payload is made. It is noted where it is not
    /// empty, and its piece is out where it is data.
    fn send_fixed<const T: usize>(&mut self, tx: &mut TxBank<T>, out: &mut Outbox)
        requires acked { self.old.is_acked ≡ true }
        requires tied { IsTied self.old tx.old }
        requires room { array_vec_len out.old ≤ 59 }
        ensures held { self.new ≡ with_next_sent self.old }
        ensures bank { tx.new
            ≡ bank_went_if (is_data self.old.fixed) tx.old self.old.setup.link.handle
            (length self.old.fixed.body) }
        ensures notes { out.new.items ≡ out.old.items ++ sent_notes_if
            (not (is_empty self.old.fixed)) self.old.setup.link.handle self.old.sent
            self.old.fixed }
        ensures few { array_vec_len out.new ≤ array_vec_len out.old + 1 }
        ensures entered { 1 ≤ self.old.control.control.track.entered
            → 1 ≤ self.new.control.control.track.entered }
    {
        let handle = self.setup.handle;
        went_if(
            self.fixed.is_data(),
            handle,
            self.fixed.body.len() as u16,
            tx,
        );
        self.sent = note_sent(handle, self.sent, &self.fixed, out);
        self.payload = payload(&mut self.control, &self.fixed);
        self.last = mem::replace(&mut self.fixed, Pdu::empty());
        self.more = false;
        self.is_acked = false;
    }

    /// Where the last PDU is acknowledged, the fixed one is sent.
    fn send_next<const T: usize>(&mut self, tx: &mut TxBank<T>, out: &mut Outbox)
        requires tied { IsTied self.old tx.old }
        requires room { array_vec_len out.old ≤ 59 }
        ensures held { self.new ≡ with_next_sent self.old }
        ensures bank { tx.new
            ≡ bank_went_if (carries_next self.old) tx.old self.old.setup.link.handle
            (length self.old.fixed.body) }
        ensures notes { out.new.items ≡ out.old.items ++ sent_notes self.old }
        ensures few { array_vec_len out.new ≤ array_vec_len out.old + 1 }
        ensures entered { 1 ≤ self.old.control.control.track.entered
            → 1 ≤ self.new.control.control.track.entered }
    {
        if self.is_acked {
            self.send_fixed(tx, out);
        }
    }

    /// It sends its packet in this slot, with this MD bit.
    pub(crate) fn send<const T: usize>(
        &mut self,
        slot: u64,
        more: bool,
        tx: &mut TxBank<T>,
        out: &mut Outbox,
    )
        requires more { more ≡ more_out self.old }
        requires tied { IsTied self.old tx.old }
        requires room { array_vec_len out.old ≤ 59 }
        ensures held { self.new ≡ held_out slot self.old }
        ensures bank { tx.new
            ≡ bank_went_if (carries_next self.old) tx.old self.old.setup.link.handle
            (length self.old.fixed.body) }
        ensures notes { out.new.items ≡ out.old.items ++ sent_notes self.old }
        ensures few { array_vec_len out.new ≤ array_vec_len out.old + 1 }
        ensures entered { 1 ≤ self.old.control.control.track.entered
            → 1 ≤ self.new.control.control.track.entered }
    {
        self.event = event_sent(self.event, slot, more);
        self.leaving = leaving_sent(self.leaving);
        self.send_next(tx, out);
    }
}

/// The payload of a new PDU: that of an empty one is its body, any other is sealed where the phase
/// says so, which takes a counter.
fn payload(control: &mut PhasedEnd, pdu: &Pdu) -> ArrayVec<u8, SEALED_OCTETS>
    requires reached { IsReached control.old }
    requires counter { control.old.end.sent < 2 ^ 39 }
    ensures payload { result.items ≡ payload_made control.old.end (pdu_value pdu.now) }
    ensures control { control.new ≡ record control.old {
      end = end_sending (not (is_empty (pdu_value pdu.now))) control.old.end;
    } }
    ensures reached { IsReached control.new }
{
    if pdu.is_empty() {
        let mut payload = ArrayVec::new();
        put_octets(&mut payload, pdu.body.as_slice());
        return payload;
    }
    control.seal(pdu.llid, pdu.body.as_slice())
}

/// An event after a packet with this MD bit was sent in a slot. The first exchange of an event is
/// in the slot of its anchor.
fn event_sent(event: ConnectionEvent, slot: u64, more: bool) -> ConnectionEvent
    ensures { result ≡ event_sent slot more event }
{
    ConnectionEvent {
        more: event.more || (slot == event.slot && more),
        ..event
    }
}

/// How the link is to end after a packet was sent: after LL_TERMINATE_IND of the peer was taken,
/// that was the last one.
fn leaving_sent(leaving: Leaving) -> Leaving
    ensures { result ≡ leaving_sent leaving }
{
    Leaving {
        answered: leaving.answered || leaving.ended_by_peer.is_some(),
        ..leaving
    }
}

/// The next piece of a link is out, of this number of octets, or none is.
fn went_if<const T: usize>(went: bool, handle: u16, count: u16, tx: &mut TxBank<T>)
    requires some { went ≡ true → 1 ≤ count }
    requires next { went ≡ true → IsSome (next_piece tx.old handle count) }
    requires none_out { went ≡ true → packet_out tx.old handle ≡ None }
    ensures { tx.new ≡ bank_went_if went tx.old handle count }
{
    if went {
        tx.went(handle, count);
    }
}

/// Notes a new PDU with the next number where it is not empty, and gives the number of such PDUs
/// then.
fn note_sent(handle: u16, sent: u64, pdu: &Pdu, out: &mut Outbox) -> u64
    requires count { sent < 2 ^ 33 }
    requires room { array_vec_len out.old ≤ 59 }
    ensures count { result ≡ count_if (not (is_empty (pdu_value pdu.now))) sent }
    ensures notes { out.new.items ≡ out.old.items ++ sent_notes_if
        (not (is_empty (pdu_value pdu.now))) handle sent (pdu_value pdu.now) }
    ensures few { array_vec_len out.new ≤ array_vec_len out.old + 1 }
{
    if pdu.is_empty() {
        return sent;
    }
    let mut body = ArrayVec::new();
    put_octets(&mut body, pdu.body.as_slice());
    out.push(Note::Sent {
        handle,
        number: sent + 1,
        llid: pdu.llid,
        body,
    });
    sent + 1
}
