//! An end reads octets on its channel: a good packet, which is opened where it is sealed, a forged
//! one, or neither.
ghost use Rattle.std.specs.Prelude.{◌≡◌, ◌+◌, ◌<◌, ◌≤◌, ◌^◌, nat_lt, not, true, IfSome, None};
ghost use Rattle.std.specs.Prelude.{length, Some, if◌then◌else◌};
ghost use Rattle.air_frame.specs.Hearing.{heard_in};
ghost use Rattle.link_model.specs.phased_end.Reached.{IsReached};
ghost use Rattle.link_model.specs.phased_end.enc_phase.Sealing.{is_right, longest_payload};
ghost use Rattle.link_model.specs.Events.{event_heard};
ghost use Rattle.link_model.specs.Payload.{end_accepting, opens_now};
ghost use Rattle.link_model.specs.Verdicts.{has_room_for, verdict_by};
ghost use Rattle.link_end.specs.Held.{heard_slots};
ghost use Rattle.link_end.specs.Receiving.{accepts_by, acks, counts, counts_by};
ghost use Rattle.link_end.specs.Receiving.{ends_by, got_in, got_of, held_forged, held_read};
ghost use Rattle.link_end.specs.Receiving.{opened_by};
ghost use Rattle.link_end.specs.Receiving.{right_if, whole_by};
ghost use Rattle.link_end.specs.Tied.{IsBefore};

use crate::ends::LinkEnd;
use crate::packets::has_room_for;
use crate::pdus::{Got, is_data, is_empty};
use acl_banks::RxBank;
use air_frame::{Heard, unframe};
use arrayvec::ArrayVec;
use ble_base::{PAYLOAD_OCTETS, Verdict};
use data_pdu::{DataHeader, read_header};
use link_model::{ConnectionEvent, PhasedEnd, Reception};

/// An event after a good packet with this MD bit was received in a slot.
fn event_heard(event: ConnectionEvent, slot: u64, more: bool) -> ConnectionEvent
    ensures { result ≡ event_heard slot more event }
{
    ConnectionEvent {
        heard: event.heard || slot == event.slot,
        more: event.more || (slot == event.slot && more),
        ..event
    }
}

/// Whether a payload would be opened, where it counts.
fn is_right(control: &PhasedEnd, counts: bool, header: u8, payload: &[u8]) -> bool
    requires counter { control.now.end.opened < 2 ^ 39 }
    requires room { counts ≡ true → length payload.now ≤ longest_payload control.now.end }
    ensures { result ≡ (if counts then is_right control.now.end header payload.now else true) }
{
    if counts {
        control.would_open(header, payload)
    } else {
        true
    }
}

/// Opens the payload of a PDU that is taken, which takes the counter. One that counts and is not
/// taken is only tried, and has no octet then. There is nothing where the integrity code is wrong.
fn opened(
    control: &mut PhasedEnd,
    counts: bool,
    takes: bool,
    header: u8,
    payload: &[u8],
) -> Option<ArrayVec<u8, PAYLOAD_OCTETS>>
    requires reached { IsReached control.old }
    requires taken { takes ≡ true → counts ≡ true }
    requires counter { control.old.end.opened < 2 ^ 39 }
    requires room { counts ≡ true → length payload.now ≤ longest_payload control.old.end }
    ensures value { result ≡ opened_by counts takes control.old.end header payload.now }
    ensures right { IfSome result (λ body. control.new
        ≡ record control.old { end = end_accepting takes control.old.end }) }
    ensures forged { result ≡ None → control.new ≡ control.old }
    ensures sent { control.new.end.sent ≡ control.old.end.sent }
    ensures most { control.new.end.opened ≤ control.old.end.opened + 1 }
    ensures entered { 1 ≤ control.old.control.track.entered
        → 1 ≤ control.new.control.track.entered }
    ensures reached { IsReached control.new }
{
    if takes {
        return match control.open(header, payload) {
            Ok(body) => Some(body),
            Err(_) => None,
        };
    }
    if is_right(control, counts, header, payload) {
        Some(ArrayVec::new())
    } else {
        None
    }
}

impl LinkEnd {
    /// Whether a new PDU is in a packet with this header, which is not empty and is opened.
    fn counts(&self, header: DataHeader, octets: usize) -> bool
        ensures { result ≡ counts_by header octets self.now }
    {
        self.acknowledgement.is_new(header) && !is_empty(header.llid, octets)
    }

    /// Whether a packet with this header acknowledges the PDU that was sent last.
    pub(crate) fn acks(&self, header: DataHeader) -> bool
        ensures { result ≡ acks self.now header }
    {
        !self.is_acked && header.nesn != self.acknowledgement.header(0, false, 0).sn
    }

    /// Whether its LL_TERMINATE_IND was acknowledged before a packet with this header, or is by it.
    fn ends_by(&self, header: DataHeader) -> bool
        ensures { result ≡ ends_by header self.now }
    {
        self.leaving.acknowledged || (self.acks(header) && self.last.is_terminate())
    }

    /// Whether the PDU of a packet with this header is new and accepted; data is, where there is
    /// room for it.
    fn accepts(&self, room: bool, header: DataHeader, octets: usize) -> bool
        ensures { result ≡ accepts_by room header octets self.now }
    {
        self.acknowledgement.is_new(header)
            && (room || !is_data(header.llid, octets))
            && (is_empty(header.llid, octets) || !self.ends_by(header))
    }

    /// Reads the PDU of a whole packet that reached it in this slot.
    fn read_whole(&mut self, pdu: &[u8], slot: u64, room: bool) -> Option<Got>
        requires header { 2 ≤ length pdu.now }
        requires fits { has_room_for self.old.setup.link.max_rx (opens_now self.old.control.end)
            pdu.now ≡ true }
        requires before { IsBefore self.old slot }
        requires slot { slot < 2 ^ 32 }
        ensures held { self.new ≡ held_read slot room (Some pdu.now) self.old }
        ensures got { result ≡ got_of room pdu.now self.old }
        ensures counted { IfSome result (λ got.
            (self.new.sent < heard_slots self.new.last_good)
            × (self.new.taken < heard_slots self.new.last_good)) }
        ensures entered { 1 ≤ self.old.control.control.track.entered
            → 1 ≤ self.new.control.control.track.entered }
    {
        let (_, payload) = pdu.split_at(2);
        let header = read_header([pdu[0], pdu[1]]);
        let counts = self.counts(header, payload.len());
        let accepted = self.accepts(room, header, payload.len());
        let takes = accepted && counts;
        let opened = opened(&mut self.control, counts, takes, pdu[0], payload);
        match opened {
            None => self.hear_forged(),
            Some(body) => {
                self.event = event_heard(self.event, slot, header.md);
                self.last_good = Some(Reception {
                    slot,
                    event: self.event.number,
                });
                Some(Got {
                    header,
                    accepted,
                    body,
                })
            }
        }
    }

    /// A forged packet reached it: the link ends, and nothing is taken.
    fn hear_forged(&mut self) -> Option<Got>
        ensures held { self.new ≡ held_forged self.old }
        ensures none { result ≡ None }
        ensures entered { 1 ≤ self.old.control.control.track.entered
            → 1 ≤ self.new.control.control.track.entered }
    {
        self.control.hear_forged();
        None
    }

    /// Reads octets on its channel in this slot, with room for a piece of data in this bank or with
    /// none. The counter of a PDU that is taken is taken; a good packet counts for the event and for
    /// the supervision timeout; and a forged packet ends the link.
    pub(crate) fn read<const R: usize>(
        &mut self,
        octets: &[u8],
        slot: u64,
        rx: &RxBank<R>,
    ) -> Option<Got>
        requires before { IsBefore self.old slot }
        requires slot { slot < 2 ^ 32 }
        ensures held { self.new ≡ held_read slot (nat_lt (length rx.now) R)
            (whole_by octets.now self.old) self.old }
        ensures got { result ≡ got_in (nat_lt (length rx.now) R) (whole_by octets.now self.old)
            self.old }
        ensures counted { IfSome result (λ got.
            (self.new.sent < heard_slots self.new.last_good)
            × (self.new.taken < heard_slots self.new.last_good)) }
        ensures entered { 1 ≤ self.old.control.control.track.entered
            → 1 ≤ self.new.control.control.track.entered }
    {
        let place = self.place();
        let max_rx = self.setup.max_rx;
        let opens = self.control.receives_sealed();
        match unframe(place.channel, place.access, place.crc_init, octets) {
            Heard::Whole(pdu) if has_room_for(max_rx, opens, pdu.as_slice()) => {
                self.read_whole(pdu.as_slice(), slot, rx.room())
            }
            _ => None,
        }
    }

    /// Whether the integrity code of the PDU of a whole packet is right, or is not looked at.
    fn is_right(&self, pdu: &[u8]) -> bool
        requires header { 2 ≤ length pdu.now }
        requires fits { has_room_for self.now.setup.link.max_rx (opens_now self.now.control.end)
            pdu.now ≡ true }
        ensures { result ≡ right_if (counts pdu.now self.now) self.now.control.end pdu.now }
    {
        let (_, payload) = pdu.split_at(2);
        let header = read_header([pdu[0], pdu[1]]);
        is_right(
            &self.control,
            self.counts(header, payload.len()),
            pdu[0],
            payload,
        )
    }

    /// The verdict on the PDU of a whole packet.
    fn verdict_of(&self, pdu: &[u8]) -> Verdict
        requires header { 2 ≤ length pdu.now }
        requires fits { has_room_for self.now.setup.link.max_rx (opens_now self.now.control.end)
            pdu.now ≡ true }
        ensures { result ≡ (if not (right_if (counts pdu.now self.now) self.now.control.end pdu.now)
            then Verdict.Forged else Verdict.Good) }
    {
        if self.is_right(pdu) {
            Verdict::Good
        } else {
            Verdict::Forged
        }
    }

    /// The verdict on octets on its channel.
    pub(crate) fn verdict(&self, octets: &[u8]) -> Verdict
        ensures { result ≡ verdict_by self.now.setup.link.max_rx (opens_now self.now.control.end)
            (λ pdu. not (right_if (counts pdu self.now) self.now.control.end pdu))
            (heard_in self.now.event.channel self.now.setup.link.fields.access
            self.now.setup.link.fields.crc_init octets.now) }
    {
        let place = self.place();
        let max_rx = self.setup.max_rx;
        let opens = self.control.receives_sealed();
        match unframe(place.channel, place.access, place.crc_init, octets) {
            Heard::NotOurs => Verdict::Missed,
            Heard::Whole(pdu) if has_room_for(max_rx, opens, pdu.as_slice()) => {
                self.verdict_of(pdu.as_slice())
            }
            Heard::Broken | Heard::Whole(_) => Verdict::Broken,
        }
    }
}
