//! What an end makes of a good packet that reaches it: an acknowledgement, and a new PDU.
ghost use Rattle.std.specs.Prelude.{◌≡◌, ◌+◌, ◌<◌, ◌≤◌, ◌^◌, ◌&&◌, ◌++◌, true, false, not};
ghost use Rattle.std.specs.Prelude.{[], ◌∷◌, Some, None, length, nat_lt, IfSome, IsSome};
ghost use Rattle.std.specs.Prelude.{if◌then◌else◌};
ghost use Rattle.std.specs.Bool.{beq};
ghost use Rattle.arrayvec.specs.ArrayVec.{array_vec_len};
ghost use Rattle.acl_banks.specs.Banks.{credits_of, packet_out};
ghost use Rattle.control_end.specs.Answers.{done_by_acknowledgement};
ghost use Rattle.link_model.specs.Receiving.{HasPayloadLengths};
ghost use Rattle.link_model.specs.phased_end.Reached.{IsReached};
ghost use Rattle.link_model.specs.Data.{is_data, is_empty};
ghost use Rattle.link_model.specs.Pieces.{kept_if};
ghost use Rattle.link_model.specs.Controls.{is_procedure_pdu};
ghost use Rattle.link_model.specs.Entering.{done_notes};
ghost use Rattle.link_model.specs.Receiving.{given_notes, leaving_acked_if, refused_notes};
ghost use Rattle.link_end.specs.Held.{count_if, heard_slots};
ghost use Rattle.link_end.specs.Pdus.{pdu_in};
ghost use Rattle.link_end.specs.Receiving.{IsSingle, acked_in, acked_kind, acks, acks_piece};
ghost use Rattle.link_end.specs.Receiving.{answers_with_control, bits_received};
ghost use Rattle.link_end.specs.Receiving.{control_acked_if, draws_if, draws_in, given_hearing};
ghost use Rattle.link_end.specs.Receiving.{given_if, given_in, given_notes_of, has_ended};
ghost use Rattle.link_end.specs.Receiving.{held_accepted_if, held_acked_if};
ghost use Rattle.link_end.specs.Receiving.{held_before_taking, held_hearing, held_received};
ghost use Rattle.link_end.specs.Receiving.{held_taken_if, kept_hearing, kept_in};
ghost use Rattle.link_end.specs.Receiving.{notes_hearing, received_notes, replies_to};
ghost use Rattle.link_end.specs.Receiving.{taken_notes, took_note_if};
ghost use Rattle.link_end.specs.Tied.{IsAfterAck, IsTied};

use crate::controls::see_acked;
use crate::ends::LinkEnd;
use crate::entering::note_done;
use crate::pdus::{Got, START};
use crate::taking::{Given, nothing_given};
use ack_bit::AckEnd;
use acl_banks::{Piece, RxBank, TxBank};
use ble_base::{ErrCode, Kind, Note, Outbox, Role};
use control_end::Taken;
use data_pdu::DataHeader;
use link_model::{Leaving, PhasedEnd, TakenKeyed};

/// What comes of a packet that was received.
#[derive(Drop)]
pub(crate) struct Hearing {
    /// The procedure that the acknowledgement completes.
    pub(crate) acked: Option<Kind>,
    /// What comes of the new PDU.
    pub(crate) given: Given,
}

/// A header that acknowledges the last PDU or not, and brings a new PDU or not, by the header that
/// this end sends.
fn header_for(own: DataHeader, acked: bool, accepted: bool) -> DataHeader
    ensures acknowledges { not (beq result.nesn own.sn) ≡ acked }
    ensures fresh { beq result.sn own.nesn ≡ accepted }
{
    DataHeader {
        nesn: if acked { !own.sn } else { own.sn },
        sn: if accepted { own.nesn } else { !own.nesn },
        ..own
    }
}

/// The two bits after the last PDU was acknowledged or not, and a new one accepted or not.
fn advance(bits: &mut AckEnd, acked: bool, accepted: bool)
    ensures { bits.new ≡ bits_received acked accepted bits.old }
{
    let own = bits.header(0, false, 0);
    bits.receive(header_for(own, acked, accepted), true);
}

/// The piece of a link that is out was acknowledged, or was not.
fn acked_if<const T: usize>(acked: bool, handle: u16, tx: &mut TxBank<T>)
    requires out { acked ≡ true → IsSome (packet_out tx.old handle) }
    requires counts { credits_of tx.old handle < 65535 }
    ensures { IsAfterAck acked handle tx.old tx.new }
{
    if acked {
        tx.acked(handle);
    }
}

/// How the link is to end where its LL_TERMINATE_IND is acknowledged, or is not.
fn leaving_acked_if(acked: bool, leaving: Leaving) -> Leaving
    ensures { result ≡ leaving_acked_if acked leaving }
{
    Leaving {
        acknowledged: leaving.acknowledged || acked,
        ..leaving
    }
}

/// The control PDU that was sent last is acknowledged, or is not. The answer is the procedure that
/// it completes.
fn control_acked_if(acked: bool, control: &mut PhasedEnd) -> Option<Kind>
    requires reached { IsReached control.old }
    ensures step { control.new ≡ control_acked_if acked control.old }
    ensures done { result ≡ (if acked then done_by_acknowledgement control.old.control else None) }
    ensures reached { IsReached control.new }
    ensures entered { 1 ≤ control.old.control.track.entered
        → 1 ≤ control.new.control.track.entered }
    ensures sent { control.new.end.sent ≤ control.old.end.sent }
    ensures opened { control.new.end.opened ≤ control.old.end.opened }
{
    if acked { see_acked(control) } else { None }
}

/// Keeps a piece for the host, or does not.
fn keep_if<const R: usize>(keeps: bool, handle: u16, piece: &Piece, rx: &mut RxBank<R>)
    requires { keeps ≡ true → length rx.old < R }
    ensures { rx.new ≡ (if keeps then rx.old ++ (handle, piece.now) ∷ [] else rx.old) }
{
    if keeps && rx.keep(handle, piece).is_err() {
        unreachable!();
    }
}

/// A new PDU that is accepted: data is kept for the host, and a PDU that is not empty is noted with
/// the next number. It gives the number of such PDUs then.
fn take<const R: usize>(
    handle: u16,
    taken: u64,
    got: Got,
    rx: &mut RxBank<R>,
    out: &mut Outbox,
) -> u64
    requires space { is_data (pdu_in got) ≡ true → length rx.old < R }
    requires count { taken < 2 ^ 33 }
    requires room { array_vec_len out.old ≤ 61 }
    ensures count { result ≡ count_if (not (is_empty (pdu_in got))) taken }
    ensures kept { rx.new ≡ rx.old ++ kept_if (is_data (pdu_in got)) handle (pdu_in got) }
    ensures notes { out.new.items ≡ out.old.items
        ++ took_note_if (not (is_empty (pdu_in got))) handle taken (pdu_in got) }
    ensures few { array_vec_len out.new ≤ array_vec_len out.old + 1 }
{
    if got.is_empty() {
        return taken;
    }
    let keeps = got.is_data();
    let llid = got.header.llid;
    let piece = Piece {
        start: llid == START,
        body: got.body,
    };
    keep_if(keeps, handle, &piece, rx);
    out.push(Note::Took {
        handle,
        number: taken + 1,
        llid,
        body: piece.body,
    });
    taken + 1
}

/// Takes the PDU, if it is new and accepted.
fn take_if<const R: usize>(
    accepted: bool,
    handle: u16,
    taken: u64,
    got: Got,
    rx: &mut RxBank<R>,
    out: &mut Outbox,
) -> u64
    requires space { (accepted && is_data (pdu_in got)) ≡ true → length rx.old < R }
    requires count { taken < 2 ^ 33 }
    requires room { array_vec_len out.old ≤ 61 }
    ensures count { result ≡ count_if (accepted && not (is_empty (pdu_in got))) taken }
    ensures kept { rx.new
        ≡ rx.old ++ kept_if (accepted && is_data (pdu_in got)) handle (pdu_in got) }
    ensures notes { out.new.items ≡ out.old.items
        ++ took_note_if (accepted && not (is_empty (pdu_in got))) handle taken (pdu_in got) }
    ensures few { array_vec_len out.new ≤ array_vec_len out.old + 1 }
{
    if accepted {
        take(handle, taken, got, rx, out)
    } else {
        taken
    }
}

/// Notes a procedure of this end that the peer refused.
fn note_refused(handle: u16, refused: Option<(Kind, ErrCode)>, out: &mut Outbox)
    requires room { array_vec_len out.old ≤ 62 }
    ensures notes { out.new.items ≡ out.old.items ++ refused_notes handle refused }
    ensures few { array_vec_len out.new ≤ array_vec_len out.old + 1 }
{
    if let Some((kind, code)) = refused {
        out.push(Note::Refused { handle, kind, code });
    }
}

/// Notes what a control PDU did to the procedures of this end.
fn note_taken(handle: u16, given: &Taken, out: &mut Outbox)
    requires room { array_vec_len out.old ≤ 62 }
    ensures notes { out.new.items ≡ out.old.items ++ given_notes handle given.now }
    ensures few { array_vec_len out.new ≤ array_vec_len out.old + 2 }
{
    note_refused(handle, given.refused, out);
    note_done(handle, given.done, out);
}

/// The same for one that refuses a procedure or completes one, and not both.
fn note_single(handle: u16, given: &Taken, out: &mut Outbox)
    requires single { IsSingle given.now }
    requires room { array_vec_len out.old ≤ 61 }
    ensures notes { out.new.items ≡ out.old.items ++ given_notes handle given.now }
    ensures few { array_vec_len out.new ≤ array_vec_len out.old + 1 }
{
    note_taken(handle, given, out);
}

/// Notes what a control PDU that was taken did to the procedures of this end, and what one did that
/// was kept until then.
fn note_given(handle: u16, given: &TakenKeyed, out: &mut Outbox)
    requires single { IsSingle given.now.taken }
    requires room { array_vec_len out.old ≤ 61 }
    ensures notes { out.new.items ≡ out.old.items ++ given_notes_of handle given.now }
    ensures few { array_vec_len out.new ≤ array_vec_len out.old + 3 }
{
    note_single(handle, &given.taken, out);
    note_taken(handle, &given.kept, out);
}

impl LinkEnd {
    /// Its last PDU is acknowledged, or is not. The answer is the procedure that it completes.
    fn see_acked<const T: usize>(
        &mut self,
        acked: bool,
        tx: &mut TxBank<T>,
        out: &mut Outbox,
    ) -> Option<Kind>
        requires out { acked ≡ true → self.old.is_acked ≡ false }
        requires sent { self.old.sent < heard_slots self.old.last_good }
        requires tied { IsTied self.old tx.old }
        requires counts { credits_of tx.old self.old.setup.link.handle < 65535 }
        requires room { array_vec_len out.old ≤ 59 }
        ensures held { self.new ≡ held_acked_if acked self.old }
        ensures bank { IsAfterAck (acked && is_data self.old.last) self.old.setup.link.handle
            tx.old tx.new }
        ensures done { result ≡ acked_kind acked self.old }
        ensures notes { out.new.items ≡ out.old.items
            ++ done_notes self.old.setup.link.handle (acked_kind acked self.old) }
        ensures few { array_vec_len out.new ≤ array_vec_len out.old + 1 }
        ensures entered { 1 ≤ self.old.control.control.track.entered
            → 1 ≤ self.new.control.control.track.entered }
    {
        let handle = self.setup.handle;
        acked_if(acked && self.last.is_data(), handle, tx);
        let done = control_acked_if(acked && self.last.is_control(), &mut self.control);
        note_done(handle, done, out);
        self.leaving = leaving_acked_if(acked && self.last.is_terminate(), self.leaving);
        advance(&mut self.acknowledgement, acked, false);
        self.is_acked = acked || self.is_acked;
        done
    }

    /// Whether a peripheral answers with a control PDU.
    fn answers_with_control(&self) -> bool
        ensures { result ≡ answers_with_control self.now.setup.link.role self.now }
    {
        match self.setup.role {
            Role::Central => false,
            Role::Peripheral => self.takes_leave(),
        }
    }

    /// The new PDU is accepted, or is not.
    fn accept_if<const R: usize>(&mut self, got: Got, rx: &mut RxBank<R>, out: &mut Outbox)
        requires space { (got.accepted && is_data (pdu_in got)) ≡ true → length rx.old < R }
        requires taken { self.old.taken < heard_slots self.old.last_good }
        requires room { array_vec_len out.old ≤ 61 }
        ensures held { self.new ≡ held_accepted_if got.accepted (pdu_in got) self.old }
        ensures kept { rx.new ≡ rx.old
            ++ kept_if (got.accepted && is_data (pdu_in got)) self.old.setup.link.handle (pdu_in got) }
        ensures notes { out.new.items ≡ out.old.items
            ++ took_note_if (got.accepted && not (is_empty (pdu_in got))) self.old.setup.link.handle
            self.old.taken (pdu_in got) }
        ensures few { array_vec_len out.new ≤ array_vec_len out.old + 1 }
    {
        advance(&mut self.acknowledgement, false, got.accepted);
        self.taken = take_if(got.accepted, self.setup.handle, self.taken, got, rx, out);
    }

    /// The new PDU is taken, or is not. The answer is what its procedures give for it.
    fn take_pdu<const R: usize>(
        &mut self,
        got: Got,
        slot: u64,
        rx: &mut RxBank<R>,
        out: &mut Outbox,
    ) -> Given
        requires entered { 1 ≤ self.old.control.control.track.entered }
        requires space { (got.accepted && is_data (pdu_in got)) ≡ true → length rx.old < R }
        requires taken { self.old.taken < heard_slots self.old.last_good }
        requires room { array_vec_len out.old ≤ 60 }
        ensures held { self.new ≡ held_taken_if got.accepted (pdu_in got) slot self.old }
        ensures given { result.given
            ≡ given_if (got.accepted && is_procedure_pdu (pdu_in got)) (pdu_in got) slot self.old }
        ensures draws { result.draws
            ≡ draws_if (got.accepted && is_procedure_pdu (pdu_in got)) (pdu_in got) slot self.old }
        ensures payloads { HasPayloadLengths result.given.taken.effect }
        ensures kept_payloads { HasPayloadLengths result.given.kept.effect }
        ensures kept { rx.new ≡ rx.old
            ++ kept_if (got.accepted && is_data (pdu_in got)) self.old.setup.link.handle
            (pdu_in got) }
        ensures notes { out.new.items ≡ out.old.items
            ++ taken_notes got.accepted (pdu_in got) slot self.old }
        ensures few { array_vec_len out.new ≤ array_vec_len out.old + 4 }
        ensures entered { 1 ≤ self.new.control.control.track.entered }
    {
        let handle = self.setup.handle;
        let takes_data = got.accepted && got.is_data();
        let given = self.give_if(got.accepted && got.is_procedure_pdu(), &got, slot);
        self.accept_if(got, rx, out);
        self.take_data_if(takes_data);
        note_given(handle, &given.given, out);
        given
    }

    /// The header of a good packet is taken: its last PDU is acknowledged, or is not, and the control
    /// PDU with which a peripheral answers counts as first sent. The answer is the procedure that the
    /// acknowledgement completes.
    fn receive_header<const T: usize>(
        &mut self,
        header: DataHeader,
        slot: u64,
        tx: &mut TxBank<T>,
        out: &mut Outbox,
    ) -> Option<Kind>
        requires entered { 1 ≤ self.old.control.control.track.entered }
        requires tied { IsTied self.old tx.old }
        requires counts { credits_of tx.old self.old.setup.link.handle < 65535 }
        requires sent { self.old.sent < heard_slots self.old.last_good }
        requires room { array_vec_len out.old ≤ 59 }
        ensures held { self.new ≡ held_before_taking slot header self.old }
        ensures bank { IsAfterAck (acks self.old header && is_data self.old.last)
            self.old.setup.link.handle tx.old tx.new }
        ensures done { result ≡ acked_kind (acks self.old header) self.old }
        ensures notes { out.new.items ≡ out.old.items ++ done_notes self.old.setup.link.handle
            (acked_kind (acks self.old header) self.old) }
        ensures few { array_vec_len out.new ≤ array_vec_len out.old + 1 }
        ensures entered { 1 ≤ self.new.control.control.track.entered }
    {
        let acked = self.acks(header);
        let done = self.see_acked(acked, tx, out);
        self.go_if(self.answers_with_control(), slot);
        done
    }

    /// Receives a good packet in this slot: first what it acknowledges, and then its PDU.
    fn receive<const T: usize, const R: usize>(
        &mut self,
        got: Got,
        slot: u64,
        tx: &mut TxBank<T>,
        rx: &mut RxBank<R>,
        out: &mut Outbox,
    ) -> Hearing
        requires entered { 1 ≤ self.old.control.control.track.entered }
        requires tied { IsTied self.old tx.old }
        requires counts { credits_of tx.old self.old.setup.link.handle < 65535 }
        requires sent { self.old.sent < heard_slots self.old.last_good }
        requires taken { self.old.taken < heard_slots self.old.last_good }
        requires space { (got.accepted && is_data (pdu_in got)) ≡ true → length rx.old < R }
        requires room { array_vec_len out.old ≤ 59 }
        ensures held { self.new ≡ held_hearing slot got self.old }
        ensures bank { IsAfterAck (acks_piece (Some got) self.old) self.old.setup.link.handle
            tx.old tx.new }
        ensures kept { rx.new ≡ rx.old ++ kept_hearing got self.old }
        ensures notes { out.new.items ≡ out.old.items ++ notes_hearing slot got self.old }
        ensures acked { result.acked ≡ acked_kind (acks self.old got.header) self.old }
        ensures given { result.given.given ≡ given_hearing slot got self.old }
        ensures draws { result.given.draws ≡ draws_in slot (Some got) self.old }
        ensures payloads { HasPayloadLengths result.given.given.taken.effect }
        ensures kept_payloads { HasPayloadLengths result.given.given.kept.effect }
        ensures few { array_vec_len out.new ≤ array_vec_len out.old + 5 }
        ensures entered { 1 ≤ self.new.control.control.track.entered }
    {
        let acked = self.receive_header(got.header, slot, tx, out);
        let given = self.take_pdu(got, slot, rx, out);
        Hearing { acked, given }
    }

    /// Receives a packet in this slot, if it is good.
    pub(crate) fn hear<const T: usize, const R: usize>(
        &mut self,
        got: Option<Got>,
        slot: u64,
        tx: &mut TxBank<T>,
        rx: &mut RxBank<R>,
        out: &mut Outbox,
    ) -> Hearing
        requires entered { 1 ≤ self.old.control.control.track.entered }
        requires tied { IsTied self.old tx.old }
        requires counts { credits_of tx.old self.old.setup.link.handle < 65535 }
        requires counted { IfSome got (λ got. (self.old.sent < heard_slots self.old.last_good)
            × (self.old.taken < heard_slots self.old.last_good)) }
        requires space { IfSome got
            (λ got. (got.accepted && is_data (pdu_in got)) ≡ true → length rx.old < R) }
        requires room { array_vec_len out.old ≤ 59 }
        ensures held { self.new ≡ held_received slot got self.old }
        ensures bank { IsAfterAck (acks_piece got self.old) self.old.setup.link.handle
            tx.old tx.new }
        ensures kept { rx.new ≡ rx.old ++ kept_in got self.old }
        ensures notes { out.new.items ≡ out.old.items ++ received_notes slot got self.old }
        ensures acked { result.acked ≡ acked_in got self.old }
        ensures given { result.given.given ≡ given_in slot got self.old }
        ensures draws { result.given.draws ≡ draws_in slot got self.old }
        ensures payloads { HasPayloadLengths result.given.given.taken.effect }
        ensures kept_payloads { HasPayloadLengths result.given.given.kept.effect }
        ensures few { array_vec_len out.new ≤ array_vec_len out.old + 5 }
        ensures entered { 1 ≤ self.new.control.control.track.entered }
    {
        match got {
            Some(got) => self.receive(got, slot, tx, rx, out),
            None => Hearing {
                acked: None,
                given: nothing_given(),
            },
        }
    }

    /// Whether it ended the link by what it received: by its procedures, or as its own
    /// LL_TERMINATE_IND was acknowledged.
    fn has_ended(&self) -> bool
        ensures { result ≡ has_ended self.now }
    {
        self.control.ends().is_some() || self.leaving.acknowledged
    }

    /// Whether it answers what it received: a peripheral answers each good packet by which it did
    /// not end the link.
    pub(crate) fn replies(&self, is_good: bool) -> bool
        ensures { result ≡ replies_to self.now.setup.link.role (has_ended self.now) is_good }
    {
        match self.setup.role {
            Role::Central => false,
            Role::Peripheral => is_good && !self.has_ended(),
        }
    }
}
