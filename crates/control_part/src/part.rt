//! The control part of an end, which its phase may end with an error of its own.
ghost use Rattle.std.specs.Prelude.{◌≡◌, ◌<◌, ◌≤◌, ◌^◌, not, IfSome};
ghost use Rattle.std.specs.Result.{ForOk};
ghost use Rattle.data_pdu.specs.Ranges.{IsInRange};
ghost use Rattle.data_pdu.specs.Reading.{IfKnown};
ghost use Rattle.instants.specs.Track.{event_of, next_anchor_of};
ghost use Rattle.procedures.specs.procedure_values.Limits.{rx_of, tx_of};
ghost use Rattle.procedures.specs.procedure_values.Values.{IsPayloadMax};
ghost use Rattle.procedures.specs.procedure_values.Wants.{IsAsk};
ghost use Rattle.procedures.specs.procedure_stages.Closing.{is_open};
ghost use Rattle.procedures.specs.procedure_stages.Queue.{waiting_in};
ghost use Rattle.control_end.specs.control_model.Control.{Step, first_control};
ghost use Rattle.control_end.specs.Answers.{awaits_host, done_by_acknowledgement, entry_of};
ghost use Rattle.control_end.specs.Answers.{goes_on, indication_next, is_unacknowledged, may_ask};
ghost use Rattle.control_end.specs.Answers.{next_ctrl, no_entry, nothing_taken, taken_of};
ghost use Rattle.control_end.specs.Answers.{timeout_of};
ghost use Rattle.control_end.specs.Following.{CanFollow};
ghost use Rattle.control_end.specs.Held.{held_after, held_of};
ghost use Rattle.phased_control.specs.Phased.{is_pause_rsp};
ghost use Rattle.control_part.specs.Ending.{ended_with, is_pause_ctrl};

use ble_base::{ErrCode, EventNo, Kind, Role, SlotNo};
use control_end::{ControlEnd, Entry, Taken};
use data_pdu::{Ctrl, CtrlRead};
use instants::Params;
use procedures::{Ask, Effect};
use std::marker::Model;

/// The control part of an end.
///
/// Once the phase ended the link, no call changes it any more, and what a call would answer is
/// empty, as with the control part alone.
#[derive(Drop)]
pub struct ControlPart {
    pub(crate) control: ControlEnd,
    /// The error with which the phase ended the link, once it did.
    ended: Option<ErrCode>,
    /// LL_PAUSE_ENC_RSP was sent last, and is not acknowledged.
    pauses: bool,
}

impl Model for ControlPart {
    ghost use Rattle.std.specs.Prelude.{◌≡◌};
    ghost use Rattle.control_end.specs.Held.{Held};
    ghost use Rattle.phased_control.specs.Phased.{is_pause_rsp};
    ghost use Rattle.control_part.specs.Ending.{with_end};

    ghost Value = { Held };

    ghost view = { λ p. with_end p.ended p.control };

    ghost invariant = { λ p. is_pause_rsp p.control.table.out ≡ p.pauses };
}

/// Nothing holds, is done or begins.
fn no_entry() -> Entry
    ensures { result ≡ no_entry }
{
    Entry {
        applied: None,
        updated: false,
        done: None,
        began: None,
    }
}

/// Nothing is to be done.
pub fn nothing_taken() -> Taken
    ensures { result ≡ nothing_taken }
{
    Taken {
        effect: Effect::Nothing,
        refused: None,
        done: None,
    }
}

/// Whether this is LL_PAUSE_ENC_RSP.
fn is_pause_rsp(ctrl: &Ctrl) -> bool
    ensures { result ≡ is_pause_ctrl ctrl.now }
{
    matches!(ctrl, Ctrl::PauseEncRsp)
}

impl ControlPart {
    /// The control part of a new link.
    pub fn new(role: Role, max_rx: u16, first: Params, anchor: SlotNo) -> Self
        requires octets { IsPayloadMax max_rx }
        requires interval { 1 ≤ first.interval }
        requires slot { anchor.0 < 2 ^ 33 }
        ensures { result ≡ held_of (first_control role max_rx first anchor.0) }
    {
        ControlPart {
            control: ControlEnd::new(role, max_rx, first, anchor),
            ended: None,
            pauses: false,
        }
    }

    /// Whether this end has not ended the link.
    pub fn goes_on(&self) -> bool
        ensures { result ≡ goes_on self.now }
    {
        self.ended.is_none() && self.control.ends().is_none()
    }

    /// The phase ends the link with an error.
    pub fn end_with(&mut self, code: ErrCode)
        ensures { self.new ≡ ended_with code self.old }
    {
        if self.goes_on() {
            self.ended = Some(code);
        }
    }

    /// The error with which this end ended the link, once it did.
    pub fn ends(&self) -> Option<ErrCode>
        ensures { result ≡ self.now.ends }
    {
        match self.ended {
            None => self.control.ends(),
            Some(code) => Some(code),
        }
    }

    /// Enters the next event.
    pub fn enter(&mut self, slot: SlotNo, quiet: bool) -> Entry
        requires slot { next_anchor_of self.old.track < 2 ^ 32 }
        requires room { waiting_in self.old.table.queue < 24 }
        ensures step { self.new ≡ held_after (Step.Enters slot.0 quiet) self.old }
        ensures entry { result ≡ entry_of slot.0 quiet self.old }
    {
        match self.ended {
            None => self.control.enter(slot, quiet),
            Some(_) => no_entry(),
        }
    }

    /// Whether the host may ask for a procedure of this kind.
    pub fn may_ask(&self, kind: Kind) -> bool
        ensures { result ≡ may_ask kind self.now }
    {
        self.ended.is_none() && self.control.may_ask(kind)
    }

    /// The host asks for a procedure.
    pub fn ask(&mut self, ask: Ask)
        requires { IsAsk ask }
        ensures { self.new ≡ held_after (Step.Asks ask) self.old }
    {
        if self.ended.is_none() {
            self.control.ask(ask);
        }
    }

    /// Whether a request of the peripheral waits for the host's answer.
    pub fn awaits_host(&self) -> bool
        ensures { result ≡ awaits_host self.now }
    {
        self.ended.is_none() && self.control.awaits_host()
    }

    /// The host answers a request of the peripheral.
    pub fn answer(&mut self, answer: Result<Ask, ErrCode>)
        requires in_range { ForOk answer IsAsk }
        requires room { waiting_in self.old.table.queue < 24 }
        ensures { self.new ≡ held_after (Step.Answers answer) self.old }
    {
        if self.ended.is_none() {
            self.control.answer(answer);
        }
    }

    /// The host ends the link.
    pub fn disconnect(&mut self, reason: ErrCode)
        ensures { self.new ≡ held_after (Step.Disconnects reason) self.old }
    {
        if self.ended.is_none() {
            self.control.disconnect(reason);
        }
    }

    /// The control PDU that goes next in the event entered last.
    pub fn next(&self, quiet: bool) -> Option<Ctrl>
        requires { 1 ≤ self.now.track.entered }
        ensures value { result ≡ next_ctrl quiet self.now }
        ensures in_range { IfSome result IsInRange }
    {
        match self.ended {
            None => self.control.next(quiet),
            Some(_) => None,
        }
    }

    /// The control PDU that `next` gives was first sent, in a slot of the event entered last.
    pub fn send(&mut self, slot: SlotNo, quiet: bool)
        requires entered { 1 ≤ self.old.track.entered }
        requires can_follow { IfSome (indication_next slot.0 quiet self.old)
            (CanFollow self.old.track) }
        ensures { self.new ≡ held_after (Step.Sends slot.0 quiet) self.old }
    {
        if let Some(ctrl) = self.next(quiet) {
            self.control.send(slot, quiet);
            self.pauses = is_pause_rsp(&ctrl);
        }
    }

    /// Whether a control PDU was sent that is not acknowledged.
    pub fn is_out(&self) -> bool
        ensures { result ≡ is_unacknowledged self.now }
    {
        self.ended.is_none() && self.control.is_out()
    }

    /// Whether LL_PAUSE_ENC_RSP was sent last, and is not acknowledged.
    pub fn pauses(&self) -> bool
        ensures { result ≡ is_pause_rsp self.now.table.out }
    {
        self.pauses
    }

    /// The control PDU that was sent last was acknowledged.
    pub fn acked(&mut self) -> Option<Kind>
        ensures step { self.new ≡ held_after Step.SeesAcknowledged self.old }
        ensures done { result ≡ done_by_acknowledgement self.old }
    {
        if self.goes_on() {
            self.pauses = false;
            self.control.acked()
        } else {
            None
        }
    }

    /// Takes a control PDU of the peer in a slot of the event entered last.
    pub fn take(&mut self, read: &CtrlRead, slot: SlotNo, quiet: bool) -> Taken
        requires entered { 1 ≤ self.old.track.entered }
        requires in_range { IfKnown read.now IsInRange }
        ensures step { self.new ≡ held_after (Step.Takes read.now slot.0 quiet) self.old }
        ensures taken { result ≡ taken_of read.now slot.0 quiet self.old }
    {
        match self.ended {
            None => self.control.take(read, slot, quiet),
            Some(_) => nothing_taken(),
        }
    }

    /// Queues a PDU of the encryption procedures.
    pub fn owe(&mut self, ctrl: Ctrl)
        requires in_range { IsInRange ctrl }
        requires room { waiting_in self.old.table.queue < 24 }
        ensures { self.new ≡ held_after (Step.Owes ctrl) self.old }
    {
        if self.ended.is_none() {
            self.control.owe(ctrl);
        }
    }

    /// What the host wants and was not begun, in order.
    pub fn wanted(&self) -> &[Ask]
        ensures { result.now ≡ self.now.table.wanted }
    {
        self.control.wanted()
    }

    /// The parameters in the event entered last, and the first ones before any was.
    pub fn params(&self) -> Params
        ensures params { result ≡ self.now.track.params }
        ensures interval { 1 ≤ result.interval }
    {
        self.control.params()
    }

    /// The event entered last.
    pub fn event(&self) -> EventNo
        requires { 1 ≤ self.now.track.entered }
        ensures event { result.0 ≡ event_of self.now.track }
        ensures number { result.0 < 2 ^ 32 }
    {
        self.control.event()
    }

    /// The slot of the anchor of the next event.
    pub fn next_anchor(&self) -> SlotNo
        ensures { result.0 ≡ next_anchor_of self.now.track }
    {
        self.control.next_anchor()
    }

    /// How many control PDUs wait to be sent.
    pub fn waiting(&self) -> usize
        ensures { result ≡ waiting_in self.now.table.queue }
    {
        self.control.waiting()
    }

    /// The most octets of a payload that this end receives, and the most that it transmits.
    pub fn lengths(&self) -> (u16, u16)
        ensures { result ≡ (rx_of self.now.table.lengths, tx_of self.now.table.lengths) }
    {
        self.control.lengths()
    }

    /// Whether the link is to end.
    pub fn is_closing(&self) -> bool
        ensures { result ≡ not (is_open self.now.table.closing) }
    {
        self.control.is_closing()
    }

    /// LL Response Timeout, if the peer's time to answer is over in this slot.
    pub fn tick(&self, slot: SlotNo) -> Option<ErrCode>
        ensures { result ≡ timeout_of slot.0 self.now }
    {
        match self.ended {
            None => self.control.tick(slot),
            Some(_) => None,
        }
    }
}
