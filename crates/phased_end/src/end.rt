//! One end of a link with its keys.
ghost use Rattle.std.specs.Prelude.{◌≡◌, ◌≤◌, ◌<◌, ◌^◌, not};
ghost use Rattle.instants.specs.Track.{event_of, next_anchor_of};
ghost use Rattle.procedures.specs.procedure_values.Limits.{rx_of, tx_of};
ghost use Rattle.procedures.specs.procedure_values.Values.{IsPayloadMax};
ghost use Rattle.procedures.specs.procedure_stages.Closing.{is_open};
ghost use Rattle.procedures.specs.procedure_stages.Queue.{waiting_in};
ghost use Rattle.control_part.specs.control_end.Answers.{timeout_of};
ghost use Rattle.enc_phase.specs.Phases.{opens, seals};
ghost use Rattle.keyed_control.specs.Keyed.{first_keyed};
ghost use Rattle.phased_end.specs.Answers.{quiet_now};
ghost use Rattle.phased_end.specs.Held.{held_of};
ghost use Rattle.phased_end.specs.Moves.{lasts};
ghost use Rattle.phased_end.specs.Reached.{IsReached};

use crate::changes::first_phase;
use crate::material::{EncRequest, KeptPdu, first_material};
use ble_base::{ErrCode, EventNo, Role, SlotNo};
use control_part::ControlPart;
use enc_phase::{Phase, PhaseFacts};
use instants::Params;
use keyed_control::KeyMaterial;
use std::marker::Model;

/// One end of a link: its control procedures and parameters, its phase of encryption with the
/// session, and what its keys are made of (Core 5.2, volume 6 part B, section 5.1.3).
///
/// An end that ended the link seals and opens payloads as before. No other call changes it any more,
/// and what such a call would answer is empty.
#[derive(Drop)]
pub struct PhasedEnd {
    /// Its procedures and its parameters.
    pub(crate) control: ControlPart,
    /// Its phase, with the session.
    pub(crate) phase: Phase,
    /// The first PDU of a procedure of the peripheral, which a central keeps until the phase is
    /// Clear or Secure.
    pub(crate) kept: Option<KeptPdu>,
    /// The host of a peripheral was asked for a key, and has not answered.
    pub(crate) asks_key: bool,
    /// LL_ENC_REQ of the encryption that the central runs.
    pub(crate) request: Option<EncRequest>,
    /// What the keys are made of.
    pub(crate) material: KeyMaterial,
}

impl Model for PhasedEnd {
    ghost use Rattle.enc_phase.specs.Sealing.{end_of};
    ghost use Rattle.phased_end.specs.Held.{HeldKeyed};
    ghost use Rattle.phased_end.specs.Requests.{request_in};

    ghost Value = { HeldKeyed };

    ghost view = { λ e. record {
      control = e.control;
      end = end_of e.phase;
      kept = e.kept;
      asks_key = e.asks_key;
      request = request_in e.request;
      material = e.material;
    } };
}

impl PhasedEnd {
    /// One end of a new link, before event 0, with this role: it receives payloads of at most
    /// `max_rx` octets, 27 to 251, and has the first parameters, with a latency of at most 499
    /// events, and the slot of the anchor of event 0.
    pub fn new(role: Role, max_rx: u16, first: Params, anchor: SlotNo) -> Self
        requires octets { IsPayloadMax max_rx }
        requires interval { 1 ≤ first.interval }
        requires latency { first.latency ≤ 499 }
        requires slot { anchor.0 < 2 ^ 33 }
        ensures new { result ≡ held_of (first_keyed role max_rx first anchor.0) }
        ensures reached { IsReached result }
    {
        PhasedEnd {
            control: ControlPart::new(role, max_rx, first, anchor),
            phase: first_phase(role),
            kept: None,
            asks_key: false,
            request: None,
            material: first_material(),
        }
    }

    /// Whether this end has not ended the link.
    pub(crate) fn goes_on(&self) -> bool
        ensures { result ≡ lasts self.now }
    {
        self.control.goes_on()
    }

    /// The error with which this end ended the link, once it did.
    pub fn ends(&self) -> Option<ErrCode>
        ensures { result ≡ self.now.control.ends }
    {
        self.control.ends()
    }

    /// The phase without its session.
    pub fn facts(&self) -> PhaseFacts
        ensures { result ≡ self.now.end.phase }
    {
        self.phase.facts()
    }

    /// Whether the phase is Clear or Secure: then an end sends data and begins procedures.
    pub fn is_quiet(&self) -> bool
        ensures { result ≡ quiet_now self.now }
    {
        self.phase.facts().is_quiet()
    }

    /// Whether a new nonempty PDU goes out sealed.
    pub fn sends_sealed(&self) -> bool
        ensures { result ≡ seals self.now.end.role self.now.end.phase }
    {
        self.phase.facts().seals(self.phase.role())
    }

    /// Whether a new nonempty PDU of the peer is opened as sealed.
    pub fn receives_sealed(&self) -> bool
        ensures { result ≡ opens self.now.end.role self.now.end.phase }
    {
        self.phase.facts().opens(self.phase.role())
    }

    /// The counter of the next sealed PDU that this end sends, which is 0 where it sends clear.
    pub fn sent(&self) -> u64
        ensures { result ≡ self.now.end.sent }
    {
        self.phase.sent()
    }

    /// The counter of the next sealed PDU that this end receives, which is 0 where it receives
    /// clear.
    pub fn opened(&self) -> u64
        ensures { result ≡ self.now.end.opened }
    {
        self.phase.opened()
    }

    /// The parameters in the event entered last, and the first ones before any was.
    pub fn params(&self) -> Params
        ensures params { result ≡ self.now.control.track.params }
        ensures interval { 1 ≤ result.interval }
    {
        self.control.params()
    }

    /// The event entered last.
    pub fn event(&self) -> EventNo
        requires { 1 ≤ self.now.control.track.entered }
        ensures event { result.0 ≡ event_of self.now.control.track }
        ensures number { result.0 < 2 ^ 32 }
    {
        self.control.event()
    }

    /// The slot of the anchor of the next event.
    pub fn next_anchor(&self) -> SlotNo
        ensures { result.0 ≡ next_anchor_of self.now.control.track }
    {
        self.control.next_anchor()
    }

    /// How many control PDUs wait to be sent.
    pub fn waiting(&self) -> usize
        ensures { result ≡ waiting_in self.now.control.table.queue }
    {
        self.control.waiting()
    }

    /// The most octets of a payload that this end receives, and the most that it transmits (Core
    /// 5.2, volume 6 part B, section 4.5.10).
    pub fn lengths(&self) -> (u16, u16)
        ensures { result
            ≡ (rx_of self.now.control.table.lengths, tx_of self.now.control.table.lengths) }
    {
        self.control.lengths()
    }

    /// Whether the link is to end: a Disconnect of the host was accepted, or LL_TERMINATE_IND was
    /// taken or queued (Core 5.2, volume 6 part B, section 5.1.6).
    pub fn is_closing(&self) -> bool
        ensures { result ≡ not (is_open self.now.control.table.closing) }
    {
        self.control.is_closing()
    }

    /// LL Response Timeout, if the peer's time to answer, 40 s or 32,000 slots, is over in this
    /// slot (Core 5.2, volume 6 part B, section 5.2).
    pub fn tick(&self, slot: SlotNo) -> Option<ErrCode>
        ensures { result ≡ timeout_of slot.0 self.now.control }
    {
        self.control.tick(slot)
    }
}
