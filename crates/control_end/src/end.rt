//! The control part of one end of a link.
ghost use Rattle.std.specs.Prelude.{◌≡◌, ◌≤◌, ◌<◌, ◌^◌, not};
ghost use Rattle.instants.specs.Track.{event_of, next_anchor_of};
ghost use Rattle.control_model.specs.procedures.procedure_values.Limits.{rx_of, tx_of};
ghost use Rattle.control_model.specs.procedures.procedure_values.Values.{IsPayloadMax};
ghost use Rattle.control_model.specs.procedures.procedure_stages.Closing.{is_open};
ghost use Rattle.control_model.specs.procedures.procedure_stages.Queue.{waiting_in};
ghost use Rattle.control_model.specs.Control.{Step, first_control};
ghost use Rattle.control_end.specs.Answers.{entry_of, goes_on, timeout_of};
ghost use Rattle.control_end.specs.Held.{held_after, held_of};

use crate::answers::{Entry, is_update_waiting, no_entry};
use ble_base::{ErrCode, EventNo, Role, SlotNo};
use control_model::ProcTable;
use instants::{ParamTrack, Params};
use std::marker::Model;

/// The control part of one end of a link: its table of control procedures, its parameters, and the
/// error with which it ended the link (Core 5.2, volume 6 part B, section 5).
///
/// An end that ended the link keeps all as it was: no call changes it any more, and what a call
/// would answer is empty.
#[derive(Drop)]
pub struct ControlEnd {
    /// Its control procedures.
    pub(crate) table: ProcTable,
    /// Its parameters and anchors.
    pub(crate) track: ParamTrack,
    /// The error with which it ended the link, once it did.
    pub(crate) ends: Option<ErrCode>,
}

impl Model for ControlEnd {
    ghost use Rattle.control_end.specs.Held.{Held};
    ghost use Rattle.control_end.specs.Following.{IsEnd};

    ghost Value = { Held };

    ghost view = { λ e. record { table = e.table; track = e.track; ends = e.ends } };

    // What a peripheral awaits by its table waits at its track; a request that was granted awaits
    // its update.
    ghost invariant = { λ e. IsEnd (record { table = e.table; track = e.track; ends = e.ends }) };
}

impl ControlEnd {
    /// The control part of a new link, before event 0, at the end with this role: it receives
    /// payloads of at most `max_rx` octets, 27 to 251, and has the first parameters and the slot of
    /// the anchor of event 0.
    pub fn new(role: Role, max_rx: u16, first: Params, anchor: SlotNo) -> Self
        requires octets { IsPayloadMax max_rx }
        requires interval { 1 ≤ first.interval }
        requires slot { anchor.0 < 2 ^ 33 }
        ensures { result ≡ held_of (first_control role max_rx first anchor.0) }
    {
        ControlEnd {
            table: ProcTable::new(role, max_rx),
            track: ParamTrack::new(first, anchor),
            ends: None,
        }
    }

    /// Enters the next event, in the slot of its anchor, `quiet` being phase Clear or Secure. The
    /// indication whose Instant is this event holds from it on (Core 5.2, volume 6 part B, section
    /// 5.5), and then one procedure that the host wants may begin.
    pub fn enter(&mut self, slot: SlotNo, quiet: bool) -> Entry
        requires slot { next_anchor_of self.old.track < 2 ^ 32 }
        requires room { waiting_in self.old.table.queue < 24 }
        ensures step { self.new ≡ held_after (Step.Enters slot.0 quiet) self.old }
        ensures entry { result ≡ entry_of slot.0 quiet self.old }
    {
        if self.ends.is_some() {
            return no_entry();
        }
        let is_update = is_update_waiting(self.track.waiting());
        let applied = self.track.enter();
        let done = self.table.entered(applied.is_some());
        let began = self.table.begin(slot, quiet);
        Entry {
            applied,
            updated: applied.is_some() && is_update,
            done,
            began,
        }
    }

    /// The parameters in the event entered last, and the first ones before any was.
    pub fn params(&self) -> Params
        ensures params { result ≡ self.now.track.params }
        ensures interval { 1 ≤ result.interval }
    {
        self.track.params()
    }

    /// The event entered last.
    pub fn event(&self) -> EventNo
        requires { 1 ≤ self.now.track.entered }
        ensures event { result.0 ≡ event_of self.now.track }
        ensures number { result.0 < 2 ^ 32 }
    {
        self.track.event()
    }

    /// The slot of the anchor of the next event.
    pub fn next_anchor(&self) -> SlotNo
        ensures { result.0 ≡ next_anchor_of self.now.track }
    {
        self.track.next_anchor()
    }

    /// How many control PDUs wait to be sent.
    pub fn waiting(&self) -> usize
        ensures { result ≡ waiting_in self.now.table.queue }
    {
        self.table.waiting()
    }

    /// The most octets of a payload that this end receives, and the most that it transmits (Core
    /// 5.2, volume 6 part B, section 4.5.10).
    pub fn lengths(&self) -> (u16, u16)
        ensures { result ≡ (rx_of self.now.table.lengths, tx_of self.now.table.lengths) }
    {
        self.table.lengths()
    }

    /// The error with which this end ended the link, once it did.
    pub fn ends(&self) -> Option<ErrCode>
        ensures { result ≡ self.now.ends }
    {
        self.ends
    }

    /// Whether this end has not ended the link.
    pub(crate) fn goes_on(&self) -> bool
        ensures { result ≡ goes_on self.now }
    {
        self.ends.is_none()
    }

    /// Whether the link is to end: a Disconnect of the host was accepted, or LL_TERMINATE_IND was
    /// taken or queued (Core 5.2, volume 6 part B, section 5.1.6).
    pub fn is_closing(&self) -> bool
        ensures { result ≡ not (is_open self.now.table.closing) }
    {
        self.table.is_closing()
    }

    /// LL Response Timeout, if the peer's time to answer, 40 s or 32,000 slots, is over in this
    /// slot (Core 5.2, volume 6 part B, section 5.2).
    pub fn tick(&self, slot: SlotNo) -> Option<ErrCode>
        ensures { result ≡ timeout_of slot.0 self.now }
    {
        if self.goes_on() {
            self.table.tick(slot)
        } else {
            None
        }
    }
}
