//! The parameters of one end of a link, event by event.
ghost use Rattle.std.specs.Prelude.{◌≡◌, ◌<◌, ◌≤◌, ◌^◌, ◌↔◌, IsTrue, IsErr, OnOk, OnErr, nat_lt};
ghost use Rattle.instants.specs.Track.{TrackFacts, first_facts, is_free, gap_ahead};
ghost use Rattle.instants.specs.Track.{track_after_take};
ghost use Rattle.instants.specs.Track.{event_of, is_due, last_params, waiting_offset, spacing_of};
ghost use Rattle.instants.specs.Track.{next_anchor_of, track_after_enter, next_number, HasInterval};

use crate::{Indication, Params};
use ble_base::{EventNo, SlotNo, instant_gap};
use std::marker::Model;

/// The least gap from an event to an instant that counts as passed (Core 5.2, volume 6 part B,
/// section 5.5.1).
const PASSED_GAP: u16 = 32767;

/// The Instant of an indication has passed.
#[derive(Clone, Copy, Debug, PartialEq, Eq, Default)]
pub struct Passed;

/// An indication, and the event that its Instant names.
#[derive(Clone, Copy, Debug, PartialEq, Eq)]
pub struct Change {
    /// What changes.
    pub indication: Indication,
    /// The event of the Instant, counted from 0 without end.
    pub at: EventNo,
}

/// The parameters of one end of a link. It enters one connection event after the other, takes the
/// indications of the central and lets each hold from its event on.
#[derive(Clone, Copy, Debug, PartialEq, Eq)]
pub struct ParamTrack {
    /// How many events were entered.
    entered: u64,
    /// The anchor of the event entered last, and that of event 0 before any was.
    anchor: SlotNo,
    /// The parameters in the event entered last.
    params: Params,
    /// The indication that was taken and does not hold yet.
    waits: Option<Change>,
    /// How many indications hold.
    applied: u64,
}

impl Model for ParamTrack {
    ghost use Rattle.instants.specs.Track.{TrackFacts, IsTrack};

    ghost Value = { TrackFacts };

    ghost view = { λ t. record {
      entered = t.entered;
      anchor = t.anchor.0;
      params = t.params;
      waits = t.waits;
      applied = t.applied;
    } };

    ghost invariant = { λ t. IsTrack (record {
      entered = t.entered;
      anchor = t.anchor.0;
      params = t.params;
      waits = t.waits;
      applied = t.applied;
    }) };

    ghost inverse = { λ t. record {
      entered = t.entered;
      anchor = record { 0 = t.anchor };
      params = t.params;
      waits = t.waits;
      applied = t.applied;
    } };
}

impl ParamTrack {
    /// The track of a new link, before event 0, with its first parameters and the slot of the
    /// anchor of event 0.
    pub fn new(first: Params, anchor: SlotNo) -> Self
        requires interval { 1 ≤ first.interval }
        requires slot { anchor.0 < 2 ^ 33 }
        ensures { result ≡ first_facts first anchor.0 }
    {
        ParamTrack {
            entered: 0,
            anchor,
            params: first,
            waits: None,
            applied: 0,
        }
    }

    /// Whether no indication waits for its event.
    pub fn free(&self) -> bool
        ensures { result ≡ is_free self.now }
    {
        self.waits.is_none()
    }

    /// The indication that was taken and does not hold yet, with the event from which it does.
    pub fn waiting(&self) -> Option<Change>
        ensures { result ≡ self.now.waits }
    {
        self.waits
    }

    /// Takes an indication in the event entered last. Where its Instant is 32767 events or more
    /// ahead, counted modulo 65536, it has passed: the answer is `Passed` and nothing changes.
    pub fn take(&mut self, indication: Indication) -> Result<(), Passed>
        requires free { IsTrue (is_free self.old) }
        requires entered { 1 ≤ self.old.entered }
        requires interval { HasInterval indication }
        ensures passed { IsErr result ↔ (32767 ≤ gap_ahead (event_of self.old) indication) }
        ensures ok { OnOk result (self.new ≡ track_after_take self.old indication) }
        ensures err { OnErr result (self.new ≡ self.old) }
    {
        let event = self.event();
        let gap = instant_gap(indication.instant(), event.counter());
        if gap >= PASSED_GAP {
            return Err(Passed);
        }
        let at = EventNo(event.0 + u64::from(gap));
        self.waits = Some(Change { indication, at });
        Ok(())
    }

    /// The slot of the anchor of the next event.
    pub fn next_anchor(&self) -> SlotNo
        ensures { result.0 ≡ next_anchor_of self.now }
    {
        if self.entered == 0 {
            return self.anchor;
        }
        SlotNo(self.anchor.0 + spacing(&self.waits, &self.params, self.entered))
    }

    /// Enters the next event. It gives the number of the indication that holds from this event on,
    /// if one does, counted from 1.
    pub fn enter(&mut self) -> Option<u64>
        requires { next_anchor_of self.old < 2 ^ 32 }
        ensures track { self.new ≡ track_after_enter self.old }
        ensures number { result ≡ next_number self.old }
    {
        let next = self.entered;
        self.anchor = self.next_anchor();
        self.entered += 1;
        match &self.waits {
            Some(change) if is_due(change, next) => {
                self.params = self.params.after(&change.indication);
                self.waits = None;
                self.applied += 1;
                Some(self.applied)
            }
            _ => None,
        }
    }

    /// The parameters in the event entered last, and the first ones before any was.
    pub fn params(&self) -> Params
        ensures params { result ≡ self.now.params }
        ensures interval { 1 ≤ result.interval }
    {
        self.params
    }

    /// Whether an event was entered.
    pub fn has_entered(&self) -> bool
        ensures { result ≡ nat_lt 0 self.now.entered }
    {
        self.entered > 0
    }

    /// The event entered last.
    pub fn event(&self) -> EventNo
        requires { 1 ≤ self.now.entered }
        ensures event { result.0 ≡ event_of self.now }
        ensures number { result.0 < 2 ^ 32 }
    {
        EventNo(self.entered - 1)
    }
}

/// Whether a change that waits holds from this event on.
fn is_due(change: &Change, next: u64) -> bool
    ensures { result ≡ is_due change.now next }
{
    change.at.0 <= next
}

/// How many slots the anchor of this event is after that of the one before, which has these
/// parameters.
fn spacing(waits: &Option<Change>, params: &Params, next: u64) -> u64
    ensures value { result ≡ spacing_of waits.now params.now next }
    ensures small { result < 2 ^ 17 }
{
    match waits {
        None => u64::from(params.interval),
        Some(change) => u64::from(last_interval(change, params, next))
            + u64::from(waiting_offset(change, next)),
    }
}

/// The interval in the event before this one.
fn last_interval(change: &Change, params: &Params, next: u64) -> u16
    ensures { result ≡ (last_params change.now params.now next).interval }
{
    if change.at.0 < next {
        params.after(&change.indication).interval
    } else {
        params.interval
    }
}

/// The slots by which the anchors from this event on come later.
fn waiting_offset(change: &Change, next: u64) -> u16
    ensures { result ≡ waiting_offset change.now next }
{
    if change.at.0 == 0 || next < change.at.0 {
        0
    } else {
        change.indication.win_offset()
    }
}
