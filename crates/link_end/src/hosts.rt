//! What the host of an end asks for, answers and ends.
ghost use Rattle.std.specs.Prelude.{◌≡◌, ◌≤◌, ◌^◌, ◌==◌, ◌&&◌, ◌||◌, not, IfSome};
ghost use Rattle.std.specs.Result.{ForOk};
ghost use Rattle.procedures.specs.procedure_values.Wants.{IsAsk};
ghost use Rattle.link_model.specs.Hosts.{map_indicated, map_queued, map_waiting, map_wanted};
ghost use Rattle.link_model.specs.Hosts.{first_slot, leaving_from_if, or_else};
ghost use Rattle.link_end.specs.Hosts.{held_answered, held_asked, held_asked_unless};
ghost use Rattle.link_end.specs.Hosts.{ends_without_key, held_disconnected, held_key_answered};
ghost use Rattle.link_end.specs.Hosts.{held_with_words, is_to_come, map_to_come};

use crate::controls::{answer, answer_key, ask, disconnect};
use crate::ends::LinkEnd;
use ble_base::{ChannelMap, ErrCode};
use enc_phase::Transition;
use instants::{Change, Indication};
use keyed_control::Response;
use link_model::{KnownLengths, Leaving, PhasedEnd};
use procedures::{Ask, Draft};

/// The map that the host wants.
fn map_wanted(asks: &[Ask]) -> Option<ChannelMap>
    ensures { result ≡ map_wanted asks.now }
{
    let (ask, rest) = asks.split_first()?;
    match ask {
        Ask::Map(map) => Some(*map),
        _ => map_wanted(rest),
    }
}

/// The map in the control PDUs that wait to be sent.
fn map_queued(drafts: &[Draft]) -> Option<ChannelMap>
    ensures { result ≡ map_queued drafts.now }
{
    let (draft, rest) = drafts.split_first()?;
    match draft {
        Draft::Map(map) => Some(*map),
        _ => map_queued(rest),
    }
}

/// The map of an indication.
fn map_indicated(indication: Indication) -> Option<ChannelMap>
    ensures { result ≡ map_indicated indication }
{
    match indication {
        Indication::Map { map, .. } => Some(map),
        _ => None,
    }
}

/// The map of the indication that waits.
fn map_waiting(waits: Option<Change>) -> Option<ChannelMap>
    ensures { result ≡ map_waiting waits }
{
    match waits {
        Some(change) => map_indicated(change.indication),
        None => None,
    }
}

/// This map, or else the other.
fn or_else(map: Option<ChannelMap>, other: ChannelMap) -> ChannelMap
    ensures { result ≡ or_else map other }
{
    match map {
        Some(map) => map,
        None => other,
    }
}

/// The map that the link is to have: the one that is wanted, or else the one that is on its way, or
/// else that of now.
fn map_to_come(control: &PhasedEnd) -> ChannelMap
    ensures { result ≡ map_to_come control.now.control }
{
    let indicated = or_else(map_waiting(control.waiting_change()), control.params().map);
    or_else(
        map_wanted(control.wanted()),
        or_else(map_queued(control.drafts()), indicated),
    )
}

/// Whether this changes nothing: a map that the link is to have already.
fn is_to_come(ask: &Ask, control: &PhasedEnd) -> bool
    ensures { result ≡ is_to_come ask.now control.now.control }
{
    match ask {
        Ask::Map(map) => *map == map_to_come(control),
        _ => false,
    }
}

/// What is known of the lengths, which were these, received and transmitted, and are those now.
pub(crate) fn lengths_seen(
    before: (u16, u16),
    after: (u16, u16),
    lengths: KnownLengths,
) -> KnownLengths
    ensures { result ≡ record lengths {
      changed = lengths.changed || not ((before.0 == after.0) && (before.1 == after.1));
    } }
{
    let (rx, tx) = before;
    let (new_rx, new_tx) = after;
    KnownLengths {
        changed: lengths.changed || !(rx == new_rx && tx == new_tx),
        ..lengths
    }
}

/// Whether an end ends the link as its host answers so: it has no key after a pause.
fn ends_without_key(key: &Option<[u8; 16]>, control: &PhasedEnd) -> bool
    ensures { result ≡ ends_without_key key.now control.now }
{
    match key {
        None => control.awaits_key() && !control.facts().may_follow(Transition::Refuse),
        Some(_) => false,
    }
}

/// The first slot in which an end was to end the link, where it is to end it in this one.
fn first_slot(since: Option<u64>, slot: u64) -> u64
    requires slot { slot ≤ 2 ^ 32 }
    requires since { IfSome since (λ first. first ≤ 2 ^ 32) }
    ensures value { result ≡ first_slot since slot }
    ensures bounded { result ≤ 2 ^ 32 }
{
    match since {
        Some(first) => first,
        None => slot,
    }
}

/// How the link is to end where it ends from this slot on, or not.
fn leaving_from_if(leaves: bool, slot: u64, leaving: Leaving) -> Leaving
    ensures { result ≡ leaving_from_if leaves slot leaving }
{
    if leaves {
        Leaving {
            disconnected: Some(slot),
            ..leaving
        }
    } else {
        leaving
    }
}

impl LinkEnd {
    /// The host asks for a procedure.
    fn ask_anew(&mut self, asked: Ask)
        requires in_range { IsAsk asked }
        ensures held { self.new ≡ held_asked asked self.old }
        ensures entered { 1 ≤ self.old.control.control.track.entered
            → 1 ≤ self.new.control.control.track.entered }
    {
        let before = self.control.lengths();
        ask(&mut self.control, asked);
        self.lengths = lengths_seen(before, self.control.lengths(), self.lengths);
    }

    /// The same, but for a map that the link is to have already.
    pub(crate) fn ask_unless_to_come(&mut self, asked: Ask)
        requires in_range { IsAsk asked }
        ensures held { self.new
            ≡ held_asked_unless (is_to_come asked self.old.control.control) asked self.old }
        ensures entered { 1 ≤ self.old.control.control.track.entered
            → 1 ≤ self.new.control.control.track.entered }
    {
        if !is_to_come(&asked, &self.control) {
            self.ask_anew(asked);
        }
    }

    /// The host answers a request of the peer.
    pub(crate) fn answer_request(&mut self, answered: Result<Ask, ErrCode>)
        requires in_range { ForOk answered IsAsk }
        ensures held { self.new ≡ held_answered answered self.old }
        ensures entered { 1 ≤ self.old.control.control.track.entered
            → 1 ≤ self.new.control.control.track.entered }
    {
        answer(&mut self.control, answered);
    }

    /// The host ends the link in this slot. Where the end was to end it before, that slot stays.
    pub(crate) fn disconnect(&mut self, reason: ErrCode, slot: u64)
        requires slot { slot ≤ 2 ^ 32 }
        ensures held { self.new ≡ held_disconnected reason slot self.old }
        ensures entered { 1 ≤ self.old.control.control.track.entered
            → 1 ≤ self.new.control.control.track.entered }
    {
        disconnect(&mut self.control, reason);
        self.leaving.disconnected = Some(first_slot(self.leaving.disconnected, slot));
    }

    /// The host of a peripheral answers in this slot that it has this key, or none.
    pub(crate) fn answer_key(&mut self, key: Option<[u8; 16]>, slot: u64)
        requires slot { slot ≤ 2 ^ 32 }
        ensures held { self.new ≡ held_key_answered key slot self.old }
        ensures entered { 1 ≤ self.old.control.control.track.entered
            → 1 ≤ self.new.control.control.track.entered }
    {
        let leaves = ends_without_key(&key, &self.control);
        answer_key(&mut self.control, key);
        self.leaving = leaving_from_if(leaves, slot, self.leaving);
    }

    /// What a peripheral would draw is given.
    pub(crate) fn take_words(&mut self, skd_s: u64, iv_s: u32)
        ensures { self.new ≡ held_with_words skd_s iv_s self.old }
    {
        self.response = Response { skd_s, iv_s };
    }
}
