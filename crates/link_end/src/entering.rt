//! An end enters a connection event, and notes what comes of it.
ghost use Rattle.std.specs.Prelude.{◌≡◌, ◌+◌, ◌<◌, ◌≤◌, ◌^◌, ◌||◌, ◌++◌, nat_lt, IsTrue};
ghost use Rattle.arrayvec.specs.ArrayVec.{array_vec_len};
ghost use Rattle.instants.specs.Track.{next_anchor_of};
ghost use Rattle.control_end.specs.Answers.{entry_of, no_entry};
ghost use Rattle.link_model.specs.phased_end.Answers.{quiet_now};
ghost use Rattle.link_model.specs.phased_end.Moves.{lasts};
ghost use Rattle.link_model.specs.Events.{applied_notes};
ghost use Rattle.link_model.specs.Entering.{began_notes, done_notes, event_notes};
ghost use Rattle.link_end.specs.Entering.{entry_notes, held_entered, held_entered_if};

use crate::controls::enter;
use crate::ends::LinkEnd;
use ble_base::{EventNo, Kind, Note, Outbox};
use control_end::Entry;
use link_model::{ConnectionEvent, KnownLengths};

/// The most octets of a payload that is not long (Core 5.2, volume 6 part B, section 4.5.10).
const SHORT_OCTETS: u16 = 27;

/// Whether one of the effective lengths, received and transmitted, is over 27 octets.
fn is_long(lengths: (u16, u16)) -> bool
    ensures { result ≡ (nat_lt 27 lengths.0 || nat_lt 27 lengths.1) }
{
    let (rx, tx) = lengths;
    rx > SHORT_OCTETS || tx > SHORT_OCTETS
}

/// Nothing comes of an event that is not entered.
fn no_entry() -> Entry
    ensures { result ≡ no_entry }
{
    Entry {
        applied: None,
        updated: false,
        done: None,
        began: None,
    }
}

impl LinkEnd {
    /// Enters the next event, whose anchor is in this slot.
    fn enter_next(&mut self, slot: u64) -> Entry
        requires goes_on { IsTrue (lasts self.old.control) }
        requires anchor { next_anchor_of self.old.control.control.track < 2 ^ 32 }
        ensures held { self.new ≡ held_entered slot self.old }
        ensures entry { result ≡ entry_of slot (quiet_now self.old.control) self.old.control.control }
        ensures enters { 1 ≤ self.new.control.control.track.entered }
    {
        let long = is_long(self.control.lengths());
        let entry = enter(&mut self.control, slot);
        let event = self.control.event();
        let params = self.control.params();
        self.event = ConnectionEvent {
            number: event.0,
            slot,
            channel: self.selector.channel(event, &params.map),
            latency: params.latency,
            heard: false,
            more: false,
        };
        self.lengths = KnownLengths {
            long,
            changed: false,
            ..self.lengths
        };
        entry
    }

    /// Enters the next event, whose anchor is in this slot, and notes it; an end whose procedures
    /// ended the link does nothing.
    pub(crate) fn enter_event(&mut self, slot: u64, out: &mut Outbox) -> Entry
        requires anchor { IsTrue (lasts self.old.control)
            → next_anchor_of self.old.control.control.track < 2 ^ 32 }
        requires room { array_vec_len out.old ≤ 59 }
        ensures held { self.new ≡ held_entered_if (lasts self.old.control) slot self.old }
        ensures entry { result ≡ entry_of slot (quiet_now self.old.control) self.old.control.control }
        ensures notes { out.new.items ≡ out.old.items ++ entry_notes slot self.old }
        ensures few { array_vec_len out.new ≤ array_vec_len out.old + 5 }
        ensures enters { IsTrue (lasts self.old.control)
            → 1 ≤ self.new.control.control.track.entered }
        ensures entered { 1 ≤ self.old.control.control.track.entered
            → 1 ≤ self.new.control.control.track.entered }
    {
        if self.control.ends().is_some() {
            return no_entry();
        }
        let entry = self.enter_next(slot);
        note_event(self.setup.handle, self.event, entry, out);
        entry
    }
}

/// Notes an event that was entered, and what comes of it.
fn note_event(handle: u16, event: ConnectionEvent, entry: Entry, out: &mut Outbox)
    requires room { array_vec_len out.old ≤ 59 }
    ensures notes { out.new.items ≡ out.old.items ++ event_notes handle event entry }
    ensures few { array_vec_len out.new ≤ array_vec_len out.old + 4 }
{
    let number = EventNo(event.number);
    note_applied(handle, number, entry.applied, out);
    out.push(Note::Enter {
        handle,
        event: number,
        channel: event.channel,
    });
    note_done(handle, entry.done, out);
    note_began(handle, entry.began, out);
}

/// Notes the indication that is in force from an event on.
fn note_applied(handle: u16, event: EventNo, applied: Option<u64>, out: &mut Outbox)
    requires room { array_vec_len out.old ≤ 59 }
    ensures notes { out.new.items ≡ out.old.items ++ applied_notes handle event.0 applied }
    ensures few { array_vec_len out.new ≤ array_vec_len out.old + 1 }
{
    if let Some(number) = applied {
        out.push(Note::Applied {
            handle,
            number,
            event,
        });
    }
}

/// Notes a procedure of this end that is done.
pub(crate) fn note_done(handle: u16, done: Option<Kind>, out: &mut Outbox)
    requires room { array_vec_len out.old ≤ 63 }
    ensures notes { out.new.items ≡ out.old.items ++ done_notes handle done }
    ensures few { array_vec_len out.new ≤ array_vec_len out.old + 1 }
{
    if let Some(kind) = done {
        out.push(Note::Done { handle, kind });
    }
}

/// Notes a procedure of this end that begins.
fn note_began(handle: u16, began: Option<Kind>, out: &mut Outbox)
    requires room { array_vec_len out.old ≤ 62 }
    ensures notes { out.new.items ≡ out.old.items ++ began_notes handle began }
    ensures few { array_vec_len out.new ≤ array_vec_len out.old + 1 }
{
    if let Some(kind) = began {
        out.push(Note::Began { handle, kind });
    }
}
