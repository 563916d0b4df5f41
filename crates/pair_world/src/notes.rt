//! The notes of a station as entries.
ghost use Rattle.std.specs.Prelude.{◌≡◌, [], ◌∷◌, IfOk, OnOk};
ghost use Rattle.pair_world.specs.Logs.{entry_noted, entries_noted, known_after, with_entries};
ghost use Rattle.pair_world.specs.KnownLinks.{link_noted, with_note};

use crate::links::LinkNumbers;
use crate::logs::Log;
use crate::note_entries::{
    applied_entry, began_entry, done_entry, enter_entry, opened_entry, refused_entry, sent_entry,
    shut_entry, took_entry, up_entry,
};
use ble_base::{Note, Outbox, Side};
use journal::Entry;
use std::alloc::AllocError;

/// The number of the link of a note; 0 where it is a packet to the host.
fn link_of(note: &Note, links: &LinkNumbers) -> u64
    ensures { result ≡ link_noted links.now note.now }
{
    match note {
        Note::Up(_) => 0,
        Note::Opened { .. } => links.last(),
        Note::Shut { handle, .. }
        | Note::Sent { handle, .. }
        | Note::Took { handle, .. }
        | Note::Enter { handle, .. }
        | Note::Applied { handle, .. }
        | Note::Began { handle, .. }
        | Note::Refused { handle, .. }
        | Note::Done { handle, .. } => links.by_handle(*handle),
    }
}

/// The entry of a note.
fn entry(side: Side, note: &Note, links: &LinkNumbers, log: &Log) -> Result<Entry, AllocError>
    ensures { IfOk result (λ entry. entry ≡ entry_noted side links.now note.now) }
{
    let link = link_of(note, links);
    Ok(match note {
        Note::Up(packet) => up_entry(side, log.copy(packet.as_slice())?),
        Note::Opened { handle, role, .. } => opened_entry(side, link, *handle, *role),
        Note::Shut { reason, .. } => shut_entry(side, link, *reason),
        Note::Sent {
            number,
            llid,
            body,
            ..
        } => sent_entry(side, link, *number, *llid, log.copy(body.as_slice())?),
        Note::Took {
            number,
            llid,
            body,
            ..
        } => took_entry(side, link, *number, *llid, log.copy(body.as_slice())?),
        Note::Enter { event, channel, .. } => enter_entry(side, link, *event, *channel),
        Note::Applied { number, event, .. } => applied_entry(side, link, *number, *event),
        Note::Began { kind, .. } => began_entry(side, link, *kind),
        Note::Refused { kind, code, .. } => refused_entry(side, link, *kind, *code),
        Note::Done { kind, .. } => done_entry(side, link, *kind),
    })
}

/// Writes a note.
fn write_note(
    side: Side,
    note: &Note,
    links: &mut LinkNumbers,
    log: &mut Log,
) -> Result<(), AllocError>
    ensures log { OnOk result (log.new ≡ with_entries
        (entry_noted side links.old note.now ∷ []) log.old) }
    ensures links { OnOk result (links.new ≡ with_note links.old note.now) }
{
    let entry = entry(side, note, links, log)?;
    log.write(entry)?;
    links.take_note(note);
    Ok(())
}

/// Writes the notes of a station, and empties the outbox. Most steps have no notes, so this is kept
/// out of their code.
#[inline(never)]
pub(crate) fn write_notes(
    side: Side,
    out: &mut Outbox,
    links: &mut LinkNumbers,
    log: &mut Log,
) -> Result<(), AllocError>
    ensures log { OnOk result (log.new ≡ with_entries
        (entries_noted side links.old out.old.items) log.old) }
    ensures links { OnOk result (links.new ≡ known_after links.old out.old.items) }
    ensures empty { OnOk result (out.new.items ≡ []) }
{
    for note in out.as_slice() {
        write_note(side, note, links, log)?;
    }
    out.clear();
    Ok(())
}
