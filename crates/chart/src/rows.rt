//! The rows of a chart.
ghost use Rattle.std.specs.Prelude.{◌≡◌, ◌+◌, ◌++◌, ◌<◌, ◌≤◌, ◌^◌, OnOk, IfOk, length};
ghost use Rattle.line_words.specs.Text.{line_of};
ghost use Rattle.journal.specs.Text.{entry_words};
ghost use Rattle.chart.specs.Chart.{all_drawn, drawn, idle_text, place_after_all, slot_after};
ghost use Rattle.chart.specs.Chart.{slot_text, turns_before, turns_row};
ghost use Rattle.chart.specs.Rows.{band_if, is_of_event, mark_of, note_at, row_of, side_of};
ghost use Rattle.chart.specs.Svg.{all_spelled, spelled};

use crate::layout::{BAND, BAND_WIDTH, FOOT, LABEL, MIDDLE, ROW, SHAFT, TIMES};
use crate::places::{Place, split_line, top_of};
use crate::shapes::{note_class, note_place, put_band, put_packet_line, put_text};
use crate::words::words_of;
use ble_base::{Side, Verdict};
use journal::{Entry, Mark, write_line};
use std::alloc::{AllocError, Global};

/// The first of the advertising channels.
const ADVERTISING: u8 = 37;

/// Whether a line is of a connection event.
fn is_of_event(entry: &Entry) -> bool
    ensures { result ≡ is_of_event entry.now }
{
    match entry {
        Entry::Air { channel, .. } => *channel < ADVERTISING,
        Entry::Enter { .. } | Entry::Sent { .. } | Entry::Took { .. } => true,
        _ => false,
    }
}

/// The side at which a line happens.
fn side_of(entry: &Entry) -> Option<Side>
    ensures { result ≡ side_of entry.now }
{
    match entry {
        Entry::Turn { .. } => None,
        Entry::Fed { side, .. }
        | Entry::Up { side, .. }
        | Entry::Air { side, .. }
        | Entry::Opened { side, .. }
        | Entry::Shut { side, .. }
        | Entry::Sent { side, .. }
        | Entry::Took { side, .. }
        | Entry::Enter { side, .. }
        | Entry::Applied { side, .. }
        | Entry::Began { side, .. }
        | Entry::Refused { side, .. }
        | Entry::Done { side, .. } => Some(*side),
    }
}

/// Writes the band behind a row, if its line is of a connection event.
#[tactic(auto, using(crate::proofs::Spelling::spelling))]
fn put_band_if(svg: &mut Vec<u8>, of_event: bool, top: u64) -> Result<(), AllocError>
    ensures { OnOk result (svg.new.items ≡ svg.old.items ++ all_spelled (band_if of_event top)) }
{
    if of_event {
        put_band(svg, BAND, top, BAND_WIDTH, ROW)
    } else {
        Ok(())
    }
}

/// Writes words beside the life line of a side.
#[tactic(auto, using(crate::proofs::Spelling::spelling))]
fn put_note(svg: &mut Vec<u8>, top: u64, side: Option<Side>, words: &str) -> Result<(), AllocError>
    requires { top < 2 ^ 40 }
    ensures { OnOk result (svg.new.items
        ≡ svg.old.items ++ all_spelled (note_at top side words.now)) }
{
    let Some(side) = side else {
        return Ok(());
    };
    put_text(svg, note_place(side), top + FOOT, note_class(side), words)
}

/// The line of an entry, without its newline.
fn line_of(alloc: Global, entry: &Entry) -> Result<Vec<u8>, AllocError>
    ensures { IfOk result (λ line. line.items ≡ line_of (entry_words entry.now)) }
{
    let line = write_line(alloc, entry)?;
    match line.as_slice().split_last() {
        Some((_, words)) => Vec::from_slice(alloc, words),
        None => Ok(Vec::new(alloc)),
    }
}

/// Writes what a line is shown as.
#[tactic(auto, using(crate::proofs::Spelling::spelling))]
fn put_mark(alloc: Global, svg: &mut Vec<u8>, top: u64, entry: &Entry) -> Result<(), AllocError>
    requires { top < 2 ^ 40 }
    ensures { OnOk result (svg.new.items ≡ svg.old.items ++ all_spelled (mark_of top entry.now)) }
{
    let words = words_of(alloc, entry)?;
    match entry {
        Entry::Air {
            side,
            fate,
            verdict,
            ..
        } => {
            let line = line_of(alloc, entry)?;
            put_packet_line(alloc, svg, top + SHAFT, *side, fate, *verdict, &line)?;
            put_text(svg, MIDDLE, top + LABEL, "packet", &words)
        }
        _ => put_note(svg, top, side_of(entry), &words),
    }
}

/// Writes the row of a line.
#[tactic(auto, using(crate::proofs::Spelling::spelling))]
fn put_row(alloc: Global, svg: &mut Vec<u8>, top: u64, entry: &Entry) -> Result<(), AllocError>
    requires { top < 2 ^ 40 }
    ensures { OnOk result (svg.new.items ≡ svg.old.items ++ all_spelled (row_of top entry.now)) }
{
    put_band_if(svg, is_of_event(entry), top)?;
    put_mark(alloc, svg, top, entry)
}

/// Writes how many turns had no line.
fn put_idle(alloc: Global, svg: &mut Vec<u8>, row: u64, turns: u64) -> Result<(), AllocError>
    requires { row ≤ 2 ^ 32 }
    ensures { OnOk result (svg.new.items ≡ svg.old.items ++ spelled (idle_text row turns)) }
{
    let words = format!(in alloc; "idle: {turns}")?;
    put_text(svg, TIMES, top_of(row) + FOOT, "idle", &words)
}

/// Writes the slot of a turn.
fn put_slot(alloc: Global, svg: &mut Vec<u8>, row: u64, slot: u64) -> Result<(), AllocError>
    requires { row ≤ 2 ^ 32 }
    ensures { OnOk result (svg.new.items ≡ svg.old.items ++ spelled (slot_text row slot)) }
{
    let words = format!(in alloc; "slot {slot}")?;
    put_text(svg, TIMES, top_of(row) + FOOT, "slot", &words)
}

/// Writes the row of some turns with no line, if there are any.
#[tactic(auto, using(crate::proofs::Spelling::spelling))]
pub fn put_turns(alloc: Global, svg: &mut Vec<u8>, row: u64, turns: u64) -> Result<(), AllocError>
    requires { row ≤ 2 ^ 32 }
    ensures { OnOk result (svg.new.items ≡ svg.old.items ++ all_spelled (turns_row row turns)) }
{
    if turns > 0 {
        put_idle(alloc, svg, row, turns)
    } else {
        Ok(())
    }
}

/// Writes the slot of the last of some turns, if there are any.
#[tactic(auto, using(crate::proofs::Spelling::spelling))]
fn put_slot_after(
    alloc: Global,
    svg: &mut Vec<u8>,
    row: u64,
    turns: u64,
    slot: u64,
) -> Result<(), AllocError>
    requires { row ≤ 2 ^ 32 }
    ensures { OnOk result (svg.new.items
        ≡ svg.old.items ++ all_spelled (slot_after row turns slot)) }
{
    if turns > 0 {
        put_slot(alloc, svg, row, slot)
    } else {
        Ok(())
    }
}

/// Writes what comes before the next line.
#[tactic(auto, using(crate::proofs::Spelling::spelling))]
fn put_turns_before(alloc: Global, svg: &mut Vec<u8>, place: Place) -> Result<(), AllocError>
    requires { place.row < 2 ^ 32 }
    ensures { OnOk result (svg.new.items ≡ svg.old.items ++ all_spelled (turns_before place)) }
{
    put_turns(alloc, svg, place.row, place.waiting.saturating_sub(1))?;
    put_slot_after(
        alloc,
        svg,
        place.row_after_turns(),
        place.waiting,
        place.slot,
    )
}

/// Writes what a line adds to the chart.
#[tactic(auto, using(crate::proofs::Spelling::spelling))]
fn put_line(alloc: Global, svg: &mut Vec<u8>, place: Place, entry: &Entry) -> Result<(), AllocError>
    requires { place.row < 2 ^ 32 }
    ensures { OnOk result (svg.new.items ≡ svg.old.items ++ all_spelled (drawn place entry.now)) }
{
    match entry {
        Entry::Turn { .. } => Ok(()),
        _ => {
            put_turns_before(alloc, svg, place)?;
            put_row(alloc, svg, top_of(place.row_after_turns()), entry)
        }
    }
}

/// Writes what some lines add, and gives the place after them.
#[tactic(auto, using(crate::proofs::Steps::written_last))]
pub fn put_lines(
    alloc: Global,
    svg: &mut Vec<u8>,
    place: Place,
    entries: &[Entry],
) -> Result<Place, AllocError>
    requires { place.row + place.waiting + length entries.now < 2 ^ 32 }
    ensures written { OnOk result (svg.new.items
        ≡ svg.old.items ++ all_spelled (all_drawn place entries.now)) }
    ensures place { IfOk result (λ last. last ≡ place_after_all place entries.now) }
{
    let mut place = place;
    let mut rest = entries;
    while let Some((entry, later)) = split_line(rest) {
        put_line(alloc, svg, place, entry)?;
        place = place.after(entry);
        rest = later;
    }
    Ok(place)
}
