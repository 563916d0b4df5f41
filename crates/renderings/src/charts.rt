//! The chart of a journal, written in blocks.
ghost use Rattle.std.specs.Prelude.{◌≡◌, ◌+◌, ◌<◌, ◌^◌, OnOk, length};
ghost use Rattle.chart.specs.Chart.{chart_of, end_text, first_place, place_after_all};
ghost use Rattle.chart.specs.Chart.{rows_text, start_text};
ghost use Rattle.chart.specs.Svg.{document_text};
ghost use Rattle.journal_tool.specs.Writing.{IsWritten, takes_memory};

use crate::blocks::next_block;
use chart::{Place, chart_end, chart_rows, chart_start};
use journal::Entry;
use journal_tool::Rendering;
use outside::{Sink, SinkFault};
use std::alloc::Global;

/// The message chart of a journal.
pub struct MessageChart;

impl Rendering for MessageChart {
    ghost octets = { λ _ entries. document_text (chart_of entries) };

    fn write<O: Sink>(
        &self,
        alloc: Global,
        entries: &[Entry],
        out: &mut O,
    ) -> Result<(), SinkFault> {
        write_chart(alloc, entries, out)
    }
}

/// Writes some octets.
fn write_octets<O: Sink>(octets: &[u8], out: &mut O) -> Result<(), SinkFault>
    ensures { IsWritten O.written O.faults O.is_reliable takes_memory out.old out.new result
        octets.now }
{
    out.put(octets)
}

/// Writes all that is above the first row, where `last` is the place after the last line.
fn write_start<O: Sink>(alloc: Global, last: Place, out: &mut O) -> Result<(), SinkFault>
    requires { last.row < 2 ^ 32 }
    ensures { IsWritten O.written O.faults O.is_reliable takes_memory out.old out.new result
        (start_text last) }
{
    let octets = chart_start(alloc, last)?;
    write_octets(octets.as_slice(), out)
}

/// Writes all that comes after the last line.
fn write_end<O: Sink>(alloc: Global, last: Place, out: &mut O) -> Result<(), SinkFault>
    requires { last.row < 2 ^ 32 }
    ensures { IsWritten O.written O.faults O.is_reliable takes_memory out.old out.new result
        (end_text last) }
{
    let octets = chart_end(alloc, last)?;
    write_octets(octets.as_slice(), out)
}

/// Writes the rows of the next lines, and goes on to the place after them.
fn write_block<O: Sink>(
    alloc: Global,
    place: &mut Place,
    entries: &[Entry],
    out: &mut O,
) -> Result<(), SinkFault>
    requires { place.old.row + place.old.waiting + length entries.now < 2 ^ 32 }
    ensures rows { IsWritten O.written O.faults O.is_reliable takes_memory out.old out.new result
        (rows_text place.old entries.now) }
    ensures place { OnOk result (place.new ≡ place_after_all place.old entries.now) }
{
    let (octets, next) = chart_rows(alloc, *place, entries)?;
    *place = next;
    write_octets(octets.as_slice(), out)
}

/// Writes the rows of all lines.
fn write_rows<O: Sink>(alloc: Global, entries: &[Entry], out: &mut O) -> Result<(), SinkFault>
    requires { length entries.now < 2 ^ 32 }
    ensures { IsWritten O.written O.faults O.is_reliable takes_memory out.old out.new result
        (rows_text first_place entries.now) }
{
    let mut place = Place::first();
    let mut rest = entries;
    while let Some((block, later)) = next_block(rest) {
        write_block(alloc, &mut place, block, out)?;
        rest = later;
    }
    Ok(())
}

/// The place after all lines.
#[tactic(auto, using(crate::proofs::Rows::rows_at_most))]
fn last_place(entries: &[Entry]) -> Place
    requires { length entries.now < 2 ^ 32 }
    ensures place { result ≡ place_after_all first_place entries.now }
    ensures room { result.row < 2 ^ 32 }
{
    Place::first().after_all(entries)
}

/// Writes the chart of the entries. Its height comes first, so the lines are gone through twice.
fn write_chart<O: Sink>(alloc: Global, entries: &[Entry], out: &mut O) -> Result<(), SinkFault>
    requires { length entries.now < 2 ^ 32 }
    ensures { IsWritten O.written O.faults O.is_reliable takes_memory out.old out.new result
        (document_text (chart_of entries.now)) }
{
    let last = last_place(entries);
    write_start(alloc, last, out)?;
    write_rows(alloc, entries, out)?;
    write_end(alloc, last, out)
}
