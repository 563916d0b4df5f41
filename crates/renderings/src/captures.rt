//! The capture of a journal, written in blocks.
ghost use Rattle.std.specs.Prelude.{◌++◌, [], List, OnOk};
ghost use Rattle.journal.specs.declared.entries.Entry.{Entry};
ghost use Rattle.capture.specs.Capture.{blocks_after, capture, file_header};
ghost use Rattle.capture.specs.Knowing.{Knows};
ghost use Rattle.journal_tool.specs.Writing.{IsWritten, takes_memory};

use crate::blocks::next_block;
use capture::{Recorder, capture_start};
use journal::Entry;
use journal_tool::Rendering;
use outside::{Sink, SinkFault};
use std::alloc::Global;

/// The capture file of a journal.
pub struct CaptureFile;

impl Rendering for CaptureFile {
    ghost octets = { λ _ entries. capture entries };

    fn write<O: Sink>(
        &self,
        alloc: Global,
        entries: &[Entry],
        out: &mut O,
    ) -> Result<(), SinkFault> {
        write_capture(alloc, entries, out)
    }
}

/// Writes the octets before the packets.
fn write_start<O: Sink>(alloc: Global, out: &mut O) -> Result<(), SinkFault>
    ensures { IsWritten O.written O.faults O.is_reliable takes_memory out.old out.new result
        file_header }
{
    let octets = capture_start(alloc)?;
    out.put(&octets)
}

/// Writes the packets of the next entries.
fn write_block<O: Sink>(
    alloc: Global,
    recorder: &mut Recorder,
    entries: &[Entry],
    out: &mut O,
) -> Result<(), SinkFault>
    ensures packets { (past : List Entry) → Knows recorder.old past
        → IsWritten O.written O.faults O.is_reliable takes_memory out.old out.new result
        (blocks_after past entries.now) }
    ensures knows { (past : List Entry) → Knows recorder.old past
        → OnOk result (Knows recorder.new (past ++ entries.now)) }
{
    let octets = recorder.record(alloc, entries)?;
    out.put(&octets)
}

/// Writes the packets of all entries.
fn write_packets<O: Sink>(alloc: Global, entries: &[Entry], out: &mut O) -> Result<(), SinkFault>
    ensures { IsWritten O.written O.faults O.is_reliable takes_memory out.old out.new result
        (blocks_after [] entries.now) }
{
    let mut recorder = Recorder::new(alloc);
    let mut rest = entries;
    while let Some((block, later)) = next_block(rest) {
        write_block(alloc, &mut recorder, block, out)?;
        rest = later;
    }
    Ok(())
}

/// Writes the capture of the entries.
fn write_capture<O: Sink>(alloc: Global, entries: &[Entry], out: &mut O) -> Result<(), SinkFault>
    ensures { IsWritten O.written O.faults O.is_reliable takes_memory out.old out.new result
        (capture entries.now) }
{
    write_start(alloc, out)?;
    write_packets(alloc, entries, out)
}
