//! The command `pair`.
ghost use Rattle.std.specs.Prelude.{◌≡◌, ◌++◌, ◌<◌, ◌≤◌, length, map, vec_items};
ghost use Rattle.std.specs.Prelude.{OnOk, IfOk, IfErr};
ghost use Rattle.journal.specs.Text.{text};
ghost use Rattle.run_model.specs.Pair.{given_of};
ghost use Rattle.radio_replay.specs.Schedule.{Right, schedule_of};
ghost use Rattle.program.specs.Causes.{IsWriteFault, OfRun, OfPair, IsScheduleFault};
ghost use Rattle.program.specs.Causes.{IsEndOf, IsWrittenEnd, IsPairFault};
ghost use Rattle.program.specs.Claims.{HaveSixOctets, of_runs};
ghost use Rattle.program.specs.Commands.{schedule_place};
ghost use Rattle.program.specs.World.{writes_of, HasWritten};

use crate::commands::SCHEDULE;
use crate::faults::{Fault, end_of, fault_of_schedule};
use crate::writing::write_octets;
use journal::{Entry, Journal, write_lines};
use outside::Sink;
use pair_world::run_pair;
use radio_replay::Schedule;
use std::alloc::Global;

/// How many lines of the journal are written at once.
const BLOCK: usize = 256;

/// Writes the lines of some entries. The allocation for their text is asked for first.
fn write_block<O: Sink>(alloc: Global, entries: &[Entry], out: &mut O) -> Result<(), Fault>
    ensures ok { OnOk result (HasWritten
        (writes_of O.written O.is_reliable O.faults out.old out.new) (text entries.now)) }
    ensures err { IfErr result (IsWriteFault
        (writes_of O.written O.is_reliable O.faults out.old out.new) (text entries.now)) }
    ensures counts { O.faults out.old ≤ O.faults out.new }
    ensures stays_reliable { O.is_reliable out.old → O.is_reliable out.new }
{
    let Ok(lines) = write_lines(alloc, entries) else {
        return Err(Fault::NoMemory);
    };
    write_octets(lines.as_slice(), out)
}

/// The entries that are written next, and those after them.
fn split_block(entries: &[Entry]) -> (&[Entry], &[Entry])
    ensures all { result.0.now ++ result.1.now ≡ entries.now }
    ensures at_most { length result.0.now ≤ BLOCK }
    ensures fewer { 0 < length entries.now → length result.1.now < length entries.now }
{
    entries.split_at(entries.len().min(BLOCK))
}

/// Writes the text of a journal.
fn write_journal<O: Sink>(alloc: Global, journal: &Journal, out: &mut O) -> Result<(), Fault>
    ensures ok { OnOk result (HasWritten
        (writes_of O.written O.is_reliable O.faults out.old out.new) (text journal.now)) }
    ensures err { IfErr result (IsWriteFault
        (writes_of O.written O.is_reliable O.faults out.old out.new) (text journal.now)) }
{
    let mut rest = journal.as_slice();
    while !rest.is_empty() {
        let (block, later) = split_block(rest);
        write_block(alloc, block, out)?;
        rest = later;
    }
    Ok(())
}

/// Reads the text of a schedule.
#[tactic(auto, using(crate::proofs::Endings::schedule_not_read))]
pub(crate) fn read_schedule(alloc: Global, octets: &[u8]) -> Result<Schedule, Fault>
    ensures ok { IfOk result (λ schedule.
        schedule_of octets.now ≡ Right schedule.a schedule.b schedule.turns) }
    ensures words_a { IfOk result (λ schedule. 1 ≤ length schedule.a.words.items) }
    ensures words_b { IfOk result (λ schedule. 1 ≤ length schedule.b.words.items) }
    ensures err { IfErr result (IsScheduleFault schedule_place octets.now) }
{
    match Schedule::read(alloc, octets) {
        Ok(schedule) => Ok(schedule),
        Err(fault) => Err(fault_of_schedule(SCHEDULE, fault)),
    }
}

/// A public address has six octets.
fn is_six(public: [u8; 6])
    ensures { length public ≡ 6 }
{
    let [_, _, _, _, _, _] = public;
}

/// Both public addresses have six octets.
fn publics_are_six(schedule: &Schedule)
    ensures { HaveSixOctets schedule.now }
{
    is_six(schedule.a.public);
    is_six(schedule.b.public);
}

/// Runs the two streams by a schedule: the journal to write, and the fault to report after it, if
/// there is one.
#[tactic(auto, using(crate::proofs::Endings::run_ended, crate::proofs::Endings::run_not_ended))]
pub(crate) fn run_streams(
    alloc: Global,
    a: &[u8],
    b: &[u8],
    schedule: &Schedule,
) -> Result<(Journal, Option<Fault>), Fault>
    requires words_a { 1 ≤ length schedule.now.a.words.items }
    requires words_b { 1 ≤ length schedule.now.b.words.items }
    ensures ok { IfOk result (λ end. IsEndOf (given_of a.now b.now schedule.now) end.0 end.1) }
    ensures six { HaveSixOctets schedule.now }
    ensures err { IfErr result (λ fault. fault ≡ Fault.NoMemory) }
{
    publics_are_six(schedule);
    end_of(run_pair(alloc, a, b, schedule))
}

/// Writes a journal, and then gives the fault that follows it, if there is one.
fn write_end<O: Sink>(
    alloc: Global,
    journal: &Journal,
    fault: Option<Fault>,
    out: &mut O,
) -> Result<(), Fault>
    ensures { IsWrittenEnd (writes_of O.written O.is_reliable O.faults out.old out.new)
        (text journal.now) fault result }
{
    write_journal(alloc, journal, out)?;
    match fault {
        None => Ok(()),
        Some(fault) => Err(fault),
    }
}

/// Runs the two streams by the text of a schedule, and writes the journal.
fn pair_octets<O: Sink>(
    alloc: Global,
    a: &[u8],
    b: &[u8],
    schedule: &[u8],
    out: &mut O,
) -> Result<(), Fault>
    ensures ok { OnOk result (OfRun of_runs
        (HasWritten (writes_of O.written O.is_reliable O.faults out.old out.new))
        a.now b.now schedule.now) }
    ensures err { IfErr result (λ fault. IsPairFault of_runs
        (writes_of O.written O.is_reliable O.faults out.old out.new) fault
        a.now b.now schedule.now) }
{
    let schedule = read_schedule(alloc, schedule)?;
    let (journal, fault) = run_streams(alloc, a, b, &schedule)?;
    write_end(alloc, &journal, fault, out)
}

/// Does the work of `pair` over the octets of its three files: runs the two streams by the
/// schedule, and writes the journal.
pub(crate) fn pair<O: Sink>(alloc: Global, contents: &[Vec<u8>], out: &mut O) -> Result<(), Fault>
    requires { length contents.now ≡ 3 }
    ensures ok { OnOk result (OfPair
        (OfRun of_runs (HasWritten (writes_of O.written O.is_reliable O.faults out.old out.new)))
        (map vec_items contents.now)) }
    ensures err { IfErr result (λ fault. OfPair
        (IsPairFault of_runs (writes_of O.written O.is_reliable O.faults out.old out.new) fault)
        (map vec_items contents.now)) }
{
    let [a, b, schedule] = contents else {
        unreachable!();
    };
    pair_octets(alloc, a, b, schedule, out)
}
