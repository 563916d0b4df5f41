//! The command `make`.
ghost use Rattle.std.specs.Prelude.{◌≡◌, ◌++◌, OnOk, IfOk, IfErr, decimal};
ghost use Rattle.program.specs.Causes.{IsLoadRun, IsMakeFault, OfLoad};
ghost use Rattle.program.specs.Claims.{counted_line, of_runs};
ghost use Rattle.program.specs.LoadLine.{line_of_counts};
ghost use Rattle.program.specs.World.{writes_of, HasWritten};

use crate::counts::{links_in, octets_received};
use crate::faults::Fault;
use crate::pairs::{read_schedule, run_streams};
use crate::writing::write_octets;
use ble_base::Side;
use itoa::Buffer;
use journal::Journal;
use outside::Sink;
use radio_replay::{Schedule, a_load_has_a_schedule, make_load};
use std::alloc::{AllocError, Global};

/// Adds a text, and a number after it.
fn put_count(line: &mut Vec<u8>, front: &[u8], count: u128) -> Result<(), AllocError>
    ensures { OnOk result (line.new.items ≡ line.old.items ++ (front.now ++ decimal count)) }
{
    line.extend_from_slice(front)?;
    line.extend_from_slice(Buffer::new().format(count).as_bytes())
}

/// The line of these numbers.
fn counts_line(
    alloc: Global,
    number: u32,
    turns: u32,
    links: u64,
    a: u128,
    b: u128,
) -> Result<Vec<u8>, AllocError>
    ensures { IfOk result (λ line. line.items ≡ line_of_counts number turns links a b) }
{
    let mut line = Vec::new(alloc);
    put_count(&mut line, b"make ", u128::from(number))?;
    put_count(&mut line, b" turns ", u128::from(turns))?;
    put_count(&mut line, b" links ", u128::from(links))?;
    put_count(&mut line, b" a ", a)?;
    put_count(&mut line, b" b ", b)?;
    line.push(b'\n')?;
    Ok(line)
}

/// The line on the run of the load of a number.
fn line_on_run(
    alloc: Global,
    number: u32,
    schedule: &Schedule,
    journal: &Journal,
) -> Result<Vec<u8>, AllocError>
    ensures { IfOk result (λ line. line.items ≡ counted_line number schedule.now journal.now) }
{
    counts_line(
        alloc,
        number,
        schedule.turns(),
        links_in(journal),
        octets_received(journal, Side::A),
        octets_received(journal, Side::B),
    )
}

/// Runs the load of a number, as `pair` runs two streams by a schedule.
fn run_load(alloc: Global, number: u32) -> Result<(Schedule, Journal), Fault>
    ensures ok { IfOk result (λ run. IsLoadRun number run.0 run.1) }
    ensures err { IfErr result (λ fault. fault ≡ Fault.NoMemory) }
{
    a_load_has_a_schedule();
    run_model::unseen_damage_stops_a_run();
    let Ok(load) = make_load(alloc, number) else {
        return Err(Fault::NoMemory);
    };
    let schedule = read_schedule(alloc, load.schedule.as_slice())?;
    let (journal, fault) = run_streams(alloc, load.a.as_slice(), load.b.as_slice(), &schedule)?;
    match fault {
        None => Ok((schedule, journal)),
        Some(fault) => Err(fault),
    }
}

/// Does the work of `make`: runs the load of a number, and writes the line on its run.
pub(crate) fn make<O: Sink>(alloc: Global, number: u32, out: &mut O) -> Result<(), Fault>
    ensures ok { OnOk result (OfLoad of_runs
        (HasWritten (writes_of O.written O.is_reliable O.faults out.old out.new)) number) }
    ensures err { IfErr result (IsMakeFault of_runs
        (writes_of O.written O.is_reliable O.faults out.old out.new) number) }
{
    let (schedule, journal) = run_load(alloc, number)?;
    let Ok(line) = line_on_run(alloc, number, &schedule, &journal) else {
        return Err(Fault::NoMemory);
    };
    write_octets(line.as_slice(), out)
}
