//! One turn of a run.
ghost use Rattle.std.specs.Prelude.{◌≡◌, ℕ, ◌+◌, ◌^◌, ◌<◌, ◌≤◌, List, [], length, slice_get, Some};
ghost use Rattle.std.specs.Prelude.{OnOk, IfErr};
ghost use Rattle.radio_replay.specs.Script.{Turn as ScriptTurn};
ghost use Rattle.run_model.specs.History.{Event};
ghost use Rattle.run_model.specs.Pair.{plan_of};
ghost use Rattle.run_model.specs.Run.{Given, after_begins, after_ends, after_opening, after_turn};
ghost use Rattle.pair_world.specs.Air.{InPhase};
ghost use Rattle.pair_world.specs.Order.{HaveBothBegun, MayBothBegin};
ghost use Rattle.pair_world.specs.Outcomes.{Reaches, IsStopped};
ghost use Rattle.pair_world.specs.Turns.{HasFed, PairIsUpTo, after_feeding};

use crate::air::Turn;
use crate::logs::Log;
use crate::phases::{Pair, Wishes, run_phases};
use crate::stops::Stop;
use ble_base::{Outbox, Side, SlotNo};
use journal::Entry;
use radio_replay::Schedule;
use std::alloc::AllocError;

/// Writes that a turn begins, and feeds both stations what their hosts send in it.
fn feed_both(
    schedule: &Schedule,
    number: u32,
    pair: &mut Pair<'_>,
    out: &mut Outbox,
    log: &mut Log,
) -> Result<(), AllocError>
    requires turn { number < length schedule.now.turns }
    requires order { MayBothBegin number pair.old.a pair.old.b }
    requires empty { out.old.items ≡ [] }
    ensures ok { OnOk result ((given : Given) (scripted : ScriptTurn) (history : List Event)
        → slice_get schedule.now.turns number ≡ Some scripted
        → PairIsUpTo given number pair.old.a pair.old.b log.old history
        → HasFed given number pair.new.a pair.new.b log.new (after_feeding given number
        (plan_of scripted) history)) }
    ensures order { OnOk result (MayBothBegin number pair.new.a pair.new.b) }
    ensures links { OnOk result (log.new.links ≡ log.old.links) }
    ensures empty { OnOk result (out.new.items ≡ []) }
{
    log.write(Entry::Turn {
        slot: u64::from(number),
        a_on: schedule.a_on(number),
        b_on: Some(schedule.b_on(number)),
    })?;
    pair.a.feed(Side::A, schedule.feed_a(number), out, log)?;
    pair.b.feed(Side::B, schedule.feed_b(number), out, log)
}

/// Both controllers begin the turn, and want something in its first phase. This is kept apart from
/// the phases, so that less is cleared in each turn.
#[inline(never)]
fn begin_both(
    schedule: &Schedule,
    number: u32,
    wanted: &mut Wishes,
    pair: &mut Pair<'_>,
    out: &mut Outbox,
    log: &mut Log,
) -> Result<(), AllocError>
    requires turn { number < length schedule.now.turns }
    requires order { MayBothBegin number pair.old.a pair.old.b }
    requires empty { out.old.items ≡ [] }
    ensures ok { OnOk result ((given : Given) (scripted : ScriptTurn) (history : List Event)
        → slice_get schedule.now.turns number ≡ Some scripted
        → HasFed given number pair.old.a pair.old.b log.old history
        → InPhase given number pair.new.a pair.new.b log.new wanted.new.a wanted.new.b 0
        (after_begins given number (plan_of scripted) given.stations history)) }
    ensures begun { OnOk result (HaveBothBegun (number + 1) pair.new.a pair.new.b) }
    ensures links { OnOk result (log.new.links ≡ log.old.links) }
    ensures empty { OnOk result (out.new.items ≡ []) }
{
    let slot = SlotNo(u64::from(number));
    controller_model::notes_name_links_of_the_controller();
    pair.a
        .begin(slot, schedule.a_on(number), &mut wanted.a, out);
    pair.a.write_notes(Side::A, out, log)?;
    pair.b
        .begin(slot, schedule.b_on(number), &mut wanted.b, out);
    pair.b.write_notes(Side::B, out, log)
}

/// Opens a turn: both stations are fed, and then both begin it.
fn open_turn(
    schedule: &Schedule,
    number: u32,
    wanted: &mut Wishes,
    pair: &mut Pair<'_>,
    out: &mut Outbox,
    log: &mut Log,
) -> Result<(), AllocError>
    requires turn { number < length schedule.now.turns }
    requires order { MayBothBegin number pair.old.a pair.old.b }
    requires empty { out.old.items ≡ [] }
    ensures ok { OnOk result ((given : Given) (scripted : ScriptTurn) (history : List Event)
        → slice_get schedule.now.turns number ≡ Some scripted
        → PairIsUpTo given number pair.old.a pair.old.b log.old history
        → InPhase given number pair.new.a pair.new.b log.new wanted.new.a wanted.new.b 0
        (after_opening given number (plan_of scripted) history)) }
    ensures begun { OnOk result (HaveBothBegun (number + 1) pair.new.a pair.new.b) }
    ensures links { OnOk result (log.new.links ≡ log.old.links) }
    ensures empty { OnOk result (out.new.items ≡ []) }
{
    feed_both(schedule, number, pair, out, log)?;
    begin_both(schedule, number, wanted, pair, out, log)
}

/// Both controllers end the turn.
fn end_both(pair: &mut Pair<'_>, out: &mut Outbox, log: &mut Log) -> Result<(), AllocError>
    requires empty { out.old.items ≡ [] }
    ensures ok { OnOk result ((given : Given) (turns : ℕ) (history : List Event)
        → PairIsUpTo given turns pair.old.a pair.old.b log.old history
        → PairIsUpTo given turns pair.new.a pair.new.b log.new
        (after_ends given given.stations history)) }
    ensures order { OnOk result ((slot : ℕ) → HaveBothBegun slot pair.old.a pair.old.b
        → MayBothBegin slot pair.new.a pair.new.b) }
    ensures links { OnOk result (log.new.links ≡ log.old.links) }
    ensures empty { OnOk result (out.new.items ≡ []) }
{
    controller_model::notes_name_links_of_the_controller();
    pair.a.end(out);
    pair.a.write_notes(Side::A, out, log)?;
    pair.b.end(out);
    pair.b.write_notes(Side::B, out, log)
}

/// Runs a turn.
pub(crate) fn run_turn(
    schedule: &Schedule,
    number: u32,
    wanted: &mut Wishes,
    pair: &mut Pair<'_>,
    out: &mut Outbox,
    log: &mut Log,
) -> Result<(), Stop>
    requires turn { number < length schedule.now.turns }
    requires order { MayBothBegin number pair.old.a pair.old.b }
    requires links { log.old.links + 6 < 2 ^ 64 }
    requires empty { out.old.items ≡ [] }
    ensures ok { OnOk result ((given : Given) (scripted : ScriptTurn) (history : List Event)
        → slice_get schedule.now.turns number ≡ Some scripted
        → PairIsUpTo given number pair.old.a pair.old.b log.old history
        → Reaches (after_turn given number (plan_of scripted) history)
        (PairIsUpTo given (number + 1) pair.new.a pair.new.b log.new)) }
    ensures err { IfErr result (λ stop. (given : Given) (scripted : ScriptTurn)
        (history : List Event)
        → slice_get schedule.now.turns number ≡ Some scripted
        → PairIsUpTo given number pair.old.a pair.old.b log.old history
        → IsStopped (after_turn given number (plan_of scripted) history)
        number log.new.entries stop) }
    ensures order { OnOk result (MayBothBegin (number + 1) pair.new.a pair.new.b) }
    ensures links { OnOk result (log.new.links ≤ log.old.links + 6) }
    ensures empty { OnOk result (out.new.items ≡ []) }
{
    open_turn(schedule, number, wanted, pair, out, log)?;
    let mut turn = Turn {
        schedule,
        number,
        packets: 0,
    };
    run_phases(&mut turn, wanted, pair, out, log)?;
    end_both(pair, out, log)?;
    Ok(())
}
