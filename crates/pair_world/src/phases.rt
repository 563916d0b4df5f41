//! The phases of a turn.
ghost use Rattle.std.specs.Prelude.{◌≡◌, ℕ, ◌+◌, ◌^◌, ◌<◌, ◌≤◌, List, [], length, slice_get, Some};
ghost use Rattle.std.specs.Prelude.{OnOk, IfOk, IfErr};
ghost use Rattle.radio_replay.specs.Script.{Turn as ScriptTurn};
ghost use Rattle.run_model.specs.History.{Event, is_handed};
ghost use Rattle.run_model.specs.Run.{Given, after_packets, after_phase, after_phases};
ghost use Rattle.pair_world.specs.Air.{InPhase};
ghost use Rattle.pair_world.specs.Order.{HaveBothBegun};
ghost use Rattle.pair_world.specs.Wishes.{heard_of};
ghost use Rattle.pair_world.specs.Outcomes.{Reaches, IsStopped};
ghost use Rattle.pair_world.specs.Turns.{HasHeard, PairIsUpTo};

use crate::air::{Turn, fly, hand_on};
use crate::logs::Log;
use crate::stations::Station;
use crate::stops::Stop;
use crate::wishes::Wish;
use ble_base::{Outbox, Side, Verdict};

/// Both stations of a run.
#[derive(Drop)]
pub(crate) struct Pair<'s> {
    pub a: Station<'s>,
    pub b: Station<'s>,
}

/// What both stations want in the phase that comes next.
#[derive(Drop)]
pub(crate) struct Wishes {
    pub a: Wish,
    pub b: Wish,
}

impl Wishes {
    /// Both want nothing.
    pub(crate) fn new() -> Self {
        Wishes {
            a: Wish::new(),
            b: Wish::new(),
        }
    }
}

/// The verdict of each station on the packet of the other; missed where there was none.
#[derive(Clone, Copy)]
struct Reception {
    a: Verdict,
    b: Verdict,
}

/// What both want to transmit goes on the air, and is damaged where it is handed on so.
fn transmit(
    turn: &mut Turn<'_>,
    wanted: &mut Wishes,
    pair: &mut Pair<'_>,
    log: &mut Log,
) -> Result<Reception, Stop>
    requires few { turn.old.packets + 2 < 2 ^ 32 }
    requires turn { turn.old.number < length turn.old.schedule.now.turns }
    requires links { log.old.links + 2 < 2 ^ 64 }
    ensures ok { IfOk result (λ received. (given : Given) (scripted : ScriptTurn)
        (history : List Event)
        → slice_get turn.old.schedule.now.turns turn.old.number ≡ Some scripted
        → InPhase given turn.old.number pair.old.a pair.old.b log.old wanted.old.a wanted.old.b
        turn.old.packets history
        → Reaches (after_packets given scripted.fates given.stations history)
        (HasHeard given turn.old.number pair.new.a pair.new.b log.new turn.new.packets
        (heard_of (is_handed received.a) wanted.new.b)
        (heard_of (is_handed received.b) wanted.new.a))) }
    ensures err { IfErr result (λ stop. (given : Given) (scripted : ScriptTurn)
        (history : List Event)
        → slice_get turn.old.schedule.now.turns turn.old.number ≡ Some scripted
        → InPhase given turn.old.number pair.old.a pair.old.b log.old wanted.old.a wanted.old.b
        turn.old.packets history
        → IsStopped (after_packets given scripted.fates given.stations history) turn.old.number
        log.new.entries stop) }
    ensures links { OnOk result (log.new.links ≤ log.old.links + 2) }
    ensures held { (pair.new.a.held ≡ pair.old.a.held) × (pair.new.b.held ≡ pair.old.b.held) }
    ensures count { OnOk result (turn.new.packets ≤ turn.old.packets + 2) }
    ensures same_turn { (turn.new.schedule ≡ turn.old.schedule) × (turn.new.number
        ≡ turn.old.number) }
{
    let first = turn.packets;
    let b = fly(
        turn,
        Side::A,
        &wanted.a,
        &wanted.b,
        &mut pair.a,
        &mut pair.b,
        log,
    )?;
    let second = turn.packets;
    let a = fly(
        turn,
        Side::B,
        &wanted.b,
        &wanted.a,
        &mut pair.b,
        &mut pair.a,
        log,
    )?;
    hand_on(turn, first, b, &mut wanted.a);
    hand_on(turn, second, a, &mut wanted.b);
    Ok(Reception { a, b })
}

/// A phase: what both want to transmit goes on the air, then both take what they heard, and want
/// something in the next one.
fn run_phase(
    turn: &mut Turn<'_>,
    wanted: &mut Wishes,
    next: &mut Wishes,
    pair: &mut Pair<'_>,
    out: &mut Outbox,
    log: &mut Log,
) -> Result<(), Stop>
    requires few { turn.old.packets + 2 < 2 ^ 32 }
    requires turn { turn.old.number < length turn.old.schedule.now.turns }
    requires links { log.old.links + 2 < 2 ^ 64 }
    requires empty { out.old.items ≡ [] }
    ensures ok { OnOk result ((given : Given) (scripted : ScriptTurn) (history : List Event)
        → slice_get turn.old.schedule.now.turns turn.old.number ≡ Some scripted
        → InPhase given turn.old.number pair.old.a pair.old.b log.old wanted.old.a wanted.old.b
        turn.old.packets history
        → Reaches (after_phase given scripted.fates history)
        (InPhase given turn.old.number pair.new.a pair.new.b log.new next.new.a next.new.b
        turn.new.packets)) }
    ensures err { IfErr result (λ stop. (given : Given) (scripted : ScriptTurn)
        (history : List Event)
        → slice_get turn.old.schedule.now.turns turn.old.number ≡ Some scripted
        → InPhase given turn.old.number pair.old.a pair.old.b log.old wanted.old.a wanted.old.b
        turn.old.packets history
        → IsStopped (after_phase given scripted.fates history)
        turn.old.number log.new.entries stop) }
    ensures begun { OnOk result ((slots : ℕ) → HaveBothBegun slots pair.old.a pair.old.b
        → HaveBothBegun slots pair.new.a pair.new.b) }
    ensures links { OnOk result (log.new.links ≤ log.old.links + 2) }
    ensures count { OnOk result (turn.new.packets ≤ turn.old.packets + 2) }
    ensures same_turn { (turn.new.schedule ≡ turn.old.schedule) × (turn.new.number
        ≡ turn.old.number) }
    ensures empty { OnOk result (out.new.items ≡ []) }
{
    controller_model::notes_name_links_of_the_controller();
    let received = transmit(turn, wanted, pair, log)?;
    pair.a.listen(wanted.b.heard(received.a), &mut next.a, out);
    pair.a.write_notes(Side::A, out, log)?;
    pair.b.listen(wanted.a.heard(received.b), &mut next.b, out);
    pair.b.write_notes(Side::B, out, log)?;
    Ok(())
}

/// The three phases of a turn, of which both want something in the first.
pub(crate) fn run_phases(
    turn: &mut Turn<'_>,
    wanted: &mut Wishes,
    pair: &mut Pair<'_>,
    out: &mut Outbox,
    log: &mut Log,
) -> Result<(), Stop>
    requires none { turn.old.packets ≡ 0 }
    requires turn { turn.old.number < length turn.old.schedule.now.turns }
    requires links { log.old.links + 6 < 2 ^ 64 }
    requires empty { out.old.items ≡ [] }
    ensures ok { OnOk result ((given : Given) (scripted : ScriptTurn) (history : List Event)
        → slice_get turn.old.schedule.now.turns turn.old.number ≡ Some scripted
        → InPhase given turn.old.number pair.old.a pair.old.b log.old wanted.old.a wanted.old.b 0
        history
        → Reaches (after_phases given scripted.fates history)
        (PairIsUpTo given (turn.old.number + 1) pair.new.a pair.new.b log.new)) }
    ensures err { IfErr result (λ stop. (given : Given) (scripted : ScriptTurn)
        (history : List Event)
        → slice_get turn.old.schedule.now.turns turn.old.number ≡ Some scripted
        → InPhase given turn.old.number pair.old.a pair.old.b log.old wanted.old.a wanted.old.b 0
        history
        → IsStopped (after_phases given scripted.fates history)
        turn.old.number log.new.entries stop) }
    ensures begun { OnOk result ((slots : ℕ) → HaveBothBegun slots pair.old.a pair.old.b
        → HaveBothBegun slots pair.new.a pair.new.b) }
    ensures links { OnOk result (log.new.links ≤ log.old.links + 6) }
    ensures empty { OnOk result (out.new.items ≡ []) }
{
    let mut next = Wishes::new();
    run_phase(turn, wanted, &mut next, pair, out, log)?;
    run_phase(turn, &mut next, wanted, pair, out, log)?;
    run_phase(turn, wanted, &mut next, pair, out, log)
}
