//! Packets on the air.
ghost use Rattle.std.specs.Prelude.{◌≡◌, ℕ, ◌+◌, ◌^◌, ◌<◌, ◌≤◌, false, List, [], ◌∷◌, length};
ghost use Rattle.std.specs.Prelude.{slice_get, IfOk, IfErr, OnOk, OnErr, Some};
ghost use Rattle.radio_replay.specs.Script.{Turn as ScriptTurn};
ghost use Rattle.radio_replay.specs.Script.{fate_of};
ghost use Rattle.radio_replay.specs.declared.fates.Fate.TheVariants.{Pass};
ghost use Rattle.radio_replay.specs.Damage.{damaged_packet};
ghost use Rattle.controller_model.specs.Facts.{Setup};
ghost use Rattle.controller_model.specs.Packets.{use_of};
ghost use Rattle.controller_model.specs.Step.{Step};
ghost use Rattle.controller_model.specs.Side.{facts_of};
ghost use Rattle.controller.specs.Knowing.{Knows};
ghost use Rattle.run_model.specs.History.{Event, is_good};
ghost use Rattle.run_model.specs.Journal.{mark_of};
ghost use Rattle.run_model.specs.Links.{begins_link};
ghost use Rattle.run_model.specs.Run.{Given, after_packet, is_lost};
ghost use Rattle.pair_world.specs.Air.{InAir, HasFlown, HasLinked, IsReceived, IsSent, IsUnseen};
ghost use Rattle.pair_world.specs.Air.{IsUnseenOr};
ghost use Rattle.pair_world.specs.Air.{verdict_by};
ghost use Rattle.pair_world.specs.Logs.{with_entries};
ghost use Rattle.pair_world.specs.Outcomes.{Reaches, IsStopped};
ghost use Rattle.pair_world.specs.Stations.{number_of};
ghost use Rattle.pair_world.specs.Wishes.{use_handed};

use crate::connect_inds::begins_link;
use crate::logs::Log;
use crate::stations::Station;
use crate::stops::{Stop, UnseenPacket};
use crate::wishes::Wish;
use arrayvec::ArrayVec;
use ble_base::{AIR_PACKET_OCTETS, Side, Verdict};
use journal::{Entry, Mark};
use radio_replay::{Fate, Schedule};
use std::alloc::AllocError;

/// A turn of the schedule that is under way.
#[derive(Clone, Copy)]
pub(crate) struct Turn<'s> {
    pub schedule: &'s Schedule,
    pub number: u32,
    /// How many packets were on the air in it.
    pub packets: u32,
}

/// A fate as the journal has it.
fn mark(fate: &Fate, log: &Log) -> Result<Mark, AllocError>
    ensures { IfOk result (λ mark. mark ≡ mark_of fate.now) }
{
    match fate {
        Fate::Pass => Ok(Mark::Pass),
        Fate::Lost => Ok(Mark::Lost),
        Fate::Damage { at, pattern } => Ok(Mark::Damage {
            at: *at,
            pattern: log.copy(pattern.as_slice())?,
        }),
    }
}

/// Whether the packet is received.
fn is_good(verdict: Verdict) -> bool
    ensures { result ≡ is_good verdict }
{
    matches!(verdict, Verdict::Good)
}

/// The verdict of a station on octets that reach it on a channel: missed where it does not listen
/// there.
fn judge(listener: &Station<'_>, listens: &Wish, channel: u8, octets: &[u8]) -> Verdict
    ensures { (setup : Setup) (past : List Step) → Knows setup listener.now.held past
        → listens.now ≡ use_of (facts_of setup past)
        → result ≡ verdict_by Pass setup past channel octets.now }
{
    match listens.listens_on() {
        Some(on) if on == channel => listener.judge(octets),
        _ => Verdict::Missed,
    }
}

/// The octets of a packet.
fn copied(octets: &[u8]) -> ArrayVec<u8, AIR_PACKET_OCTETS>
    requires { length octets.now ≤ 264 }
    ensures { result.items ≡ octets.now }
{
    let mut copy = ArrayVec::new();
    let _ = copy.try_extend_from_slice(octets);
    copy
}

/// The verdict of a station on a packet with this fate. The error is that damage goes unseen. No
/// memory is asked for.
fn receive(
    turn: &Turn<'_>,
    fate: &Fate,
    channel: u8,
    octets: &[u8],
    listens: &Wish,
    listener: &Station<'_>,
) -> Result<Verdict, UnseenPacket>
    requires few { turn.now.packets + 1 < 2 ^ 32 }
    requires fits { length octets.now ≤ 264 }
    ensures ok { IfOk result (λ verdict. (setup : Setup) (past : List Step)
        → Knows setup listener.now.held past
        → listens.now ≡ use_of (facts_of setup past)
        → IsReceived fate.now setup past channel octets.now verdict) }
    ensures err { IfErr result (λ unseen. (setup : Setup) (past : List Step)
        → Knows setup listener.now.held past
        → listens.now ≡ use_of (facts_of setup past)
        → IsUnseen fate.now setup past channel octets.now (turn.now.packets + 1) unseen.packet
        unseen.sent.items unseen.heard.items) }
{
    if let Fate::Lost = fate {
        return Ok(Verdict::Missed);
    }
    let mut heard = copied(octets);
    fate.damage_packet(heard.as_mut_slice());
    let verdict = judge(listener, listens, channel, heard.as_slice());
    if is_good(verdict) && heard.as_slice() != octets {
        return Err(UnseenPacket {
            packet: turn.packets + 1,
            sent: copied(octets),
            heard,
        });
    }
    Ok(verdict)
}

/// Numbers the link that a packet begins, if it begins one.
fn number_link(
    channel: u8,
    octets: &[u8],
    good: bool,
    sender: &mut Station<'_>,
    listener: &mut Station<'_>,
    log: &mut Log,
)
    requires links { log.old.links + 1 < 2 ^ 64 }
    ensures linked { HasLinked (begins_link channel octets.now) good sender.old listener.old log.old
        sender.new listener.new log.new }
    ensures count { log.new.links ≤ log.old.links + 1 }
    ensures held { (sender.new.held ≡ sender.old.held) × (listener.new.held
        ≡ listener.old.held) }
{
    if !begins_link(channel, octets) {
        return;
    }
    let link = log.begin_link();
    sender.learn_link(link);
    if good {
        listener.learn_link(link);
    }
}

/// Transmits a packet, writes what becomes of it, and says the verdict of the other station.
/// Most phases have no packet, so this is kept out of their code.
#[inline(never)]
fn send(
    turn: &mut Turn<'_>,
    side: Side,
    channel: u8,
    octets: &[u8],
    listens: &Wish,
    sender: &mut Station<'_>,
    listener: &mut Station<'_>,
    log: &mut Log,
) -> Result<Verdict, Stop>
    requires few { turn.old.packets + 1 < 2 ^ 32 }
    requires turn { turn.old.number < length turn.old.schedule.now.turns }
    requires links { log.old.links + 1 < 2 ^ 64 }
    requires fits { length octets.now ≤ 264 }
    ensures ok { IfOk result (λ verdict. (scripted : ScriptTurn) (setup : Setup) (past : List Step)
        → slice_get turn.old.schedule.now.turns turn.old.number ≡ Some scripted
        → Knows setup listener.old.held past → listens.now ≡ use_of (facts_of setup past)
        → IsSent (fate_of scripted turn.old.packets) side setup past channel octets.now verdict
        sender.old listener.old log.old sender.new listener.new log.new) }
    ensures err { IfErr result (λ stop. (scripted : ScriptTurn) (setup : Setup) (past : List Step)
        → slice_get turn.old.schedule.now.turns turn.old.number ≡ Some scripted
        → Knows setup listener.old.held past → listens.now ≡ use_of (facts_of setup past)
        → IsUnseenOr (fate_of scripted turn.old.packets) setup past channel octets.now
        (turn.old.packets + 1) stop) }
    ensures same { OnErr result (log.new.entries ≡ log.old.entries) }
    ensures links { log.new.links ≤ log.old.links + 1 }
    ensures held { (sender.new.held ≡ sender.old.held) × (listener.new.held
        ≡ listener.old.held) }
    ensures count { OnOk result (turn.new.packets ≡ turn.old.packets + 1) }
    ensures same_turn { (turn.new.schedule ≡ turn.old.schedule) × (turn.new.number
        ≡ turn.old.number) }
{
    let fate = turn.schedule.fate(turn.number, turn.packets);
    let verdict = match receive(turn, &fate, channel, octets, listens, listener) {
        Ok(verdict) => verdict,
        Err(unseen) => return Err(Stop::Unseen(unseen)),
    };
    let entry = Entry::Air {
        side,
        channel,
        octets: log.copy(octets)?,
        fate: mark(&fate, log)?,
        verdict,
    };
    log.write(entry)?;
    turn.packets += 1;
    number_link(channel, octets, is_good(verdict), sender, listener, log);
    Ok(verdict)
}

/// Transmits what a side wants to, if it wants to, and says the verdict of the other side.
#[inline]
pub(crate) fn fly(
    turn: &mut Turn<'_>,
    side: Side,
    wanted: &Wish,
    listens: &Wish,
    sender: &mut Station<'_>,
    listener: &mut Station<'_>,
    log: &mut Log,
) -> Result<Verdict, Stop>
    requires few { turn.old.packets + 1 < 2 ^ 32 }
    requires turn { turn.old.number < length turn.old.schedule.now.turns }
    requires links { log.old.links + 1 < 2 ^ 64 }
    ensures ok { IfOk result (λ verdict. (given : Given) (scripted : ScriptTurn)
        (history : List Event)
        → slice_get turn.old.schedule.now.turns turn.old.number ≡ Some scripted
        → InAir given turn.old.number history side sender.old listener.old log.old wanted.now
        listens.now turn.old.packets
        → Reaches (after_packet given scripted.fates (number_of side) history)
        (HasFlown given turn.old.number history side sender.new listener.new log.new wanted.now
        listens.now turn.new.packets (fate_of scripted turn.old.packets) verdict)) }
    ensures err { IfErr result (λ stop. (given : Given) (scripted : ScriptTurn)
        (history : List Event)
        → slice_get turn.old.schedule.now.turns turn.old.number ≡ Some scripted
        → InAir given turn.old.number history side sender.old listener.old log.old wanted.now
        listens.now turn.old.packets
        → IsStopped (after_packet given scripted.fates
        (number_of side) history) turn.old.number log.new.entries stop) }
    ensures links { log.new.links ≤ log.old.links + 1 }
    ensures held { (sender.new.held ≡ sender.old.held) × (listener.new.held
        ≡ listener.old.held) }
    ensures count { OnOk result (turn.new.packets ≤ turn.old.packets + 1) }
    ensures same_turn { (turn.new.schedule ≡ turn.old.schedule) × (turn.new.number
        ≡ turn.old.number) }
{
    match wanted.packet() {
        Some((channel, octets)) => send(
            turn, side, channel, octets, listens, sender, listener, log,
        ),
        None => Ok(Verdict::Missed),
    }
}

/// The packet of a turn with this number, counted from 0, as the other side is handed it, which has
/// this verdict on it: as the radio left it where it is forged.
#[inline]
pub(crate) fn hand_on(turn: &Turn<'_>, packet: u32, verdict: Verdict, wanted: &mut Wish)
    requires { turn.now.number < length turn.now.schedule.now.turns }
    ensures { (scripted : ScriptTurn)
        → slice_get turn.now.schedule.now.turns turn.now.number ≡ Some scripted
        → wanted.new ≡ use_handed (fate_of scripted packet) verdict wanted.old }
{
    match verdict {
        Verdict::Forged => wanted.damage(&turn.schedule.fate(turn.number, packet)),
        Verdict::Good | Verdict::Missed | Verdict::Broken => {}
    }
}
