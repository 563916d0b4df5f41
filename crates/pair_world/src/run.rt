//! A run.
ghost use Rattle.std.specs.Prelude.{◌≡◌, ◌≤◌, ◌⊎◌, [], length, IfOk, IfErr};
ghost use Rattle.controller_model.specs.Facts.{setup_of};
ghost use Rattle.run_model.specs.Pair.{IsRun, given_of};
ghost use Rattle.run_model.specs.Run.{Given};
ghost use Rattle.pair_world.specs.Faults.{IsRunFault, fault_of};
ghost use Rattle.pair_world.specs.Logs.{first_log};
ghost use Rattle.pair_world.specs.Order.{MayBothBegin};
ghost use Rattle.pair_world.specs.Stations.{IsFirst};
ghost use Rattle.pair_world.specs.Turns.{HasPlans, PairIsUpTo};

use crate::logs::Log;
use crate::phases::{Pair, Wishes};
use crate::stations::Station;
use crate::stops::Stop;
use crate::turns::run_turn;
use ble_base::Outbox;
use journal::{Journal, Octets};
use radio_replay::Schedule;
use std::alloc::{AllocError, Global};

/// Why a run has no whole journal.
#[derive(Drop)]
pub enum RunFault {
    /// A packet was changed on the air, and its receiver would judge it good.
    Unseen {
        /// The slot of the turn.
        turn: u64,
        /// The place of the packet among those of the turn, counted from 1.
        packet: u32,
        /// Its octets as sent: the access address, least significant octet first, then, whitened,
        /// the PDU and the CRC.
        sent: Octets,
        /// Its octets as they would be heard.
        heard: Octets,
        /// All that came before it.
        journal: Journal,
    },
    /// There is no memory.
    Memory,
}

impl From<AllocError> for RunFault {
    ghost use Rattle.std.specs.Prelude.{◌≡◌};
    ghost use Rattle.pair_world.specs.declared.run.RunFault.TheVariants.{Memory};

    ghost from_gives = { λ _ fault. fault ≡ Memory };

    fn from(_: AllocError) -> Self {
        RunFault::Memory
    }
}

impl RunFault {
    /// The fault of a stop in the turn in this slot, with the journal so far. The octets of an
    /// unseen packet are copied; the error is that there is no memory for them.
    fn of(alloc: Global, stop: Stop, turn: u32, journal: Journal) -> Result<RunFault, AllocError>
        ensures { IfOk result (λ fault. fault ≡ fault_of stop turn journal) }
    {
        match stop {
            Stop::Memory => Ok(RunFault::Memory),
            Stop::Unseen(unseen) => Ok(RunFault::Unseen {
                turn: u64::from(turn),
                packet: unseen.packet,
                sent: Octets::copy(alloc, unseen.sent.as_slice())?,
                heard: Octets::copy(alloc, unseen.heard.as_slice())?,
                journal,
            }),
        }
    }

    /// Why the turn in this slot stopped the run, whose journal so far this is: the fault of its
    /// stop, or that there is no memory to tell it.
    fn told(alloc: Global, stop: Stop, turn: u32, journal: Journal) -> RunFault
        ensures { (result ≡ fault_of stop turn journal) ⊎ (result ≡ RunFault.Memory) }
    {
        match RunFault::of(alloc, stop, turn, journal) {
            Ok(fault) => fault,
            Err(_) => RunFault::Memory,
        }
    }
}

/// Both stations before the first turn. The error is out of memory.
fn start_both<'s>(
    alloc: Global,
    a: &'s [u8],
    b: &'s [u8],
    schedule: &Schedule,
) -> Result<Pair<'s>, AllocError>
    requires words_a { 1 ≤ length schedule.now.a.words.items }
    requires words_b { 1 ≤ length schedule.now.b.words.items }
    ensures up { IfOk result (λ pair. PairIsUpTo
        (given_of a.now b.now schedule.now) 0 pair.a pair.b first_log []) }
    ensures order { IfOk result (λ pair. MayBothBegin 0 pair.a pair.b) }
{
    Ok(Pair {
        a: Station::start(alloc, schedule.a.copy(), a)?,
        b: Station::start(alloc, schedule.b.copy(), b)?,
    })
}

/// Runs all turns.
fn run_turns(alloc: Global, schedule: &Schedule, mut pair: Pair<'_>) -> Result<Journal, RunFault>
    requires order { MayBothBegin 0 pair.a pair.b }
    ensures ok { IfOk result (λ journal. (given : Given) → HasPlans given schedule.now.turns
        → PairIsUpTo given 0 pair.entry.a pair.entry.b first_log [] → IsRun given journal) }
    ensures err { IfErr result (λ fault. (given : Given) → HasPlans given schedule.now.turns
        → PairIsUpTo given 0 pair.entry.a pair.entry.b first_log [] → IsRunFault given fault) }
{
    let mut wanted = Wishes::new();
    let mut out = Outbox::new();
    let mut log = Log::new(alloc);
    for turn in 0..schedule.turns() {
        if let Err(stop) = run_turn(schedule, turn, &mut wanted, &mut pair, &mut out, &mut log) {
            return Err(RunFault::told(alloc, stop, turn, log.into_journal()));
        }
    }
    Ok(log.into_journal())
}

/// Runs two controllers over the streams of their hosts and a schedule, and gives the journal of
/// the run (our choice). Each can hold three links, and eight packets of data each way. `a` and `b`
/// are the H4 octets of the two hosts, in the order in which they are fed; those that the schedule
/// leaves unfed are not part of the run. `schedule` has at least one random word for each
/// controller.
///
/// Errors: `Unseen` exactly where a fate changes a packet and its receiver would judge the changed
/// one good; `Memory` where there is no memory for the two controllers, for a line of the journal,
/// or for the octets of such a packet.
pub fn run_pair(alloc: Global, a: &[u8], b: &[u8], schedule: &Schedule) -> Result<Journal, RunFault>
    requires words_a { 1 ≤ length schedule.now.a.words.items }
    requires words_b { 1 ≤ length schedule.now.b.words.items }
    ensures ok { IfOk result (IsRun (given_of a.now b.now schedule.now)) }
    ensures err { IfErr result (IsRunFault (given_of a.now b.now schedule.now)) }
{
    let pair = start_both(alloc, a, b, schedule)?;
    run_turns(alloc, schedule, pair)
}
