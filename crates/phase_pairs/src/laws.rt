//! The laws of phases, over all lists of steps of a central and a peripheral. The bodies do
//! nothing: the contracts are the laws.
ghost use Rattle.std.specs.Prelude.{◌≡◌, true, false, List};
ghost use Rattle.phase_pairs.specs.declared.joint.PhaseEvent.{PhaseEvent};
ghost use Rattle.machines.specs.Machine.{run};
ghost use Rattle.phase_pairs.specs.Agreement.{is_answered_in_quiet, is_paired, is_sealing_right};
ghost use Rattle.phase_pairs.specs.Agreement.{is_step_right, keeps_one};
ghost use Rattle.phase_pairs.specs.Counted.{Holds, counted_run, relation_down};
ghost use Rattle.phase_pairs.specs.Counted.{relation_sessions, relation_up};
ghost use Rattle.phase_pairs.specs.JointRun.{encryption, phases_may};
ghost use Rattle.phase_pairs.specs.Worked.{crossing_run, keyless_run, pause_run, refused_run};
ghost use Rattle.phase_pairs.specs.Worked.{start_run};

use crate::joint::PhaseWay;
use enc_phase::{PduClass, PhaseFacts};

/// In each state a PDU on the air is sealed exactly where its receiver opens sealed now; so both
/// ends agree on what is sealed at each position.
pub fn both_ends_agree_on_sealing()
    ensures { (events : List PhaseEvent) → is_sealing_right (run encryption events) ≡ true }
{}

/// No PDU is taken that the phase of its taker forbids, and no encryption PDU is ignored or
/// answered with LL_UNKNOWN_RSP.
pub fn no_forbidden_pdu_is_taken()
    ensures { (events : List PhaseEvent) (event : PhaseEvent)
        → phases_may event (run encryption events) ≡ true
        → is_step_right event (run encryption events) ≡ true }
{}

/// The phases of the two ends are one of the pairs of the table, with the encryption PDUs that are
/// still to come. Other procedures of either end wait for Clear or Secure.
pub fn phases_are_paired()
    ensures pairs { (events : List PhaseEvent) → is_paired (run encryption events) ≡ true }
    ensures answers { (events : List PhaseEvent)
        → is_answered_in_quiet (run encryption events) ≡ true }
    ensures kept { (events : List PhaseEvent) → keeps_one (run encryption events) ≡ true }
{}

/// The counters of the two ends of a direction are equal where both seal it, or the sender's is one
/// more, exactly where a sealed PDU is fixed or sent and not taken. Where the sender does not seal
/// both are 0, and where the receiver alone does not, its own is 0. The peripheral has begun the
/// sessions that the central has, and one more exactly from LL_START_ENC_REQ on until the central
/// takes it.
pub fn counters_are_equal_or_one_ahead()
    ensures down { (events : List PhaseEvent) → let r = counted_run events in
        Holds (relation_down r.link) r.central_sent r.peripheral_opened }
    ensures up { (events : List PhaseEvent) → let r = counted_run events in
        Holds (relation_up r.link) r.peripheral_sent r.central_opened }
    ensures sessions { (events : List PhaseEvent) → let r = counted_run events in
        Holds (relation_sessions r.link) r.peripheral_sessions r.central_sessions }
{}

/// The steps of the worked runs may come, and lead where the standard says.
pub fn worked_runs()
    ensures started { (run encryption start_run).central.phase ≡ PhaseFacts.Secure }
    ensures both_started { (run encryption start_run).peripheral.phase ≡ PhaseFacts.Secure }
    ensures restarts { (run encryption pause_run).central.phase ≡ PhaseFacts.Asked true true false }
    ensures both_restart { (run encryption pause_run).peripheral.phase
        ≡ PhaseFacts.Asked true false false }
    ensures refused { (run encryption refused_run).central.phase ≡ PhaseFacts.Clear }
    ensures ends { (run encryption keyless_run).up ≡ PhaseWay.OnAir PduClass.Terminate false }
    ensures crosses { (run encryption crossing_run).down ≡ PhaseWay.OnAir PduClass.Other true }
{}
