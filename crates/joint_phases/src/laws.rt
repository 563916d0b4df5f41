//! The laws of the phases of both ends of a joint run, over all lists of steps. They rest on facts
//! of the other procedures of the link, which are one record. The bodies do nothing: the contracts
//! are the laws.
ghost use Rattle.std.specs.Prelude.{◌≡◌, ℕ, true, false, List};
ghost use Rattle.instants.specs.declared.indications.Params.{Params};
ghost use Rattle.machines.specs.Machine.{run};
ghost use Rattle.phase_pairs.specs.JointRun.{encryption};
ghost use Rattle.joint_controls.specs.Joint.{JointStep, after, after_all};
ghost use Rattle.joint_controls.specs.Joint.{beginning, is_running, may};
ghost use Rattle.joint_phases.specs.Agreement.{ends_by_integrity_failure, is_sealing_agreed};
ghost use Rattle.joint_phases.specs.Agreement.{is_taken_right};
ghost use Rattle.joint_phases.specs.Events.{events_of};
ghost use Rattle.joint_phases.specs.Facts.{Facts, FactsHold};
ghost use Rattle.joint_phases.specs.Pairs.{are_phases_paired, is_answered_in_quiet, keeps_one};
ghost use Rattle.joint_phases.specs.Parts.{IsShown};

/// Each state of a joint run that goes on shows a state that the machine of phases reaches, by the
/// events that its steps are.
pub fn joint_runs_are_runs_of_phases()
    ensures { (central_rx peripheral_rx : ℕ) (first : Params) (slot : ℕ) (steps : List JointStep)
        → FactsHold (beginning central_rx peripheral_rx first slot) steps
        → let s = after_all steps (beginning central_rx peripheral_rx first slot) in
        is_running s ≡ true
        → IsShown s
        (run encryption (events_of steps (beginning central_rx peripheral_rx first slot))) }
{}

/// A PDU on the air is sealed exactly where the end that it comes to opens sealed now.
pub fn both_ends_agree_on_sealing()
    ensures { (central_rx peripheral_rx : ℕ) (first : Params) (slot : ℕ) (steps : List JointStep)
        → FactsHold (beginning central_rx peripheral_rx first slot) steps
        → let s = after_all steps (beginning central_rx peripheral_rx first slot) in
        is_running s ≡ true → is_sealing_agreed s ≡ true }
{}

/// No PDU is taken that the phase of its taker forbids, and in Clear and Secure no PDU of the
/// encryption that is ignored or answered with LL_UNKNOWN_RSP.
pub fn no_forbidden_pdu_is_taken()
    ensures { (central_rx peripheral_rx : ℕ) (first : Params) (slot : ℕ) (steps : List JointStep)
        (step : JointStep)
        → FactsHold (beginning central_rx peripheral_rx first slot) steps
        → let s = after_all steps (beginning central_rx peripheral_rx first slot) in
        Facts s → may step s ≡ true → is_taken_right step s ≡ true }
{}

/// The phases of the two ends are one of the pairs of the table, with the PDUs of the encryption
/// that are still to come. Other procedures of either end wait for Clear or Secure.
pub fn phases_are_paired()
    ensures pairs { (central_rx peripheral_rx : ℕ) (first : Params) (slot : ℕ)
        (steps : List JointStep)
        → FactsHold (beginning central_rx peripheral_rx first slot) steps
        → let s = after_all steps (beginning central_rx peripheral_rx first slot) in
        is_running s ≡ true → are_phases_paired s ≡ true }
    ensures answers { (central_rx peripheral_rx : ℕ) (first : Params) (slot : ℕ)
        (steps : List JointStep)
        → FactsHold (beginning central_rx peripheral_rx first slot) steps
        → let s = after_all steps (beginning central_rx peripheral_rx first slot) in
        is_running s ≡ true → is_answered_in_quiet s ≡ true }
    ensures kept { (central_rx peripheral_rx : ℕ) (first : Params) (slot : ℕ)
        (steps : List JointStep)
        → FactsHold (beginning central_rx peripheral_rx first slot) steps
        → let s = after_all steps (beginning central_rx peripheral_rx first slot) in
        is_running s ≡ true → keeps_one s ≡ true }
{}

/// No step of a run that goes on ends the link by a message integrity failure: no PDU is forbidden
/// by a phase.
pub fn no_link_ends_by_integrity_failure()
    ensures { (central_rx peripheral_rx : ℕ) (first : Params) (slot : ℕ) (steps : List JointStep)
        (step : JointStep)
        → FactsHold (beginning central_rx peripheral_rx first slot) steps
        → let s = after_all steps (beginning central_rx peripheral_rx first slot) in
        is_running s ≡ true → Facts s
        → ends_by_integrity_failure (after step s) ≡ false }
{}
