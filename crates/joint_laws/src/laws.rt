//! The laws of joint runs of both ends of a link. They rest on no premise but on what hosts ask.
//! The bodies do nothing: the contracts are the laws.
ghost use Rattle.std.specs.Prelude.{◌≡◌, ℕ, true, List, None};
ghost use Rattle.data_pdu.specs.declared.ctrl.Ctrl.{Ctrl};
ghost use Rattle.exclusive_stages.specs.declared.pdus.Exclusive.{Exclusive};
ghost use Rattle.instants.specs.declared.indications.Params.{Params};
ghost use Rattle.joint_parameters.specs.procedure_values.declared.drafts.Outgoing.{Outgoing};
ghost use Rattle.joint_parameters.specs.joint_controls.Ends.{IsStepInRange};
ghost use Rattle.joint_parameters.specs.joint_controls.Joint.{JointStep, act, after_all};
ghost use Rattle.joint_parameters.specs.joint_controls.Joint.{beginning, is_running};
ghost use Rattle.joint_parameters.specs.joint_controls.Joint.{may};
ghost use Rattle.joint_collisions.specs.Arrivals.{Collides, collided};
ghost use Rattle.joint_collisions.specs.Facts.{AllFacts, IsState};
ghost use Rattle.joint_exchanges.specs.Runs.{AllBefore};
ghost use Rattle.joint_exchanges.specs.SentByRole.{HaveMeaning};
ghost use Rattle.joint_phases.specs.Agreement.{is_taken_right};
ghost use Rattle.joint_phases.specs.Facts.{Facts, FactsHold};
ghost use Rattle.joint_laws.specs.Ends.{EndsLateAlone};
ghost use Rattle.joint_laws.specs.Prevailing.{CentralPrevails};
ghost use Rattle.joint_laws.specs.Runs.{IsRun};
ghost use Rattle.joint_laws.specs.Sound.{IsSound};

/// What the machines of phases, of exclusive procedures and of exchanges ask of each other holds in
/// each joint run, before each of its steps. So their laws of joint runs hold of it.
pub fn machines_meet_in_each_joint_run()
    ensures phases { (central_rx peripheral_rx : ℕ) (first : Params) (slot : ℕ)
        (steps : List JointStep) → IsRun first steps
        → FactsHold (beginning central_rx peripheral_rx first slot) steps }
    ensures phases_now { (central_rx peripheral_rx : ℕ) (first : Params) (slot : ℕ)
        (steps : List JointStep) → IsRun first steps
        → let s = after_all steps (beginning central_rx peripheral_rx first slot) in
        is_running s ≡ true → Facts s }
    ensures exclusive { (central_rx peripheral_rx : ℕ) (first : Params) (slot : ℕ)
        (steps : List JointStep) → IsRun first steps
        → AllFacts steps (beginning central_rx peripheral_rx first slot) }
    ensures meanings { (central_rx peripheral_rx : ℕ) (first : Params) (slot : ℕ)
        (steps : List JointStep) → IsRun first steps
        → AllBefore HaveMeaning steps (beginning central_rx peripheral_rx first slot) }
    ensures state { (central_rx peripheral_rx : ℕ) (first : Params) (slot : ℕ)
        (steps : List JointStep) → IsRun first steps
        → let s = after_all steps (beginning central_rx peripheral_rx first slot) in
        is_running s ≡ true → IsState s }
{}

/// As long as a joint run goes on, the tables of both ends agree for all kinds of procedures, but
/// for the PDUs that are on their way; the phases are one of the pairs of the table, and a PDU on
/// the air is sealed exactly where the end that it comes to opens sealed now; both ends have equal
/// parameters in an event in which the same indications hold; and at most ten control PDUs wait at
/// an end. No PDU is taken that the phase of its taker forbids, and in Clear and Secure none of the
/// encryption that is ignored or answered with LL_UNKNOWN_RSP. Of two procedures that collide the
/// central's prevails. No step ends the link at the central. At the peripheral a step ends the link
/// only where that has passed the Instant of the indication that it takes, and with the code for
/// that. So no step ends it for lack of room (0x07), for a PDU that a phase forbids (0x3D), or for
/// a collision (0x23, 0x2A).
pub fn joint_runs_are_sound()
    ensures state { (central_rx peripheral_rx : ℕ) (first : Params) (slot : ℕ)
        (steps : List JointStep) → IsRun first steps
        → let s = after_all steps (beginning central_rx peripheral_rx first slot) in
        is_running s ≡ true → IsSound s }
    ensures taken { (central_rx peripheral_rx : ℕ) (first : Params) (slot : ℕ)
        (steps : List JointStep) (step : JointStep) → IsRun first steps
        → let s = after_all steps (beginning central_rx peripheral_rx first slot) in
        may step s ≡ true → is_taken_right step s ≡ true }
    ensures collision { (central_rx peripheral_rx : ℕ) (first : Params) (slot : ℕ)
        (steps : List JointStep) (p q : Exclusive) (outgoing : Outgoing) (ctrl : Ctrl)
        → IsRun first steps
        → let s = after_all steps (beginning central_rx peripheral_rx first slot) in
        is_running s ≡ true → (c : Collides s p q outgoing ctrl)
        → is_running (collided s p q outgoing ctrl c) ≡ true
        → CentralPrevails s p q outgoing ctrl c }
    ensures central { (central_rx peripheral_rx : ℕ) (first : Params) (slot : ℕ)
        (steps : List JointStep) (step : JointStep) → IsRun first steps
        → IsStepInRange step
        → let s = after_all steps (beginning central_rx peripheral_rx first slot) in
        may step s ≡ true → (act step s).central.control.ends ≡ None }
    ensures peripheral { (central_rx peripheral_rx : ℕ) (first : Params) (slot : ℕ)
        (steps : List JointStep) (step : JointStep) → IsRun first steps
        → IsStepInRange step
        → let s = after_all steps (beginning central_rx peripheral_rx first slot) in
        may step s ≡ true → EndsLateAlone s (act step s).peripheral.control.ends }
{}
