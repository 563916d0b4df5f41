//! The laws of joint runs about the procedures that exclude each other. What they need to know of
//! each end alone is a premise. The bodies do nothing: the contracts are the laws.
ghost use Rattle.std.specs.Prelude.{◌≡◌, ◌≤◌, ℕ, List, true, false, Some, None, is_none};
ghost use Rattle.data_pdu.specs.declared.ctrl.Ctrl.{Ctrl};
ghost use Rattle.exclusive_stages.specs.declared.pdus.Exclusive.{Exclusive};
ghost use Rattle.exclusive_stages.specs.declared.pdus.Pdu.{Pdu};
ghost use Rattle.exclusive_stages.specs.declared.pdus.Pdu.TheVariants.{RejectParam, RejectPhy};
ghost use Rattle.exclusive_stages.specs.declared.pdus.Reason.{Reason};
ghost use Rattle.exclusive_stages.specs.declared.stages.PeerAtCentral.TheVariants.{Absent};
ghost use Rattle.exclusive_stages.specs.Awaited.{reads_as_answer};
ghost use Rattle.exclusive_stages.specs.Pdus.{is_timed};
ghost use Rattle.collision_steps.specs.procedure_values.declared.drafts.Draft.{Draft};
ghost use Rattle.collision_steps.specs.procedure_values.declared.drafts.Outgoing.{Outgoing};
ghost use Rattle.collision_steps.specs.procedure_values.declared.drafts.Rejection.{Rejection};
ghost use Rattle.collision_steps.specs.procedure_values.declared.values.NewParams.{NewParams};
ghost use Rattle.collision_steps.specs.procedure_stages.Exclusive.{pdu_of_outgoing};
ghost use Rattle.collision_steps.specs.procedure_stages.Queue.{next_disconnect};
ghost use Rattle.exclusive_stages.specs.Kinds.{is_idle_at_central};
ghost use Rattle.collisions.specs.CentralTable.{has_no_peer};
ghost use Rattle.collisions.specs.JointRun.{is_empty};
ghost use Rattle.collisions.specs.PeripheralTable.{is_phy_sent, is_requesting};
ghost use Rattle.collisions.specs.Meaning.{central_reads, peripheral_reads};
ghost use Rattle.collision_steps.specs.CentralPart.{central_of};
ghost use Rattle.collision_steps.specs.Parts.{outgoing_part, rejection_part};
ghost use Rattle.collision_steps.specs.PeripheralPart.{peripheral_of};
ghost use Rattle.instants.specs.declared.indications.Params.{Params};
ghost use Rattle.joint_controls.specs.control_model.Waits.{EndsByCollision};
ghost use Rattle.joint_controls.specs.Joint.{Joint, JointStep, after_all, beginning, is_running};
ghost use Rattle.joint_controls.specs.Joint.{next_out};
ghost use Rattle.joint_controls.specs.Ends.{AreStepsInRange};
ghost use Rattle.joint_controls.specs.phased_control.Phased.{is_open_now};
ghost use Rattle.joint_collisions.specs.Arrivals.{CentralMayTake, Collides, PeripheralMayTake};
ghost use Rattle.joint_collisions.specs.Arrivals.{RejectsNext, collided, is_silent};
ghost use Rattle.joint_collisions.specs.FirstPdus.{has_own_first};
ghost use Rattle.joint_collisions.specs.Facts.{AllFacts, CentralFacts, IsState};
ghost use Rattle.joint_collisions.specs.Views.{IsReached, TablesAgree, kept_part, link_of, view_of};

/// As long as it goes on, a joint run of both ends is one of the procedures that exclude each
/// other, with the numbers of events: the tables, the PDUs on their way, the PDU that the central
/// keeps and the events are those of such a run (Core 5.2, volume 6 part B, section 5.3). So each
/// law of these holds of it.
pub fn joint_runs_are_runs_of_exclusive_procedures()
    ensures { (central_rx peripheral_rx : ℕ) (first : Params) (slot : ℕ) (steps : List JointStep)
        → let s = beginning central_rx peripheral_rx first slot in first.latency ≤ 499
        → AreStepsInRange steps → AllFacts steps s → is_running (after_all steps s) ≡ true
        → IsReached (view_of (after_all steps s)) }
{}

/// No end of a joint run ends the link with 0x23 or 0x2A.
pub fn no_joint_run_ends_by_a_collision()
    ensures central { (central_rx peripheral_rx : ℕ) (first : Params) (slot : ℕ)
        (steps : List JointStep)
        → let s = beginning central_rx peripheral_rx first slot in first.latency ≤ 499
        → AreStepsInRange steps → AllFacts steps s
        → EndsByCollision (after_all steps s).central.control.ends → ⊥ }
    ensures peripheral { (central_rx peripheral_rx : ℕ) (first : Params) (slot : ℕ)
        (steps : List JointStep)
        → let s = beginning central_rx peripheral_rx first slot in first.latency ≤ 499
        → AreStepsInRange steps → AllFacts steps s
        → EndsByCollision (after_all steps s).peripheral.control.ends → ⊥ }
{}

/// The tables of both ends of a joint run agree on the procedures that exclude each other, but for
/// the PDUs that are on their way.
pub fn tables_of_a_joint_run_agree()
    ensures { (central_rx peripheral_rx : ℕ) (first : Params) (slot : ℕ) (steps : List JointStep)
        → let s = beginning central_rx peripheral_rx first slot in first.latency ≤ 499
        → AreStepsInRange steps → AllFacts steps s → is_running (after_all steps s) ≡ true
        → TablesAgree (after_all steps s) }
{}

/// A PDU of these procedures that an end of a joint run takes means what it was sent as: it is not
/// ignored, it is not treated anew in place of an earlier one, and the central keeps nothing then.
/// An indication finds none that waits. LL_CONNECTION_UPDATE_IND is read as the answer to the
/// peripheral's request exactly where it was sent as that. A rejection finds the procedure that it
/// rejects.
pub fn pdus_of_a_joint_run_mean_what_they_were_sent_as()
    ensures down { (s : Joint) (outgoing : Outgoing) (ctrl : Ctrl) (pdu : Pdu) → IsState s
        → PeripheralMayTake s outgoing ctrl → outgoing_part outgoing ≡ Some pdu
        → peripheral_reads pdu (link_of s) ≡ true }
    ensures up { (s : Joint) (outgoing : Outgoing) (ctrl : Ctrl) (pdu : Pdu) → IsState s
        → CentralMayTake s outgoing ctrl → pdu_of_outgoing outgoing ≡ Some pdu
        → central_reads pdu (link_of s) ≡ true }
    ensures alone { (s : Joint) (outgoing : Outgoing) (ctrl : Ctrl) (pdu : Pdu) → IsState s
        → CentralMayTake s outgoing ctrl → pdu_of_outgoing outgoing ≡ Some pdu
        → kept_part s.central.kept ≡ None }
    ensures free { (s : Joint) (outgoing : Outgoing) (ctrl : Ctrl) (pdu : Pdu) → IsState s
        → PeripheralMayTake s outgoing ctrl → outgoing_part outgoing ≡ Some pdu
        → is_timed pdu ≡ true → is_none s.peripheral.control.track.waits ≡ true }
    ensures update { (s : Joint) (params : NewParams) (ctrl : Ctrl) → IsState s
        → PeripheralMayTake s (Outgoing.Other (Draft.Update params)) ctrl
        → reads_as_answer (peripheral_of s.peripheral.control.table).own ≡ false }
    ensures answer { (s : Joint) (params : NewParams) (ctrl : Ctrl) → IsState s
        → PeripheralMayTake s (Outgoing.Other (Draft.Grant params)) ctrl
        → reads_as_answer (peripheral_of s.peripheral.control.table).own ≡ true }
    ensures request { (s : Joint) (rejection : Rejection) (ctrl : Ctrl) (reason : Reason)
        → IsState s → PeripheralMayTake s (Outgoing.Rejection rejection) ctrl
        → rejection_part rejection ≡ Some (RejectParam reason)
        → is_requesting (peripheral_of s.peripheral.control.table).own ≡ true }
    ensures phy { (s : Joint) (rejection : Rejection) (ctrl : Ctrl) (reason : Reason)
        → IsState s → PeripheralMayTake s (Outgoing.Rejection rejection) ctrl
        → rejection_part rejection ≡ Some (RejectPhy reason)
        → is_phy_sent (peripheral_of s.peripheral.control.table).own ≡ true }
{}

/// Of two procedures that collide the central's goes on, and nothing of the peripheral's is left at
/// the central. The next control PDU that the central sends, whatever comes between, is the
/// rejection of the peripheral's procedure, with 0x23 where the two are of one kind and 0x2A where
/// they are not. A central that is to end the link rejects nothing any more: LL_TERMINATE_IND comes
/// next, or nothing (section 5.3).
pub fn a_collision_of_a_joint_run_is_rejected_next()
    ensures own { (s : Joint) (p q : Exclusive) (outgoing : Outgoing) (ctrl : Ctrl)
        (c : Collides s p q outgoing ctrl) → IsState s
        → is_running (collided s p q outgoing ctrl c) ≡ true
        → (central_of (collided s p q outgoing ctrl c).central.control.table).own
        ≡ (central_of s.central.control.table).own }
    ensures peer { (s : Joint) (p q : Exclusive) (outgoing : Outgoing) (ctrl : Ctrl)
        (c : Collides s p q outgoing ctrl) → IsState s
        → is_running (collided s p q outgoing ctrl c) ≡ true
        → (central_of (collided s p q outgoing ctrl c).central.control.table).peer ≡ Absent }
    ensures rejected { (s : Joint) (p q : Exclusive) (outgoing : Outgoing) (ctrl : Ctrl)
        (c : Collides s p q outgoing ctrl) (later : List JointStep) → IsState s
        → is_running (collided s p q outgoing ctrl c) ≡ true
        → CentralFacts (collided s p q outgoing ctrl c).central → is_open_now s.central ≡ true
        → is_silent later ≡ true
        → RejectsNext (after_all later (collided s p q outgoing ctrl c)) p q }
    ensures closing { (s : Joint) (p q : Exclusive) (outgoing : Outgoing) (ctrl : Ctrl)
        (c : Collides s p q outgoing ctrl) → IsState s
        → is_running (collided s p q outgoing ctrl c) ≡ true
        → CentralFacts (collided s p q outgoing ctrl c).central → is_open_now s.central ≡ false
        → next_out (collided s p q outgoing ctrl c).central ≡ next_disconnect
        (collided s p q outgoing ctrl c).central.control.table.queue.disconnect }
{}

/// A first PDU of the peripheral that waits, is not taken or is kept belongs to the procedure that
/// it runs: where it runs none of these, there is no such PDU. At a central with no procedure of
/// either end in progress no PDU of these but rejections waits.
pub fn no_pdu_of_a_joint_run_outlives_its_procedure()
    ensures first { (s : Joint) → IsState s → is_running s ≡ true
        → has_own_first (link_of s) ≡ true }
    ensures queued { (s : Joint) → IsState s → is_running s ≡ true
        → is_idle_at_central (central_of s.central.control.table).own ≡ true
        → has_no_peer (central_of s.central.control.table).peer ≡ true
        → is_empty (central_of s.central.control.table).queue.items ≡ true }
{}
