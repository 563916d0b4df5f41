//! The laws of what an end holds.
//! The bodies do nothing: the contracts are the laws.
ghost use Rattle.std.specs.Prelude.{◌≡◌, ◌≤◌, ◌<◌, ℕ, Bool, List, IfSome, false};
ghost use Rattle.ble_base.specs.declared.roles.Role.{Role};
ghost use Rattle.instants.specs.declared.indications.Params.{Params};
ghost use Rattle.control_model.specs.procedures.procedure_stages.Queue.{waiting_in};
ghost use Rattle.control_model.specs.Control.{Control, Step, after, after_all, first_control};
ghost use Rattle.control_model.specs.Waits.{AreInRange, IsInRange};
ghost use Rattle.control_end.specs.Answers.{indication_next};
ghost use Rattle.control_end.specs.Following.{CanFollow};
ghost use Rattle.control_end.specs.Held.{Held, held_after, held_after_all, held_of};
ghost use Rattle.control_end.specs.Reached.{IsReached, is_owes};

/// A step of the control part of an end depends on what it holds, and not on what it sent. So what
/// is held after a step, and after a list of steps, is the same for all ends that hold the same.
pub fn steps_depend_on_what_is_held()
    ensures step { (step : Step) (c : Control)
        → held_of (after step c) ≡ held_after step (held_of c) }
    ensures all { (steps : List Step) (c : Control)
        → held_of (after_all steps c) ≡ held_after_all steps (held_of c) }
{}

/// An indication that a central sends can be followed by it: none waits, and its Instant is to
/// come. The link begins with a latency of at most 499 events, and what the host asks is in its
/// range (Core 5.2, volume 6 part B, sections 4.5.1 and 5.5).
pub fn ends_can_follow_what_they_send()
    ensures { (role : Role) (max_rx : ℕ) (first : Params) (slot : ℕ) (steps : List Step)
        (now : ℕ) (quiet : Bool) → first.latency ≤ 499 → AreInRange steps
        → let c = after_all steps (first_control role max_rx first slot) in
        IfSome (indication_next now quiet (held_of c)) (CanFollow c.track) }
{}

/// While the layer above queues no PDU of the encryption, fewer than 24 control PDUs wait at an end,
/// so that there is room for those that an entered event or its host adds, whatever the peer sends;
/// and the end can follow each indication that it sends. The link begins with a latency of at most
/// 499 events, and what the host asks is in its range (Core 5.2, volume 6 part B, sections 4.5.1,
/// 5.1 and 5.5).
pub fn reached_ends_have_room()
    ensures begins { (role : Role) (max_rx : ℕ) (first : Params) (slot : ℕ) → first.latency ≤ 499
        → IsReached (held_of (first_control role max_rx first slot)) }
    ensures goes_on { (h : Held) (step : Step) → IsReached h → IsInRange step
        → is_owes step ≡ false → IsReached (held_after step h) }
    ensures room { (h : Held) → IsReached h → waiting_in h.table.queue < 24 }
    ensures follows { (h : Held) → IsReached h → (now : ℕ) (quiet : Bool)
        → IfSome (indication_next now quiet h) (CanFollow h.track) }
{}
