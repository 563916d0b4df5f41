//! The laws of what an end holds. The bodies do nothing: the contracts are the laws.
ghost use Rattle.std.specs.Prelude.{◌≡◌, ◌≤◌, ◌<◌, ℕ, Bool, true, IfSome, List};
ghost use Rattle.ble_base.specs.declared.roles.Role.{Role};
ghost use Rattle.data_pdu.specs.Ranges.{IsInRange};
ghost use Rattle.instants.specs.declared.indications.Params.{Params};
ghost use Rattle.procedures.specs.procedure_stages.Queue.{waiting_in};
ghost use Rattle.procedures.specs.procedure_values.Values.{IsPayloadMax};
ghost use Rattle.control_part.specs.control_end.Answers.{indication_next};
ghost use Rattle.control_part.specs.control_end.Following.{CanFollow};
ghost use Rattle.keyed_control.specs.Keyed.{first_keyed};
ghost use Rattle.keyed_control.specs.KeyedSteps.{KeyedStep, keyed_after, keyed_after_all};
ghost use Rattle.phased_end.specs.Held.{HeldKeyed, held_after, held_of};
ghost use Rattle.phased_end.specs.Lengths.{HasLengths};
ghost use Rattle.phased_end.specs.Moves.{lasts};
ghost use Rattle.phased_end.specs.Reached.{IsReached, MayCome};
ghost use Rattle.phased_end.specs.Taking.{Fits, hearing_forged};

/// What an end holds after a further step is that step of what it holds: it depends neither on what
/// the end sent nor on whether it knows the version of its peer.
pub fn keyed_steps_depend_on_what_is_held()
    ensures { (role : Role) (max_rx : ℕ) (first : Params) (slot : ℕ) (steps : List KeyedStep)
        (step : KeyedStep)
        → let k = keyed_after_all steps (first_keyed role max_rx first slot) in
        held_of (keyed_after step k) ≡ held_after step (held_of k) }
{}

/// The parts of what an end holds fit together after any steps of its link: the session has the role
/// of the end, and an encryption is in progress exactly outside Clear and Secure.
pub fn reached_ends_fit()
    ensures steps { (role : Role) (max_rx : ℕ) (first : Params) (slot : ℕ) (steps : List KeyedStep)
        → Fits (held_of (keyed_after_all steps (first_keyed role max_rx first slot))) }
    ensures reached { (h : HeldKeyed) → IsReached h → Fits h }
{}

/// A new end is reached, and what is reached stays so, whatever step comes that may come, and as a
/// packet is heard whose integrity code is wrong.
pub fn ends_stay_reached()
    ensures new { (role : Role) (max_rx : ℕ) (first : Params) (slot : ℕ)
        → IsPayloadMax max_rx → first.latency ≤ 499
        → IsReached (held_of (first_keyed role max_rx first slot)) }
    ensures step { (step : KeyedStep) (h : HeldKeyed)
        → MayCome step → IsReached h → IsReached (held_after step h) }
    ensures forged { (h : HeldKeyed) → IsReached h → IsReached (hearing_forged h) }
{}

/// Fewer than 24 control PDUs wait, so there is room for each that is queued.
pub fn reached_ends_have_room()
    ensures { (h : HeldKeyed) → IsReached h → waiting_in h.control.table.queue < 24 }
{}

/// An end can follow each indication that it sends.
pub fn reached_ends_follow_what_they_indicate()
    ensures { (h : HeldKeyed) (now : ℕ) (quiet : Bool) → IsReached h
        → IfSome (indication_next now quiet h.control) (CanFollow h.control.track) }
{}

/// Each step that may come keeps the lengths of an end in their ranges, and the PDU that a central
/// keeps too; so these are in their ranges after any steps.
pub fn keyed_steps_keep_lengths()
    ensures lengths { (step : KeyedStep) (h : HeldKeyed)
        → MayCome step → IfSome h.kept IsInRange → HasLengths h.control.table.lengths
        → HasLengths (held_after step h).control.table.lengths }
    ensures kept { (step : KeyedStep) (h : HeldKeyed)
        → MayCome step → IfSome h.kept IsInRange → HasLengths h.control.table.lengths
        → IfSome (held_after step h).kept IsInRange }
    ensures reached { (h : HeldKeyed) → IsReached h → HasLengths h.control.table.lengths }
    ensures kept_reached { (h : HeldKeyed) → IsReached h → IfSome h.kept IsInRange }
{}

/// An end that has entered an event stays one, and one that has not ended the link has entered one
/// once it enters the next.
pub fn entered_ends_stay_entered()
    ensures step { (step : KeyedStep) (h new : HeldKeyed)
        → MayCome step → IsReached h → new ≡ held_after step h
        → 1 ≤ h.control.track.entered → 1 ≤ new.control.track.entered }
    ensures enters { (slot : ℕ) (h new : HeldKeyed)
        → IsReached h → new ≡ held_after (KeyedStep.Enters slot) h → lasts h ≡ true
        → 1 ≤ new.control.track.entered }
{}
