//! The laws of the parameters in a joint run. The bodies do nothing: the contracts are the laws. In
//! all of them the link begins with a latency of at most 499 events, and what the hosts ask is in
//! its range (Core 5.2, volume 6 part B, section 4.5.1).
ghost use Rattle.std.specs.Prelude.{◌≡◌, ◌≤◌, ◌<◌, ◌++◌, ℕ, List, Some, None, true, false};
ghost use Rattle.std.specs.Prelude.{is_none, option_map, option_to_list, take};
ghost use Rattle.std.specs.List.{All};
ghost use Rattle.ble_base.specs.ErrorCodes.{instant_passed};
ghost use Rattle.instants.specs.declared.indications.Params.{Params};
ghost use Rattle.instants.specs.declared.track.Change.{Change};
ghost use Rattle.instants.specs.Follows.{Follows};
ghost use Rattle.two_tracks.specs.TwoEnds.{change_of, has_passed};
ghost use Rattle.two_tracks.specs.Reached.{AllMay, IsReached};
ghost use Rattle.joint_controls.specs.control_model.Waits.{kind_awaited};
ghost use Rattle.joint_controls.specs.phased_control.Taken.{Response};
ghost use Rattle.joint_controls.specs.Ends.{AreStepsInRange};
ghost use Rattle.joint_controls.specs.Joint.{Joint, JointStep, after, after_all, beginning, may_all};
ghost use Rattle.joint_controls.specs.Joint.{event_now, instant_now, is_indication, is_item};
ghost use Rattle.joint_controls.specs.Joint.{is_late, is_running, is_same_event, item_on_air};
ghost use Rattle.joint_controls.specs.Joint.{may, next_item};
ghost use Rattle.joint_parameters.specs.Indications.{AreAllButLast, EndsLate, changes_taken};
ghost use Rattle.joint_parameters.specs.Indications.{indication_read, takes_late};
ghost use Rattle.joint_parameters.specs.Turns.{AreLinksInRange, IsPaired, LinkStep, MayLink};
ghost use Rattle.joint_parameters.specs.Turns.{MayLinkAll, all_joint_steps, first_link};
ghost use Rattle.joint_parameters.specs.Turns.{joint_steps, link_after_all, turn_steps};
ghost use Rattle.joint_parameters.specs.Views.{HaveEqual};

/// The indications that the peripheral took are the first that the central sent, each with the same
/// event: all but at most the last. While the run goes on, the last is missing exactly while it is
/// on its way to the peripheral, and it is what the peripheral will read there.
pub fn indications_arrive_in_order()
    ensures front { (central_rx peripheral_rx : ℕ) (first : Params) (slot : ℕ)
        (steps : List JointStep) → first.latency ≤ 499 → AreStepsInRange steps
        → let b = beginning central_rx peripheral_rx first slot in
        AreAllButLast (changes_taken steps b) (after_all steps b).central.control.sent }
    ensures on_air { (central_rx peripheral_rx : ℕ) (first : Params) (slot : ℕ)
        (steps : List JointStep) → first.latency ≤ 499 → AreStepsInRange steps
        → let b = beginning central_rx peripheral_rx first slot in let s = after_all steps b in
        is_running s ≡ true
        → s.central.control.sent ≡ changes_taken steps b ++ option_to_list (instant_now s) }
    ensures read { (central_rx peripheral_rx : ℕ) (first : Params) (slot : ℕ)
        (steps : List JointStep) → first.latency ≤ 499 → AreStepsInRange steps
        → let s = after_all steps (beginning central_rx peripheral_rx first slot) in
        is_running s ≡ true → indication_read (item_on_air s.down)
        ≡ option_map (λ change. change.indication) (instant_now s) }
{}

/// No indication waits at an end where another one comes. A central sends one only where nothing
/// waits at its own track, and where the events of all before it are over. Where a peripheral may
/// take one, nothing waits at its track, and its table awaits none.
pub fn an_indication_finds_no_other()
    ensures central { (central_rx peripheral_rx : ℕ) (first : Params) (slot : ℕ)
        (steps : List JointStep) (now : ℕ) → first.latency ≤ 499 → AreStepsInRange steps
        → let s = after_all steps (beginning central_rx peripheral_rx first slot) in
        may (JointStep.CentralSends now) s ≡ true
        → is_item is_indication (next_item s.central) ≡ true
        → is_none s.central.control.track.waits ≡ true }
    ensures over { (central_rx peripheral_rx : ℕ) (first : Params) (slot : ℕ)
        (steps : List JointStep) (now : ℕ) → first.latency ≤ 499 → AreStepsInRange steps
        → let s = after_all steps (beginning central_rx peripheral_rx first slot) in
        may (JointStep.CentralSends now) s ≡ true
        → is_item is_indication (next_item s.central) ≡ true
        → All (λ (change : Change). change.at.0 < event_now s.central) s.central.control.sent }
    ensures peripheral { (central_rx peripheral_rx : ℕ) (first : Params) (slot : ℕ)
        (steps : List JointStep) (now : ℕ) (response : Response) (change : Change)
        → first.latency ≤ 499 → AreStepsInRange steps
        → let s = after_all steps (beginning central_rx peripheral_rx first slot) in
        may (JointStep.PeripheralTakes now response) s ≡ true → instant_now s ≡ Some change
        → is_none s.peripheral.control.track.waits ≡ true }
    ensures awaits { (central_rx peripheral_rx : ℕ) (first : Params) (slot : ℕ)
        (steps : List JointStep) (now : ℕ) (response : Response) (change : Change)
        → first.latency ≤ 499 → AreStepsInRange steps
        → let s = after_all steps (beginning central_rx peripheral_rx first slot) in
        may (JointStep.PeripheralTakes now response) s ≡ true → instant_now s ≡ Some change
        → kind_awaited s.peripheral.control.table.progress ≡ None }
{}

/// The sixteen bits of an Instant say whether it has passed: exactly where the event of the
/// peripheral is after that of the central's indication (section 5.5.1). Else they name the event
/// of the central, and where the link goes on the peripheral follows the indication with it.
pub fn instants_have_one_event()
    ensures test { (central_rx peripheral_rx : ℕ) (first : Params) (slot : ℕ)
        (steps : List JointStep) (now : ℕ) (response : Response) (change : Change)
        → first.latency ≤ 499 → AreStepsInRange steps
        → let s = after_all steps (beginning central_rx peripheral_rx first slot) in
        may (JointStep.PeripheralTakes now response) s ≡ true → instant_now s ≡ Some change
        → has_passed s.peripheral.control.track change ≡ is_late s }
    ensures same { (central_rx peripheral_rx : ℕ) (first : Params) (slot : ℕ)
        (steps : List JointStep) (now : ℕ) (response : Response) (change : Change)
        → first.latency ≤ 499 → AreStepsInRange steps
        → let s = after_all steps (beginning central_rx peripheral_rx first slot) in
        may (JointStep.PeripheralTakes now response) s ≡ true → instant_now s ≡ Some change
        → is_late s ≡ false → change_of (event_now s.peripheral) change.indication ≡ change }
    ensures taken { (central_rx peripheral_rx : ℕ) (first : Params) (slot : ℕ)
        (steps : List JointStep) (now : ℕ) (response : Response) (change : Change)
        → first.latency ≤ 499 → AreStepsInRange steps
        → let s = after_all steps (beginning central_rx peripheral_rx first slot) in
        let t = after (JointStep.PeripheralTakes now response) s in
        may (JointStep.PeripheralTakes now response) s ≡ true → instant_now s ≡ Some change
        → t.peripheral.control.ends ≡ None
        → t.peripheral.control.track ≡ record s.peripheral.control.track { waits = Some change } }
    ensures in_time { (central_rx peripheral_rx : ℕ) (first : Params) (slot : ℕ)
        (steps : List JointStep) (now : ℕ) (response : Response) (change : Change)
        → first.latency ≤ 499 → AreStepsInRange steps
        → let s = after_all steps (beginning central_rx peripheral_rx first slot) in
        let t = after (JointStep.PeripheralTakes now response) s in
        may (JointStep.PeripheralTakes now response) s ≡ true → instant_now s ≡ Some change
        → t.peripheral.control.ends ≡ None → is_late s ≡ false }
{}

/// A link ends for an Instant that has passed at a peripheral alone, and only in a step in which it
/// takes an indication that is late. Such a step ends the link so, unless the phase forbids the PDU
/// or procedures collide, which ends it too.
pub fn only_a_late_indication_ends_the_link()
    ensures central { (central_rx peripheral_rx : ℕ) (first : Params) (slot : ℕ)
        (steps : List JointStep) → first.latency ≤ 499 → AreStepsInRange steps
        → let s = after_all steps (beginning central_rx peripheral_rx first slot) in
        s.central.control.ends ≡ Some (record { 0 = instant_passed }) → ⊥ }
    ensures peripheral { (central_rx peripheral_rx : ℕ) (first : Params) (slot : ℕ)
        (steps : List JointStep) (step : JointStep) → first.latency ≤ 499
        → AreStepsInRange steps
        → let s = after_all steps (beginning central_rx peripheral_rx first slot) in
        is_running s ≡ true
        → (after step s).peripheral.control.ends ≡ Some (record { 0 = instant_passed })
        → takes_late step s ≡ true }
    ensures late { (central_rx peripheral_rx : ℕ) (first : Params) (slot : ℕ)
        (steps : List JointStep) (now : ℕ) (response : Response) (change : Change)
        → first.latency ≤ 499 → AreStepsInRange steps
        → let s = after_all steps (beginning central_rx peripheral_rx first slot) in
        may (JointStep.PeripheralTakes now response) s ≡ true → instant_now s ≡ Some change
        → is_late s ≡ true
        → EndsLate (after (JointStep.PeripheralTakes now response) s).peripheral.control.ends }
{}

/// In each event that an end enters it has the parameters and the anchor that follow from the
/// indications that hold there, which are the first that the central sent. So two events of one
/// number in which the same number of indications hold have one set of parameters and one anchor:
/// at one time, and where one end comes to the event later than the other.
pub fn both_ends_have_equal_parameters()
    ensures central { (central_rx peripheral_rx : ℕ) (first : Params) (slot : ℕ)
        (steps : List JointStep) → first.latency ≤ 499 → AreStepsInRange steps
        → let s = after_all steps (beginning central_rx peripheral_rx first slot) in
        let t = s.central.control.track in
        1 ≤ t.entered → Follows first slot (take t.applied s.central.control.sent) t }
    ensures peripheral { (central_rx peripheral_rx : ℕ) (first : Params) (slot : ℕ)
        (steps : List JointStep) → first.latency ≤ 499 → AreStepsInRange steps
        → let s = after_all steps (beginning central_rx peripheral_rx first slot) in
        let t = s.peripheral.control.track in
        1 ≤ t.entered → Follows first slot (take t.applied s.central.control.sent) t }
    ensures now { (central_rx peripheral_rx : ℕ) (first : Params) (slot : ℕ)
        (steps : List JointStep) → first.latency ≤ 499 → AreStepsInRange steps
        → let s = after_all steps (beginning central_rx peripheral_rx first slot) in
        is_same_event s ≡ true
        → s.central.control.track.applied ≡ s.peripheral.control.track.applied
        → HaveEqual s.central.control.track s.peripheral.control.track }
    ensures central_later { (central_rx peripheral_rx : ℕ) (first : Params) (slot : ℕ)
        (steps more : List JointStep) → first.latency ≤ 499 → AreStepsInRange steps
        → AreStepsInRange more
        → let s = after_all steps (beginning central_rx peripheral_rx first slot) in
        let t = after_all more s in
        event_now t.central ≡ event_now s.peripheral
        → t.central.control.track.applied ≡ s.peripheral.control.track.applied
        → HaveEqual t.central.control.track s.peripheral.control.track }
    ensures peripheral_later { (central_rx peripheral_rx : ℕ) (first : Params) (slot : ℕ)
        (steps more : List JointStep) → first.latency ≤ 499 → AreStepsInRange steps
        → AreStepsInRange more
        → let s = after_all steps (beginning central_rx peripheral_rx first slot) in
        let t = after_all more s in
        event_now s.central ≡ event_now t.peripheral
        → s.central.control.track.applied ≡ t.peripheral.control.track.applied
        → HaveEqual s.central.control.track t.peripheral.control.track }
{}

/// A link by turns and packets is a joint run too, and both have one state of the tracks while the
/// run goes on. The rules of a joint run on the numbers of events follow: where a packet of the
/// central reaches the peripheral, or the reply the central, both ends are in events of one number,
/// or the peripheral has passed the Instant of the indication in the packet, by fewer than 32,769
/// events. So a link has to keep the other rules alone: an end sends a further PDU only after the
/// one before was acknowledged, the central sends one only where the last PDU of the peripheral was
/// taken or is data, and each end takes what it hears, but for data without room. A peripheral that
/// hears a packet first sees its own PDU acknowledged, then fixes its next one, and then takes that
/// of the central (sections 4.5.2, 4.5.9 and 5.5).
pub fn a_link_by_turns_is_a_joint_run()
    ensures turn_comes { (central_rx peripheral_rx : ℕ) (first : Params) (slot turns : ℕ)
        (steps : List LinkStep) (step : LinkStep) → first.latency ≤ 499 → turns ≤ slot
        → 6 ≤ first.interval → AreLinksInRange steps
        → MayLinkAll steps (first_link central_rx peripheral_rx first slot turns)
        → let l = link_after_all steps (first_link central_rx peripheral_rx first slot turns) in
        is_running l.joint ≡ true → MayLink step l → AllMay (turn_steps step l) l.turns }
    ensures joint_comes { (central_rx peripheral_rx : ℕ) (first : Params) (slot turns : ℕ)
        (steps : List LinkStep) (step : LinkStep) → first.latency ≤ 499 → turns ≤ slot
        → 6 ≤ first.interval → AreLinksInRange steps
        → MayLinkAll steps (first_link central_rx peripheral_rx first slot turns)
        → let l = link_after_all steps (first_link central_rx peripheral_rx first slot turns) in
        is_running l.joint ≡ true → MayLink step l
        → may_all (joint_steps step l) l.joint ≡ true }
    ensures paired { (central_rx peripheral_rx : ℕ) (first : Params) (slot turns : ℕ)
        (steps : List LinkStep) → first.latency ≤ 499 → turns ≤ slot → 6 ≤ first.interval
        → AreLinksInRange steps
        → MayLinkAll steps (first_link central_rx peripheral_rx first slot turns)
        → let l = link_after_all steps (first_link central_rx peripheral_rx first slot turns) in
        is_running l.joint ≡ true → IsPaired l }
    ensures reached { (central_rx peripheral_rx : ℕ) (first : Params) (slot turns : ℕ)
        (steps : List LinkStep) → first.latency ≤ 499 → turns ≤ slot → 6 ≤ first.interval
        → AreLinksInRange steps
        → MayLinkAll steps (first_link central_rx peripheral_rx first slot turns)
        → let l = link_after_all steps (first_link central_rx peripheral_rx first slot turns) in
        IsReached first slot l.turns }
    ensures joint { (central_rx peripheral_rx : ℕ) (first : Params) (slot turns : ℕ)
        (steps : List LinkStep) → first.latency ≤ 499 → turns ≤ slot → 6 ≤ first.interval
        → AreLinksInRange steps
        → MayLinkAll steps (first_link central_rx peripheral_rx first slot turns)
        → let b = first_link central_rx peripheral_rx first slot turns in
        after_all (all_joint_steps steps b) b.joint ≡ (link_after_all steps b).joint }
    ensures joint_all_come { (central_rx peripheral_rx : ℕ) (first : Params) (slot turns : ℕ)
        (steps : List LinkStep) → first.latency ≤ 499 → turns ≤ slot → 6 ≤ first.interval
        → AreLinksInRange steps
        → MayLinkAll steps (first_link central_rx peripheral_rx first slot turns)
        → let b = first_link central_rx peripheral_rx first slot turns in
        may_all (all_joint_steps steps b) b.joint ≡ true }
{}
