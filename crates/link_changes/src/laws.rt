//! Laws of one end of a link by its notes, for each list of steps of the end, whatever its peer
//! sends. The bodies are empty: the contracts are the laws.
ghost use Rattle.std.specs.Prelude.{◌≡◌, ◌≤◌, ℕ, false, List, ◌++◌, ◌∷◌};
ghost use Rattle.std.specs.List.{AllByRecursion};
ghost use Rattle.ble_base.specs.declared.counters.EventNo.{EventNo};
ghost use Rattle.ble_base.specs.declared.notes.Note.{Note};
ghost use Rattle.ble_base.specs.declared.notes.Note.TheVariants.{Applied, Enter};
ghost use Rattle.ble_base.specs.declared.roles.Role.{Role};
ghost use Rattle.instants.specs.Follows.{Follows};
ghost use Rattle.instants.specs.Track.{event_of};
ghost use Rattle.link_model.specs.End.{facts_of, notes_after, notes_of};
ghost use Rattle.link_model.specs.Facts.{Facts};
ghost use Rattle.link_model.specs.Setup.{Setup, first_anchor, first_params};
ghost use Rattle.link_model.specs.Step.{Step, EventEntered};
ghost use Rattle.link_changes.specs.InForce.{HasRanges, IsAppliedInTime, IsEnteredBy};
ghost use Rattle.link_changes.specs.InForce.{NamesNoEvent, enters_event};
ghost use Rattle.link_changes.specs.Noted.{changes_noted, event_noted};

/// Once an end has entered an event, it has the parameters and the anchor that follow from its
/// CONNECT_IND and from the indications in force by its notes. The number of that event is the one
/// in the last note of an event (Core 5.2, volume 6 part B, sections 5.1.1, 5.1.2 and 5.5).
pub fn an_end_follows_its_notes()
    ensures follows { (setup : Setup) (past : List Step)
        → (setup.link.role ≡ Role.Central → HasRanges setup past)
        → 1 ≤ (facts_of setup past).control.track.entered
        → Follows (first_params setup.link.fields) (first_anchor setup)
        (changes_noted setup.link.role (notes_of setup past)) (facts_of setup past).control.track }
    ensures event { (setup : Setup) (past : List Step)
        → (setup.link.role ≡ Role.Central → HasRanges setup past)
        → event_noted (notes_of setup past) ≡ event_of (facts_of setup past).control.track }
{}

/// Each note of an event is of the next event, with the anchor and the channel that follow from the
/// CONNECT_IND and from the indications in force by the notes before it, one that comes into force
/// in this event included (Core 5.2, volume 6 part B, sections 4.5.1, 4.5.8, 5.1.1 and 5.1.2).
pub fn each_event_is_entered_by_the_notes()
    ensures { (setup : Setup) (past : List Step) (slot : ℕ) (before later : List Note)
        (handle channel : ℕ) (event : EventNo)
        → (setup.link.role ≡ Role.Central → HasRanges setup past)
        → notes_after setup (facts_of setup past) (EventEntered slot)
        ≡ before ++ Enter handle event channel ∷ later
        → IsEnteredBy setup past (notes_of setup past ++ before) event.0 channel }
{}

/// Each note of an indication that comes into force is of the next one that the end noted, with the
/// next number, and comes just before the note of its event. That is the event of the Instant, or
/// the one after it where the end took the indication in the event of its Instant (Core 5.2, volume
/// 6 part B, section 5.5).
pub fn indications_come_into_force_in_time()
    ensures { (setup : Setup) (past : List Step) (slot : ℕ) (before later : List Note)
        (handle number : ℕ) (event : EventNo)
        → (setup.link.role ≡ Role.Central → HasRanges setup past)
        → notes_after setup (facts_of setup past) (EventEntered slot)
        ≡ before ++ Applied handle number event ∷ later
        → IsAppliedInTime setup.link.role (notes_of setup past ++ before) handle number event
        later }
{}

/// No other step of an end notes an event or an indication that comes into force.
pub fn only_entered_events_are_noted()
    ensures { (setup : Setup) (facts : Facts) (step : Step) → enters_event step ≡ false
        → AllByRecursion NamesNoEvent (notes_after setup facts step) }
{}
