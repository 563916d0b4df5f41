//! A journal that the definition refuses.
ghost use Rattle.journal_sending.specs.journal_controls.journal_ends.Rows.{some_words};
ghost use Rattle.journal_anchors.specs.Anchors.{NoEventsAreMissed};
ghost use Rattle.journal_anchors.specs.Rows.{event_missed};

/// An end that leaves out an event is refused.
pub fn worked_events()
    ensures missed { NoEventsAreMissed some_words event_missed → ⊥ }
{}
