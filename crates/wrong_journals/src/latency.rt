//! Events that a peripheral skips, or does not skip, by another latency than the one in force.
ghost use Rattle.journal_pdus.specs.journal_controls.journal_ends.Rows.{some_words};
ghost use Rattle.journal_pdus.specs.journal_moves.Moves.{AllAwaitedAreHeard, AllHeardAreListenedFor};
ghost use Rattle.journal_pdus.specs.journal_moves.journal_wants.Rows.{two_setups};
ghost use Rattle.journal_pdus.specs.journal_rules.Skipping.{AllSkipInWords};
ghost use Rattle.wrong_journals.specs.Latency as wrong;

/// The event at the Instant of an update of the connection is skipped by the latency from there on: a
/// peripheral that has none any more listens in it, and one that has one does not listen by that of
/// before (Core 5.2, volume 6 part B, sections 4.5.1 and 5.1.1; that a peripheral always skips what it
/// may is our choice). And the latency changes with the line of the indication alone.
pub fn events_by_the_latency_of_before_are_refused()
    ensures woken { AllHeardAreListenedFor some_words two_setups wrong.woken → ⊥ }
    ensures skipped { AllAwaitedAreHeard some_words two_setups wrong.skipped → ⊥ }
    ensures in_words { AllSkipInWords some_words wrong.entered_unapplied → ⊥ }
{}
