//! Packets that are to be on the air and are not, and others that no side is to send.
ghost use Rattle.journal_pdus.specs.journal_controls.journal_ends.Rows.{some_words};
ghost use Rattle.journal_pdus.specs.journal_moves.Moves as law;
ghost use Rattle.journal_pdus.specs.journal_moves.Rows.{anchor_begins};
ghost use Rattle.journal_pdus.specs.journal_moves.Verdicts.{AllListenedForAreJudged};
ghost use Rattle.journal_pdus.specs.journal_moves.journal_wants.Rows.{two_setups};
ghost use Rattle.wrong_journals.specs.Moves as wrong;

/// A side sends all that it is to send before the next turn, and before the end of a run: an
/// advertiser that has the radio advertises, a central sends at the anchor of an event of a link
/// that wins the slot, and a peripheral answers what it heard (Core 5.2, volume 6 part B, sections
/// 4.4.2 and 4.5.1).
pub fn silent_sides_are_refused()
    ensures advertiser { law.AllOwedAreSent some_words two_setups wrong.advertiser_silent → ⊥ }
    ensures central { law.AllOwedAreSent some_words two_setups wrong.central_silent → ⊥ }
    ensures peripheral { law.AllOwedAreSent some_words two_setups wrong.peripheral_silent → ⊥ }
    ensures at_the_end { law.NothingIsOwed some_words two_setups anchor_begins → ⊥ }
{}

/// It sends nothing else: a peripheral does not answer what it did not hear, a link does not yield
/// to an advertiser, and a side does not send twice in a phase. And what is heard was listened for,
/// and a scanner does not miss an advertisement that passes on its channel (Core 5.2, volume 6
/// part B, sections 4.4.2 to 4.5.1; that a link comes before an advertiser is our choice).
pub fn wrong_moves_are_refused()
    ensures unheard { law.AllPacketsAreOwed some_words two_setups wrong.answers_unheard → ⊥ }
    ensures yields { law.AllPacketsAreOwed some_words two_setups wrong.link_yields → ⊥ }
    ensures twice { law.AllPacketsAreOwed some_words two_setups wrong.advertises_twice → ⊥ }
    ensures listener { law.AllHeardAreListenedFor some_words two_setups wrong.heard_by_none → ⊥ }
    ensures scanner { law.AllAwaitedAreHeard some_words two_setups wrong.missed_by_scanner → ⊥ }
{}

/// What is listened for has the verdict of the side that listens: an advertisement that passes is
/// not broken there, nor is the packet of a central, and one that is changed behind its access
/// address is not missed (Core 5.2, volume 6 part B, sections 2.1 and 3.1.1).
pub fn misjudged_packets_are_refused()
    ensures advertisement { AllListenedForAreJudged some_words two_setups wrong.broken_at_scanner → ⊥ }
    ensures changed { AllListenedForAreJudged some_words two_setups wrong.changed_and_missed → ⊥ }
    ensures central { AllListenedForAreJudged some_words two_setups wrong.broken_at_peripheral → ⊥ }
{}
