//! Answers that are missed, and CONNECT_INDs that open no link at the side that sent them.
ghost use Rattle.journal_pdus.specs.Answered.{AllAnswersAreHeard};
ghost use Rattle.journal_pdus.specs.OpenedLinks.{AllAreOpenedByThen, AreOpened};
ghost use Rattle.run_model.specs.Rows.{one_connection_journal};
ghost use Rattle.wrong_journals.specs.Answers as wrong;

/// A central does not miss the answer to its packet where that passes, and does not find it broken
/// where it has room for its payload.
pub fn missed_answers_are_refused()
    ensures missed { AllAnswersAreHeard wrong.answer_missed → ⊥ }
    ensures broken { AllAnswersAreHeard wrong.answer_broken → ⊥ }
{}

/// A CONNECT_IND opens its link at the side that sent it, before the next turn and by the end of a
/// whole run, whoever else opens it.
pub fn unopened_links_are_refused()
    ensures never { AllAreOpenedByThen wrong.never_opened → ⊥ }
    ensures by_other { AllAreOpenedByThen wrong.never_opened_by_central → ⊥ }
    ensures at_the_end { AreOpened wrong.opened_by_other → ⊥ }
    ensures right { AreOpened one_connection_journal }
{}
