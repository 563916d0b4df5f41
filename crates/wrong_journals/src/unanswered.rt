//! Commands of a host that are not answered once.
ghost use Rattle.journal_pdus.specs.journal_hosts.Answered.{AllAreAnswered};
ghost use Rattle.wrong_journals.specs.Unanswered as wrong;

/// A command has one answer, which names it, before the next turn and by the end; and nothing else
/// is answered.
pub fn wrong_answers_are_refused()
    ensures never { AllAreAnswered wrong.never_answered → ⊥ }
    ensures twice { AllAreAnswered wrong.answered_twice → ⊥ }
    ensures otherwise { AllAreAnswered wrong.answered_otherwise → ⊥ }
    ensures late { AllAreAnswered wrong.answered_late → ⊥ }
    ensures from_nothing { AllAreAnswered wrong.answered_from_nothing → ⊥ }
{}
