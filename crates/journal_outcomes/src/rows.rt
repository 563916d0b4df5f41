//! Journals that the definitions refuse.
ghost use Rattle.journal_crossing.specs.journal_collisions.Rows.{done_all_the_same};
ghost use Rattle.journal_crossing.specs.journal_data.Followed.{none_mixed};
ghost use Rattle.journal_outcomes.specs.Done.{AllDoneAreAnswered, NoneIsDone};
ghost use Rattle.journal_outcomes.specs.Rows.{done_untaken};

/// The peripheral says that its request, which collided, is done: before it takes anything, or
/// after it took the rejection and said nothing of it.
pub fn wrong_completions_are_refused()
    ensures unanswered { AllDoneAreAnswered done_untaken → ⊥ }
    ensures untaken { NoneIsDone none_mixed done_untaken → ⊥ }
    ensures rejected { NoneIsDone none_mixed done_all_the_same → ⊥ }
{}
