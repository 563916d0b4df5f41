//! A Reset that leaves a link.
ghost use Rattle.std.specs.Prelude.{◌≡◌, true};
ghost use Rattle.journal_pdus.specs.Resetting.{ResetsLeaveNoLink, answers_reset};
ghost use Rattle.run_model.specs.Rows.{reset_answer};
ghost use Rattle.wrong_journals.specs.Resetting.{left_open, left_open_at_one};

/// As a Reset is answered as done, its side has no link any more, whatever the other side has.
pub fn links_left_by_a_reset_are_refused()
    ensures left { ResetsLeaveNoLink left_open → ⊥ }
    ensures at_one { ResetsLeaveNoLink left_open_at_one → ⊥ }
    ensures answer { answers_reset reset_answer ≡ true }
{}
