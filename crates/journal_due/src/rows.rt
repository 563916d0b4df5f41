//! A worked example, which the definitions compute.
ghost use Rattle.std.specs.Prelude.{◌≡◌, ◌++◌, ◌∷◌, []};
ghost use Rattle.ble_base.specs.declared.procedure_kinds.Kind.{Kind};
ghost use Rattle.ble_base.specs.declared.roles.Side.TheVariants.{B};
ghost use Rattle.journal.specs.declared.entries.Entry.TheVariants.{Applied, Began, Enter};
ghost use Rattle.journal_controls.specs.LinesDue.{lines_due};
ghost use Rattle.journal_controls.specs.run_model.Rows.{one_event_journal};
ghost use Rattle.journal_due.specs.ProcedureLines.{applied_by, applied_last, first_of};
ghost use Rattle.journal_due.specs.ProcedureLines.{procedure_line};
ghost use Rattle.journal_controls.specs.journal_ends.Asked.{Words};

/// After a run in which no host asks for anything the next event may be entered. That a procedure
/// begins may not be said, nor may the line of an indication come before that of the event.
pub fn worked_due_lines()
    ensures event { (words : Words) → procedure_line 1 (Enter B 1 1 25)
        ≡ first_of (lines_due words B 1 one_event_journal) }
    ensures began { (words : Words) → procedure_line 1 (Began B 1 Kind.Version)
        ≡ first_of (lines_due words B 1 one_event_journal) → ⊥ }
    ensures no_indication { (words : Words) → applied_last B one_event_journal
        ≡ applied_by words B one_event_journal (Enter B 1 1 25) }
    ensures indication { (words : Words) → applied_last B (one_event_journal ++ Applied B 1 1 1 ∷ [])
        ≡ applied_by words B (one_event_journal ++ Applied B 1 1 1 ∷ []) (Enter B 1 1 25) → ⊥ }
{}
