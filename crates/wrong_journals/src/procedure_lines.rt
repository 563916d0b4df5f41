//! Lines of control procedures that are not due. Where a procedure runs, what is said is of the
//! lines that are due by what an end is before them.
ghost use Rattle.std.specs.Prelude.{◌≡◌, [], ◌∷◌, Some};
ghost use Rattle.ble_base.specs.declared.procedure_kinds.Kind.{Kind};
ghost use Rattle.ble_base.specs.declared.roles.Side.TheVariants.{A, B};
ghost use Rattle.journal.specs.declared.entries.Entry.TheVariants as entry;
ghost use Rattle.journal_pdus.specs.journal_controls.LinesDue.{applied_with, due_saying};
ghost use Rattle.journal_pdus.specs.journal_controls.Rows.{version_asked, version_pdu};
ghost use Rattle.journal_pdus.specs.journal_controls.journal_ends.Asked.{Words};
ghost use Rattle.journal_pdus.specs.journal_due.ProcedureLines as due;
ghost use Rattle.journal_pdus.specs.link_model.Facts.{no_response};
ghost use Rattle.wrong_journals.specs.ProcedureLines as wrong;

/// A procedure begins only where a host asked for it, and is done or refused only by a PDU that is
/// taken. An indication comes into force in the event of its Instant, and not before; that event is
/// entered (Core 5.2, volume 6 part B, sections 5.1 and 5.5).
pub fn wrong_lines_of_procedures_are_refused()
    ensures unasked { (words : Words) → due.AllProceduresAreDue words wrong.begun_unasked → ⊥ }
    ensures no_event { (words : Words)
        → due.AllProceduresAreDue words wrong.begun_before_events → ⊥ }
    ensures done { (words : Words) → due.AllProceduresAreDue words wrong.done_untaken → ⊥ }
    ensures refused { (words : Words) → due.AllProceduresAreDue words wrong.refused_untaken → ⊥ }
    ensures at_once { (words : Words) → due.NoneIsLeftOut words wrong.applied_at_once → ⊥ }
    ensures untaken { (words : Words) → due.NoneIsLeftOut words wrong.applied_before_events → ⊥ }
    ensures early { (words : Words) → due.AllIndicationsAreDue words wrong.applied_early → ⊥ }
    ensures misnumbered { (words : Words)
        → due.AllIndicationsAreDue words wrong.applied_misnumbered → ⊥ }
    ensures never { (words : Words) → due.AllIndicationsAreDue words wrong.applied_never → ⊥ }
    ensures unentered { (words : Words) → due.NoneIsLeftOut words wrong.applied_unentered → ⊥ }
{}

/// At an end of which a procedure runs: another one does not begin; an exchange
/// of versions is done as the PDU of the peer is taken, in the next line of its side; and a new
/// channel map is done in the event of its Instant, and not before (Core 5.2, volume 6 part B,
/// sections 5.1.2, 5.1.5 and 5.5).
pub fn lines_that_are_not_due_are_refused()
    ensures another_kind { due.procedure_line 1 (entry.Began B 1 Kind.Features)
        ≡ due.first_of (due_saying B 1 no_response 2 version_asked [] (entry.Enter B 1 0 25)) → ⊥ }
    ensures second { due.procedure_line 1 (entry.Began B 1 Kind.Features)
        ≡ due.first_of (due_saying B 1 no_response 26 wrong.version_running []
        (entry.Enter B 1 1 20)) → ⊥ }
    ensures missing { due.procedure_line 1 (entry.Enter B 1 2 20)
        ≡ due.first_of (due_saying B 1 no_response 26 wrong.version_running []
        (entry.Took B 1 1 version_pdu.llid version_pdu.body)) → ⊥ }
    ensures twice { due.procedure_line 1 (entry.Done B 1 Kind.Version)
        ≡ due.first_of (due_saying B 1 no_response 26 wrong.version_running
        (entry.Done B 1 Kind.Version ∷ [])
        (entry.Done B 1 Kind.Version)) → ⊥ }
    ensures before_instant { due.procedure_line 1 (entry.Done B 1 Kind.Map)
        ≡ due.first_of (due_saying B 1 no_response 26 wrong.map_sent [] (entry.Enter B 1 1 20))
        → ⊥ }
{}

/// The lines that are due in their place are not refused.
pub fn lines_that_are_due_are_right()
    ensures begun { due.procedure_line 1 (entry.Began B 1 Kind.Version)
        ≡ due.first_of (due_saying B 1 no_response 2 version_asked [] (entry.Enter B 1 0 25)) }
    ensures done { due.procedure_line 1 (entry.Done B 1 Kind.Version)
        ≡ due.first_of (due_saying B 1 no_response 26 wrong.version_running []
        (entry.Took B 1 1 version_pdu.llid version_pdu.body)) }
    ensures applied { applied_with 146 (Some wrong.map_awaited) ≡ Some 1 }
{}
