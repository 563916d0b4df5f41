//! Laws of an end by the lines as a controller is called, by those that the call adds. The bodies
//! are empty: the contracts are the laws.
ghost use Rattle.std.specs.Prelude.{◌≡◌, ◌++◌, ℕ, false, List, Option, Some, map};
ghost use Rattle.ble_base.specs.declared.notes.Note.{Note};
ghost use Rattle.ble_base.specs.declared.roles.Side.{Side};
ghost use Rattle.journal_ends.specs.controller_model.Step.{Step as Call};
ghost use Rattle.journal.specs.declared.entries.Entry.{Entry};
ghost use Rattle.journal_ends.specs.host_answers.Calls.{call_lines};
ghost use Rattle.journal_ends.specs.Asked.{Words};
ghost use Rattle.journal_ends.specs.GivenWords.{AreKept};
ghost use Rattle.journal_ends.specs.Answering.{answers_from, answers_if};
ghost use Rattle.journal_ends.specs.Seen.{asked_if, seen_from};
ghost use Rattle.journal_ends.specs.journal_links.LinkLines.{line_of, lines_of};
ghost use Rattle.journal_ends.specs.link_model.End.{facts_of, notes_from};
ghost use Rattle.journal_ends.specs.link_model.Facts.{Facts, keyed_of};
ghost use Rattle.journal_ends.specs.link_model.Setup.{Setup};
ghost use Rattle.journal_ends.specs.link_model.Step.{Step};
ghost use Rattle.journal_ends.specs.link_model.keyed_control.Keyed.{Keyed};
ghost use Rattle.journal_ends.specs.link_model.keyed_control.declared.material.Response.{Response};
ghost use Rattle.journal_ends.specs.run_model.Feeding.{is_octet};
ghost use Rattle.journal_ends.specs.run_model.History.{Event};
ghost use Rattle.journal_ends.specs.run_model.Journal.{journal_of};
ghost use Rattle.journal_ends.specs.run_model.Run.{Given, after_call};
ghost use Rattle.journal_controls.specs.KeyedLines.{keyed_by_all};
ghost use Rattle.journal_controls.specs.LineSteps.{keyed_on, turn_now, withholds};
ghost use Rattle.journal_controls.specs.OneEnd.{steps_noted};
ghost use Rattle.journal_controls.specs.SaidLines.{NoneOpens, after_asking, moved_by};
ghost use Rattle.journal_controls.specs.Withheld.{nothing_withheld};

/// A call of a turn on a controller, after any history, moves the control part, the phase and the
/// keys of an end by the lines that it adds for that end, in order, where none of them opens the
/// link or shuts it. A request that is withheld from the host is answered as it is taken. A call in
/// the lines of which nothing else is seen of an end than what its host asks, or answers, moves them
/// by that (Core 5.2, volume 6 part B, sections 5.1, 5.1.3 and 5.1.7).
pub fn a_call_moves_the_control_part_by_its_lines()
    ensures turn { (words : Words) (given : Given) (side : Side) (number station : ℕ) (call : Call)
        (history : List Event) (more : List Entry) (k : Keyed) → AreKept words → is_octet call ≡ false
        → lines_of side number (journal_of (after_call given station call history))
        ≡ lines_of side number (journal_of history) ++ more
        → NoneOpens more → keyed_on words side number (journal_of history) ≡ Some k
        → keyed_on words side number (journal_of (after_call given station call history))
        ≡ Some (moved_by (withholds side (journal_of history))
        (words side (journal_of history)) (turn_now (journal_of history)) more k) }
    ensures asked { (words : Words) (given : Given) (side : Side) (number station : ℕ) (call : Call)
        (history : List Event) (asked : Option Step) (k : Keyed)
        → seen_from words side number (journal_of history) (call_lines given station call history)
        ≡ asked_if asked
        → answers_from words side number (journal_of history) (call_lines given station call history)
        ≡ answers_if asked → keyed_on words side number (journal_of history) ≡ Some k
        → keyed_on words side number (journal_of (after_call given station call history))
        ≡ Some (after_asking asked k) }
{}

/// The lines of what an end notes in any steps neither open its link nor shut it, and they move the
/// control part, the phase and the keys that it holds by the steps of these notes, where nothing is
/// withheld from its host.
pub fn the_lines_of_an_end_move_the_control_part_by_its_notes()
    ensures opens_none { (side : Side) (number : ℕ) (setup : Setup) (facts : Facts)
        (steps : List Step)
        → NoneOpens (map (line_of side number) (notes_from setup facts steps)) }
    ensures moves { (side : Side) (number slot : ℕ) (response : Response) (setup : Setup)
        (past : List Step) (notes : List Note) → let k = keyed_of (facts_of setup past) in
        moved_by nothing_withheld response slot (map (line_of side number) notes) k
        ≡ keyed_by_all (steps_noted side number setup.link.role response slot notes) k }
{}
