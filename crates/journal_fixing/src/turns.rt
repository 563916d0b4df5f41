//! Laws of an end in a turn that begins: by its lines it fixes its next PDU with the procedures
//! and the phase that it has as it does so. The bodies are empty: the contracts are the laws.
ghost use Rattle.std.specs.Prelude.{◌≡◌, ◌++◌, [], ℕ, Bool, List, Some, false, fold, map};
ghost use Rattle.ble_base.specs.declared.roles.Side.{Side};
ghost use Rattle.journal_controls.specs.Withheld.{Withheld};
ghost use Rattle.journal_controls.specs.controller_model.Step.{Step as Call};
ghost use Rattle.journal_controls.specs.LineSteps.{keyed_on, turn_now};
ghost use Rattle.journal_controls.specs.SaidLines.{moved_by};
ghost use Rattle.journal_controls.specs.TurnSteps.{first_if, steps_begun};
ghost use Rattle.journal_controls.specs.journal_links.LinkLines.{line_of, lines_of};
ghost use Rattle.journal_controls.specs.link_model.End.{facts_after, facts_of, notes_from};
ghost use Rattle.journal_controls.specs.link_model.Facts.{keyed_of};
ghost use Rattle.journal_controls.specs.link_model.Setup.{Setup};
ghost use Rattle.journal_controls.specs.link_model.Step.{Step, EventEntered};
ghost use Rattle.journal_controls.specs.link_model.keyed_control.declared.material.Response.{Response};
ghost use Rattle.journal_controls.specs.run_model.Feeding.{is_octet};
ghost use Rattle.journal_controls.specs.run_model.History.{Event};
ghost use Rattle.journal_controls.specs.run_model.Journal.{journal_of};
ghost use Rattle.journal_controls.specs.run_model.Run.{Given, after_call};
ghost use Rattle.journal_fixing.specs.OnLines.{before_sending, control_fixing, is_fixed};
ghost use Rattle.journal_controls.specs.journal_ends.Asked.{Words};

/// As a turn begins, an end may enter an event, fix its next PDU, and send as a central: whichever
/// of these it does, the lines that it says before that of a new PDU move it to the end that it is
/// as it fixes its PDU (Core 5.2, volume 6 part B, sections 4.5.1 and 4.5.9).
pub fn the_lines_before_a_new_pdu_move_the_control_part_that_fixes_it()
    ensures { (side : Side) (number slot : ℕ) (withheld : Withheld) (response : Response)
        (setup : Setup) (past : List Step) (enters fixes sends : Bool) → let facts = facts_of setup past in
        moved_by withheld response slot (before_sending (map (line_of side number)
        (notes_from setup facts (steps_begun enters fixes sends slot)))) (keyed_of facts)
        ≡ keyed_of (fold (facts_after setup) facts (first_if enters (EventEntered slot) [])) }
{}

/// After any history in which the next PDU of an end is not fixed in this turn, and in which the end
/// by its lines is what it holds, a call that begins the turn of the end leaves in the lines the end
/// as it fixed its next PDU.
pub fn a_call_that_begins_a_turn_keeps_the_control_part_that_fixes()
    ensures { (words : Words) (given : Given) (side : Side) (number station slot : ℕ) (call : Call)
        (history : List Event) (setup : Setup) (past : List Step) (enters fixes sends : Bool)
        → let facts = facts_of setup past in is_octet call ≡ false
        → lines_of side number (journal_of (after_call given station call history))
        ≡ lines_of side number (journal_of history) ++ map (line_of side number)
        (notes_from setup facts (steps_begun enters fixes sends slot))
        → turn_now (journal_of history) ≡ slot
        → is_fixed words side number (journal_of history) ≡ false
        → keyed_on words side number (journal_of history) ≡ Some (keyed_of facts)
        → control_fixing words side number (journal_of (after_call given station call history))
        ≡ Some (keyed_of (fold (facts_after setup) facts
        (first_if enters (EventEntered slot) []))) }
{}
