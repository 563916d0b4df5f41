//! Laws of how an end leaves its link as a controller is called, by the lines that the call adds.
//! The bodies are empty: the contracts are the laws.
ghost use Rattle.std.specs.Prelude.{◌≡◌, ◌++◌, ℕ, List, Option, Some, false};
ghost use Rattle.ble_base.specs.declared.roles.Side.{Side};
ghost use Rattle.journal_controls.specs.Withheld.{Withheld};
ghost use Rattle.journal_controls.specs.controller_model.Step.{Step as Call};
ghost use Rattle.journal_controls.specs.host_answers.Calls.{call_lines};
ghost use Rattle.journal.specs.declared.entries.Entry.{Entry};
ghost use Rattle.journal_controls.specs.LineSteps.{keyed_on, turn_now, withholds};
ghost use Rattle.journal_controls.specs.SaidLines.{NoneOpens};
ghost use Rattle.journal_controls.specs.journal_ends.Answering.{answers_from, answers_if};
ghost use Rattle.journal_controls.specs.journal_ends.Seen.{asked_if, seen_from};
ghost use Rattle.journal_controls.specs.journal_links.LinkLines.{lines_of};
ghost use Rattle.journal_controls.specs.link_model.End.{notes_after};
ghost use Rattle.journal_controls.specs.link_model.Facts.{Facts};
ghost use Rattle.journal_controls.specs.link_model.Setup.{Setup};
ghost use Rattle.journal_controls.specs.link_model.Step.{EventEntered, PacketSent, Step};
ghost use Rattle.journal_controls.specs.link_model.keyed_control.Keyed.{Keyed};
ghost use Rattle.journal_controls.specs.link_model.keyed_control.declared.material.Response.{Response};
ghost use Rattle.journal_controls.specs.link_model.declared.state.Leaving.{Leaving};
ghost use Rattle.journal_controls.specs.run_model.Feeding.{is_octet};
ghost use Rattle.journal_controls.specs.run_model.History.{Event};
ghost use Rattle.journal_controls.specs.run_model.Journal.{journal_of};
ghost use Rattle.journal_controls.specs.run_model.Run.{Given, after_call};
ghost use Rattle.journal_leaving.specs.Leaving.{leaving_on};
ghost use Rattle.journal_leaving.specs.Said.{leaving_if_asked, leaving_noted, leaving_said};
ghost use Rattle.journal_controls.specs.journal_ends.Asked.{Words};
ghost use Rattle.journal_controls.specs.journal_ends.GivenWords.{AreKept};

/// A call of a turn on a controller, after any history, moves an end by the lines that it adds for
/// that end, in order, where none of them opens the link or shuts it. The control part of the end,
/// its phase and its keys move with it. A request for a key that is withheld from the host is
/// answered as it is taken. A call in the lines of which nothing else is seen of an end than what
/// its host asks, or answers, moves it by that: a host that ends the link does so in this slot, and
/// so does an end of which the host lacks a key after a pause (Core 5.2, volume 6 part B, sections
/// 5.1.3.1, 5.1.3.2 and 5.1.6).
pub fn a_call_moves_how_an_end_leaves_by_its_lines()
    ensures turn { (words : Words) (given : Given) (side : Side) (number station : ℕ) (call : Call)
        (history : List Event) (more : List Entry) (k : Keyed) (leaving : Leaving)
        → AreKept words → is_octet call ≡ false
        → lines_of side number (journal_of (after_call given station call history))
        ≡ lines_of side number (journal_of history) ++ more
        → NoneOpens more → keyed_on words side number (journal_of history) ≡ Some k
        → leaving_on words side number (journal_of history) ≡ Some leaving
        → leaving_on words side number (journal_of (after_call given station call history))
        ≡ Some (leaving_said (withholds side (journal_of history))
        (words side (journal_of history)) (turn_now (journal_of history)) more k leaving) }
    ensures asked { (words : Words) (given : Given) (side : Side) (number station : ℕ) (call : Call)
        (history : List Event) (asked : Option Step) (k : Keyed) (leaving : Leaving)
        → seen_from words side number (journal_of history) (call_lines given station call history)
        ≡ asked_if asked
        → answers_from words side number (journal_of history) (call_lines given station call history)
        ≡ answers_if asked → keyed_on words side number (journal_of history) ≡ Some k
        → leaving_on words side number (journal_of history) ≡ Some leaving
        → leaving_on words side number (journal_of (after_call given station call history))
        ≡ Some (leaving_if_asked k asked leaving) }
{}

/// The lines that an end says as it enters an event, and as it sends a packet, leave it as it is.
pub fn lines_that_take_nothing_leave_an_end_as_it_is()
    ensures entered { (side : Side) (number slot : ℕ) (withheld : Withheld) (response : Response)
        (setup : Setup) (facts : Facts) (k : Keyed) (leaving : Leaving)
        → leaving_noted side number withheld response slot
        (notes_after setup facts (EventEntered slot)) k leaving ≡ leaving }
    ensures sent { (side : Side) (number slot : ℕ) (withheld : Withheld) (response : Response)
        (setup : Setup) (facts : Facts) (k : Keyed) (leaving : Leaving)
        → leaving_noted side number withheld response slot
        (notes_after setup facts (PacketSent slot)) k leaving ≡ leaving }
{}
