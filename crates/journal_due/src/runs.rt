//! Where each line of a control procedure stands in the journal of a run. The body only calls the
//! laws that it rests on: the contract is the law.
ghost use Rattle.std.specs.Prelude.{◌≡◌, ◌++◌, ◌∷◌, [], ℕ, Bool, List};
ghost use Rattle.journal_controls.specs.run_model.History.{Event, TurnBegan};
ghost use Rattle.journal_controls.specs.run_model.Journal.{journal_of};
ghost use Rattle.journal_controls.specs.run_model.LinkEnds.{HaveAddresses};
ghost use Rattle.journal_controls.specs.run_model.Run.{Given, history_of, run_of};
ghost use Rattle.journal_due.specs.ProcedureLines.{AllIndicationsAreDue, AllProceduresAreDue};
ghost use Rattle.journal_due.specs.ProcedureLines.{NoneIsDue, NoneIsLeftOut};
ghost use Rattle.journal_controls.specs.journal_ends.Asked.{Words};
ghost use Rattle.journal_controls.specs.journal_ends.GivenWords.{GivesWords};

/// In a run of two stations, with any number of links each, a side says that a procedure begins, is
/// done or is refused exactly where that is due by the lines before, and that an indication comes
/// into force just before the line of the event from which it is in force, and nowhere else. Before
/// each packet and each turn nothing of the kind is due, nor at the end of a run, also where damage
/// stops it (Core 5.2, volume 6 part B, sections 5.1 and 5.5; the order of lines is our choice).
pub fn each_line_of_a_procedure_is_where_it_is_due()
    ensures procedures { (words : Words) (given : Given) → given.stations ≡ 0 ∷ 1 ∷ [] → HaveAddresses given → GivesWords given words
        → AllProceduresAreDue words (journal_of (history_of (run_of given))) }
    ensures indications { (words : Words) (given : Given) → given.stations ≡ 0 ∷ 1 ∷ [] → HaveAddresses given → GivesWords given words
        → AllIndicationsAreDue words (journal_of (history_of (run_of given))) }
    ensures none_left_out { (words : Words) (given : Given) → given.stations ≡ 0 ∷ 1 ∷ [] → HaveAddresses given → GivesWords given words
        → NoneIsLeftOut words (journal_of (history_of (run_of given))) }
    ensures before_a_turn { (words : Words) (given : Given) (before rest : List Event) (slot : ℕ)
        (radios : List Bool) → given.stations ≡ 0 ∷ 1 ∷ [] → HaveAddresses given → GivesWords given words
        → history_of (run_of given) ≡ before ++ TurnBegan slot radios ∷ rest
        → NoneIsDue words (journal_of before) }
    ensures at_the_end { (words : Words) (given : Given) → given.stations ≡ 0 ∷ 1 ∷ [] → HaveAddresses given → GivesWords given words
        → NoneIsDue words (journal_of (history_of (run_of given))) }
{
    journal_controls::a_pdu_is_understood();
    advertise::laws::connections_are_taken();
    scan_init::laws::searches_give_each_valid_address();
    air_frame::laws::packet_tells_its_pdu();
}
