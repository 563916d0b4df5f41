//! Which links stay open, by the lines of a journal alone. The bodies only call the laws that they
//! rest on: the contracts are the laws.
ghost use Rattle.std.specs.Prelude.{◌≡◌, ◌++◌, ◌∷◌, [], ℕ, Bool, List, Some};
ghost use Rattle.std.specs.List.{Contains};
ghost use Rattle.journal_controls.specs.open_links.OpenLinks.{OpenLink, link_at};
ghost use Rattle.journal_controls.specs.run_model.History.{Event, TurnBegan};
ghost use Rattle.journal_controls.specs.run_model.Journal.{journal_of, side_of};
ghost use Rattle.journal_controls.specs.run_model.LinkEnds.{HaveAddresses};
ghost use Rattle.journal_controls.specs.run_model.Links.{links_of};
ghost use Rattle.journal_controls.specs.run_model.Run.{Given, GoesOn, facts_at, history_of, run_of};
ghost use Rattle.journal_leaving.specs.Reasons.{AllEndInTime, AllStayOpen, StaysOpen};
ghost use Rattle.journal_controls.specs.journal_ends.Asked.{Words};
ghost use Rattle.journal_controls.specs.journal_ends.GivenWords.{GivesWords};

/// In a run of two stations, with any number of links each and whatever procedures they carry, an
/// end that is open before a turn, or at the end of a whole run, was not to end in the turn that
/// began last, by the lines of the journal: neither as that turn began nor as it ended (Core 5.2,
/// volume 6 part B, sections 4.5.2, 5.1.6, 5.2 and 5.5.1).
pub fn open_ends_stay_open_by_the_lines()
    ensures before_a_turn { (words : Words) (given : Given) (before rest : List Event) (slot : ℕ)
        (radios : List Bool) (station handle : ℕ) (link : OpenLink)
        → given.stations ≡ 0 ∷ 1 ∷ [] → HaveAddresses given → GivesWords given words → Contains given.stations station
        → history_of (run_of given) ≡ before ++ TurnBegan slot radios ∷ rest
        → link_at handle (facts_at given station before).links ≡ Some link
        → StaysOpen words (side_of station) ((links_of before).link_of station handle)
        (journal_of before) }
    ensures at_the_end { (words : Words) (given : Given) (history : List Event) (station handle : ℕ)
        (link : OpenLink)
        → given.stations ≡ 0 ∷ 1 ∷ [] → HaveAddresses given → GivesWords given words → Contains given.stations station
        → run_of given ≡ GoesOn history
        → link_at handle (facts_at given station history).links ≡ Some link
        → StaysOpen words (side_of station) ((links_of history).link_of station handle)
        (journal_of history) }
{
    journal_controls::a_pdu_is_understood();
    advertise::laws::connections_are_taken();
    scan_init::laws::searches_give_each_valid_address();
    air_frame::laws::packet_tells_its_pdu();
}

/// So links end in time: by the lines of the journal, each end that has a control part is open, and
/// so was not to end in the turn that began last. It is so before each turn, also of a run that
/// damage stops, and at the end of a whole run.
pub fn links_end_in_time_by_the_lines()
    ensures in_time { (words : Words) (given : Given) → given.stations ≡ 0 ∷ 1 ∷ [] → HaveAddresses given → GivesWords given words
        → AllEndInTime words (journal_of (history_of (run_of given))) }
    ensures at_the_end { (words : Words) (given : Given) (history : List Event)
        → given.stations ≡ 0 ∷ 1 ∷ [] → HaveAddresses given → GivesWords given words → run_of given ≡ GoesOn history
        → AllStayOpen words (journal_of history) }
{
    journal_controls::a_pdu_is_understood();
    advertise::laws::connections_are_taken();
    scan_init::laws::searches_give_each_valid_address();
    air_frame::laws::packet_tells_its_pdu();
}
