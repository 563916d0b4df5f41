//! The event that each open end in a run entered last, by the lines of its journal. The body only
//! calls the laws that it rests on: the contract is the law.
ghost use Rattle.std.specs.Prelude.{◌≡◌, ◌++◌, ◌∷◌, [], ℕ, Bool, List, Some};
ghost use Rattle.std.specs.List.{Contains};
ghost use Rattle.journal_sending.specs.journal_leaving.controller_model.Step.{Step};
ghost use Rattle.journal_sending.specs.journal_leaving.journal_data.open_links.OpenLinks.{OpenLink, facts_in, link_at};
ghost use Rattle.journal_sending.specs.journal_leaving.journal_ends.Asked.{Words};
ghost use Rattle.journal_sending.specs.journal_leaving.journal_ends.GivenWords.{GivesWords};
ghost use Rattle.journal_sending.specs.journal_leaving.run_model.History.{Event, Called, TurnBegan};
ghost use Rattle.journal_sending.specs.journal_leaving.run_model.Journal.{journal_of, side_of};
ghost use Rattle.journal_sending.specs.journal_leaving.run_model.LinkEnds.{HaveAddresses};
ghost use Rattle.journal_sending.specs.journal_leaving.run_model.Links.{links_of};
ghost use Rattle.journal_sending.specs.journal_leaving.run_model.Run.{Given, GoesOn, facts_at, history_of, run_of};
ghost use Rattle.journal_events.specs.EventLines.{event_on};
ghost use Rattle.journal_events.specs.Told.{event_lines, event_next};

/// In a run of two stations, with any number of links each and whatever procedures they carry, the
/// event that an open end entered last is by the lines of the journal the one that it holds: its
/// number, its slot, what was heard in it, whether more waits, and the lengths of payloads. So it is
/// before each turn, and at the end of a whole run; and before each call on the controller of its
/// station, where a packet that the end takes in that call has reached it (Core 5.2, volume 6 part
/// B, sections 4.5.1, 4.5.6 and 4.5.10).
pub fn the_event_by_lines_is_the_one_that_the_end_holds()
    ensures before_a_call { (words : Words) (given : Given) (before rest : List Event) (step : Step)
        (station handle : ℕ) (link : OpenLink)
        → given.stations ≡ 0 ∷ 1 ∷ [] → HaveAddresses given → GivesWords given words → Contains given.stations station
        → history_of (run_of given) ≡ before ++ Called station step ∷ rest
        → link_at handle (facts_at given station before).links ≡ Some link
        → event_on words (side_of station) ((links_of before).link_of station handle) (journal_of before)
        ≡ event_next handle (facts_at given station before) step link }
    ensures before_a_turn { (words : Words) (given : Given) (before rest : List Event) (slot : ℕ)
        (radios : List Bool) (station handle : ℕ) (link : OpenLink)
        → given.stations ≡ 0 ∷ 1 ∷ [] → HaveAddresses given → GivesWords given words → Contains given.stations station
        → history_of (run_of given) ≡ before ++ TurnBegan slot radios ∷ rest
        → link_at handle (facts_at given station before).links ≡ Some link
        → event_on words (side_of station) ((links_of before).link_of station handle) (journal_of before)
        ≡ event_lines (facts_in link) }
    ensures at_the_end { (words : Words) (given : Given) (history : List Event) (station handle : ℕ)
        (link : OpenLink)
        → given.stations ≡ 0 ∷ 1 ∷ [] → HaveAddresses given → GivesWords given words → Contains given.stations station
        → run_of given ≡ GoesOn history
        → link_at handle (facts_at given station history).links ≡ Some link
        → event_on words (side_of station) ((links_of history).link_of station handle)
        (journal_of history) ≡ event_lines (facts_in link) }
{
    journal_sending::a_pdu_is_understood();
    advertise::laws::connections_are_taken();
    scan_init::laws::searches_give_each_valid_address();
    air_frame::laws::packet_tells_its_pdu();
}
