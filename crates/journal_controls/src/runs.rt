//! Each open end in a run, by the lines of its journal. The bodies only call the laws that they rest
//! on: the contracts are the laws.
ghost use Rattle.std.specs.Prelude.{◌≡◌, ◌++◌, ◌∷◌, [], ℕ, Bool, List, Some};
ghost use Rattle.std.specs.List.{Contains};
ghost use Rattle.journal_ends.specs.Asked.{Words};
ghost use Rattle.journal_ends.specs.GivenWords.{GivesWords};
ghost use Rattle.journal_ends.specs.controller_model.Step.{Step};
ghost use Rattle.journal_ends.specs.link_model.Facts.{keyed_of};
ghost use Rattle.journal_ends.specs.open_links.OpenLinks.{OpenLink, facts_in, link_at};
ghost use Rattle.journal_ends.specs.run_model.History.{Event, Called, Hearing, TurnBegan};
ghost use Rattle.journal_ends.specs.run_model.History.{Transmitted};
ghost use Rattle.journal_ends.specs.run_model.Journal.{journal_of, side_of};
ghost use Rattle.journal_ends.specs.run_model.LinkEnds.{HaveAddresses};
ghost use Rattle.journal_ends.specs.run_model.Links.{links_of};
ghost use Rattle.journal_ends.specs.run_model.Run.{Given, facts_at, history_of, run_of};
ghost use Rattle.journal_controls.specs.Hearing.{control_next, keyed_next};
ghost use Rattle.journal_controls.specs.LineSteps.{control_on, keyed_on};

/// In a run of two stations, with any number of links each and whatever procedures they carry, the
/// control part, the phase and the keys of an open end by the lines of the journal are those that
/// the end holds, with the counters of its sealed PDUs. So they are before each packet, before each
/// turn, and at the end of a run, also where damage stops it; and before each call on the controller
/// of its station, where a packet that the end takes in that call has reached it (Core 5.2, volume 6
/// part B, sections 4.5.9, 5.1, 5.1.3 and 5.5).
pub fn the_keys_by_lines_are_those_that_the_end_holds()
    ensures before_a_call { (words : Words) (given : Given) (before rest : List Event) (step : Step)
        (station handle : ℕ) (link : OpenLink)
        → given.stations ≡ 0 ∷ 1 ∷ [] → HaveAddresses given → GivesWords given words
        → Contains given.stations station
        → history_of (run_of given) ≡ before ++ Called station step ∷ rest
        → link_at handle (facts_at given station before).links ≡ Some link
        → keyed_on words (side_of station) ((links_of before).link_of station handle)
        (journal_of before)
        ≡ Some (keyed_next handle (facts_at given station before) step link) }
    ensures before_a_packet { (words : Words) (given : Given) (before rest : List Event) (sender channel : ℕ)
        (octets : List ℕ) (hearings : List Hearing) (station handle : ℕ) (link : OpenLink)
        → given.stations ≡ 0 ∷ 1 ∷ [] → HaveAddresses given → GivesWords given words
        → Contains given.stations station
        → history_of (run_of given) ≡ before ++ Transmitted sender channel octets hearings ∷ rest
        → link_at handle (facts_at given station before).links ≡ Some link
        → keyed_on words (side_of station) ((links_of before).link_of station handle)
        (journal_of before) ≡ Some (keyed_of (facts_in link)) }
    ensures before_a_turn { (words : Words) (given : Given) (before rest : List Event) (slot : ℕ)
        (radios : List Bool) (station handle : ℕ) (link : OpenLink)
        → given.stations ≡ 0 ∷ 1 ∷ [] → HaveAddresses given → GivesWords given words
        → Contains given.stations station
        → history_of (run_of given) ≡ before ++ TurnBegan slot radios ∷ rest
        → link_at handle (facts_at given station before).links ≡ Some link
        → keyed_on words (side_of station) ((links_of before).link_of station handle)
        (journal_of before) ≡ Some (keyed_of (facts_in link)) }
    ensures at_the_end { (words : Words) (given : Given) (station handle : ℕ) (link : OpenLink)
        → given.stations ≡ 0 ∷ 1 ∷ [] → HaveAddresses given → GivesWords given words
        → Contains given.stations station
        → link_at handle (facts_at given station (history_of (run_of given))).links ≡ Some link
        → keyed_on words (side_of station)
        ((links_of (history_of (run_of given))).link_of station handle)
        (journal_of (history_of (run_of given))) ≡ Some (keyed_of (facts_in link)) }
{
    journal_ends::a_pdu_is_understood();
    advertise::laws::connections_are_taken();
    scan_init::laws::searches_give_each_valid_address();
    air_frame::laws::packet_tells_its_pdu();
}

/// In a run of two stations, with any number of links each and whatever procedures they carry, the
/// control part of an open end by the lines of the journal is the one that the end holds. So it is
/// before each packet, before each turn, and at the end of a run, also where damage stops it; and
/// before each call on the controller of its station, where a packet that the end takes in that
/// call has reached it (Core 5.2, volume 6 part B, sections 4.5.9, 5.1 and 5.5).
pub fn the_control_part_by_lines_is_the_one_that_the_end_holds()
    ensures before_a_call { (words : Words) (given : Given) (before rest : List Event) (step : Step)
        (station handle : ℕ) (link : OpenLink)
        → given.stations ≡ 0 ∷ 1 ∷ [] → HaveAddresses given → GivesWords given words
        → Contains given.stations station
        → history_of (run_of given) ≡ before ++ Called station step ∷ rest
        → link_at handle (facts_at given station before).links ≡ Some link
        → control_on words (side_of station) ((links_of before).link_of station handle)
        (journal_of before)
        ≡ Some (control_next handle (facts_at given station before) step link) }
    ensures before_a_packet { (words : Words) (given : Given) (before rest : List Event) (sender channel : ℕ)
        (octets : List ℕ) (hearings : List Hearing) (station handle : ℕ) (link : OpenLink)
        → given.stations ≡ 0 ∷ 1 ∷ [] → HaveAddresses given → GivesWords given words
        → Contains given.stations station
        → history_of (run_of given) ≡ before ++ Transmitted sender channel octets hearings ∷ rest
        → link_at handle (facts_at given station before).links ≡ Some link
        → control_on words (side_of station) ((links_of before).link_of station handle)
        (journal_of before) ≡ Some (facts_in link).control }
    ensures before_a_turn { (words : Words) (given : Given) (before rest : List Event) (slot : ℕ)
        (radios : List Bool) (station handle : ℕ) (link : OpenLink)
        → given.stations ≡ 0 ∷ 1 ∷ [] → HaveAddresses given → GivesWords given words
        → Contains given.stations station
        → history_of (run_of given) ≡ before ++ TurnBegan slot radios ∷ rest
        → link_at handle (facts_at given station before).links ≡ Some link
        → control_on words (side_of station) ((links_of before).link_of station handle)
        (journal_of before) ≡ Some (facts_in link).control }
    ensures at_the_end { (words : Words) (given : Given) (station handle : ℕ) (link : OpenLink)
        → given.stations ≡ 0 ∷ 1 ∷ [] → HaveAddresses given → GivesWords given words
        → Contains given.stations station
        → link_at handle (facts_at given station (history_of (run_of given))).links ≡ Some link
        → control_on words (side_of station)
        ((links_of (history_of (run_of given))).link_of station handle)
        (journal_of (history_of (run_of given))) ≡ Some (facts_in link).control }
{
    the_keys_by_lines_are_those_that_the_end_holds();
}
