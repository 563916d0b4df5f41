//! What each end of a link says, hears and is asked, as the lines of a journal and the past of that
//! end have it. The body only calls the laws that it rests on: the contract is the law.
ghost use Rattle.std.specs.Prelude.{◌≡◌, ◌++◌, ◌∷◌, [], ℕ, Bool, List, Some};
ghost use Rattle.std.specs.List.{Contains};
ghost use Rattle.journal_acks.specs.controller_model.Step.{Step};
ghost use Rattle.journal_acks.specs.open_links.OpenLinks.{OpenLink, link_at};
ghost use Rattle.journal_acks.specs.run_model.History.{Event, Called, Hearing, TurnBegan};
ghost use Rattle.journal_acks.specs.run_model.History.{Transmitted};
ghost use Rattle.journal_acks.specs.run_model.Journal.{journal_of, side_of};
ghost use Rattle.journal_acks.specs.run_model.LinkEnds.{HaveAddresses};
ghost use Rattle.journal_acks.specs.run_model.Links.{links_of};
ghost use Rattle.journal_acks.specs.run_model.Run.{Given, facts_at, history_of, run_of};
ghost use Rattle.journal_ends.specs.Asked.{Words};
ghost use Rattle.journal_ends.specs.GivenWords.{GivesWords};
ghost use Rattle.journal_ends.specs.Seen.{heard_next, seen_of, seen_on};

/// In a run of two stations, with any number of links each, the lines of the journal say in order
/// what happened to each open end: what it noted, and between its notes each good packet of the
/// other end that it received, with the slot of its turn, each packet that it judged forged, and each
/// procedure that its host asked for and each Disconnect, at the line that accepts the command. So it
/// is before each call on the
/// controller of its station, where the packet that the end takes in that call was already on the
/// air; before each packet; before each turn; and at the end of a run, also where damage stops it
/// (Core 5.2, volume 4 part E, sections 7.1 and 7.8; volume 6 part B, sections 2.1.2, 4.5 and 5.1).
pub fn what_is_seen_of_an_end_is_its_past()
    ensures before_a_call { (words : Words) (given : Given) (before rest : List Event) (step : Step)
        (station handle : ℕ) (link : OpenLink)
        → given.stations ≡ 0 ∷ 1 ∷ [] → HaveAddresses given → GivesWords given words
        → Contains given.stations station
        → history_of (run_of given) ≡ before ++ Called station step ∷ rest
        → link_at handle (facts_at given station before).links ≡ Some link
        → seen_on words (side_of station) ((links_of before).link_of station handle) (journal_of before)
        ≡ seen_of (side_of station) ((links_of before).link_of station handle) link.setup link.past
        ++ heard_next handle (facts_at given station before) step link }
    ensures before_a_packet { (words : Words) (given : Given) (before rest : List Event) (sender channel : ℕ)
        (octets : List ℕ) (hearings : List Hearing) (station handle : ℕ) (link : OpenLink)
        → given.stations ≡ 0 ∷ 1 ∷ [] → HaveAddresses given → GivesWords given words
        → Contains given.stations station
        → history_of (run_of given) ≡ before ++ Transmitted sender channel octets hearings ∷ rest
        → link_at handle (facts_at given station before).links ≡ Some link
        → seen_on words (side_of station) ((links_of before).link_of station handle) (journal_of before)
        ≡ seen_of (side_of station) ((links_of before).link_of station handle) link.setup
        link.past }
    ensures before_a_turn { (words : Words) (given : Given) (before rest : List Event) (slot : ℕ)
        (radios : List Bool) (station handle : ℕ) (link : OpenLink)
        → given.stations ≡ 0 ∷ 1 ∷ [] → HaveAddresses given → GivesWords given words
        → Contains given.stations station
        → history_of (run_of given) ≡ before ++ TurnBegan slot radios ∷ rest
        → link_at handle (facts_at given station before).links ≡ Some link
        → seen_on words (side_of station) ((links_of before).link_of station handle) (journal_of before)
        ≡ seen_of (side_of station) ((links_of before).link_of station handle) link.setup
        link.past }
    ensures at_the_end { (words : Words) (given : Given) (station handle : ℕ) (link : OpenLink)
        → given.stations ≡ 0 ∷ 1 ∷ [] → HaveAddresses given → GivesWords given words
        → Contains given.stations station
        → link_at handle (facts_at given station (history_of (run_of given))).links ≡ Some link
        → seen_on words (side_of station)
        ((links_of (history_of (run_of given))).link_of station handle)
        (journal_of (history_of (run_of given)))
        ≡ seen_of (side_of station)
        ((links_of (history_of (run_of given))).link_of station handle) link.setup link.past }
{
    journal_acks::a_pdu_is_understood();
    advertise::laws::connections_are_taken();
    scan_init::laws::searches_give_each_valid_address();
}
