//! How each open end leaves its link in a run, by the lines of its journal. The body only calls the
//! laws that it rests on: the contract is the law.
ghost use Rattle.std.specs.Prelude.{◌≡◌, ◌++◌, ◌∷◌, [], None, ℕ, Bool, List, Some};
ghost use Rattle.std.specs.List.{Contains};
ghost use Rattle.ble_base.specs.declared.error_codes.ErrCode.{ErrCode};
ghost use Rattle.ble_base.specs.declared.notes.Note.TheVariants.{Shut};
ghost use Rattle.journal_controls.specs.controller_model.Side.{notes_after};
ghost use Rattle.journal_controls.specs.controller_model.Step.{Step, TurnBegins, TurnEnds};
ghost use Rattle.journal_controls.specs.link_model.Times.{due_of, ending_of};
ghost use Rattle.journal_controls.specs.open_links.OpenLinks.{OpenLink, facts_in, link_at};
ghost use Rattle.journal_controls.specs.run_model.History.{Event, Called, TurnBegan};
ghost use Rattle.journal_controls.specs.run_model.Journal.{journal_of, side_of};
ghost use Rattle.journal_controls.specs.run_model.LinkEnds.{HaveAddresses};
ghost use Rattle.journal_controls.specs.run_model.Links.{links_of};
ghost use Rattle.journal_controls.specs.run_model.Run.{Given, GoesOn, facts_at, history_of, run_of, setup_at};
ghost use Rattle.journal_leaving.specs.Hearing.{leaving_next};
ghost use Rattle.journal_leaving.specs.Leaving.{leaving_on};
ghost use Rattle.journal_leaving.specs.Reasons.{due_on, ending_on};
ghost use Rattle.journal_leaving.specs.Shutting.{IsShutIn};
ghost use Rattle.journal_controls.specs.journal_ends.Asked.{Words};
ghost use Rattle.journal_controls.specs.journal_ends.GivenWords.{GivesWords};

/// In a run of two stations, with any number of links each and whatever procedures they carry, an
/// open end is to leave its link by the lines of the journal as it holds that it is. So it is before
/// each turn, and at the end of a whole run; and before each call on the controller of its station,
/// where a packet that the end takes in that call has reached it (Core 5.2, volume 6 part B, section
/// 5.1.6).
pub fn an_end_leaves_by_lines_as_it_holds()
    ensures before_a_call { (words : Words) (given : Given) (before rest : List Event) (step : Step)
        (station handle : ℕ) (link : OpenLink)
        → given.stations ≡ 0 ∷ 1 ∷ [] → HaveAddresses given → GivesWords given words → Contains given.stations station
        → history_of (run_of given) ≡ before ++ Called station step ∷ rest
        → link_at handle (facts_at given station before).links ≡ Some link
        → leaving_on words (side_of station) ((links_of before).link_of station handle)
        (journal_of before)
        ≡ Some (leaving_next handle (facts_at given station before) step link) }
    ensures before_a_turn { (words : Words) (given : Given) (before rest : List Event) (slot : ℕ)
        (radios : List Bool) (station handle : ℕ) (link : OpenLink)
        → given.stations ≡ 0 ∷ 1 ∷ [] → HaveAddresses given → GivesWords given words → Contains given.stations station
        → history_of (run_of given) ≡ before ++ TurnBegan slot radios ∷ rest
        → link_at handle (facts_at given station before).links ≡ Some link
        → leaving_on words (side_of station) ((links_of before).link_of station handle)
        (journal_of before) ≡ Some (facts_in link).leaving }
    ensures at_the_end { (words : Words) (given : Given) (history : List Event) (station handle : ℕ)
        (link : OpenLink)
        → given.stations ≡ 0 ∷ 1 ∷ [] → HaveAddresses given → GivesWords given words → Contains given.stations station
        → run_of given ≡ GoesOn history
        → link_at handle (facts_at given station history).links ≡ Some link
        → leaving_on words (side_of station) ((links_of history).link_of station handle)
        (journal_of history) ≡ Some (facts_in link).leaving }
{
    journal_controls::a_pdu_is_understood();
    advertise::laws::connections_are_taken();
    scan_init::laws::searches_give_each_valid_address();
    air_frame::laws::packet_tells_its_pdu();
}

/// In such a run no open end is to leave its link before a turn, nor at the end of a whole run, by
/// the lines of the journal: what is to leave it as a turn ends is shut in that turn (Core 5.2,
/// volume 6 part B, sections 5.1.6 and 5.5.1).
pub fn no_open_end_is_leaving_between_turns()
    ensures before_a_turn { (words : Words) (given : Given) (before rest : List Event) (slot : ℕ)
        (radios : List Bool) (station handle : ℕ) (link : OpenLink)
        → given.stations ≡ 0 ∷ 1 ∷ [] → HaveAddresses given → GivesWords given words → Contains given.stations station
        → history_of (run_of given) ≡ before ++ TurnBegan slot radios ∷ rest
        → link_at handle (facts_at given station before).links ≡ Some link
        → ending_on words (side_of station) ((links_of before).link_of station handle)
        (journal_of before) ≡ None }
    ensures at_the_end { (words : Words) (given : Given) (history : List Event) (station handle : ℕ)
        (link : OpenLink)
        → given.stations ≡ 0 ∷ 1 ∷ [] → HaveAddresses given → GivesWords given words → Contains given.stations station
        → run_of given ≡ GoesOn history
        → link_at handle (facts_at given station history).links ≡ Some link
        → ending_on words (side_of station) ((links_of history).link_of station handle)
        (journal_of history) ≡ None }
{
    journal_controls::a_pdu_is_understood();
    advertise::laws::connections_are_taken();
    scan_init::laws::searches_give_each_valid_address();
    air_frame::laws::packet_tells_its_pdu();
}

/// In such a run, as a turn begins at a station, the reason for which each of its open ends is to
/// end then is the one that is due by the lines so far; and as a turn ends, so is the code with
/// which it is to end (Core 5.2, volume 6 part B, sections 4.5.2, 5.1.6, 5.2 and 5.5.1).
pub fn what_is_due_by_lines_is_due_to_an_end()
    ensures begins { (words : Words) (given : Given) (before rest : List Event) (slot : ℕ) (on : Bool)
        (station handle : ℕ) (link : OpenLink)
        → given.stations ≡ 0 ∷ 1 ∷ [] → HaveAddresses given → GivesWords given words → Contains given.stations station
        → history_of (run_of given) ≡ before ++ Called station (TurnBegins slot on) ∷ rest
        → link_at handle (facts_at given station before).links ≡ Some link
        → due_on words (side_of station) ((links_of before).link_of station handle) (journal_of before)
        ≡ due_of link.setup (facts_in link) slot }
    ensures ends { (words : Words) (given : Given) (before rest : List Event) (station handle : ℕ)
        (link : OpenLink)
        → given.stations ≡ 0 ∷ 1 ∷ [] → HaveAddresses given → GivesWords given words → Contains given.stations station
        → history_of (run_of given) ≡ before ++ Called station TurnEnds ∷ rest
        → link_at handle (facts_at given station before).links ≡ Some link
        → ending_on words (side_of station) ((links_of before).link_of station handle)
        (journal_of before) ≡ ending_of (facts_in link) }
{
    journal_controls::a_pdu_is_understood();
    advertise::laws::connections_are_taken();
    scan_init::laws::searches_give_each_valid_address();
    air_frame::laws::packet_tells_its_pdu();
}

/// In such a run, a link is shut in a call for what is due by the lines before the call: as a turn
/// begins, the reason that is due; as a turn ends, the code with which it is to end; or the call
/// completes a Reset (Core 5.2, volume 6 part B, sections 4.5.2, 5.1.6, 5.2 and 5.5.1).
pub fn a_link_is_shut_for_what_is_due_by_its_lines()
    ensures { (words : Words) (given : Given) (before rest : List Event) (step : Step) (station handle : ℕ)
        (reason : ErrCode)
        → given.stations ≡ 0 ∷ 1 ∷ [] → HaveAddresses given → GivesWords given words → Contains given.stations station
        → history_of (run_of given) ≡ before ++ Called station step ∷ rest
        → Contains (notes_after (setup_at given station) (facts_at given station before) step)
        (Shut handle reason)
        → IsShutIn words given before station step handle reason }
{
    journal_controls::a_pdu_is_understood();
    advertise::laws::connections_are_taken();
    scan_init::laws::searches_give_each_valid_address();
    air_frame::laws::packet_tells_its_pdu();
}
