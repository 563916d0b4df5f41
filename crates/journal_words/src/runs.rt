//! The random words that the stations of a run draw, by the lines of its journal. The bodies only call
//! the laws that they rest on: the contracts are the laws.
ghost use Rattle.std.specs.Prelude.{◌≡◌, ◌++◌, ◌∷◌, [], ℕ, List, true};
ghost use Rattle.std.specs.List.{Contains};
ghost use Rattle.journal_controls.specs.controller_model.Step.{Step};
ghost use Rattle.journal_controls.specs.journal_ends.GivenWords.{GivesWords, draws_in_call};
ghost use Rattle.journal_controls.specs.run_model.History.{Called, Event};
ghost use Rattle.journal_controls.specs.run_model.Journal.{journal_of, side_of};
ghost use Rattle.journal_controls.specs.run_model.LinkEnds.{HaveAddresses};
ghost use Rattle.journal_controls.specs.run_model.Pair.{given_with};
ghost use Rattle.journal_controls.specs.run_model.Run.{Given, facts_at, history_of, run_of, setup_at};
ghost use Rattle.radio_replay.specs.Script.{Script};
ghost use Rattle.journal_words.specs.Drawn.{drawn_on, words_by, words_in};

/// In a run of two stations, before each call with an octet of its host and each call in which it hears
/// a packet, the controller of a station has drawn as many random words as the lines of its journal
/// say: one for each LE Rand that it accepted and for each CONNECT_IND that it sent, and two for each
/// LE Enable Encryption that it accepted and for each LL_ENC_REQ that it answered (Core 5.2, volume 4
/// part E, sections 7.8.23 and 7.8.24; volume 6 part B, section 5.1.3.1).
pub fn a_station_draws_what_its_lines_say()
    ensures { (given : Given) (before rest : List Event) (call : Step) (station : ℕ)
        → given.stations ≡ 0 ∷ 1 ∷ [] → HaveAddresses given → Contains given.stations station
        → draws_in_call call ≡ true
        → history_of (run_of given) ≡ before ++ Called station call ∷ rest
        → drawn_on (setup_at given station).words (side_of station) (journal_of before)
        ≡ (facts_at given station before).drawn }
{
    journal_controls::a_pdu_is_understood();
    advertise::laws::connections_are_taken();
    scan_init::laws::searches_give_each_valid_address();
    air_frame::laws::packet_tells_its_pdu();
}

/// So the words by the lines of its journal are those that its stations draw; and in a run of a pair
/// they are those of its script.
pub fn the_words_of_a_run_are_given()
    ensures run { (given : Given) → given.stations ≡ 0 ∷ 1 ∷ [] → HaveAddresses given
        → GivesWords given (words_in given) }
    ensures pair { (links : ℕ) (a b : List ℕ) (script : Script)
        → HaveAddresses (given_with links a b script)
        → GivesWords (given_with links a b script) (words_by script) }
{
    journal_controls::a_pdu_is_understood();
    advertise::laws::connections_are_taken();
    scan_init::laws::searches_give_each_valid_address();
    air_frame::laws::packet_tells_its_pdu();
}
