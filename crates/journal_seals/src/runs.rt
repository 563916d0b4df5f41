//! What is sealed in a run. The body only calls the laws that it rests on: the contract is the law.
ghost use Rattle.std.specs.Prelude.{◌≡◌, ◌∷◌, []};
ghost use Rattle.journal_forgeries.specs.journal_controls.journal_ends.Asked.{Words};
ghost use Rattle.journal_forgeries.specs.journal_controls.journal_ends.GivenWords.{GivesWords};
ghost use Rattle.journal_forgeries.specs.journal_controls.run_model.Journal.{journal_of};
ghost use Rattle.journal_forgeries.specs.journal_controls.run_model.LinkEnds.{HaveAddresses};
ghost use Rattle.journal_forgeries.specs.journal_controls.run_model.Run.{Given, history_of, run_of};
ghost use Rattle.journal_seals.specs.Seals.{AllAreSealedAsOpened};

/// In a run of two stations, with any number of links each: a packet of a link that reaches the other
/// side unchanged and is judged good or forged there, that brings a PDU that is new and not empty, and
/// before which nothing was mixed on this link, was sealed exactly where the end of the other side
/// opens what it hears, by the lines before it (Core 5.2, volume 6 part B, sections 4.5.9 and 5.1.3,
/// and part E, section 2).
pub fn both_ends_agree_on_what_is_sealed()
    ensures { (words : Words) (given : Given) → given.stations ≡ 0 ∷ 1 ∷ []
        → HaveAddresses given → GivesWords given words
        → AllAreSealedAsOpened words (journal_of (history_of (run_of given))) }
{
    journal_forgeries::links_of_two_stations_keep_to_the_journal();
    journal_forgeries::the_keys_by_lines_are_those_that_the_end_holds();
    journal_forgeries::each_packet_has_the_payload_of_the_lines();
    journal_forgeries::ends_hear_no_mixed_packet_while_their_journal_is_not_mixed();
    journal_forgeries::both_ends_hear_each_other_in_turns();
    journal_forgeries::what_hosts_ask_may_come();
    journal_forgeries::a_sealed_packet_is_opened();
    journal_forgeries::a_pdu_is_understood();
    advertise::laws::connections_are_taken();
    scan_init::laws::searches_give_each_valid_address();
    air_frame::laws::packet_tells_its_pdu();
}
