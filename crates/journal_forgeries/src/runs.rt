//! What is forged in a run. The body only calls the laws that it rests on: the contract is the law.
ghost use Rattle.std.specs.Prelude.{◌≡◌, ◌∷◌, []};
ghost use Rattle.journal_sealing.specs.journal_controls.journal_ends.Asked.{Words};
ghost use Rattle.journal_sealing.specs.journal_controls.journal_ends.GivenWords.{GivesWords};
ghost use Rattle.journal_sealing.specs.journal_controls.run_model.Journal.{journal_of};
ghost use Rattle.journal_sealing.specs.journal_controls.run_model.LinkEnds.{HaveAddresses};
ghost use Rattle.journal_sealing.specs.journal_controls.run_model.Run.{Given, history_of, run_of};
ghost use Rattle.journal_forgeries.specs.Forgeries.{AllForgedAreOfOtherKeys};

/// In a run of two stations, with any number of links each: a packet of a link that reaches the other
/// side unchanged, and before which nothing was mixed on this link, is judged forged only where the
/// session keys of both ends differ, by the lines before it (Core 5.2, volume 6 part B, section
/// 5.1.3.1, and part E, section 2).
pub fn a_packet_is_forged_only_between_two_keys()
    ensures { (words : Words) (given : Given) → given.stations ≡ 0 ∷ 1 ∷ []
        → HaveAddresses given → GivesWords given words
        → AllForgedAreOfOtherKeys words (journal_of (history_of (run_of given))) }
{
    journal_sealing::links_of_two_stations_keep_to_the_journal();
    journal_sealing::the_keys_by_lines_are_those_that_the_end_holds();
    journal_sealing::ends_hear_no_mixed_packet_while_their_journal_is_not_mixed();
    run_keys::both_ends_hear_each_other_in_turns();
    run_keys::a_packet_is_forged_only_with_other_keys();
    journal_sealing::a_pdu_is_understood();
    advertise::laws::connections_are_taken();
    scan_init::laws::searches_give_each_valid_address();
}
