//! What a peripheral reads is what its central sent last, in every run of two stations. The body
//! only calls the laws that it rests on: the contract is the law.
ghost use Rattle.std.specs.Prelude.{◌≡◌, ◌∷◌, [], ℕ, List, length};
ghost use Rattle.radio_replay.specs.Script.{Script};
ghost use Rattle.journal_agreement.specs.Taken.{AllAreReadAsSent};
ghost use Rattle.journal_agreement.specs.journal_data.Followed.{Follows, Mixed};
ghost use Rattle.journal_agreement.specs.journal_data.run_model.Journal.{journal_of};
ghost use Rattle.journal_agreement.specs.journal_data.run_model.LinkEnds.{HaveAddresses};
ghost use Rattle.journal_agreement.specs.journal_data.run_model.Pair.{given_of};
ghost use Rattle.journal_agreement.specs.journal_data.run_model.Run.{Given, history_of, run_of};

/// In the journal of a run of two stations, with any number of links each, whole or ended by
/// damage: where a peripheral takes an indication whose Instant has not passed by its own count,
/// the change that it reads is the one that its central sent last: the same indication, with the
/// same event (Core 5.2, volume 6 part B, sections 5.1.1, 5.1.2 and 5.5.1). So it is up to the first
/// packet of the link that is mixed.
pub fn peripherals_read_what_the_central_sent_last()
    ensures two_stations { (given : Given) (mixed : Mixed) → given.stations ≡ 0 ∷ 1 ∷ []
        → HaveAddresses given → Follows given mixed
        → AllAreReadAsSent mixed (journal_of (history_of (run_of given))) }
    ensures pair { (a b : List ℕ) (script : Script) (mixed : Mixed)
        → length script.a.public ≡ 6 → length script.b.public ≡ 6
        → Follows (given_of a b script) mixed
        → AllAreReadAsSent mixed (journal_of (history_of (run_of (given_of a b script)))) }
{
    controller_model::a_pdu_is_understood();
    advertise::laws::connections_are_taken();
    scan_init::laws::searches_give_each_valid_address();
    air_frame::laws::packet_tells_its_pdu();
    link_changes::an_end_follows_its_notes();
    link_indications::a_central_keeps_the_indications_that_it_sent();
    run_indications::a_peripheral_of_two_takes_what_the_central_sent_last();
}
