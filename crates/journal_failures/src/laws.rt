//! Where a link ends with 3D, in the journals of runs of two stations. The body only calls the laws
//! that it rests on: the contract is the law.
ghost use Rattle.std.specs.Prelude.{◌≡◌, ◌∷◌, [], ℕ, List, length};
ghost use Rattle.journal_failures.specs.Failures.{AllFailuresAreForged};
ghost use Rattle.journal_outcomes.specs.journal_collisions.journal_endings.journal_indications.journal_data.Followed.{Follows, Mixed};
ghost use Rattle.journal_outcomes.specs.journal_collisions.journal_endings.journal_indications.journal_data.run_model.Journal.{journal_of};
ghost use Rattle.journal_outcomes.specs.journal_collisions.journal_endings.journal_indications.journal_data.run_model.LinkEnds.{HaveAddresses};
ghost use Rattle.journal_outcomes.specs.journal_collisions.journal_endings.journal_indications.journal_data.run_model.Pair.{given_of};
ghost use Rattle.journal_outcomes.specs.journal_collisions.journal_endings.journal_indications.journal_data.run_model.Run.{Given, history_of, run_of};
ghost use Rattle.radio_replay.specs.Script.{Script};

/// In the journal of a run of two stations, with any number of links each, whole or ended by
/// damage, a side shuts a link with 0x3D only where it judged a packet of the link forged before
/// (Core 5.2, volume 6 part B, section 5.1.3.1). No good packet ends a link so: none comes in a
/// phase of the encryption in which its end does not take it. So it is up to the first packet of
/// the link that is mixed.
pub fn a_link_fails_only_after_a_forged_packet()
    ensures two_stations { (given : Given) (mixed : Mixed) → given.stations ≡ 0 ∷ 1 ∷ []
        → HaveAddresses given → Follows given mixed
        → AllFailuresAreForged mixed (journal_of (history_of (run_of given))) }
    ensures pair { (a b : List ℕ) (script : Script) (mixed : Mixed)
        → length script.a.public ≡ 6 → length script.b.public ≡ 6
        → Follows (given_of a b script) mixed
        → AllFailuresAreForged mixed (journal_of (history_of (run_of (given_of a b script)))) }
{
    journal_outcomes::a_pdu_is_understood();
    advertise::laws::connections_are_taken();
    scan_init::laws::searches_give_each_valid_address();
    air_frame::laws::packet_tells_its_pdu();
    journal_outcomes::a_sealed_packet_is_opened();
    journal_outcomes::what_hosts_ask_may_come();
    journal_outcomes::no_procedure_ends_a_link_but_a_late_one();
    journal_outcomes::packets_of_a_link_are_read_as_sent();
}
