//! Control PDUs of a link, which never cross on the air, in the journals of runs of two stations.
//! The bodies only call the laws that they rest on: the contracts are the laws.
ghost use Rattle.std.specs.Prelude.{◌≡◌, ◌∷◌, [], ℕ, List, length};
ghost use Rattle.radio_replay.specs.Script.{Script};
ghost use Rattle.journal_collisions.specs.journal_data.Followed.{Follows, Mixed};
ghost use Rattle.journal_collisions.specs.journal_data.run_model.Journal.{journal_of};
ghost use Rattle.journal_collisions.specs.journal_data.run_model.LinkEnds.{HaveAddresses};
ghost use Rattle.journal_collisions.specs.journal_data.run_model.Pair.{given_of};
ghost use Rattle.journal_collisions.specs.journal_data.run_model.Run.{Given, history_of, run_of};
ghost use Rattle.journal_crossing.specs.Crossing.{AllControlsAreTaken};
ghost use Rattle.journal_crossing.specs.Crossing.{NoneIsTakenAfterTermination};

/// In the journal of a run of two stations, with any number of links each, whole or ended by
/// damage: where a side takes a control PDU, the other side has taken each control PDU that this
/// side sent on the link before. So two control PDUs of a link never cross on the air (Core 5.2,
/// volume 6 part B, sections 2.4.2 and 4.5.9).
pub fn control_pdus_do_not_cross()
    ensures two_stations { (given : Given) (mixed : Mixed) → given.stations ≡ 0 ∷ 1 ∷ []
        → HaveAddresses given → Follows given mixed
        → AllControlsAreTaken mixed (journal_of (history_of (run_of given))) }
    ensures pair { (a b : List ℕ) (script : Script) (mixed : Mixed)
        → length script.a.public ≡ 6 → length script.b.public ≡ 6
        → Follows (given_of a b script) mixed
        → AllControlsAreTaken mixed (journal_of (history_of (run_of (given_of a b script)))) }
{
    journal_collisions::a_pdu_is_understood();
    advertise::laws::connections_are_taken();
    scan_init::laws::searches_give_each_valid_address();
    air_frame::laws::packet_tells_its_pdu();
    journal_collisions::control_pdus_do_not_cross_in_each_run();
    journal_collisions::ends_that_last_are_sound();
}

/// In the journal of a run of two stations, with any number of links each, whole or ended by
/// damage: a peripheral that took LL_TERMINATE_IND takes no control PDU of the link after it (Core
/// 5.2, volume 6 part B, section 5.1.6).
pub fn nothing_is_taken_after_a_termination()
    ensures two_stations { (given : Given) (mixed : Mixed) → given.stations ≡ 0 ∷ 1 ∷ []
        → HaveAddresses given → Follows given mixed
        → NoneIsTakenAfterTermination mixed (journal_of (history_of (run_of given))) }
    ensures pair { (a b : List ℕ) (script : Script) (mixed : Mixed)
        → length script.a.public ≡ 6 → length script.b.public ≡ 6
        → Follows (given_of a b script) mixed
        → NoneIsTakenAfterTermination mixed (journal_of (history_of (run_of (given_of a b script)))) }
{
    journal_collisions::a_pdu_is_understood();
    advertise::laws::connections_are_taken();
    scan_init::laws::searches_give_each_valid_address();
    air_frame::laws::packet_tells_its_pdu();
    journal_collisions::control_pdus_do_not_cross_in_each_run();
    journal_collisions::ends_that_last_are_sound();
    link_outcomes::an_end_that_took_a_termination_is_over();
}
