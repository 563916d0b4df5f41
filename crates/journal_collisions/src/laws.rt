//! Control procedures that collide on a link, in the journals of runs of two stations. The bodies
//! only call the laws that they rest on: the contracts are the laws.
ghost use Rattle.std.specs.Prelude.{◌≡◌, ◌∷◌, [], ℕ, List, length};
ghost use Rattle.radio_replay.specs.Script.{Script};
ghost use Rattle.journal_collisions.specs.Collisions.{AllAreRefused, AllAreRejectedNext};
ghost use Rattle.journal_collisions.specs.Outcomes.{NoneIsIndicated};
ghost use Rattle.journal_endings.specs.journal_indications.journal_data.Followed.{Follows, Mixed};
ghost use Rattle.journal_endings.specs.journal_indications.journal_data.run_model.Journal.{journal_of};
ghost use Rattle.journal_endings.specs.journal_indications.journal_data.run_model.LinkEnds.{HaveAddresses};
ghost use Rattle.journal_endings.specs.journal_indications.journal_data.run_model.Pair.{given_of};
ghost use Rattle.journal_endings.specs.journal_indications.journal_data.run_model.Run.{Given, history_of, run_of};

/// In the journal of a run of two stations, with any number of links each, whole or ended by
/// damage: where a central takes the first PDU of a procedure of the peripheral while its own
/// procedure, which excludes it, is in progress, the next PDU that it sends on the link is
/// LL_REJECT_EXT_IND, with the opcode of that PDU, and with 0x23 where both procedures are of one
/// kind and 0x2A where they are not, or LL_TERMINATE_IND, as a central sends that is to end the
/// link (Core 5.2, volume 6 part B, sections 2.4.2.18, 5.1.6 and 5.3).
pub fn colliding_procedures_are_rejected_next()
    ensures two_stations { (given : Given) (mixed : Mixed) → given.stations ≡ 0 ∷ 1 ∷ []
        → HaveAddresses given → Follows given mixed
        → AllAreRejectedNext mixed (journal_of (history_of (run_of given))) }
    ensures pair { (a b : List ℕ) (script : Script) (mixed : Mixed)
        → length script.a.public ≡ 6 → length script.b.public ≡ 6
        → Follows (given_of a b script) mixed
        → AllAreRejectedNext mixed (journal_of (history_of (run_of (given_of a b script)))) }
{
    journal_endings::a_pdu_is_understood();
    advertise::laws::connections_are_taken();
    scan_init::laws::searches_give_each_valid_address();
    air_frame::laws::packet_tells_its_pdu();
    run_collisions::the_central_prevails_in_each_run();
}

/// In the journal of a run of two stations, with any number of links each, whole or ended by
/// damage: where the peripheral takes that rejection, its next line of the link is that its
/// procedure is refused with the error of the rejection. So it is not done (Core 5.2, volume 6 part
/// B, sections 2.4.2.18 and 5.3).
pub fn rejected_procedures_are_refused()
    ensures two_stations { (given : Given) (mixed : Mixed) → given.stations ≡ 0 ∷ 1 ∷ []
        → HaveAddresses given → Follows given mixed
        → AllAreRefused mixed (journal_of (history_of (run_of given))) }
    ensures pair { (a b : List ℕ) (script : Script) (mixed : Mixed)
        → length script.a.public ≡ 6 → length script.b.public ≡ 6
        → Follows (given_of a b script) mixed
        → AllAreRefused mixed (journal_of (history_of (run_of (given_of a b script)))) }
{
    journal_endings::a_pdu_is_understood();
    advertise::laws::connections_are_taken();
    scan_init::laws::searches_give_each_valid_address();
    air_frame::laws::packet_tells_its_pdu();
    run_collisions::rejected_procedures_are_refused_in_each_run();
}

/// In the journal of a run of two stations, with any number of links each, whole or ended by
/// damage: no indication of the central comes of a procedure of the peripheral that collided. Each
/// that the central sends after it took the first PDU of that is of its own procedure, in progress
/// by its lines, or answers a first PDU that it took later (Core 5.2, volume 6 part B, sections
/// 5.1.1, 5.1.2, 5.1.7, 5.1.10 and 5.3).
pub fn rejected_procedures_are_not_indicated()
    ensures two_stations { (given : Given) (mixed : Mixed) → given.stations ≡ 0 ∷ 1 ∷ []
        → HaveAddresses given → Follows given mixed
        → NoneIsIndicated mixed (journal_of (history_of (run_of given))) }
    ensures pair { (a b : List ℕ) (script : Script) (mixed : Mixed)
        → length script.a.public ≡ 6 → length script.b.public ≡ 6
        → Follows (given_of a b script) mixed
        → NoneIsIndicated mixed (journal_of (history_of (run_of (given_of a b script)))) }
{
    journal_endings::a_pdu_is_understood();
    advertise::laws::connections_are_taken();
    scan_init::laws::searches_give_each_valid_address();
    air_frame::laws::packet_tells_its_pdu();
    run_collisions::the_central_prevails_in_each_run();
    run_collisions::control_pdus_do_not_cross_in_each_run();
}
