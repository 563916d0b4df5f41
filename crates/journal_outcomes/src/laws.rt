//! What becomes of the control procedures of a peripheral, in the journals of runs of two stations.
//! The bodies only call the laws that they rest on: the contracts are the laws.
ghost use Rattle.std.specs.Prelude.{◌≡◌, ◌≤◌, ◌∷◌, [], ℕ, List, length};
ghost use Rattle.radio_replay.specs.Script.{Script};
ghost use Rattle.journal_outcomes.specs.Done.{AllDoneAreAnswered, NoneIsDone};
ghost use Rattle.journal_outcomes.specs.Numbering.{AllAreNumbered};
ghost use Rattle.journal_crossing.specs.journal_data.Followed.{Follows, Mixed};
ghost use Rattle.journal_crossing.specs.run_model.Journal.{journal_of};
ghost use Rattle.journal_crossing.specs.run_model.LinkEnds.{HaveAddresses};
ghost use Rattle.journal_crossing.specs.run_model.Pair.{given_of};
ghost use Rattle.journal_crossing.specs.run_model.Run.{Given, history_of, run_of, setup_at};

/// In the journal of a run of two stations, with any number of links each, whole or ended by
/// damage: where a peripheral sends LL_CONNECTION_PARAM_REQ or LL_PHY_REQ, and that procedure is
/// done before the peripheral begins another of its kind, the peripheral took
/// LL_CONNECTION_UPDATE_IND or LL_PHY_UPDATE_IND in between, and no procedure of the kind is done or
/// refused in between (Core 5.2, volume 6 part B, sections 5.1.7 and 5.1.10).
pub fn procedures_are_done_as_they_are_answered()
    ensures two_stations { (given : Given) → given.stations ≡ 0 ∷ 1 ∷ [] → HaveAddresses given
        → AllDoneAreAnswered (journal_of (history_of (run_of given))) }
    ensures pair { (a b : List ℕ) (script : Script)
        → length script.a.public ≡ 6 → length script.b.public ≡ 6
        → AllDoneAreAnswered (journal_of (history_of (run_of (given_of a b script)))) }
{
    journal_crossing::a_pdu_is_understood();
    advertise::laws::connections_are_taken();
    journal_crossing::a_procedure_is_done_only_as_it_is_answered();
}

/// In the journal of a run of two stations, with any number of links each, whole or ended by
/// damage: each PDU with a payload that a side sends on a link has the next number there, from 1 on
/// (our choice).
pub fn pdus_have_the_next_number()
    ensures two_stations { (given : Given) → given.stations ≡ 0 ∷ 1 ∷ [] → HaveAddresses given
        → AllAreNumbered (journal_of (history_of (run_of given))) }
    ensures pair { (a b : List ℕ) (script : Script)
        → length script.a.public ≡ 6 → length script.b.public ≡ 6
        → AllAreNumbered (journal_of (history_of (run_of (given_of a b script)))) }
{
    journal_crossing::a_pdu_is_understood();
    advertise::laws::connections_are_taken();
}

/// In the journal of a run of two controllers, with any number of links each that handles of 12
/// bits can name, where each has eight buffers for packets of its host: of two procedures that
/// collide, the peripheral's is not done. Where a peripheral is done with a procedure of the kind
/// that collided, it has begun another of that kind since it sent the first PDU of the one that
/// collided. The same holds in the journal of a run of a pair, whole or ended by damage (Core 5.2,
/// volume 6 part B, section 5.3).
pub fn rejected_procedures_are_not_done()
    ensures two_stations { (given : Given) (mixed : Mixed) → given.stations ≡ 0 ∷ 1 ∷ []
        → HaveAddresses given → Follows given mixed
        → ((station : ℕ) → (setup_at given station).links ≤ 4096)
        → ((station : ℕ) → (setup_at given station).host_buffers ≡ 8)
        → NoneIsDone mixed (journal_of (history_of (run_of given))) }
    ensures pair { (a b : List ℕ) (script : Script) (mixed : Mixed)
        → length script.a.public ≡ 6 → length script.b.public ≡ 6
        → Follows (given_of a b script) mixed
        → NoneIsDone mixed (journal_of (history_of (run_of (given_of a b script)))) }
{
    journal_crossing::a_pdu_is_understood();
    advertise::laws::connections_are_taken();
    journal_crossing::data_of_two_stations_arrives_in_order();
    pdus_have_the_next_number();
    journal_crossing::colliding_procedures_are_rejected_next();
    journal_crossing::rejected_procedures_are_refused();
    journal_crossing::control_pdus_do_not_cross();
    journal_crossing::nothing_is_taken_after_a_termination();
    procedures_are_done_as_they_are_answered();
}
