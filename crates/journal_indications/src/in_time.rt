//! Indications that peripherals follow came in time, in every run of two stations. The body only
//! calls the laws that it rests on: the contract is the law.
ghost use Rattle.std.specs.Prelude.{◌≡◌, ◌∷◌, [], ℕ, List, length};
ghost use Rattle.radio_replay.specs.Script.{Script};
ghost use Rattle.journal_agreement.specs.Taken.{AllCameInTime};
ghost use Rattle.journal_agreement.specs.journal_data.run_model.Journal.{journal_of};
ghost use Rattle.journal_agreement.specs.journal_data.run_model.LinkEnds.{HaveAddresses};
ghost use Rattle.journal_agreement.specs.journal_data.run_model.Pair.{given_of};
ghost use Rattle.journal_agreement.specs.journal_data.run_model.Run.{Given, history_of, run_of};

/// In the journal of a run of two stations, with any number of links each, whole or ended by
/// damage: where a peripheral enters an event, each indication that it took on the link before came
/// in time. The event that its Instant names is fewer than 32,767 events after the one in which it
/// was taken. Where one comes later than that, its Instant has passed, and the link ends (Core 5.2,
/// volume 6 part B, section 5.5.1).
pub fn indications_that_are_followed_came_in_time()
    ensures two_stations { (given : Given) → given.stations ≡ 0 ∷ 1 ∷ [] → HaveAddresses given
        → AllCameInTime (journal_of (history_of (run_of given))) }
    ensures pair { (a b : List ℕ) (script : Script)
        → length script.a.public ≡ 6 → length script.b.public ≡ 6
        → AllCameInTime (journal_of (history_of (run_of (given_of a b script)))) }
{
    controller_model::a_pdu_is_understood();
    advertise::laws::connections_are_taken();
    link_indications::indications_of_an_end_that_goes_on_came_in_time();
}
