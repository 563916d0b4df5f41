//! That no PDU is under way between two turns. The body only calls the laws that it rests on: the
//! contract is the law.
ghost use Rattle.std.specs.Prelude.{◌≡◌, ◌≤◌, ◌∷◌, [], ℕ, List};
ghost use Rattle.journal_fixing.specs.journal_controls.journal_ends.Asked.{Words};
ghost use Rattle.journal_fixing.specs.journal_controls.journal_ends.GivenWords.{GivesWords};
ghost use Rattle.journal_leaving.specs.run_model.History.{Event};
ghost use Rattle.journal_leaving.specs.run_model.Journal.{journal_of};
ghost use Rattle.journal_leaving.specs.run_model.LinkEnds.{HaveAddresses};
ghost use Rattle.journal_leaving.specs.run_model.Run.{Given, GoesOn, history_of, run_of, setup_at};
ghost use Rattle.journal_sending.specs.Resting.{AllAreAtRest, IsAtRest};

/// In the journal of a run of two stations, with any number of links each and whatever control
/// procedures they carry, before each turn and at the end of a whole run, the packet of each line of
/// a new PDU was on the air, and each side took each PDU that reached it and for which it had room
/// (our choice).
pub fn nothing_is_under_way_between_turns()
    ensures before_a_turn { (words : Words) (given : Given) → given.stations ≡ 0 ∷ 1 ∷ []
        → HaveAddresses given → GivesWords given words
        → ((station : ℕ) → (setup_at given station).links ≤ 4096)
        → ((station : ℕ) → (setup_at given station).host_buffers ≡ 8)
        → ((station : ℕ) → (setup_at given station).air_buffers ≡ 8)
        → AllAreAtRest words (journal_of (history_of (run_of given))) }
    ensures at_the_end { (words : Words) (given : Given) (history : List Event)
        → given.stations ≡ 0 ∷ 1 ∷ [] → HaveAddresses given → GivesWords given words
        → ((station : ℕ) → (setup_at given station).links ≤ 4096)
        → ((station : ℕ) → (setup_at given station).host_buffers ≡ 8)
        → ((station : ℕ) → (setup_at given station).air_buffers ≡ 8)
        → run_of given ≡ GoesOn history → IsAtRest words (journal_of history) }
{
    journal_leaving::a_pdu_is_understood();
    advertise::laws::connections_are_taken();
    scan_init::laws::searches_give_each_valid_address();
    air_frame::laws::packet_tells_its_pdu();
}
