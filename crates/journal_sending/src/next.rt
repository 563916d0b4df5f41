//! Which PDU each line of a new PDU says, by the lines before it. The body only calls the laws that
//! it rests on: the contract is the law.
ghost use Rattle.std.specs.Prelude.{◌≡◌, ◌≤◌, ◌∷◌, [], ℕ};
ghost use Rattle.journal_fixing.specs.journal_controls.journal_ends.Asked.{Words};
ghost use Rattle.journal_fixing.specs.journal_controls.journal_ends.GivenWords.{GivesWords};
ghost use Rattle.journal_leaving.specs.run_model.Journal.{journal_of};
ghost use Rattle.journal_leaving.specs.run_model.LinkEnds.{HaveAddresses};
ghost use Rattle.journal_leaving.specs.run_model.Run.{Given, history_of, run_of, setup_at};
ghost use Rattle.journal_sending.specs.NextPdus.{AllNewPdusAreNext};

/// In the journal of a run of two stations, with any number of links each and whatever control
/// procedures they carry, each line of a new PDU says the PDU that is next by the lines before it,
/// and the number after the last one: a control PDU where one waited as the PDU was fixed, else the
/// next piece of what the host of the side submitted, cut at the effective length of that time
/// (Core 5.2, volume 6 part B, sections 2.4, 4.5.9 and 4.5.10; the order, and when a PDU is fixed,
/// are our choice).
pub fn each_new_pdu_is_next_by_the_lines()
    ensures { (words : Words) (given : Given) → given.stations ≡ 0 ∷ 1 ∷ []
        → HaveAddresses given → GivesWords given words
        → ((station : ℕ) → (setup_at given station).links ≤ 4096)
        → ((station : ℕ) → (setup_at given station).host_buffers ≡ 8)
        → AllNewPdusAreNext words (journal_of (history_of (run_of given))) }
{
    journal_leaving::a_pdu_is_understood();
    advertise::laws::connections_are_taken();
    scan_init::laws::searches_give_each_valid_address();
    air_frame::laws::packet_tells_its_pdu();
}
