//! Where each side of a journal says that it takes a PDU. The body only calls the laws that it
//! rests on: the contract is the law.
ghost use Rattle.std.specs.Prelude.{◌≡◌, ◌≤◌, ◌∷◌, [], ℕ};
ghost use Rattle.journal_fixing.specs.journal_controls.journal_ends.Asked.{Words};
ghost use Rattle.journal_fixing.specs.journal_controls.journal_ends.GivenWords.{GivesWords};
ghost use Rattle.journal_leaving.specs.run_model.Journal.{journal_of};
ghost use Rattle.journal_leaving.specs.run_model.LinkEnds.{HaveAddresses};
ghost use Rattle.journal_leaving.specs.run_model.Run.{Given, history_of, run_of, setup_at};
ghost use Rattle.journal_sending.specs.Pending.{AllAreTakenAtOnce};

/// In the journal of a run of two stations, with any number of links each and whatever control
/// procedures they carry, the next line of a side after the first good packet that brings a PDU is
/// that it takes the PDU, with the body that its end reads in the packet by the key and the counter
/// that the lines before give it, but for the line that a procedure is done on that link; and it
/// takes no other PDU. It takes a PDU of data only where fewer than eight such PDUs wait for its host,
/// and nothing on a link once its LL_TERMINATE_IND is acknowledged there (Core 5.2, volume 6 part B,
/// sections 4.5.9, 5.1.3 and 5.1.6, and part E, section 2; the number is our choice).
pub fn each_pdu_is_taken_at_once()
    ensures { (words : Words) (given : Given) → given.stations ≡ 0 ∷ 1 ∷ []
        → HaveAddresses given → GivesWords given words
        → ((station : ℕ) → (setup_at given station).links ≤ 4096)
        → ((station : ℕ) → (setup_at given station).host_buffers ≡ 8)
        → ((station : ℕ) → (setup_at given station).air_buffers ≡ 8)
        → AllAreTakenAtOnce words (journal_of (history_of (run_of given))) }
{
    journal_leaving::a_pdu_is_understood();
    advertise::laws::connections_are_taken();
    scan_init::laws::searches_give_each_valid_address();
    air_frame::laws::packet_tells_its_pdu();
}
