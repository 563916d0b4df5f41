//! When complete packets are reported, from the lines of a journal. The body only calls the laws
//! that it rests on: the contract is the law.
ghost use Rattle.std.specs.Prelude.{◌≡◌, ◌≤◌, ◌∷◌, [], ℕ};
ghost use Rattle.journal_pdus.specs.AtOnce.{AllAreCreditedAtOnce};
ghost use Rattle.journal_moves.specs.journal_wants.journal_sending.run_model.Journal.{journal_of};
ghost use Rattle.journal_moves.specs.journal_wants.journal_sending.run_model.LinkEnds.{HaveAddresses};
ghost use Rattle.journal_moves.specs.journal_wants.journal_sending.run_model.Run as run;

/// In the journal of a run of two stations, with any number of links each, before the first packet
/// of a turn, on each link that a side has open, all packets of its host that are complete are
/// reported to it: those whose last octet is acknowledged and those without octets, also those that
/// came in this turn (Core 5.2, volume 4 part E, section 7.7.19; when they are reported is our
/// choice).
pub fn each_complete_packet_is_reported_at_once()
    ensures { (given : run.Given) → given.stations ≡ 0 ∷ 1 ∷ [] → HaveAddresses given
        → ((station : ℕ) → (run.setup_at given station).links ≤ 4096)
        → ((station : ℕ) → (run.setup_at given station).host_buffers ≡ 8)
        → AllAreCreditedAtOnce (journal_of (run.history_of (run.run_of given))) }
{
    journal_moves::a_pdu_is_understood();
    advertise::laws::connections_are_taken();
    scan_init::laws::searches_give_each_valid_address();
    air_frame::laws::packet_tells_its_pdu();
}
