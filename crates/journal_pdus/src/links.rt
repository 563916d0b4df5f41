//! Links of a journal, from its lines: that they open, that their packets are in their events and
//! answers are heard, and that a Reset leaves none. The bodies only call the laws that they rest on:
//! the contracts are the laws.
ghost use Rattle.std.specs.Prelude.{◌≡◌, ◌≤◌, ◌∷◌, [], ℕ, List};
ghost use Rattle.journal_pdus.specs.Answered.{AllAnswersAreHeard};
ghost use Rattle.journal_pdus.specs.InEvent.{AllAreInEvents};
ghost use Rattle.journal_pdus.specs.OpenedLinks.{AllAreOpenedByThen, AreOpened};
ghost use Rattle.journal_pdus.specs.Resetting.{ResetsLeaveNoLink};
ghost use Rattle.journal_moves.specs.journal_wants.journal_sending.run_model.History.{Event};
ghost use Rattle.journal_moves.specs.journal_wants.journal_sending.run_model.Journal.{journal_of};
ghost use Rattle.journal_moves.specs.journal_wants.journal_sending.run_model.LinkEnds.{HaveAddresses};
ghost use Rattle.journal_moves.specs.journal_wants.journal_sending.run_model.Run as run;

/// In the journal of a run of two stations, with up to six links each and whatever phases they are
/// in, each answer on a link that passes is heard: it is judged good, or forged where its
/// integrity code is wrong for the end that hears it, or broken where its payload has more octets
/// than that end receives, which are 251, or as many as its host takes in a packet where these are
/// fewer. Who sends first listens for the answer, on the channel of the event, and knows its access
/// address (Core 5.2, volume 6 part B, sections 2.1.2, 4.5.1, 4.5.10 and 5.1.3.1).
pub fn each_answer_on_a_link_is_heard()
    ensures { (given : run.Given) → given.stations ≡ 0 ∷ 1 ∷ [] → HaveAddresses given
        → ((station : ℕ) → (run.setup_at given station).links ≤ 6)
        → AllAnswersAreHeard (journal_of (run.history_of (run.run_of given))) }
{
    journal_moves::a_pdu_is_understood();
    advertise::laws::connections_are_taken();
    scan_init::laws::searches_give_each_valid_address();
    air_frame::laws::packet_tells_its_pdu();
}

/// In the journal of a run of two stations, with any number of links each, each link that a
/// CONNECT_IND began has, before the next turn and at the end of a whole run, its line that the side
/// that sent the CONNECT_IND holds it from there on (Core 5.2, volume 6 part B, section 4.5).
pub fn each_link_is_opened_at_its_central()
    ensures before_a_turn { (given : run.Given) → given.stations ≡ 0 ∷ 1 ∷ [] → HaveAddresses given
        → AllAreOpenedByThen (journal_of (run.history_of (run.run_of given))) }
    ensures at_the_end { (given : run.Given) (history : List Event) → given.stations ≡ 0 ∷ 1 ∷ []
        → HaveAddresses given → run.run_of given ≡ run.GoesOn history → AreOpened
        (journal_of history) }
{
    journal_moves::a_pdu_is_understood();
    advertise::laws::connections_are_taken();
}

/// In the journal of a run of two stations, with any number of links each, each packet of a link
/// comes in the turn of the anchor of the event that its side entered last on that link, or in the
/// next turn (Core 5.2, volume 6 part B, section 4.5.1; that an event has at most two slots is our
/// choice).
pub fn each_packet_is_in_its_event()
    ensures { (given : run.Given) → given.stations ≡ 0 ∷ 1 ∷ [] → HaveAddresses given
        → AllAreInEvents (journal_of (run.history_of (run.run_of given))) }
{
    journal_moves::a_pdu_is_understood();
    advertise::laws::connections_are_taken();
    scan_init::laws::searches_give_each_valid_address();
    air_frame::laws::packet_tells_its_pdu();
}

/// In the journal of a run of two stations, with any number of links each, no link is open at a side
/// by the lines before a packet to its host that answers an HCI_Reset as done (Core 5.2, volume 4
/// part E, section 7.3.2).
pub fn a_reset_leaves_no_link()
    ensures { (given : run.Given) → given.stations ≡ 0 ∷ 1 ∷ [] → HaveAddresses given
        → ((station : ℕ) → (run.setup_at given station).links ≤ 4096)
        → ((station : ℕ) → (run.setup_at given station).host_buffers ≡ 8)
        → ResetsLeaveNoLink (journal_of (run.history_of (run.run_of given))) }
{
    journal_moves::a_pdu_is_understood();
    advertise::laws::connections_are_taken();
    scan_init::laws::searches_give_each_valid_address();
    air_frame::laws::packet_tells_its_pdu();
}
