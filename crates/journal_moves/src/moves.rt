//! The packets of each turn of a run. The bodies only call the laws that they rest on: the contracts
//! are the laws.
ghost use Rattle.std.specs.Prelude.{◌≡◌, ◌≤◌, ◌∷◌, [], ℕ, List};
ghost use Rattle.journal_moves.specs.Moves.{IsOwed, NothingIsOwed};
ghost use Rattle.journal_moves.specs.Owed.{MovesAreOwed};
ghost use Rattle.journal_moves.specs.Verdicts.{AllListenedForAreJudged};
ghost use Rattle.journal_wants.specs.Setups.{setups_of};
ghost use Rattle.journal_wants.specs.journal_controls.journal_ends.Asked.{Words};
ghost use Rattle.journal_wants.specs.journal_controls.journal_ends.GivenWords.{GivesWords};
ghost use Rattle.journal_wants.specs.run_model.History.{Event};
ghost use Rattle.journal_wants.specs.run_model.Journal.{journal_of, side_of};
ghost use Rattle.journal_wants.specs.run_model.LinkEnds.{HaveAddresses};
ghost use Rattle.journal_wants.specs.run_model.Run.{Given, GoesOn, Stop, Stops, history_of, run_of, setup_at};

/// In the journal of a run of two stations, with any number of links each that handles of 12 bits
/// can name, where each has eight buffers for packets of its host, each packet on the air is what
/// its side is to send next by the lines before it: A before B in each of the phases of a turn, and
/// before each turn, and at the end of a whole run, neither side is to send anything more. What a
/// side does first in a turn is decided among what its lines say that it wants: its links at the
/// anchors of their events, but for those that a peripheral skips, its advertiser, its scanner and
/// its initiator. A packet is heard only where the other side listens for it, in its phase and on
/// its channel, and one that passes is not missed there (Core 5.2, volume 6 part B, sections 4.4.2 to
/// 4.5.1; the phases, and who has the radio in a turn, are our choice). The packet at which damage
/// ends a run is due as those before it are.
pub fn the_moves_of_each_turn_are_owed()
    ensures aired { (words : Words) (given : Given) → given.stations ≡ 0 ∷ 1 ∷ []
        → HaveAddresses given → GivesWords given words
        → ((station : ℕ) → (setup_at given station).links ≤ 4096)
        → ((station : ℕ) → (setup_at given station).host_buffers ≡ 8)
        → MovesAreOwed words (setups_of given) (journal_of (history_of (run_of given))) }
    ensures at_the_end { (words : Words) (given : Given) (history : List Event)
        → given.stations ≡ 0 ∷ 1 ∷ [] → HaveAddresses given → GivesWords given words
        → ((station : ℕ) → (setup_at given station).links ≤ 4096)
        → ((station : ℕ) → (setup_at given station).host_buffers ≡ 8)
        → run_of given ≡ GoesOn history → NothingIsOwed words (setups_of given) (journal_of history) }
    ensures stopped { (words : Words) (given : Given) (history : List Event) (stop : Stop)
        → given.stations ≡ 0 ∷ 1 ∷ [] → HaveAddresses given → GivesWords given words
        → ((station : ℕ) → (setup_at given station).links ≤ 4096)
        → ((station : ℕ) → (setup_at given station).host_buffers ≡ 8)
        → run_of given ≡ Stops history stop
        → IsOwed words (setups_of given) (journal_of history) (side_of stop.sender) stop.channel stop.sent }
{
    journal_wants::a_pdu_is_understood();
    advertise::laws::connections_are_taken();
    scan_init::laws::searches_give_each_valid_address();
    air_frame::laws::packet_tells_its_pdu();
}

/// In the journal of a run of two stations, with at most six links each, where each has eight buffers
/// for packets of its host, each packet that is not lost, and finds the other side listening in its
/// phase and on its channel, has the verdict that the lines before it give for the octets that the
/// radio left of it. On an advertising channel it is good exactly where they are the packet of a PDU
/// on such a channel. On a data channel that depends on the link on which the other side listens:
/// on its access address and its CRCInit, on how many octets its end receives, whether the end opens
/// what it hears, and whether the PDU is new to it and sealed for its next counter (Core 5.2, volume
/// 6 part B, sections 2.1, 2.4, 3.1.1, 4.5.9, 4.5.10 and 5.1.3.1; the verdicts are our choice).
pub fn each_packet_that_is_listened_for_is_judged()
    ensures { (words : Words) (given : Given) → given.stations ≡ 0 ∷ 1 ∷ []
        → HaveAddresses given → GivesWords given words
        → ((station : ℕ) → (setup_at given station).links ≤ 6)
        → ((station : ℕ) → (setup_at given station).host_buffers ≡ 8)
        → AllListenedForAreJudged words (setups_of given) (journal_of (history_of (run_of given))) }
{
    journal_wants::a_pdu_is_understood();
    advertise::laws::connections_are_taken();
    scan_init::laws::searches_give_each_valid_address();
    air_frame::laws::packet_tells_its_pdu();
}
