//! The events that the ends of links enter. The body only calls the laws that it rests on: the
//! contract is the law.
ghost use Rattle.std.specs.Prelude.{◌≡◌, ◌≤◌, ◌∷◌, [], ℕ, List};
ghost use Rattle.journal_anchors.specs.Anchors.{NoEventIsMissed, NoEventsAreMissed};
ghost use Rattle.journal_sending.specs.journal_controls.journal_ends.Asked.{Words};
ghost use Rattle.journal_sending.specs.journal_controls.journal_ends.GivenWords.{GivesWords};
ghost use Rattle.journal_sending.specs.run_model.History.{Event};
ghost use Rattle.journal_sending.specs.run_model.Journal.{journal_of};
ghost use Rattle.journal_sending.specs.run_model.LinkEnds.{HaveAddresses};
ghost use Rattle.journal_sending.specs.run_model.Run.{Given, GoesOn, history_of, run_of, setup_at};

/// In the journal of a run of two stations, with any number of links each that handles of 12 bits
/// can name, where each has eight buffers for packets of its host, each open end that did not end
/// its link enters each event of it: before each packet and each turn, and at the end of a whole
/// run, the anchor of its next event is in a later turn (Core 5.2, volume 6 part B, section 4.5.1;
/// that it does so also where it does not get the radio is our choice).
pub fn no_end_misses_an_event()
    ensures before { (words : Words) (given : Given) → given.stations ≡ 0 ∷ 1 ∷ []
        → HaveAddresses given → GivesWords given words
        → ((station : ℕ) → (setup_at given station).links ≤ 4096)
        → ((station : ℕ) → (setup_at given station).host_buffers ≡ 8)
        → NoEventsAreMissed words (journal_of (history_of (run_of given))) }
    ensures at_the_end { (words : Words) (given : Given) (history : List Event)
        → given.stations ≡ 0 ∷ 1 ∷ [] → HaveAddresses given → GivesWords given words
        → ((station : ℕ) → (setup_at given station).links ≤ 4096)
        → ((station : ℕ) → (setup_at given station).host_buffers ≡ 8)
        → run_of given ≡ GoesOn history → NoEventIsMissed words (journal_of history) }
{
    journal_sending::a_pdu_is_understood();
    advertise::laws::connections_are_taken();
    scan_init::laws::searches_give_each_valid_address();
    air_frame::laws::packet_tells_its_pdu();
}
