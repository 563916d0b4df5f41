//! What each packet of a link tells, and the line of the new PDU that it brings, by the lines
//! before it. The bodies only call the laws that they rest on: the contracts are the laws.
ghost use Rattle.std.specs.Prelude.{◌≡◌, ◌≤◌, ◌∷◌, [], ℕ, List, false};
ghost use Rattle.journal_fixing.specs.journal_controls.journal_ends.Asked.{Words};
ghost use Rattle.journal_fixing.specs.journal_controls.journal_ends.GivenWords.{GivesWords};
ghost use Rattle.journal_leaving.specs.run_model.History.{Event};
ghost use Rattle.journal_leaving.specs.run_model.Journal.{journal_of, side_of};
ghost use Rattle.journal_leaving.specs.run_model.LinkEnds.{HaveAddresses};
ghost use Rattle.journal_leaving.specs.run_model.Links.{is_advertising};
ghost use Rattle.journal_leaving.specs.run_model.Run.{Given, Stop, Stops, history_of, run_of};
ghost use Rattle.journal_leaving.specs.run_model.Run.{setup_at};
ghost use Rattle.journal_sending.specs.Announced.{AllGoOutAtOnce, announced_pdu, new_pdu_on};
ghost use Rattle.journal_sending.specs.WhatWaits.{AllTellWhatWaits, TellsWhatWaits};

/// In the journal of a run of two stations, with any number of links each and whatever control
/// procedures they carry, MD of each packet of a link says whether more waits after the PDU that the
/// packet carries, by the end of its side as the lines before it fixed its next PDU and by the data
/// of the host, also where a PDU is sent again; and a new empty PDU goes out only where no control
/// PDU waits and no data may go (Core 5.2, volume 6 part B, section 4.5.6; what counts, and when it
/// is looked at, is our choice). So does the packet at which damage stops a run.
pub fn each_packet_of_a_link_tells_what_waits()
    ensures aired { (words : Words) (given : Given) → given.stations ≡ 0 ∷ 1 ∷ []
        → HaveAddresses given → GivesWords given words
        → ((station : ℕ) → (setup_at given station).links ≤ 4096)
        → ((station : ℕ) → (setup_at given station).host_buffers ≡ 8)
        → AllTellWhatWaits words (journal_of (history_of (run_of given))) }
    ensures stopped { (words : Words) (given : Given) (history : List Event) (stop : Stop)
        → given.stations ≡ 0 ∷ 1 ∷ [] → HaveAddresses given → GivesWords given words
        → ((station : ℕ) → (setup_at given station).links ≤ 4096)
        → ((station : ℕ) → (setup_at given station).host_buffers ≡ 8)
        → run_of given ≡ Stops history stop → is_advertising stop.channel ≡ false
        → TellsWhatWaits words (journal_of history) (side_of stop.sender) stop.channel stop.sent }
{
    journal_leaving::a_pdu_is_understood();
    advertise::laws::connections_are_taken();
    scan_init::laws::searches_give_each_valid_address();
    air_frame::laws::packet_tells_its_pdu();
    run_model::each_packet_on_the_air_is_due();
}

/// In such a journal, the line of a side before a packet that brings a new PDU with a payload is
/// the line of that PDU, and no other line of that side comes after such a line (our choice). So it
/// is before the packet at which damage stops a run.
pub fn the_line_of_each_new_pdu_is_just_before_its_packet()
    ensures aired { (given : Given) → given.stations ≡ 0 ∷ 1 ∷ [] → HaveAddresses given
        → ((station : ℕ) → (setup_at given station).links ≤ 4096)
        → ((station : ℕ) → (setup_at given station).host_buffers ≡ 8)
        → AllGoOutAtOnce (journal_of (history_of (run_of given))) }
    ensures stopped { (given : Given) (history : List Event) (stop : Stop)
        → given.stations ≡ 0 ∷ 1 ∷ [] → HaveAddresses given
        → ((station : ℕ) → (setup_at given station).links ≤ 4096)
        → ((station : ℕ) → (setup_at given station).host_buffers ≡ 8)
        → run_of given ≡ Stops history stop
        → announced_pdu (side_of stop.sender) (journal_of history)
        ≡ new_pdu_on (journal_of history) (side_of stop.sender) stop.channel stop.sent }
{
    journal_leaving::a_pdu_is_understood();
    advertise::laws::connections_are_taken();
    scan_init::laws::searches_give_each_valid_address();
    air_frame::laws::packet_tells_its_pdu();
}
