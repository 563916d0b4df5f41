//! That the lines of a link are between its `open` and its `shut` lines in every run of a pair.
//! The body only calls the laws that it rests on: the contract is the law.
ghost use Rattle.std.specs.Prelude.{◌≡◌, ◌≤◌, ◌∷◌, [], ℕ, List, length};
ghost use Rattle.radio_replay.specs.Script.{Script};
ghost use Rattle.journal_acks.specs.run_model.Journal.{journal_of};
ghost use Rattle.journal_acks.specs.run_model.LinkEnds.{HaveAddresses};
ghost use Rattle.journal_acks.specs.run_model.Pair.{given_of};
ghost use Rattle.journal_acks.specs.run_model.Run.{Given, history_of, run_of, setup_at};
ghost use Rattle.journal_data.specs.Held.{LinesAreOfOpenLinks};

/// In the journal of a run of a pair, whole or ended by damage, each `sent`, `took`, `enter` and
/// `shut` line names a link that is open at its side by the lines before it: that side has an
/// `open` line of it, and no `shut` line of it since. Each `open` line is of a link that is not
/// open at its side, under the least handle that no open link of that side has (our choice). Data
/// that a host receives, and complete packets that are reported to it, are of a link that is open
/// at its side; the length in an ACL packet is that of its data, and each Number Of Completed
/// Packets event is of one handle (Core 5.2, volume 4 part E, sections 5.4.2 and 7.7.19).
pub fn lines_are_of_open_links_in_every_journal()
    ensures { (a b : List ℕ) (script : Script) → length script.a.public ≡ 6
        → length script.b.public ≡ 6
        → LinesAreOfOpenLinks (journal_of (history_of (run_of (given_of a b script)))) }
{
    journal_acks::a_pdu_is_understood();
    advertise::laws::connections_are_taken();
    scan_init::laws::searches_give_each_valid_address();
    air_frame::laws::packet_tells_its_pdu();
}

/// The same holds in any run of two controllers, with any number of links each that handles of 12
/// bits can name, where each has eight buffers for packets of its host.
pub fn lines_of_two_stations_are_of_open_links()
    ensures { (given : Given) → given.stations ≡ 0 ∷ 1 ∷ [] → HaveAddresses given
        → ((station : ℕ) → (setup_at given station).links ≤ 4096)
        → ((station : ℕ) → (setup_at given station).host_buffers ≡ 8)
        → LinesAreOfOpenLinks (journal_of (history_of (run_of given))) }
{
    journal_acks::a_pdu_is_understood();
    advertise::laws::connections_are_taken();
    scan_init::laws::searches_give_each_valid_address();
    air_frame::laws::packet_tells_its_pdu();
}
