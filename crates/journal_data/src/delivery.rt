//! That data arrives in order in every run of a pair, from the lines of its journal. The body only
//! calls the laws that it rests on: the contract is the law.
ghost use Rattle.std.specs.Prelude.{◌≡◌, ◌≤◌, ◌∷◌, ◌++◌, [], ℕ, false, List, length};
ghost use Rattle.ble_base.specs.Side.{other_side};
ghost use Rattle.ble_base.specs.declared.roles.Side.{Side};
ghost use Rattle.journal.specs.declared.entries.Entry.{Entry};
ghost use Rattle.radio_replay.specs.Script.{Script};
ghost use Rattle.journal_acks.specs.run_model.Journal.{journal_of};
ghost use Rattle.journal_acks.specs.run_model.LinkEnds.{HaveAddresses};
ghost use Rattle.journal_acks.specs.run_model.Pair.{given_of};
ghost use Rattle.journal_acks.specs.run_model.Run.{Given, history_of, run_of, setup_at};
ghost use Rattle.journal_data.specs.Delivered.{AllDataArrives, ArrivesInOrder};
ghost use Rattle.journal_data.specs.Followed.{Follows, Mixed};
ghost use Rattle.journal_data.specs.Lines.{lines_of};

/// In the journal of a run of a pair, whole or ended by damage, after each of its lines, on each
/// link that is not mixed by the lines so far, and from each side to the other (Core 5.2, volume 4 part E, section 4.1, and volume 6 part
/// B, section 4.5.9):
///
/// - the PDUs with a payload that one side took are the first of those that the other sent, in
///   order, each once, with their numbers, and at most one was sent and not taken;
/// - the data that the host of one side received is the first octets of what its side accepted, and
///   these are the first octets of what the other host submitted, each first octet of a message
///   marked;
/// - of the packets of a host no more are reported as complete than those that had no octet, and
///   those that the other side accepted whole.
///
/// What a host submits are its packets that are kept, for a link that is open: one that is longer
/// than a buffer is dropped, and so is one that comes while all eight buffers are taken.
pub fn data_arrives_in_order_in_every_journal()
    ensures { (a b : List ℕ) (script : Script) (mixed : Mixed) → length script.a.public ≡ 6
        → length script.b.public ≡ 6 → Follows (given_of a b script) mixed
        → AllDataArrives mixed (journal_of (history_of (run_of (given_of a b script)))) }
{
    journal_acks::a_pdu_is_understood();
    advertise::laws::connections_are_taken();
    scan_init::laws::searches_give_each_valid_address();
    air_frame::laws::packet_tells_its_pdu();
    run_pairs::both_ends_hear_each_other_in_turns();
    run_pairs::ends_that_last_are_sound();
}

/// The same holds in any run of two controllers, with any number of links each that handles of 12
/// bits can name, where each has eight buffers for packets of its host.
pub fn data_of_two_stations_arrives_in_order()
    ensures { (given : Given) (mixed : Mixed) (front rest : List Entry) (side : Side) (link : ℕ)
        → given.stations ≡ 0 ∷ 1 ∷ [] → HaveAddresses given
        → ((station : ℕ) → (setup_at given station).links ≤ 4096)
        → ((station : ℕ) → (setup_at given station).host_buffers ≡ 8)
        → Follows given mixed
        → journal_of (history_of (run_of given)) ≡ front ++ rest → mixed link front ≡ false
        → ArrivesInOrder link (lines_of 8 side front) (lines_of 8 (other_side side) front) }
{
    journal_acks::a_pdu_is_understood();
    advertise::laws::connections_are_taken();
    scan_init::laws::searches_give_each_valid_address();
    air_frame::laws::packet_tells_its_pdu();
    run_pairs::both_ends_hear_each_other_in_turns();
    run_pairs::ends_that_last_are_sound();
}
