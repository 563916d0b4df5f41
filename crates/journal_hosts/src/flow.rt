//! Flow control towards hosts, and the order and the time of what they receive. The bodies only call
//! the laws that they rest on: the contracts are the laws.
ghost use Rattle.std.specs.Prelude.{◌≡◌, ◌∷◌, [], ℕ, List, length};
ghost use Rattle.journal_hosts.specs.HostFlow.{KeepsHostFlow};
ghost use Rattle.journal_hosts.specs.HostOrder.{AllComeInOrder, AllDataComesLast};
ghost use Rattle.radio_replay.specs.Script.{Script};
ghost use Rattle.run_model.specs.Journal.{journal_of};
ghost use Rattle.run_model.specs.Pair.{given_of};
ghost use Rattle.run_model.specs.Run.{Given, history_of, run_of};

/// In the journal of a run of a pair, whole or ended by damage, a host that receives a packet of
/// data while its flow control is on holds fewer packets by then than it has buffers: those that it
/// received on its open links and has not returned. And the packet has no more octets than a buffer
/// of the host takes, whether flow control is on or off (Core 5.2, volume 4 part E, sections 4.2 and
/// 7.3.38 to 7.3.40).
pub fn data_fits_the_buffers_of_its_host()
    ensures { (a b : List ℕ) (script : Script) → length script.a.public ≡ 6
        → length script.b.public ≡ 6
        → KeepsHostFlow (journal_of (history_of (run_of (given_of a b script)))) }
{
    journal_data::a_pdu_is_understood();
    advertise::laws::connections_are_taken();
    scan_init::laws::searches_give_each_valid_address();
    air_frame::laws::packet_tells_its_pdu();
}

/// In such a journal, each packet of data to a host is of the piece that its side took first, on
/// whichever link, of those that wait for that host: it has the handle of that link, the octets of
/// the piece, and the bits of a start or of a continuation. What a link had that is shut waits no
/// more (Core 5.2, volume 4 part E, sections 4.2 and 5.4.2; that the links share one order is our
/// choice).
pub fn data_of_all_links_comes_in_one_order()
    ensures { (a b : List ℕ) (script : Script) → length script.a.public ≡ 6
        → length script.b.public ≡ 6
        → AllComeInOrder (journal_of (history_of (run_of (given_of a b script)))) }
{
    journal_data::a_pdu_is_understood();
    advertise::laws::connections_are_taken();
    scan_init::laws::searches_give_each_valid_address();
    air_frame::laws::packet_tells_its_pdu();
}

/// In the journal of a run of two stations, with any number of links each, data goes up to a host as
/// a turn ends: after a packet of data there are, up to the next turn, only packets to hosts and
/// lines of links that are shut, and after one to the host of B only those of B (when it goes up is
/// our choice).
pub fn data_goes_up_as_its_turn_ends()
    ensures { (given : Given) → given.stations ≡ 0 ∷ 1 ∷ []
        → AllDataComesLast (journal_of (history_of (run_of given))) }
{}
