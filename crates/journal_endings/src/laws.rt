//! With which errors no link ends, in the journals of runs of two stations. The body only calls the
//! laws that it rests on: the contract is the law.
ghost use Rattle.std.specs.Prelude.{◌≡◌, ◌∷◌, [], ℕ, List, length};
ghost use Rattle.journal_endings.specs.Endings.{NoneEndsByProtocolError};
ghost use Rattle.journal_indications.specs.journal_data.Followed.{Follows, Mixed};
ghost use Rattle.journal_indications.specs.journal_data.run_model.Journal.{journal_of};
ghost use Rattle.journal_indications.specs.journal_data.run_model.LinkEnds.{HaveAddresses};
ghost use Rattle.journal_indications.specs.journal_data.run_model.Pair.{given_of};
ghost use Rattle.journal_indications.specs.journal_data.run_model.Run.{Given, history_of, run_of};
ghost use Rattle.radio_replay.specs.Script.{Script};

/// In the journal of a run of two stations, with any number of links each, whole or ended by
/// damage, no link ends with 0x07, 0x23 or 0x2A. An end gives these errors where its peer does not
/// follow the rules of control procedures; each of these stations does. So there is always room for
/// an answer, the procedures of the two ends collide only as the rules let them, and no indication
/// is taken while another one waits, whatever is lost and whatever the hosts do. Nor may a host end
/// a link with one of these errors (Core 5.2, volume 4 part E, section 7.1.6; volume 6 part B,
/// sections 5.1.6, 5.3 and 5.5.1). So it is up to the first packet of the link that is mixed.
pub fn no_link_ends_by_a_protocol_error()
    ensures two_stations { (given : Given) (mixed : Mixed) → given.stations ≡ 0 ∷ 1 ∷ []
        → HaveAddresses given → Follows given mixed
        → NoneEndsByProtocolError mixed (journal_of (history_of (run_of given))) }
    ensures pair { (a b : List ℕ) (script : Script) (mixed : Mixed)
        → length script.a.public ≡ 6 → length script.b.public ≡ 6
        → Follows (given_of a b script) mixed
        → NoneEndsByProtocolError mixed (journal_of (history_of (run_of (given_of a b script)))) }
{
    controller_model::a_pdu_is_understood();
    advertise::laws::connections_are_taken();
    scan_init::laws::searches_give_each_valid_address();
    air_frame::laws::packet_tells_its_pdu();
    journal_indications::no_procedure_ends_a_link_but_a_late_one();
    journal_indications::packets_of_a_link_are_read_as_sent();
}
