//! The same law for runs of two stations, where the two ends of each link hear each other. The body
//! only calls the laws that it rests on: the contract is the law.
ghost use Rattle.std.specs.Prelude.{◌≡◌, ◌<◌, ◌++◌, ◌∷◌, [], ℕ, Bool, List, Some, length};
ghost use Rattle.std.specs.List.{Contains};
ghost use Rattle.arrayvec.specs.ArrayVec.{ArrayVec};
ghost use Rattle.ble_base.specs.declared.notes.Note.{Note};
ghost use Rattle.ble_base.specs.declared.notes.Note.TheVariants.{Took};
ghost use Rattle.instants.specs.Track.{event_of, gap_ahead};
ghost use Rattle.instants.specs.declared.indications.Indication.{Indication};
ghost use Rattle.two_tracks.specs.TwoEnds.{change_of};
ghost use Rattle.link_changes.specs.Noted.{indication_in};
ghost use Rattle.controller_model.specs.Step.{PacketHeard};
ghost use Rattle.radio_replay.specs.Script.{Script};
ghost use Rattle.run_pairs.specs.link_calls.link_model.End.{notes_after};
ghost use Rattle.run_pairs.specs.link_calls.link_model.Step.{PacketReceived};
ghost use Rattle.run_pairs.specs.link_calls.open_links.OpenLinks.{facts_in};
ghost use Rattle.run_pairs.specs.link_calls.run_laws.Ends.{AreEnds, IsOpen, OpenEnd, link_listened};
ghost use Rattle.run_pairs.specs.link_calls.run_model.Feeding.{AreDistinct};
ghost use Rattle.run_pairs.specs.link_calls.run_model.History.{Called, Event};
ghost use Rattle.run_pairs.specs.link_calls.run_model.LinkEnds.{HaveAddresses};
ghost use Rattle.run_pairs.specs.link_calls.run_model.Pair.{given_of};
ghost use Rattle.run_pairs.specs.link_calls.run_model.Run.{Given, facts_at, history_of, run_of};
ghost use Rattle.run_pairs.specs.InTurns.{HearNoMixed};
ghost use Rattle.link_runs.specs.joint_controls.Joint.{last_change};

/// In a run of two stations, each with any number of links: where a peripheral is called with a
/// packet while it listens on its link, and notes that it takes an indication whose Instant has not
/// passed by its own count, this indication is the last that the central sent, and its Instant is
/// one event at both ends. That is so as long as no packet is mixed (Core 5.2, volume 6 part B,
/// sections 5.1.1, 5.1.2 and 5.5.1).
pub fn a_peripheral_of_two_takes_what_the_central_sent_last()
    ensures two { (given : Given) (one other : ℕ) (before rest : List Event) (octets : List ℕ)
        (central peripheral : OpenEnd) (room : Bool) (first later : List Note)
        (handle number llid : ℕ) (body : ArrayVec ℕ) (indication : Indication)
        → given.stations ≡ one ∷ other ∷ []
        → AreDistinct given.stations → HaveAddresses given
        → Contains given.stations central.station → Contains given.stations peripheral.station
        → history_of (run_of given)
        ≡ before ++ Called peripheral.station (PacketHeard octets) ∷ rest
        → AreEnds before central peripheral
        → HearNoMixed given (before ++ Called peripheral.station (PacketHeard octets) ∷ [])
        central peripheral
        → IsOpen given before central → IsOpen given before peripheral
        → link_listened (facts_at given peripheral.station before).turn.doing
        ≡ Some peripheral.handle
        → notes_after peripheral.link.setup (facts_in peripheral.link)
        (PacketReceived (facts_at given peripheral.station before).turn.slot octets room)
        ≡ first ++ Took handle number llid body ∷ later
        → indication_in llid body.items ≡ Some indication
        → gap_ahead (event_of (facts_in peripheral.link).control.track) indication < 32767
        → last_change (facts_in central.link).control.sent
        ≡ Some (change_of (event_of (facts_in peripheral.link).control.track) indication) }
    ensures pair { (a b : List ℕ) (script : Script) (before rest : List Event)
        (octets : List ℕ) (central peripheral : OpenEnd) (room : Bool) (first later : List Note)
        (handle number llid : ℕ) (body : ArrayVec ℕ) (indication : Indication)
        → length script.a.public ≡ 6 → length script.b.public ≡ 6
        → Contains (given_of a b script).stations central.station
        → Contains (given_of a b script).stations peripheral.station
        → history_of (run_of (given_of a b script))
        ≡ before ++ Called peripheral.station (PacketHeard octets) ∷ rest
        → AreEnds before central peripheral
        → HearNoMixed (given_of a b script)
        (before ++ Called peripheral.station (PacketHeard octets) ∷ []) central peripheral
        → IsOpen (given_of a b script) before central
        → IsOpen (given_of a b script) before peripheral
        → link_listened (facts_at (given_of a b script) peripheral.station before).turn.doing
        ≡ Some peripheral.handle
        → notes_after peripheral.link.setup (facts_in peripheral.link)
        (PacketReceived (facts_at (given_of a b script) peripheral.station before).turn.slot octets
        room) ≡ first ++ Took handle number llid body ∷ later
        → indication_in llid body.items ≡ Some indication
        → gap_ahead (event_of (facts_in peripheral.link).control.track) indication < 32767
        → last_change (facts_in central.link).control.sent
        ≡ Some (change_of (event_of (facts_in peripheral.link).control.track) indication) }
{
    controller_model::a_pdu_is_understood();
    advertise::laws::connections_are_taken();
    scan_init::laws::searches_give_each_valid_address();
    crate::laws::a_peripheral_takes_what_the_central_sent_last();
}
