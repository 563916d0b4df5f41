//! What a peripheral takes of its central, in each run. The body only calls the laws that it rests
//! on: the contract is the law.
ghost use Rattle.std.specs.Prelude.{◌≡◌, ◌<◌, ◌++◌, ◌∷◌, [], ℕ, Bool, List, Some};
ghost use Rattle.std.specs.List.{Contains};
ghost use Rattle.arrayvec.specs.ArrayVec.{ArrayVec};
ghost use Rattle.ble_base.specs.declared.notes.Note.{Note};
ghost use Rattle.ble_base.specs.declared.notes.Note.TheVariants.{Took};
ghost use Rattle.instants.specs.Track.{event_of, gap_ahead};
ghost use Rattle.instants.specs.declared.indications.Indication.{Indication};
ghost use Rattle.two_tracks.specs.TwoEnds.{change_of};
ghost use Rattle.link_changes.specs.Noted.{indication_in};
ghost use Rattle.controller_model.specs.Step.{PacketHeard};
ghost use Rattle.run_pairs.specs.link_calls.link_model.End.{notes_after};
ghost use Rattle.run_pairs.specs.link_calls.link_model.Step.{PacketReceived};
ghost use Rattle.run_pairs.specs.link_calls.open_links.OpenLinks.{facts_in};
ghost use Rattle.run_pairs.specs.link_calls.run_laws.Ends.{AreEnds, IsOpen, OpenEnd, link_listened};
ghost use Rattle.run_pairs.specs.link_calls.run_model.Feeding.{AreDistinct};
ghost use Rattle.run_pairs.specs.link_calls.run_model.History.{Called, Event};
ghost use Rattle.run_pairs.specs.link_calls.run_model.LinkEnds.{HaveAddresses};
ghost use Rattle.run_pairs.specs.link_calls.run_model.Run.{Given, facts_at, history_of, run_of};
ghost use Rattle.link_runs.specs.joint_controls.Joint.{last_change};
ghost use Rattle.run_pairs.specs.InTurns.{HearEachInTurn, HearNoMixed};

/// A station is called with a packet and listens on its end of a link, a peripheral, which notes
/// that it takes an indication whose Instant has not passed by its own count. Where both ends hear
/// each other in turns, this indication is the last that the central sent, and its Instant is one
/// event at both ends. So it is with any number of stations and of links, and whatever is lost, as
/// long as no packet is mixed (Core 5.2, volume 6 part B, sections 5.1.1, 5.1.2 and 5.5.1).
pub fn a_peripheral_takes_what_the_central_sent_last()
    ensures { (given : Given) (before rest : List Event) (octets : List ℕ)
        (central peripheral : OpenEnd) (room : Bool) (first later : List Note)
        (handle number llid : ℕ) (body : ArrayVec ℕ) (indication : Indication)
        → AreDistinct given.stations → HaveAddresses given
        → Contains given.stations central.station → Contains given.stations peripheral.station
        → history_of (run_of given)
        ≡ before ++ Called peripheral.station (PacketHeard octets) ∷ rest
        → AreEnds before central peripheral
        → HearEachInTurn given (before ++ Called peripheral.station (PacketHeard octets) ∷ [])
        central peripheral
        → HearNoMixed given (before ++ Called peripheral.station (PacketHeard octets) ∷ [])
        central peripheral
        → IsOpen given before central → IsOpen given before peripheral
        → link_listened (facts_at given peripheral.station before).turn.doing
        ≡ Some peripheral.handle
        → notes_after peripheral.link.setup (facts_in peripheral.link)
        (PacketReceived (facts_at given peripheral.station before).turn.slot octets room)
        ≡ first ++ Took handle number llid body ∷ later
        → indication_in llid body.items ≡ Some indication
        → gap_ahead (event_of (facts_in peripheral.link).control.track) indication < 32767
        → last_change (facts_in central.link).control.sent
        ≡ Some (change_of (event_of (facts_in peripheral.link).control.track) indication) }
{
    air_frame::laws::packet_tells_its_pdu();
    link_runs::a_sealed_packet_is_opened();
    controller_model::a_pdu_is_understood();
    advertise::laws::connections_are_taken();
    run_pairs::what_hosts_ask_may_come();
}
