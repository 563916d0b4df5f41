//! Which packets of a run are forged. The body only calls the laws that it rests on: the contract is
//! the law.
ghost use Rattle.std.specs.Prelude.{◌≡◌, ◌++◌, ◌∷◌, ℕ, Bool, true, List, Some};
ghost use Rattle.std.specs.List.{Contains};
ghost use Rattle.ble_base.specs.declared.verdicts.Verdict.TheVariants.{Forged};
ghost use Rattle.run_pairs.specs.link_calls.link_model.Packets.{verdict_of};
ghost use Rattle.run_pairs.specs.link_calls.open_links.OpenLinks.{facts_in};
ghost use Rattle.run_pairs.specs.link_calls.run_laws.Ends.{AreEnds, IsOpen, OpenEnd, link_listened};
ghost use Rattle.run_pairs.specs.link_calls.run_model.Feeding.{AreDistinct};
ghost use Rattle.run_pairs.specs.link_calls.run_model.History.{Event, Hearing, Transmitted};
ghost use Rattle.run_pairs.specs.link_calls.run_model.LinkEnds.{HaveAddresses};
ghost use Rattle.run_pairs.specs.link_calls.run_model.Run.{Given, facts_at, history_of, run_of};
ghost use Rattle.link_pairs.specs.Hearing.{has_other_keys};
ghost use Rattle.run_pairs.specs.InTurns.{HasSentNow, HearEachInTurn, HearNoMixed};

/// A packet of the far end is on the air in the turn in which it was sent, and the end listens on
/// the link. If the end judges it forged, the session keys of both ends differ, as long as no packet
/// was mixed before. So with one session key the integrity code of a packet that reaches the other
/// end unchanged is right (Core 5.2, volume 6 part B, section 5.1.3.1, and part E, section 2).
pub fn a_packet_is_forged_only_with_other_keys()
    ensures peripheral { (given : Given) (before rest : List Event) (channel : ℕ) (octets : List ℕ)
        (hearings : List Hearing) (central peripheral : OpenEnd)
        → AreDistinct given.stations → HaveAddresses given
        → Contains given.stations central.station → Contains given.stations peripheral.station
        → history_of (run_of given)
        ≡ before ++ Transmitted central.station channel octets hearings ∷ rest
        → AreEnds before central peripheral → HearEachInTurn given before central peripheral
        → HearNoMixed given before central peripheral
        → IsOpen given before central → IsOpen given before peripheral
        → link_listened (facts_at given peripheral.station before).turn.doing
        ≡ Some peripheral.handle
        → HasSentNow given before peripheral central (facts_in peripheral.link).event.channel
        octets
        → verdict_of peripheral.link.setup (facts_in peripheral.link) octets ≡ Forged
        → has_other_keys (facts_in central.link) (facts_in peripheral.link) ≡ true }
    ensures central { (given : Given) (before rest : List Event) (channel : ℕ) (octets : List ℕ)
        (hearings : List Hearing) (central peripheral : OpenEnd)
        → AreDistinct given.stations → HaveAddresses given
        → Contains given.stations central.station → Contains given.stations peripheral.station
        → history_of (run_of given)
        ≡ before ++ Transmitted peripheral.station channel octets hearings ∷ rest
        → AreEnds before central peripheral → HearEachInTurn given before central peripheral
        → HearNoMixed given before central peripheral
        → IsOpen given before central → IsOpen given before peripheral
        → link_listened (facts_at given central.station before).turn.doing
        ≡ Some central.handle
        → HasSentNow given before central peripheral (facts_in central.link).event.channel
        octets
        → verdict_of central.link.setup (facts_in central.link) octets ≡ Forged
        → has_other_keys (facts_in peripheral.link) (facts_in central.link) ≡ true }
{
    air_frame::laws::packet_tells_its_pdu();
    link_runs::a_sealed_packet_is_opened();
    controller_model::a_pdu_is_understood();
    advertise::laws::connections_are_taken();
    run_pairs::what_hosts_ask_may_come();
}
