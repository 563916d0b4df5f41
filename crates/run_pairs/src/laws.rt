//! Laws of both open ends of a link in each run. The bodies only call the laws that they rest on:
//! the contracts are the laws.
ghost use Rattle.std.specs.Prelude.{◌≡◌, ◌⊎◌, ◌++◌, ◌∷◌, ℕ, Bool, true, List, Some};
ghost use Rattle.std.specs.List.{Contains};
ghost use Rattle.ble_base.specs.declared.verdicts.Verdict.TheVariants.{Forged, Good};
ghost use Rattle.link_calls.specs.link_model.Delivery.{IsDelivered};
ghost use Rattle.link_calls.specs.link_model.OneLink.{AreInAgreement};
ghost use Rattle.link_calls.specs.link_model.Packets.{verdict_of};
ghost use Rattle.link_calls.specs.open_links.OpenLinks.{facts_in};
ghost use Rattle.link_calls.specs.controller_model.Step.{PacketHeard};
ghost use Rattle.link_calls.specs.run_model.Feeding.{AreDistinct};
ghost use Rattle.link_calls.specs.run_model.History.{Called, Event, TurnBegan, turns_begun};
ghost use Rattle.link_calls.specs.run_model.LinkEnds.{HaveAddresses};
ghost use Rattle.link_calls.specs.run_model.Run.{Given, GoesOn, facts_at, history_of, run_of};
ghost use Rattle.link_runs.specs.link_pairs.Ends.{is_lasting};
ghost use Rattle.link_runs.specs.link_pairs.Sound.{AreSoundEnds};
ghost use Rattle.link_runs.specs.Open.{AreOpenEnds, AreTerminated, GoOnUnlessLate};
ghost use Rattle.link_calls.specs.run_laws.Ends.{AreEnds, IsOpen, OpenEnd, link_listened};
ghost use Rattle.link_calls.specs.run_laws.Shapes.{ReadEachOtherAsSent};
ghost use Rattle.run_pairs.specs.InTurns.{HasSentNow, HearEachInTurn, HearNoMixed};

/// Before each turn of a run, and at its end, both open ends of a link that hear each other in
/// turns are linked, and the link lasts at both; or the central has taken LL_TERMINATE_IND, and is
/// shut once it has sent. So it is with any number of stations and of links, whatever procedures
/// the link carries, whichever station has the radio, and whatever is lost, as long as no packet is
/// mixed: sealed, new and good, though the session keys of both ends differ (Core 5.2, volume 6
/// part B, sections 4.5, 5.1.3.1 and 5.1.6, and part E, section 2).
pub fn open_ends_are_linked()
    ensures before_a_turn { (given : Given) (before rest : List Event) (slot : ℕ)
        (radios : List Bool) (central peripheral : OpenEnd)
        → AreDistinct given.stations → HaveAddresses given
        → Contains given.stations central.station → Contains given.stations peripheral.station
        → history_of (run_of given) ≡ before ++ TurnBegan slot radios ∷ rest
        → AreEnds before central peripheral → HearEachInTurn given before central peripheral
        → HearNoMixed given before central peripheral
        → IsOpen given before central → IsOpen given before peripheral
        → AreOpenEnds central.link.setup peripheral.link.setup slot (facts_in central.link)
        (facts_in peripheral.link) }
    ensures at_the_end { (given : Given) (history : List Event) (central peripheral : OpenEnd)
        → AreDistinct given.stations → HaveAddresses given
        → Contains given.stations central.station → Contains given.stations peripheral.station
        → run_of given ≡ GoesOn history
        → AreEnds history central peripheral → HearEachInTurn given history central peripheral
        → HearNoMixed given history central peripheral
        → IsOpen given history central → IsOpen given history peripheral
        → AreOpenEnds central.link.setup peripheral.link.setup (turns_begun history)
        (facts_in central.link) (facts_in peripheral.link) }
{
    air_frame::laws::packet_tells_its_pdu();
    link_runs::a_sealed_packet_is_opened();
    link_calls::a_pdu_is_understood();
    advertise::laws::connections_are_taken();
    known_ends::what_hosts_ask_may_come();
}

/// A link lasts at an end where no procedure of the end has ended it, and the end has taken no
/// LL_TERMINATE_IND. Where it lasts at both ends then, they are a joint run that goes on: in events
/// of one number in which the same number of indications hold they have equal parameters and one
/// anchor, and at most ten control PDUs wait at each. At any place of a run their counts agree,
/// also where one of them ends the link in this turn, and what each end took of data is what the
/// host of the other one gave. That is so as long as no packet is mixed (Core 5.2, volume 6 part B,
/// sections 4.5.9, 4.5.10 and 5.5).
pub fn ends_that_last_are_sound()
    ensures before_a_turn { (given : Given) (before rest : List Event) (slot : ℕ)
        (radios : List Bool) (central peripheral : OpenEnd)
        → AreDistinct given.stations → HaveAddresses given
        → Contains given.stations central.station → Contains given.stations peripheral.station
        → history_of (run_of given) ≡ before ++ TurnBegan slot radios ∷ rest
        → AreEnds before central peripheral → HearEachInTurn given before central peripheral
        → HearNoMixed given before central peripheral
        → IsOpen given before central → IsOpen given before peripheral
        → is_lasting (facts_in central.link) ≡ true → is_lasting (facts_in peripheral.link) ≡ true
        → AreSoundEnds central.link.setup peripheral.link.setup (facts_in central.link)
        (facts_in peripheral.link) }
    ensures at_the_end { (given : Given) (history : List Event) (central peripheral : OpenEnd)
        → AreDistinct given.stations → HaveAddresses given
        → Contains given.stations central.station → Contains given.stations peripheral.station
        → run_of given ≡ GoesOn history
        → AreEnds history central peripheral → HearEachInTurn given history central peripheral
        → HearNoMixed given history central peripheral
        → IsOpen given history central → IsOpen given history peripheral
        → is_lasting (facts_in central.link) ≡ true → is_lasting (facts_in peripheral.link) ≡ true
        → AreSoundEnds central.link.setup peripheral.link.setup (facts_in central.link)
        (facts_in peripheral.link) }
    ensures agreement { (given : Given) (before rest : List Event) (central peripheral : OpenEnd)
        → AreDistinct given.stations → HaveAddresses given
        → Contains given.stations central.station → Contains given.stations peripheral.station
        → history_of (run_of given) ≡ before ++ rest
        → AreEnds before central peripheral → HearEachInTurn given before central peripheral
        → HearNoMixed given before central peripheral
        → IsOpen given before central → IsOpen given before peripheral
        → AreInAgreement (facts_in central.link).acknowledgement
        (facts_in peripheral.link).acknowledgement }
    ensures delivery { (given : Given) (before rest : List Event) (central peripheral : OpenEnd)
        → AreDistinct given.stations → HaveAddresses given
        → Contains given.stations central.station → Contains given.stations peripheral.station
        → history_of (run_of given) ≡ before ++ rest
        → AreEnds before central peripheral → HearEachInTurn given before central peripheral
        → HearNoMixed given before central peripheral
        → IsOpen given before central → IsOpen given before peripheral
        → IsDelivered (facts_in central.link) (facts_in peripheral.link)
        × IsDelivered (facts_in peripheral.link) (facts_in central.link) }
{
    air_frame::laws::packet_tells_its_pdu();
    link_runs::a_sealed_packet_is_opened();
    link_calls::a_pdu_is_understood();
    advertise::laws::connections_are_taken();
    known_ends::what_hosts_ask_may_come();
}

/// At any place of a run no procedure of the central has ended the link, and one of the peripheral
/// only with 0x28, where the Instant of the last indication that the central sent has passed there;
/// and each with 0x3D, where it heard a forged packet. So an end that is shut at the end of a turn
/// is shut with 0x16, since its LL_TERMINATE_IND was acknowledged, or with the code of its peer, or
/// with 0x3D, or it is a peripheral and shut with 0x28. That is so as long as no packet is mixed
/// (Core 5.2, volume 6 part B, sections 5.1.3.1, 5.1.6, 5.3 and 5.5.1).
pub fn no_procedure_ends_a_link_but_a_late_one()
    ensures procedures { (given : Given) (before rest : List Event) (central peripheral : OpenEnd)
        → AreDistinct given.stations → HaveAddresses given
        → Contains given.stations central.station → Contains given.stations peripheral.station
        → history_of (run_of given) ≡ before ++ rest
        → AreEnds before central peripheral → HearEachInTurn given before central peripheral
        → HearNoMixed given before central peripheral
        → IsOpen given before central → IsOpen given before peripheral
        → GoOnUnlessLate (record {
          central = Some (facts_in central.link);
          peripheral = Some (facts_in peripheral.link);
        }) }
    ensures codes { (given : Given) (before rest : List Event) (central peripheral : OpenEnd)
        → AreDistinct given.stations → HaveAddresses given
        → Contains given.stations central.station → Contains given.stations peripheral.station
        → history_of (run_of given) ≡ before ++ rest
        → AreEnds before central peripheral → HearEachInTurn given before central peripheral
        → HearNoMixed given before central peripheral
        → IsOpen given before central → IsOpen given before peripheral
        → AreTerminated (record {
          central = Some (facts_in central.link);
          peripheral = Some (facts_in peripheral.link);
        }) }
{
    air_frame::laws::packet_tells_its_pdu();
    link_runs::a_sealed_packet_is_opened();
    link_calls::a_pdu_is_understood();
    advertise::laws::connections_are_taken();
    known_ends::what_hosts_ask_may_come();
}

/// As long as no packet is mixed, both ends of a link read each packet of the other as it was sent:
/// a new PDU has the body with which it was sent, in all phases of encryption (Core 5.2, volume 6
/// part B, sections 4.5.9 and 5.1.3).
pub fn packets_of_a_link_are_read_as_sent()
    ensures { (given : Given) (before rest : List Event) (central peripheral : OpenEnd)
        → AreDistinct given.stations → HaveAddresses given
        → Contains given.stations central.station → Contains given.stations peripheral.station
        → history_of (run_of given) ≡ before ++ rest
        → AreEnds before central peripheral → HearEachInTurn given before central peripheral
        → HearNoMixed given before central peripheral
        → IsOpen given before central → IsOpen given before peripheral
        → ReadEachOtherAsSent given before central peripheral }
{
    air_frame::laws::packet_tells_its_pdu();
    link_runs::a_sealed_packet_is_opened();
    link_calls::a_pdu_is_understood();
    advertise::laws::connections_are_taken();
    known_ends::what_hosts_ask_may_come();
}

/// Where a station is called with a packet, listens on the link of one of the ends, and the far end
/// has sent this packet on the channel of its event in the same turn, the packet is good or forged,
/// as long as no packet was mixed before (Core 5.2, volume 6 part B, sections 2.1, 4.5.10 and
/// 5.1.3.1).
pub fn packets_of_a_link_are_understood()
    ensures peripheral { (given : Given) (before rest : List Event) (octets : List ℕ)
        (central peripheral : OpenEnd) → AreDistinct given.stations → HaveAddresses given
        → Contains given.stations central.station → Contains given.stations peripheral.station
        → history_of (run_of given)
        ≡ before ++ Called peripheral.station (PacketHeard octets) ∷ rest
        → AreEnds before central peripheral → HearEachInTurn given before central peripheral
        → HearNoMixed given before central peripheral
        → IsOpen given before central → IsOpen given before peripheral
        → link_listened (facts_at given peripheral.station before).turn.doing
        ≡ Some peripheral.handle
        → HasSentNow given before peripheral central (facts_in peripheral.link).event.channel octets
        → (verdict_of peripheral.link.setup (facts_in peripheral.link) octets ≡ Good)
        ⊎ (verdict_of peripheral.link.setup (facts_in peripheral.link) octets ≡ Forged) }
    ensures central { (given : Given) (before rest : List Event) (octets : List ℕ)
        (central peripheral : OpenEnd) → AreDistinct given.stations → HaveAddresses given
        → Contains given.stations central.station → Contains given.stations peripheral.station
        → history_of (run_of given) ≡ before ++ Called central.station (PacketHeard octets) ∷ rest
        → AreEnds before central peripheral → HearEachInTurn given before central peripheral
        → HearNoMixed given before central peripheral
        → IsOpen given before central → IsOpen given before peripheral
        → link_listened (facts_at given central.station before).turn.doing ≡ Some central.handle
        → HasSentNow given before central peripheral (facts_in central.link).event.channel octets
        → (verdict_of central.link.setup (facts_in central.link) octets ≡ Good)
        ⊎ (verdict_of central.link.setup (facts_in central.link) octets ≡ Forged) }
{
    air_frame::laws::packet_tells_its_pdu();
    link_runs::a_sealed_packet_is_opened();
    link_calls::a_pdu_is_understood();
    advertise::laws::connections_are_taken();
    known_ends::what_hosts_ask_may_come();
}
