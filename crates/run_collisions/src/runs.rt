//! Two procedures that collide on a link of a run. The bodies only call the laws that they rest on:
//! the contracts are the laws.
ghost use Rattle.std.specs.Prelude.{◌≡◌, ◌++◌, ◌∷◌, [], ℕ, Bool, true, false, List, Some, length};
ghost use Rattle.std.specs.List.{Contains};
ghost use Rattle.ble_base.specs.declared.error_codes.ErrCode.{ErrCode};
ghost use Rattle.exclusive_stages.specs.declared.pdus.Exclusive.{Exclusive};
ghost use Rattle.link_pairs.specs.Ends.{is_lasting};
ghost use Rattle.link_pairs.specs.Hearing.{received};
ghost use Rattle.link_pairs.specs.link_model.Controls.{is_procedure_pdu};
ghost use Rattle.run_pairs.specs.link_calls.open_links.OpenLinks.{OpenLink, facts_in};
ghost use Rattle.controller_model.specs.Heard.{has_room};
ghost use Rattle.controller_model.specs.Step.{PacketHeard};
ghost use Rattle.radio_replay.specs.Script.{Script};
ghost use Rattle.run_pairs.specs.link_calls.run_model.Feeding.{AreDistinct};
ghost use Rattle.run_pairs.specs.link_calls.run_model.History.{Called, Event};
ghost use Rattle.run_pairs.specs.link_calls.run_model.LinkEnds.{HaveAddresses};
ghost use Rattle.run_pairs.specs.link_calls.run_model.Pair.{given_of};
ghost use Rattle.run_pairs.specs.link_calls.run_model.Run.{Given, facts_at, history_of, run_of, setup_at};
ghost use Rattle.run_pairs.specs.link_calls.run_laws.Ends.{AreEnds, IsOpen, OpenEnd, link_listened};
ghost use Rattle.run_pairs.specs.InTurns.{HasSentNow, HearEachInTurn, HearNoMixed};
ghost use Rattle.run_collisions.specs.Prevailing.{Prevails, TakesColliding, seen};
ghost use Rattle.run_collisions.specs.Refused.{IsRefused, TakesRejection, is_refusing};
ghost use Rattle.run_collisions.specs.Taking.{TakesControl};

/// In each run of any number of stations, a central that is called with a packet of the far end of
/// its link, and takes from it the first PDU of a procedure of the peripheral while its own
/// procedure is in progress, prevails: its own procedure goes on as it was, nothing of the
/// peripheral's is left there, and the next control PDU that it sends is the rejection, with 0x23
/// where the two are of one kind and 0x2A where they are not. A central that is to end the link
/// sends LL_TERMINATE_IND next, or nothing. So it is once it has taken the PDU, and after the call,
/// while the link is open (Core 5.2, volume 6 part B, sections 5.1.6 and 5.3).
pub fn the_central_prevails_in_each_run()
    ensures taken { (given : Given) (before rest : List Event) (octets : List ℕ) (room : Bool)
        (central peripheral : OpenEnd) (own other : Exclusive)
        → AreDistinct given.stations → HaveAddresses given
        → Contains given.stations central.station → Contains given.stations peripheral.station
        → history_of (run_of given) ≡ before ++ Called central.station (PacketHeard octets) ∷ rest
        → AreEnds before central peripheral → HearEachInTurn given before central peripheral
        → HearNoMixed given (before ++ Called central.station (PacketHeard octets) ∷ [])
        central peripheral
        → IsOpen given before central → IsOpen given before peripheral
        → link_listened (facts_at given central.station before).turn.doing ≡ Some central.handle
        → HasSentNow given before central peripheral (facts_in central.link).event.channel octets
        → let setup = central.link.setup in
        let slot = (facts_at given central.station before).turn.slot in
        TakesColliding setup (facts_in central.link) slot octets room own other
        → Prevails (seen setup slot octets (facts_in central.link))
        (received setup slot octets room (facts_in central.link)) own other }
    ensures held { (given : Given) (before rest : List Event) (octets : List ℕ) (link : OpenLink)
        (central peripheral : OpenEnd) (own other : Exclusive)
        → AreDistinct given.stations → HaveAddresses given
        → Contains given.stations central.station → Contains given.stations peripheral.station
        → history_of (run_of given) ≡ before ++ Called central.station (PacketHeard octets) ∷ rest
        → AreEnds before central peripheral → HearEachInTurn given before central peripheral
        → HearNoMixed given (before ++ Called central.station (PacketHeard octets) ∷ [])
        central peripheral
        → IsOpen given before central → IsOpen given before peripheral
        → link_listened (facts_at given central.station before).turn.doing ≡ Some central.handle
        → HasSentNow given before central peripheral (facts_in central.link).event.channel octets
        → IsOpen given (before ++ Called central.station (PacketHeard octets) ∷ [])
        (record central { link = link }) → link.setup ≡ central.link.setup
        → let setup = central.link.setup in
        let facts = facts_at given central.station before in
        TakesColliding setup (facts_in central.link) facts.turn.slot octets
        (has_room (setup_at given central.station) facts) own other
        → Prevails (seen setup facts.turn.slot octets (facts_in central.link)) (facts_in link) own
        other }
{
    air_frame::laws::packet_tells_its_pdu();
    link_runs::a_sealed_packet_is_opened();
    controller_model::a_pdu_is_understood();
    advertise::laws::connections_are_taken();
    run_pairs::what_hosts_ask_may_come();
}

/// In a run of two stations, with any number of links each, the same holds of each packet that a
/// central is called with while it listens on the link, whatever each host does, and whatever the
/// radio loses or changes (Core 5.2, volume 6 part B, sections 5.1.6 and 5.3).
pub fn the_central_prevails_in_a_run_of_a_pair()
    ensures taken { (a b : List ℕ) (script : Script) (before rest : List Event) (octets : List ℕ)
        (room : Bool) (central peripheral : OpenEnd) (own other : Exclusive)
        → length script.a.public ≡ 6 → length script.b.public ≡ 6
        → Contains (given_of a b script).stations central.station
        → Contains (given_of a b script).stations peripheral.station
        → history_of (run_of (given_of a b script))
        ≡ before ++ Called central.station (PacketHeard octets) ∷ rest
        → AreEnds before central peripheral
        → HearNoMixed (given_of a b script)
        (before ++ Called central.station (PacketHeard octets) ∷ []) central peripheral
        → IsOpen (given_of a b script) before central
        → IsOpen (given_of a b script) before peripheral
        → let facts = facts_at (given_of a b script) central.station before in
        link_listened facts.turn.doing ≡ Some central.handle
        → TakesColliding central.link.setup (facts_in central.link) facts.turn.slot octets room own
        other
        → Prevails (seen central.link.setup facts.turn.slot octets (facts_in central.link))
        (received central.link.setup facts.turn.slot octets room (facts_in central.link)) own
        other }
    ensures held { (a b : List ℕ) (script : Script) (before rest : List Event) (octets : List ℕ)
        (link : OpenLink) (central peripheral : OpenEnd) (own other : Exclusive)
        → length script.a.public ≡ 6 → length script.b.public ≡ 6
        → Contains (given_of a b script).stations central.station
        → Contains (given_of a b script).stations peripheral.station
        → history_of (run_of (given_of a b script))
        ≡ before ++ Called central.station (PacketHeard octets) ∷ rest
        → AreEnds before central peripheral
        → HearNoMixed (given_of a b script)
        (before ++ Called central.station (PacketHeard octets) ∷ []) central peripheral
        → IsOpen (given_of a b script) before central
        → IsOpen (given_of a b script) before peripheral
        → let facts = facts_at (given_of a b script) central.station before in
        link_listened facts.turn.doing ≡ Some central.handle
        → IsOpen (given_of a b script)
        (before ++ Called central.station (PacketHeard octets) ∷ [])
        (record central { link = link }) → link.setup ≡ central.link.setup
        → TakesColliding central.link.setup (facts_in central.link) facts.turn.slot octets
        (has_room (setup_at (given_of a b script) central.station) facts) own other
        → Prevails (seen central.link.setup facts.turn.slot octets (facts_in central.link))
        (facts_in link) own other }
{
    the_central_prevails_in_each_run();
    controller_model::a_pdu_is_understood();
    advertise::laws::connections_are_taken();
    scan_init::laws::searches_give_each_valid_address();
}

/// In each run of any number of stations, a peripheral that is called with a packet of the far end
/// of its link, and takes from it LL_REJECT_EXT_IND with the opcode of the first PDU of a
/// procedure, has that procedure in progress. It notes right after that the procedure is refused
/// with the error of the rejection, and notes nothing else of that packet. So the procedure is
/// over, and is not reported as done (Core 5.2, volume 6 part B, sections 2.4.2.18 and 5.3).
pub fn rejected_procedures_are_refused_in_each_run()
    ensures { (given : Given) (before rest : List Event) (octets : List ℕ) (room : Bool)
        (central peripheral : OpenEnd) (q : Exclusive) (code : ErrCode)
        → AreDistinct given.stations → HaveAddresses given
        → Contains given.stations central.station → Contains given.stations peripheral.station
        → history_of (run_of given)
        ≡ before ++ Called peripheral.station (PacketHeard octets) ∷ rest
        → AreEnds before central peripheral → HearEachInTurn given before central peripheral
        → HearNoMixed given (before ++ Called peripheral.station (PacketHeard octets) ∷ [])
        central peripheral
        → IsOpen given before central → IsOpen given before peripheral
        → link_listened (facts_at given peripheral.station before).turn.doing
        ≡ Some peripheral.handle
        → HasSentNow given before peripheral central (facts_in peripheral.link).event.channel octets
        → let setup = peripheral.link.setup in
        let slot = (facts_at given peripheral.station before).turn.slot in
        (taking : TakesRejection setup (facts_in peripheral.link) slot octets room q code)
        → IsRefused setup (seen setup slot octets (facts_in peripheral.link))
        (received setup slot octets room (facts_in peripheral.link)) taking.later q code }
{
    air_frame::laws::packet_tells_its_pdu();
    link_runs::a_sealed_packet_is_opened();
    controller_model::a_pdu_is_understood();
    advertise::laws::connections_are_taken();
    run_pairs::what_hosts_ask_may_come();
}

/// In a run of two stations, with any number of links each, the same holds of each packet that a
/// peripheral is called with while it listens on the link (Core 5.2, volume 6 part B, sections
/// 2.4.2.18 and 5.3).
pub fn rejected_procedures_are_refused_in_a_run_of_a_pair()
    ensures { (a b : List ℕ) (script : Script) (before rest : List Event) (octets : List ℕ)
        (room : Bool) (central peripheral : OpenEnd) (q : Exclusive) (code : ErrCode)
        → length script.a.public ≡ 6 → length script.b.public ≡ 6
        → Contains (given_of a b script).stations central.station
        → Contains (given_of a b script).stations peripheral.station
        → history_of (run_of (given_of a b script))
        ≡ before ++ Called peripheral.station (PacketHeard octets) ∷ rest
        → AreEnds before central peripheral
        → HearNoMixed (given_of a b script)
        (before ++ Called peripheral.station (PacketHeard octets) ∷ []) central peripheral
        → IsOpen (given_of a b script) before central
        → IsOpen (given_of a b script) before peripheral
        → let facts = facts_at (given_of a b script) peripheral.station before in
        link_listened facts.turn.doing ≡ Some peripheral.handle
        → let setup = peripheral.link.setup in
        (taking : TakesRejection setup (facts_in peripheral.link) facts.turn.slot octets room q
        code)
        → IsRefused setup (seen setup facts.turn.slot octets (facts_in peripheral.link))
        (received setup facts.turn.slot octets room (facts_in peripheral.link)) taking.later q
        code }
{
    rejected_procedures_are_refused_in_each_run();
    controller_model::a_pdu_is_understood();
    advertise::laws::connections_are_taken();
    scan_init::laws::searches_give_each_valid_address();
}

/// In each run of any number of stations, where an end is called with a packet of the far end and
/// takes a control PDU from it, the far end has taken the last control PDU of this end before: two
/// control PDUs of a link never cross on the air. What a central takes is no refusal of a procedure
/// of its own that excludes others. Where a peripheral takes one, no procedure has ended the link
/// at that end, and it has taken no LL_TERMINATE_IND (Core 5.2, volume 6 part B, sections 2.4.2,
/// 4.5.9 and 5.1.6).
pub fn control_pdus_do_not_cross_in_each_run()
    ensures central { (given : Given) (before rest : List Event) (octets : List ℕ) (room : Bool)
        (central peripheral : OpenEnd)
        → AreDistinct given.stations → HaveAddresses given
        → Contains given.stations central.station → Contains given.stations peripheral.station
        → history_of (run_of given) ≡ before ++ Called central.station (PacketHeard octets) ∷ rest
        → AreEnds before central peripheral → HearEachInTurn given before central peripheral
        → HearNoMixed given (before ++ Called central.station (PacketHeard octets) ∷ [])
        central peripheral
        → IsOpen given before central → IsOpen given before peripheral
        → link_listened (facts_at given central.station before).turn.doing ≡ Some central.handle
        → HasSentNow given before central peripheral (facts_in central.link).event.channel octets
        → let slot = (facts_at given central.station before).turn.slot in
        TakesControl central.link.setup (facts_in central.link) slot octets room
        → is_procedure_pdu (facts_in central.link).acknowledgement.last ≡ true
        → length (facts_in peripheral.link).acknowledgement.accepted
        ≡ length (facts_in central.link).acknowledgement.sent }
    ensures peripheral { (given : Given) (before rest : List Event) (octets : List ℕ)
        (room : Bool) (central peripheral : OpenEnd)
        → AreDistinct given.stations → HaveAddresses given
        → Contains given.stations central.station → Contains given.stations peripheral.station
        → history_of (run_of given)
        ≡ before ++ Called peripheral.station (PacketHeard octets) ∷ rest
        → AreEnds before central peripheral → HearEachInTurn given before central peripheral
        → HearNoMixed given (before ++ Called peripheral.station (PacketHeard octets) ∷ [])
        central peripheral
        → IsOpen given before central → IsOpen given before peripheral
        → link_listened (facts_at given peripheral.station before).turn.doing
        ≡ Some peripheral.handle
        → HasSentNow given before peripheral central (facts_in peripheral.link).event.channel octets
        → let slot = (facts_at given peripheral.station before).turn.slot in
        TakesControl peripheral.link.setup (facts_in peripheral.link) slot octets room
        → is_procedure_pdu (facts_in peripheral.link).acknowledgement.last ≡ true
        → length (facts_in central.link).acknowledgement.accepted
        ≡ length (facts_in peripheral.link).acknowledgement.sent }
    ensures refused { (given : Given) (before rest : List Event) (octets : List ℕ) (room : Bool)
        (central peripheral : OpenEnd)
        → AreDistinct given.stations → HaveAddresses given
        → Contains given.stations central.station → Contains given.stations peripheral.station
        → history_of (run_of given) ≡ before ++ Called central.station (PacketHeard octets) ∷ rest
        → AreEnds before central peripheral → HearEachInTurn given before central peripheral
        → HearNoMixed given (before ++ Called central.station (PacketHeard octets) ∷ [])
        central peripheral
        → IsOpen given before central → IsOpen given before peripheral
        → link_listened (facts_at given central.station before).turn.doing ≡ Some central.handle
        → HasSentNow given before central peripheral (facts_in central.link).event.channel octets
        → let slot = (facts_at given central.station before).turn.slot in
        (taking : TakesControl central.link.setup (facts_in central.link) slot octets room)
        → is_refusing taking.ctrl ≡ false }
    ensures lasts { (given : Given) (before rest : List Event) (octets : List ℕ) (room : Bool)
        (central peripheral : OpenEnd)
        → AreDistinct given.stations → HaveAddresses given
        → Contains given.stations central.station → Contains given.stations peripheral.station
        → history_of (run_of given)
        ≡ before ++ Called peripheral.station (PacketHeard octets) ∷ rest
        → AreEnds before central peripheral → HearEachInTurn given before central peripheral
        → HearNoMixed given (before ++ Called peripheral.station (PacketHeard octets) ∷ [])
        central peripheral
        → IsOpen given before central → IsOpen given before peripheral
        → link_listened (facts_at given peripheral.station before).turn.doing
        ≡ Some peripheral.handle
        → HasSentNow given before peripheral central (facts_in peripheral.link).event.channel octets
        → let slot = (facts_at given peripheral.station before).turn.slot in
        TakesControl peripheral.link.setup (facts_in peripheral.link) slot octets room
        → is_lasting (facts_in peripheral.link) ≡ true }
{
    air_frame::laws::packet_tells_its_pdu();
    link_runs::a_sealed_packet_is_opened();
    controller_model::a_pdu_is_understood();
    advertise::laws::connections_are_taken();
    run_pairs::what_hosts_ask_may_come();
}
