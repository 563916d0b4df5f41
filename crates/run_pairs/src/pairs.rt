//! The same laws for runs of two stations, where the two ends of each link hear each other. The
//! bodies only call the laws that they rest on: the contracts are the laws.
ghost use Rattle.std.specs.Prelude.{◌≡◌, ◌≢◌, ◌⊎◌, ◌++◌, ◌∷◌, [], ℕ, Bool, true, List, Some, length};
ghost use Rattle.std.specs.List.{Contains};
ghost use Rattle.ble_base.specs.declared.verdicts.Verdict.TheVariants.{Forged, Good};
ghost use Rattle.link_calls.specs.link_model.Delivery.{IsDelivered};
ghost use Rattle.link_calls.specs.link_model.OneLink.{AreInAgreement};
ghost use Rattle.link_calls.specs.link_model.Packets.{verdict_of};
ghost use Rattle.link_calls.specs.open_links.OpenLinks.{facts_in};
ghost use Rattle.link_calls.specs.controller_model.Step.{PacketHeard};
ghost use Rattle.radio_replay.specs.Script.{Script};
ghost use Rattle.link_calls.specs.run_model.Feeding.{AreDistinct};
ghost use Rattle.link_calls.specs.run_model.History.{Called, Event, TurnBegan, turns_begun};
ghost use Rattle.link_calls.specs.run_model.LinkEnds.{HaveAddresses};
ghost use Rattle.link_calls.specs.run_model.Pair.{given_of};
ghost use Rattle.link_calls.specs.run_model.Run.{Given, GoesOn, facts_at, history_of, run_of};
ghost use Rattle.link_runs.specs.link_pairs.Ends.{is_lasting};
ghost use Rattle.link_runs.specs.link_pairs.Sound.{AreSoundEnds};
ghost use Rattle.link_runs.specs.Open.{AreOpenEnds, AreTerminated, GoOnUnlessLate};
ghost use Rattle.link_calls.specs.run_laws.Ends.{AreEnds, HasSent, HaveOneConnectInd, IsOpen};
ghost use Rattle.link_calls.specs.run_laws.Ends.{OpenEnd, link_listened};
ghost use Rattle.link_calls.specs.run_laws.Shapes.{ReadEachOtherAsSent};
ghost use Rattle.run_pairs.specs.InTurns.{HasSentNow, HearEachInTurn, HearNoMixed};

/// In a run of two stations, with any number of links each, each good packet that an end of a link
/// receives is what the other end of this link sent in the same turn. Another link may have the
/// same access address and channel. But no two links of one central have one address, and a central
/// sends in the first phase of a turn, where no central listens. A packet that the far end sent
/// last, and that reaches an end that listens on the link and does not judge it forged, was sent in
/// the same turn (Core 5.2, volume 6 part B, sections 2.1.2 and 4.5.1).
pub fn both_ends_hear_each_other_in_turns()
    ensures hear { (given : Given) (one other : ℕ) (before rest : List Event)
        (central peripheral : OpenEnd) → given.stations ≡ one ∷ other ∷ []
        → AreDistinct given.stations → HaveAddresses given
        → Contains given.stations central.station → Contains given.stations peripheral.station
        → history_of (run_of given) ≡ before ++ rest → AreEnds before central peripheral
        → HearEachInTurn given before central peripheral }
    ensures now { (given : Given) (one other : ℕ) (before rest : List Event) (octets : List ℕ)
        (end far : OpenEnd) → given.stations ≡ one ∷ other ∷ []
        → AreDistinct given.stations → HaveAddresses given
        → Contains given.stations far.station → end.station ≢ far.station
        → history_of (run_of given) ≡ before ++ Called end.station (PacketHeard octets) ∷ rest
        → HaveOneConnectInd end.link.setup far.link.setup → IsOpen given before end
        → link_listened (facts_at given end.station before).turn.doing ≡ Some end.handle
        → verdict_of end.link.setup (facts_in end.link) octets ≢ Forged
        → HasSent given before far (facts_in end.link).event.channel octets
        → HasSentNow given before end far (facts_in end.link).event.channel octets }
{
    link_calls::a_pdu_is_understood();
    advertise::laws::connections_are_taken();
    scan_init::laws::searches_give_each_valid_address();
}

/// Before each turn of a run of a pair, and at its end, both open ends of a link are linked, and
/// the link lasts at both; or the central has taken LL_TERMINATE_IND, and is shut once it has sent.
/// So it is whatever each host does, and whatever the radio loses or changes, as long as no packet
/// is mixed (Core 5.2, volume 6 part B, sections 4.5 and 5.1.6, and part E, section 2).
pub fn ends_of_a_pair_are_linked()
    ensures before_a_turn { (a b : List ℕ) (script : Script) (before rest : List Event)
        (slot : ℕ) (radios : List Bool) (central peripheral : OpenEnd)
        → length script.a.public ≡ 6 → length script.b.public ≡ 6
        → Contains (given_of a b script).stations central.station
        → Contains (given_of a b script).stations peripheral.station
        → history_of (run_of (given_of a b script)) ≡ before ++ TurnBegan slot radios ∷ rest
        → AreEnds before central peripheral
        → HearNoMixed (given_of a b script) before central peripheral
        → IsOpen (given_of a b script) before central
        → IsOpen (given_of a b script) before peripheral
        → AreOpenEnds central.link.setup peripheral.link.setup slot
        (facts_in central.link) (facts_in peripheral.link) }
    ensures at_the_end { (a b : List ℕ) (script : Script) (history : List Event)
        (central peripheral : OpenEnd)
        → length script.a.public ≡ 6 → length script.b.public ≡ 6
        → Contains (given_of a b script).stations central.station
        → Contains (given_of a b script).stations peripheral.station
        → run_of (given_of a b script) ≡ GoesOn history
        → AreEnds history central peripheral
        → HearNoMixed (given_of a b script) history central peripheral
        → IsOpen (given_of a b script) history central
        → IsOpen (given_of a b script) history peripheral
        → AreOpenEnds central.link.setup peripheral.link.setup (turns_begun history)
        (facts_in central.link) (facts_in peripheral.link) }
{
    both_ends_hear_each_other_in_turns();
    crate::laws::open_ends_are_linked();
}

/// Where the link lasts at both ends before a turn or at the end, they are a joint run that goes
/// on. At any place of the run their counts agree, and what each end took of data is what the host
/// of the other one gave. No procedure of the central has ended the link, and one of the peripheral
/// only with 0x28, where the Instant of the last indication that the central sent has passed there;
/// and each with 0x3D, where it heard a forged packet. So an end that is shut at the end of a turn
/// is shut with 0x16, with the code of its peer or with 0x3D, or it is a peripheral and shut with
/// 0x28. That is so as long as no packet is mixed (Core 5.2, volume 6 part B, sections 4.5.9,
/// 5.1.3.1, 5.1.6, 5.3 and 5.5).
pub fn ends_of_a_pair_are_sound()
    ensures before_a_turn { (a b : List ℕ) (script : Script) (before rest : List Event)
        (slot : ℕ) (radios : List Bool) (central peripheral : OpenEnd)
        → length script.a.public ≡ 6 → length script.b.public ≡ 6
        → Contains (given_of a b script).stations central.station
        → Contains (given_of a b script).stations peripheral.station
        → history_of (run_of (given_of a b script)) ≡ before ++ TurnBegan slot radios ∷ rest
        → AreEnds before central peripheral
        → HearNoMixed (given_of a b script) before central peripheral
        → IsOpen (given_of a b script) before central
        → IsOpen (given_of a b script) before peripheral
        → is_lasting (facts_in central.link) ≡ true → is_lasting (facts_in peripheral.link) ≡ true
        → AreSoundEnds central.link.setup peripheral.link.setup (facts_in central.link)
        (facts_in peripheral.link) }
    ensures at_the_end { (a b : List ℕ) (script : Script) (history : List Event)
        (central peripheral : OpenEnd)
        → length script.a.public ≡ 6 → length script.b.public ≡ 6
        → Contains (given_of a b script).stations central.station
        → Contains (given_of a b script).stations peripheral.station
        → run_of (given_of a b script) ≡ GoesOn history
        → AreEnds history central peripheral
        → HearNoMixed (given_of a b script) history central peripheral
        → IsOpen (given_of a b script) history central
        → IsOpen (given_of a b script) history peripheral
        → is_lasting (facts_in central.link) ≡ true → is_lasting (facts_in peripheral.link) ≡ true
        → AreSoundEnds central.link.setup peripheral.link.setup (facts_in central.link)
        (facts_in peripheral.link) }
    ensures agreement { (a b : List ℕ) (script : Script) (before rest : List Event)
        (central peripheral : OpenEnd)
        → length script.a.public ≡ 6 → length script.b.public ≡ 6
        → Contains (given_of a b script).stations central.station
        → Contains (given_of a b script).stations peripheral.station
        → history_of (run_of (given_of a b script)) ≡ before ++ rest
        → AreEnds before central peripheral
        → HearNoMixed (given_of a b script) before central peripheral
        → IsOpen (given_of a b script) before central
        → IsOpen (given_of a b script) before peripheral
        → AreInAgreement (facts_in central.link).acknowledgement
        (facts_in peripheral.link).acknowledgement }
    ensures delivery { (a b : List ℕ) (script : Script) (before rest : List Event)
        (central peripheral : OpenEnd)
        → length script.a.public ≡ 6 → length script.b.public ≡ 6
        → Contains (given_of a b script).stations central.station
        → Contains (given_of a b script).stations peripheral.station
        → history_of (run_of (given_of a b script)) ≡ before ++ rest
        → AreEnds before central peripheral
        → HearNoMixed (given_of a b script) before central peripheral
        → IsOpen (given_of a b script) before central
        → IsOpen (given_of a b script) before peripheral
        → IsDelivered (facts_in central.link) (facts_in peripheral.link)
        × IsDelivered (facts_in peripheral.link) (facts_in central.link) }
    ensures procedures { (a b : List ℕ) (script : Script) (before rest : List Event)
        (central peripheral : OpenEnd)
        → length script.a.public ≡ 6 → length script.b.public ≡ 6
        → Contains (given_of a b script).stations central.station
        → Contains (given_of a b script).stations peripheral.station
        → history_of (run_of (given_of a b script)) ≡ before ++ rest
        → AreEnds before central peripheral
        → HearNoMixed (given_of a b script) before central peripheral
        → IsOpen (given_of a b script) before central
        → IsOpen (given_of a b script) before peripheral
        → GoOnUnlessLate (record {
          central = Some (facts_in central.link);
          peripheral = Some (facts_in peripheral.link);
        }) }
    ensures codes { (a b : List ℕ) (script : Script) (before rest : List Event)
        (central peripheral : OpenEnd)
        → length script.a.public ≡ 6 → length script.b.public ≡ 6
        → Contains (given_of a b script).stations central.station
        → Contains (given_of a b script).stations peripheral.station
        → history_of (run_of (given_of a b script)) ≡ before ++ rest
        → AreEnds before central peripheral
        → HearNoMixed (given_of a b script) before central peripheral
        → IsOpen (given_of a b script) before central
        → IsOpen (given_of a b script) before peripheral
        → AreTerminated (record {
          central = Some (facts_in central.link);
          peripheral = Some (facts_in peripheral.link);
        }) }
{
    both_ends_hear_each_other_in_turns();
    crate::laws::ends_that_last_are_sound();
    crate::laws::no_procedure_ends_a_link_but_a_late_one();
}

/// As long as no packet is mixed, both ends of a link of a pair read each packet of the other as it
/// was sent: a new PDU has the body with which it was sent, in all phases of encryption (Core 5.2,
/// volume 6 part B, sections 4.5.9 and 5.1.3).
pub fn packets_of_a_pair_are_read_as_sent()
    ensures { (a b : List ℕ) (script : Script) (before rest : List Event)
        (central peripheral : OpenEnd)
        → length script.a.public ≡ 6 → length script.b.public ≡ 6
        → Contains (given_of a b script).stations central.station
        → Contains (given_of a b script).stations peripheral.station
        → history_of (run_of (given_of a b script)) ≡ before ++ rest
        → AreEnds before central peripheral
        → HearNoMixed (given_of a b script) before central peripheral
        → IsOpen (given_of a b script) before central
        → IsOpen (given_of a b script) before peripheral
        → ReadEachOtherAsSent (given_of a b script) before central peripheral }
{
    both_ends_hear_each_other_in_turns();
    crate::laws::packets_of_a_link_are_read_as_sent();
}

/// A station of a pair is called with a packet while it listens on the link of one of the ends.
/// Where the last step of the far end was to send this packet on the channel of the listener's
/// event, the packet is good, and was sent in the same turn; or it is forged. That is so as long as
/// no packet was mixed before (Core 5.2, volume 6 part B, sections 2.1, 4.5.10 and 5.1.3.1).
pub fn packets_of_a_pair_are_understood()
    ensures peripheral { (a b : List ℕ) (script : Script) (before rest : List Event)
        (octets : List ℕ) (central peripheral : OpenEnd)
        → length script.a.public ≡ 6 → length script.b.public ≡ 6
        → Contains (given_of a b script).stations central.station
        → Contains (given_of a b script).stations peripheral.station
        → history_of (run_of (given_of a b script))
        ≡ before ++ Called peripheral.station (PacketHeard octets) ∷ rest
        → AreEnds before central peripheral
        → HearNoMixed (given_of a b script) before central peripheral
        → IsOpen (given_of a b script) before central
        → IsOpen (given_of a b script) before peripheral
        → link_listened (facts_at (given_of a b script) peripheral.station before).turn.doing
        ≡ Some peripheral.handle
        → HasSent (given_of a b script) before central
        (facts_in peripheral.link).event.channel octets
        → ((verdict_of peripheral.link.setup (facts_in peripheral.link) octets ≡ Good)
        × HasSentNow (given_of a b script) before peripheral central
        (facts_in peripheral.link).event.channel octets)
        ⊎ (verdict_of peripheral.link.setup (facts_in peripheral.link) octets ≡ Forged) }
    ensures central { (a b : List ℕ) (script : Script) (before rest : List Event)
        (octets : List ℕ) (central peripheral : OpenEnd)
        → length script.a.public ≡ 6 → length script.b.public ≡ 6
        → Contains (given_of a b script).stations central.station
        → Contains (given_of a b script).stations peripheral.station
        → history_of (run_of (given_of a b script))
        ≡ before ++ Called central.station (PacketHeard octets) ∷ rest
        → AreEnds before central peripheral
        → HearNoMixed (given_of a b script) before central peripheral
        → IsOpen (given_of a b script) before central
        → IsOpen (given_of a b script) before peripheral
        → link_listened (facts_at (given_of a b script) central.station before).turn.doing
        ≡ Some central.handle
        → HasSent (given_of a b script) before peripheral
        (facts_in central.link).event.channel octets
        → ((verdict_of central.link.setup (facts_in central.link) octets ≡ Good)
        × HasSentNow (given_of a b script) before central peripheral
        (facts_in central.link).event.channel octets)
        ⊎ (verdict_of central.link.setup (facts_in central.link) octets ≡ Forged) }
{
    both_ends_hear_each_other_in_turns();
    crate::laws::packets_of_a_link_are_understood();
}
