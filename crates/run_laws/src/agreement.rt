//! Acknowledgement and data on the links of two stations in each run. The bodies only call the laws
//! that they rest on: the contracts are the laws.
ghost use Rattle.std.specs.Prelude.{◌≡◌, ◌++◌, ◌∷◌, [], ℕ, List, length};
ghost use Rattle.std.specs.List.{Contains};
ghost use Rattle.run_model.specs.link_model.Delivery.{IsDelivered};
ghost use Rattle.run_model.specs.link_model.OneLink.{AreInAgreement};
ghost use Rattle.run_model.specs.open_links.OpenLinks.{facts_in};
ghost use Rattle.radio_replay.specs.Script.{Script};
ghost use Rattle.run_model.specs.Feeding.{AreDistinct};
ghost use Rattle.run_model.specs.History.{Event};
ghost use Rattle.run_model.specs.LinkEnds.{HaveAddresses};
ghost use Rattle.run_model.specs.Pair.{given_of};
ghost use Rattle.run_model.specs.Run.{Given, history_of, run_of};
ghost use Rattle.run_laws.specs.Ends.{AreEnds, HearEachOther, IsOpen, OpenEnd};
ghost use Rattle.run_laws.specs.Shapes.{AgreeInShape, ReadEachOtherAsSent};

/// In a run of two stations, with any number of links each, both ends of a link hear each other:
/// each good packet that one of them receives is what the other end of this link just sent. Another
/// link may have the same access address and channel. But no two links of one central have one
/// address, and a central sends in the first phase of a turn, where no central listens (Core 5.2,
/// volume 6 part B, sections 2.1.2 and 4.5.1).
pub fn both_ends_hear_each_other()
    ensures { (given : Given) (one other : ℕ) (before rest : List Event)
        (central peripheral : OpenEnd) → given.stations ≡ one ∷ other ∷ []
        → AreDistinct given.stations → HaveAddresses given
        → Contains given.stations central.station → Contains given.stations peripheral.station
        → history_of (run_of given) ≡ before ++ rest → AreEnds before central peripheral
        → HearEachOther given before central peripheral }
{
    run_model::a_pdu_is_understood();
    advertise::laws::connections_are_taken();
    scan_init::laws::searches_give_each_valid_address();
}

/// At any time of a run, with any number of stations and of links, both open ends of a link that
/// hear each other agree in the numbers and the shapes of their PDUs, in all phases of encryption.
/// Where each reads the packets of the other as they were sent, they are in agreement, and what
/// each end took of data is what the host of the other one gave, from the first octet on, in order
/// and each of them once. So it is whatever the radio loses or changes, and whatever each host does
/// (Core 5.2, volume 4 part E, section 4.1; volume 6 part B, section 4.5.9).
pub fn ends_that_hear_each_other_agree()
    ensures shapes { (given : Given) (before rest : List Event) (central peripheral : OpenEnd)
        → AreDistinct given.stations → HaveAddresses given
        → Contains given.stations central.station → Contains given.stations peripheral.station
        → history_of (run_of given) ≡ before ++ rest → AreEnds before central peripheral
        → HearEachOther given before central peripheral
        → IsOpen given before central → IsOpen given before peripheral
        → AgreeInShape (facts_in central.link).acknowledgement
        (facts_in peripheral.link).acknowledgement }
    ensures agreement { (given : Given) (before rest : List Event) (central peripheral : OpenEnd)
        → AreDistinct given.stations → HaveAddresses given
        → Contains given.stations central.station → Contains given.stations peripheral.station
        → history_of (run_of given) ≡ before ++ rest → AreEnds before central peripheral
        → HearEachOther given before central peripheral
        → ReadEachOtherAsSent given before central peripheral
        → IsOpen given before central → IsOpen given before peripheral
        → AreInAgreement (facts_in central.link).acknowledgement
        (facts_in peripheral.link).acknowledgement }
    ensures delivery { (given : Given) (before rest : List Event) (central peripheral : OpenEnd)
        → AreDistinct given.stations → HaveAddresses given
        → Contains given.stations central.station → Contains given.stations peripheral.station
        → history_of (run_of given) ≡ before ++ rest → AreEnds before central peripheral
        → HearEachOther given before central peripheral
        → ReadEachOtherAsSent given before central peripheral
        → IsOpen given before central → IsOpen given before peripheral
        → IsDelivered (facts_in central.link) (facts_in peripheral.link)
        × IsDelivered (facts_in peripheral.link) (facts_in central.link) }
{
    air_frame::laws::packet_tells_its_pdu();
}

/// At any time of a run of two stations, with any number of links each, both open ends of a link
/// agree in the numbers and the shapes of their PDUs, in all phases of encryption. Where each reads
/// the packets of the other as they were sent, they are in agreement, and what each end took of
/// data is what the host of the other one gave. So it is whatever the radio loses or changes, and
/// whatever each host does (Core 5.2, volume 4 part E, section 4.1; volume 6 part B, section
/// 4.5.9).
pub fn ends_of_two_stations_agree()
    ensures shapes { (given : Given) (one other : ℕ) (before rest : List Event)
        (central peripheral : OpenEnd) → given.stations ≡ one ∷ other ∷ []
        → AreDistinct given.stations → HaveAddresses given
        → Contains given.stations central.station → Contains given.stations peripheral.station
        → history_of (run_of given) ≡ before ++ rest → AreEnds before central peripheral
        → IsOpen given before central → IsOpen given before peripheral
        → AgreeInShape (facts_in central.link).acknowledgement
        (facts_in peripheral.link).acknowledgement }
    ensures agreement { (given : Given) (one other : ℕ) (before rest : List Event)
        (central peripheral : OpenEnd) → given.stations ≡ one ∷ other ∷ []
        → AreDistinct given.stations → HaveAddresses given
        → Contains given.stations central.station → Contains given.stations peripheral.station
        → history_of (run_of given) ≡ before ++ rest → AreEnds before central peripheral
        → ReadEachOtherAsSent given before central peripheral
        → IsOpen given before central → IsOpen given before peripheral
        → AreInAgreement (facts_in central.link).acknowledgement
        (facts_in peripheral.link).acknowledgement }
    ensures delivery { (given : Given) (one other : ℕ) (before rest : List Event)
        (central peripheral : OpenEnd) → given.stations ≡ one ∷ other ∷ []
        → AreDistinct given.stations → HaveAddresses given
        → Contains given.stations central.station → Contains given.stations peripheral.station
        → history_of (run_of given) ≡ before ++ rest → AreEnds before central peripheral
        → ReadEachOtherAsSent given before central peripheral
        → IsOpen given before central → IsOpen given before peripheral
        → IsDelivered (facts_in central.link) (facts_in peripheral.link)
        × IsDelivered (facts_in peripheral.link) (facts_in central.link) }
{
    both_ends_hear_each_other();
    ends_that_hear_each_other_agree();
}

/// At any time of a run of a pair, both open ends of one link are in agreement, whatever the radio
/// loses or changes and whatever each host does: SN and NESN of each end are the numbers of its
/// PDUs that are acknowledged and of those that it accepted, modulo 2; each accepts what the other
/// sent, in order, all but at most the last PDU; and it takes for acknowledged only what the other
/// accepted. Where a packet is not read as it was sent, this is so of the LLIDs of the PDUs, and of
/// which of them are empty (Core 5.2, volume 6 part B, section 4.5.9).
pub fn ends_stay_in_agreement_in_every_run()
    ensures shapes { (a b : List ℕ) (script : Script) (before rest : List Event)
        (central peripheral : OpenEnd)
        → length script.a.public ≡ 6 → length script.b.public ≡ 6
        → Contains (given_of a b script).stations central.station
        → Contains (given_of a b script).stations peripheral.station
        → history_of (run_of (given_of a b script)) ≡ before ++ rest
        → AreEnds before central peripheral
        → IsOpen (given_of a b script) before central
        → IsOpen (given_of a b script) before peripheral
        → AgreeInShape (facts_in central.link).acknowledgement
        (facts_in peripheral.link).acknowledgement }
    ensures agreement { (a b : List ℕ) (script : Script) (before rest : List Event)
        (central peripheral : OpenEnd)
        → length script.a.public ≡ 6 → length script.b.public ≡ 6
        → Contains (given_of a b script).stations central.station
        → Contains (given_of a b script).stations peripheral.station
        → history_of (run_of (given_of a b script)) ≡ before ++ rest
        → AreEnds before central peripheral
        → ReadEachOtherAsSent (given_of a b script) before central peripheral
        → IsOpen (given_of a b script) before central
        → IsOpen (given_of a b script) before peripheral
        → AreInAgreement (facts_in central.link).acknowledgement
        (facts_in peripheral.link).acknowledgement }
{
    ends_of_two_stations_agree();
}

/// At any time of a run of a pair, with both ends of a link open, what each end took of data is the
/// first octets of what the host of the other one gave, in order and each of them once, with the
/// starts of messages where they were; and each packet of data that was reported to a host as
/// complete was taken whole at the other end. So it is while each end reads the packets of the
/// other as they were sent, whatever the radio loses or changes, and whatever each host does (Core
/// 5.2, volume 4 part E, section 4.1; volume 6 part B, section 4.5.9).
pub fn what_is_taken_was_given_in_every_run()
    ensures { (a b : List ℕ) (script : Script) (before rest : List Event)
        (central peripheral : OpenEnd)
        → length script.a.public ≡ 6 → length script.b.public ≡ 6
        → Contains (given_of a b script).stations central.station
        → Contains (given_of a b script).stations peripheral.station
        → history_of (run_of (given_of a b script)) ≡ before ++ rest
        → AreEnds before central peripheral
        → ReadEachOtherAsSent (given_of a b script) before central peripheral
        → IsOpen (given_of a b script) before central
        → IsOpen (given_of a b script) before peripheral
        → IsDelivered (facts_in central.link) (facts_in peripheral.link)
        × IsDelivered (facts_in peripheral.link) (facts_in central.link) }
{
    ends_of_two_stations_agree();
}
