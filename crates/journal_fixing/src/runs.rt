//! What an open end of a run fixed, and what it was as it did so, by the lines of the journal. The
//! bodies are empty, or only call the laws that they rest on: the contracts are the
//! laws.
ghost use Rattle.std.specs.Prelude.{◌≡◌, ◌++◌, ◌∷◌, [], ℕ, Bool, List, Option, Some, false, map};
ghost use Rattle.std.specs.Prelude.{true};
ghost use Rattle.std.specs.List.{Contains};
ghost use Rattle.ble_base.specs.declared.notes.Note.{Note};
ghost use Rattle.ble_base.specs.declared.roles.Role.{Role};
ghost use Rattle.ble_base.specs.declared.roles.Side.{Side};
ghost use Rattle.journal_controls.specs.controller_model.Step.{PacketHeard, TurnBegins};
ghost use Rattle.data_pdu.specs.Header.{header_in};
ghost use Rattle.journal_controls.specs.journal_acks.link_calls.Uses.{listens_under, sends_under};
ghost use Rattle.journal_controls.specs.journal_acks.link_calls.Uses.{uses_under};
ghost use Rattle.journal_controls.specs.link_model.Data.{is_control};
ghost use Rattle.journal_controls.specs.link_model.End.{facts_after};
ghost use Rattle.journal_controls.specs.link_model.Facts.{keyed_of};
ghost use Rattle.journal_controls.specs.link_model.Packets.{good_pdu};
ghost use Rattle.journal_controls.specs.link_model.Receiving.{acks_control};
ghost use Rattle.journal_controls.specs.link_model.Receiving.{has_acknowledged, keyed_acked_if};
ghost use Rattle.journal_controls.specs.link_model.Step.{PacketSent, PduFixed};
ghost use Rattle.journal_controls.specs.run_model.Feeding.{AreDistinct};
ghost use Rattle.journal_controls.specs.journal_ends.open_links.OpenLinks.{OpenLink, facts_in};
ghost use Rattle.journal_controls.specs.journal_ends.open_links.OpenLinks.{link_at};
ghost use Rattle.journal_controls.specs.run_model.History.{Event, Called, Hearing, Noted};
ghost use Rattle.journal_controls.specs.run_model.History.{Transmitted};
ghost use Rattle.journal_controls.specs.run_model.Journal.{journal_of, side_of};
ghost use Rattle.journal_controls.specs.run_model.LinkEnds.{HaveAddresses};
ghost use Rattle.journal_controls.specs.run_model.Links.{links_of};
ghost use Rattle.journal_controls.specs.run_model.Run.{Given, facts_at, history_of, run_of, step_of};
ghost use Rattle.journal_fixing.specs.OnLines.{control_fixing, control_going, has_heard};
ghost use Rattle.journal_fixing.specs.PastFixing.{facts_fixing};
ghost use Rattle.journal_controls.specs.journal_ends.Asked.{Words};
ghost use Rattle.journal_controls.specs.journal_ends.GivenWords.{GivesWords};

/// In a run of two stations, with any number of links each and whatever procedures they carry: while
/// an open end sends or listens, what it was as it fixed its next PDU, with its procedures, its phase
/// and its keys, is in the lines of the journal. So it is before each packet, and before each call in
/// which a controller takes what it heard in a phase (Core 5.2, volume 6 part B, sections 4.5.1 and
/// 4.5.9; when a PDU is fixed is our choice).
pub fn the_control_part_that_fixed_a_pdu_is_kept_by_the_lines()
    ensures before_a_packet { (words : Words) (given : Given) (before rest : List Event) (sender channel : ℕ)
        (octets : List ℕ) (hearings : List Hearing) (station handle : ℕ) (link : OpenLink)
        → given.stations ≡ 0 ∷ 1 ∷ [] → HaveAddresses given → GivesWords given words → Contains given.stations station
        → history_of (run_of given) ≡ before ++ Transmitted sender channel octets hearings ∷ rest
        → link_at handle (facts_at given station before).links ≡ Some link
        → uses_under handle (facts_at given station before).turn.doing ≡ true
        → control_fixing words (side_of station) ((links_of before).link_of station handle)
        (journal_of before) ≡ Some (keyed_of (facts_fixing link.setup link.past)) }
    ensures before_a_phase { (words : Words) (given : Given) (before rest : List Event) (called : ℕ)
        (received : Option (List ℕ)) (station handle : ℕ) (link : OpenLink)
        → given.stations ≡ 0 ∷ 1 ∷ [] → HaveAddresses given → GivesWords given words → Contains given.stations station
        → history_of (run_of given) ≡ before ++ Called called (step_of received) ∷ rest
        → link_at handle (facts_at given station before).links ≡ Some link
        → uses_under handle (facts_at given station before).turn.doing ≡ true
        → control_fixing words (side_of station) ((links_of before).link_of station handle)
        (journal_of before) ≡ Some (keyed_of (facts_fixing link.setup link.past)) }
{
    journal_controls::a_pdu_is_understood();
    advertise::laws::connections_are_taken();
    scan_init::laws::searches_give_each_valid_address();
    air_frame::laws::packet_tells_its_pdu();
}

/// In such a run, as an end takes a good packet, the end with which its next control PDU goes is by
/// the lines what it is itself, once the packet has acknowledged its last control PDU, and before
/// the PDU of the packet is taken. So it stays with each line of that call. In the call in which a
/// controller begins a turn no end heard anything yet (Core 5.2, volume 6 part B, section 4.5.9; the
/// order is our choice).
pub fn the_control_part_with_which_a_pdu_goes_is_kept_by_the_lines()
    ensures heard { (words : Words) (given : Given) (before rest : List Event) (octets pdu : List ℕ)
        (notes : List Note) (station handle : ℕ) (link : OpenLink)
        → given.stations ≡ 0 ∷ 1 ∷ [] → HaveAddresses given → GivesWords given words → Contains given.stations station
        → history_of (run_of given) ≡ before
        ++ Called station (PacketHeard octets) ∷ (map (Noted station) notes ++ rest)
        → link_at handle (facts_at given station before).links ≡ Some link
        → listens_under handle (facts_at given station before).turn.doing ≡ true
        → good_pdu link.setup (facts_in link) octets ≡ Some pdu
        → control_going words (side_of station) ((links_of before).link_of station handle)
        (journal_of (before ++ Called station (PacketHeard octets) ∷ map (Noted station) notes))
        ≡ Some (keyed_acked_if
        (acks_control (has_acknowledged (facts_in link) (header_in pdu)) (facts_in link))
        (keyed_of (facts_in link))) }
    ensures begins { (words : Words) (given : Given) (before rest : List Event) (slot : ℕ) (on : Bool)
        (notes : List Note) (station number : ℕ) (side : Side)
        → given.stations ≡ 0 ∷ 1 ∷ [] → HaveAddresses given → GivesWords given words
        → history_of (run_of given) ≡ before
        ++ Called station (TurnBegins slot on) ∷ (map (Noted station) notes ++ rest)
        → has_heard words side number
        (journal_of (before ++ Called station (TurnBegins slot on) ∷ map (Noted station) notes))
        ≡ false }
{
    journal_controls::a_pdu_is_understood();
    advertise::laws::connections_are_taken();
    scan_init::laws::searches_give_each_valid_address();
    air_frame::laws::packet_tells_its_pdu();
}

/// At any time of a run, a peripheral that listens holds what it fixed as its turn began, and a
/// central that sends held that as it sent its packet; no control PDU had left the queue before (Core
/// 5.2, volume 6 part B, sections 4.5.1 and 4.5.9; when a PDU is fixed is our choice).
pub fn what_an_end_does_after_it_fixed_its_pdu()
    ensures free { (given : Given) (before rest : List Event) (station handle : ℕ)
        (link : OpenLink) → AreDistinct given.stations → Contains given.stations station
        → history_of (run_of given) ≡ before ++ rest
        → link_at handle (facts_at given station before).links ≡ Some link
        → listens_under handle (facts_at given station before).turn.doing ≡ true
        → link.setup.link.role ≡ Role.Peripheral
        → is_control (facts_fixing link.setup link.past).outgoing.fixed ≡ false }
    ensures listens { (given : Given) (before rest : List Event) (station handle : ℕ)
        (link : OpenLink) → AreDistinct given.stations → Contains given.stations station
        → history_of (run_of given) ≡ before ++ rest
        → link_at handle (facts_at given station before).links ≡ Some link
        → listens_under handle (facts_at given station before).turn.doing ≡ true
        → link.setup.link.role ≡ Role.Peripheral
        → facts_in link
        ≡ facts_after link.setup (facts_fixing link.setup link.past) PduFixed }
    ensures sends_free { (given : Given) (before rest : List Event) (station handle : ℕ)
        (link : OpenLink) → AreDistinct given.stations → Contains given.stations station
        → history_of (run_of given) ≡ before ++ rest
        → link_at handle (facts_at given station before).links ≡ Some link
        → sends_under handle (facts_at given station before).turn.doing ≡ true
        → link.setup.link.role ≡ Role.Central
        → is_control (facts_fixing link.setup link.past).outgoing.fixed ≡ false }
    ensures sends { (given : Given) (before rest : List Event) (station handle : ℕ)
        (link : OpenLink) → AreDistinct given.stations → Contains given.stations station
        → history_of (run_of given) ≡ before ++ rest
        → link_at handle (facts_at given station before).links ≡ Some link
        → sends_under handle (facts_at given station before).turn.doing ≡ true
        → link.setup.link.role ≡ Role.Central
        → facts_in link ≡ facts_after link.setup
        (facts_after link.setup (facts_fixing link.setup link.past) PduFixed)
        (PacketSent (facts_at given station before).turn.slot) }
{}
