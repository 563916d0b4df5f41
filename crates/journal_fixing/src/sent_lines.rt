//! Which PDU the line of a new PDU says, by the end as it was fixed by the lines before it. The
//! bodies only call the laws that they rest on: the contracts are the laws.
ghost use Rattle.std.specs.Prelude.{◌≡◌, ◌++◌, ◌∷◌, [], ℕ, Bool, List, Some, map};
ghost use Rattle.std.specs.List.{Contains};
ghost use Rattle.ble_base.specs.declared.notes.Note.{Note};
ghost use Rattle.ble_base.specs.declared.notes.Note.TheVariants.{Sent};
ghost use Rattle.journal_controls.specs.controller_model.Side.{notes_after};
ghost use Rattle.journal_controls.specs.controller_model.Step.{PacketHeard, TurnBegins};
ghost use Rattle.journal_controls.specs.journal_ends.open_links.OpenLinks.{OpenLink, link_at};
ghost use Rattle.journal_controls.specs.link_model.Acknowledgement.{Pdu};
ghost use Rattle.journal_controls.specs.link_model.Data.{next_piece};
ghost use Rattle.journal_controls.specs.link_model.Facts.{keyed_of};
ghost use Rattle.journal_controls.specs.link_model.Fixing.{data_cut};
ghost use Rattle.journal_controls.specs.link_model.keyed_control.Keyed.{Keyed};
ghost use Rattle.journal_controls.specs.run_model.History.{Event, Called, Noted};
ghost use Rattle.journal_controls.specs.run_model.Journal.{journal_of, side_of};
ghost use Rattle.journal_controls.specs.run_model.LinkEnds.{HaveAddresses};
ghost use Rattle.journal_controls.specs.run_model.Links.{links_of};
ghost use Rattle.journal_controls.specs.run_model.Run.{Given, facts_at, history_of, run_of};
ghost use Rattle.journal_controls.specs.run_model.Run.{setup_at};
ghost use Rattle.journal_fixing.specs.NextPdu.{pdu_next};
ghost use Rattle.journal_fixing.specs.OnLines.{control_fixing, control_going};
ghost use Rattle.journal_fixing.specs.PastFixing.{facts_fixing};
ghost use Rattle.journal_controls.specs.journal_ends.Asked.{Words};
ghost use Rattle.journal_controls.specs.journal_ends.GivenWords.{GivesWords};

/// In a run of two stations, with any number of links each and whatever procedures they carry: as a
/// controller begins a turn, the line of a new PDU of a link comes where the lines before it have the
/// end as it was when it fixed that PDU, and a control PDU goes by the same. The line says the PDU that
/// is next by that end, and by its data then (Core 5.2, volume 6 part B, sections 4.5.6 and 4.5.9;
/// when a PDU is fixed is our choice).
pub fn a_turn_begins_with_the_line_of_the_pdu_that_the_lines_fix()
    ensures fixing { (words : Words) (given : Given) (before rest : List Event)
        (station slot handle count llid : ℕ) (on : Bool) (body : List ℕ) (earlier later : List Note)
        (link : OpenLink)
        → given.stations ≡ 0 ∷ 1 ∷ [] → HaveAddresses given → GivesWords given words → Contains given.stations station
        → history_of (run_of given) ≡ before ++ Called station (TurnBegins slot on) ∷ rest
        → notes_after (setup_at given station) (facts_at given station before)
        (TurnBegins slot on)
        ≡ earlier ++ Sent handle count llid (record { items = body }) ∷ later
        → let now = before ++ Called station (TurnBegins slot on) ∷ map (Noted station) earlier in
        link_at handle (facts_at given station now).links ≡ Some link
        → control_fixing words (side_of station) ((links_of now).link_of station handle)
        (journal_of now) ≡ Some (keyed_of (facts_fixing link.setup link.past)) }
    ensures going { (words : Words) (given : Given) (before rest : List Event)
        (station slot handle count llid : ℕ) (on : Bool) (body : List ℕ) (earlier later : List Note)
        (link : OpenLink)
        → given.stations ≡ 0 ∷ 1 ∷ [] → HaveAddresses given → GivesWords given words → Contains given.stations station
        → history_of (run_of given) ≡ before ++ Called station (TurnBegins slot on) ∷ rest
        → notes_after (setup_at given station) (facts_at given station before)
        (TurnBegins slot on)
        ≡ earlier ++ Sent handle count llid (record { items = body }) ∷ later
        → let now = before ++ Called station (TurnBegins slot on) ∷ map (Noted station) earlier in
        link_at handle (facts_at given station now).links ≡ Some link
        → control_going words (side_of station) ((links_of now).link_of station handle)
        (journal_of now) ≡ Some (keyed_of (facts_fixing link.setup link.past)) }
    ensures pdu { (words : Words) (given : Given) (before rest : List Event)
        (station slot handle count llid : ℕ) (on : Bool) (body : List ℕ) (earlier later : List Note)
        (link : OpenLink) (fixing going : Keyed)
        → given.stations ≡ 0 ∷ 1 ∷ [] → HaveAddresses given → GivesWords given words → Contains given.stations station
        → history_of (run_of given) ≡ before ++ Called station (TurnBegins slot on) ∷ rest
        → notes_after (setup_at given station) (facts_at given station before)
        (TurnBegins slot on)
        ≡ earlier ++ Sent handle count llid (record { items = body }) ∷ later
        → let now = before ++ Called station (TurnBegins slot on) ∷ map (Noted station) earlier in
        let number = (links_of now).link_of station handle in
        let said : Pdu = record { llid = llid; body = body } in
        link_at handle (facts_at given station now).links ≡ Some link
        → control_fixing words (side_of station) number (journal_of now) ≡ Some fixing
        → control_going words (side_of station) number (journal_of now) ≡ Some going
        → said ≡ pdu_next fixing going
        (next_piece (data_cut (facts_fixing link.setup link.past))) }
{
    journal_controls::a_pdu_is_understood();
    advertise::laws::connections_are_taken();
    scan_init::laws::searches_give_each_valid_address();
    air_frame::laws::packet_tells_its_pdu();
}

/// In such a run, as a peripheral takes a packet on a link, the line of a new PDU of that link comes
/// where the lines before it have the peripheral as it was when it fixed that PDU. The line says the
/// PDU that is next by the ends of the lines, and by the data of the end as it fixed that PDU (Core
/// 5.2, volume 6 part B, sections 4.5.6 and 4.5.9; when a PDU is fixed is our choice).
pub fn a_peripheral_answers_with_the_line_of_the_pdu_that_the_lines_fix()
    ensures fixing { (words : Words) (given : Given) (before rest : List Event) (octets : List ℕ)
        (station handle count llid : ℕ) (body : List ℕ) (earlier later : List Note)
        (link : OpenLink)
        → given.stations ≡ 0 ∷ 1 ∷ [] → HaveAddresses given → GivesWords given words → Contains given.stations station
        → history_of (run_of given) ≡ before
        ++ Called station (PacketHeard octets) ∷ (map (Noted station) earlier ++ rest)
        → notes_after (setup_at given station) (facts_at given station before)
        (PacketHeard octets)
        ≡ earlier ++ Sent handle count llid (record { items = body }) ∷ later
        → link_at handle (facts_at given station before).links ≡ Some link
        → let now = before ++ Called station (PacketHeard octets) ∷ map (Noted station) earlier in
        control_fixing words (side_of station) ((links_of now).link_of station handle)
        (journal_of now) ≡ Some (keyed_of (facts_fixing link.setup link.past)) }
    ensures pdu { (words : Words) (given : Given) (before rest : List Event) (octets : List ℕ)
        (station handle count llid : ℕ) (body : List ℕ) (earlier later : List Note)
        (link : OpenLink) (fixing going : Keyed)
        → given.stations ≡ 0 ∷ 1 ∷ [] → HaveAddresses given → GivesWords given words → Contains given.stations station
        → history_of (run_of given) ≡ before
        ++ Called station (PacketHeard octets) ∷ (map (Noted station) earlier ++ rest)
        → notes_after (setup_at given station) (facts_at given station before)
        (PacketHeard octets)
        ≡ earlier ++ Sent handle count llid (record { items = body }) ∷ later
        → link_at handle (facts_at given station before).links ≡ Some link
        → let now = before ++ Called station (PacketHeard octets) ∷ map (Noted station) earlier in
        let number = (links_of now).link_of station handle in
        let said : Pdu = record { llid = llid; body = body } in
        control_fixing words (side_of station) number (journal_of now) ≡ Some fixing
        → control_going words (side_of station) number (journal_of now) ≡ Some going
        → said ≡ pdu_next fixing going
        (next_piece (data_cut (facts_fixing link.setup link.past))) }
{
    journal_controls::a_pdu_is_understood();
    advertise::laws::connections_are_taken();
    scan_init::laws::searches_give_each_valid_address();
    air_frame::laws::packet_tells_its_pdu();
}
