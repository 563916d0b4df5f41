//! Which PDU an end of a run sends and what MD says, by the lines of the journal. The bodies only
//! call the laws that they rest on: the contracts are the laws.
ghost use Rattle.std.specs.Prelude.{◌≡◌, ◌++◌, ◌∷◌, [], ℕ, Bool, List, Some, false, map, true};
ghost use Rattle.std.specs.List.{Contains};
ghost use Rattle.ble_base.specs.declared.notes.Note.{Note};
ghost use Rattle.ble_base.specs.declared.roles.Role.{Role};
ghost use Rattle.journal_controls.specs.controller_model.Step.{PacketHeard};
ghost use Rattle.journal_controls.specs.journal_acks.link_calls.Uses.{listens_under, sends_under};
ghost use Rattle.journal_controls.specs.journal_ends.open_links.OpenLinks.{OpenLink, facts_in};
ghost use Rattle.journal_controls.specs.journal_ends.open_links.OpenLinks.{link_at};
ghost use Rattle.journal_controls.specs.link_model.Acknowledgement.{is_acked};
ghost use Rattle.journal_controls.specs.link_model.Data.{next_piece};
ghost use Rattle.journal_controls.specs.link_model.End.{facts_after};
ghost use Rattle.journal_controls.specs.link_model.Fixing.{data_cut};
ghost use Rattle.journal_controls.specs.link_model.Packets.{good_pdu, more_sent, pdu_sent};
ghost use Rattle.journal_controls.specs.link_model.Step.{PacketReceived, PduFixed};
ghost use Rattle.journal_controls.specs.link_model.keyed_control.Keyed.{Keyed};
ghost use Rattle.journal_controls.specs.run_model.History.{Event, Called, Hearing, Noted};
ghost use Rattle.journal_controls.specs.run_model.History.{Transmitted};
ghost use Rattle.journal_controls.specs.run_model.Journal.{journal_of, side_of};
ghost use Rattle.journal_controls.specs.run_model.LinkEnds.{HaveAddresses};
ghost use Rattle.journal_controls.specs.run_model.Links.{links_of};
ghost use Rattle.journal_controls.specs.run_model.Run.{Given, facts_at, history_of, run_of};
ghost use Rattle.journal_fixing.specs.NextPdu.{data_waits, data_waits_after, more_with_new};
ghost use Rattle.journal_fixing.specs.NextPdu.{more_with_old, pdu_next};
ghost use Rattle.journal_fixing.specs.OnLines.{control_fixing, control_going};
ghost use Rattle.journal_fixing.specs.PastFixing.{facts_fixing};
ghost use Rattle.journal_controls.specs.journal_ends.Asked.{Words};
ghost use Rattle.journal_controls.specs.journal_ends.GivenWords.{GivesWords};

/// In a run of two stations, with any number of links each and whatever procedures they carry: as a
/// peripheral takes a good packet that leaves all its PDUs acknowledged, the PDU with which it
/// answers is the one that is next by the ends of the lines, and by its data as it fixed that PDU. MD
/// says whether more waits after it. If a PDU is sent again, MD says whether more waited after that
/// one as the next was fixed. So it is at each line of that call, also before the line of the new
/// PDU (Core 5.2, volume 6 part B, sections 4.5.6 and 4.5.9; when a PDU is fixed is our choice).
pub fn a_peripheral_answers_with_the_pdu_that_the_lines_fix()
    ensures pdu { (words : Words) (given : Given) (before rest : List Event) (octets pdu : List ℕ)
        (notes : List Note) (station handle : ℕ) (link : OpenLink) (fixing going : Keyed)
        (slot : ℕ) (room : Bool)
        → given.stations ≡ 0 ∷ 1 ∷ [] → HaveAddresses given → GivesWords given words → Contains given.stations station
        → history_of (run_of given) ≡ before
        ++ Called station (PacketHeard octets) ∷ (map (Noted station) notes ++ rest)
        → link_at handle (facts_at given station before).links ≡ Some link
        → listens_under handle (facts_at given station before).turn.doing ≡ true
        → link.setup.link.role ≡ Role.Peripheral
        → good_pdu link.setup (facts_in link) octets ≡ Some pdu
        → let lines = journal_of
        (before ++ Called station (PacketHeard octets) ∷ map (Noted station) notes) in
        let number = (links_of before).link_of station handle in
        let heard = facts_after link.setup (facts_in link) (PacketReceived slot octets room) in
        control_fixing words (side_of station) number lines ≡ Some fixing
        → control_going words (side_of station) number lines ≡ Some going
        → is_acked heard.acknowledgement ≡ true
        → pdu_sent heard ≡ pdu_next fixing going
        (next_piece (data_cut (facts_fixing link.setup link.past))) }
    ensures more { (words : Words) (given : Given) (before rest : List Event) (octets pdu : List ℕ)
        (notes : List Note) (station handle : ℕ) (link : OpenLink) (fixing : Keyed)
        (slot : ℕ) (room : Bool)
        → given.stations ≡ 0 ∷ 1 ∷ [] → HaveAddresses given → GivesWords given words → Contains given.stations station
        → history_of (run_of given) ≡ before
        ++ Called station (PacketHeard octets) ∷ (map (Noted station) notes ++ rest)
        → link_at handle (facts_at given station before).links ≡ Some link
        → listens_under handle (facts_at given station before).turn.doing ≡ true
        → link.setup.link.role ≡ Role.Peripheral
        → good_pdu link.setup (facts_in link) octets ≡ Some pdu
        → let lines = journal_of
        (before ++ Called station (PacketHeard octets) ∷ map (Noted station) notes) in
        let number = (links_of before).link_of station handle in
        let heard = facts_after link.setup (facts_in link) (PacketReceived slot octets room) in
        control_fixing words (side_of station) number lines ≡ Some fixing
        → is_acked heard.acknowledgement ≡ true
        → more_sent heard ≡ more_with_new fixing
        (data_waits_after (pdu_sent heard) (data_cut (facts_fixing link.setup link.past))) }
    ensures again { (words : Words) (given : Given) (before rest : List Event) (octets pdu : List ℕ)
        (notes : List Note) (station handle : ℕ) (link : OpenLink) (fixing : Keyed)
        (slot : ℕ) (room : Bool)
        → given.stations ≡ 0 ∷ 1 ∷ [] → HaveAddresses given → GivesWords given words → Contains given.stations station
        → history_of (run_of given) ≡ before
        ++ Called station (PacketHeard octets) ∷ (map (Noted station) notes ++ rest)
        → link_at handle (facts_at given station before).links ≡ Some link
        → listens_under handle (facts_at given station before).turn.doing ≡ true
        → link.setup.link.role ≡ Role.Peripheral
        → good_pdu link.setup (facts_in link) octets ≡ Some pdu
        → let lines = journal_of
        (before ++ Called station (PacketHeard octets) ∷ map (Noted station) notes) in
        let number = (links_of before).link_of station handle in
        let outgoing = data_cut (facts_fixing link.setup link.past) in
        let heard = facts_after link.setup (facts_in link) (PacketReceived slot octets room) in
        control_fixing words (side_of station) number lines ≡ Some fixing
        → is_acked heard.acknowledgement ≡ false
        → more_sent heard ≡ more_with_old fixing heard.acknowledgement.last (data_waits outgoing) }
{
    journal_controls::a_pdu_is_understood();
    advertise::laws::connections_are_taken();
    scan_init::laws::searches_give_each_valid_address();
    air_frame::laws::packet_tells_its_pdu();
}

/// In such a run, before a packet, a central that sends it on a link, and of which all PDUs were
/// acknowledged, sends the PDU that is next by what it was as it fixed that PDU by the lines, and by
/// its data then. MD says whether more waits after it. If a PDU is sent again, MD
/// says whether more waited after that one then (Core 5.2, volume 6 part B, sections 4.5.6 and
/// 4.5.9; when a PDU is fixed is our choice).
pub fn a_central_sends_the_pdu_that_the_lines_fix()
    ensures pdu { (words : Words) (given : Given) (before rest : List Event) (sender channel : ℕ)
        (octets : List ℕ) (hearings : List Hearing) (station handle : ℕ) (link : OpenLink)
        (fixing : Keyed)
        → given.stations ≡ 0 ∷ 1 ∷ [] → HaveAddresses given → GivesWords given words → Contains given.stations station
        → history_of (run_of given) ≡ before ++ Transmitted sender channel octets hearings ∷ rest
        → link_at handle (facts_at given station before).links ≡ Some link
        → sends_under handle (facts_at given station before).turn.doing ≡ true
        → link.setup.link.role ≡ Role.Central
        → control_fixing words (side_of station) ((links_of before).link_of station handle)
        (journal_of before) ≡ Some fixing
        → let sent = facts_after link.setup (facts_fixing link.setup link.past) PduFixed in
        is_acked sent.acknowledgement ≡ true
        → pdu_sent sent ≡ pdu_next fixing fixing
        (next_piece (data_cut (facts_fixing link.setup link.past))) }
    ensures more { (words : Words) (given : Given) (before rest : List Event) (sender channel : ℕ)
        (octets : List ℕ) (hearings : List Hearing) (station handle : ℕ) (link : OpenLink)
        (fixing : Keyed)
        → given.stations ≡ 0 ∷ 1 ∷ [] → HaveAddresses given → GivesWords given words → Contains given.stations station
        → history_of (run_of given) ≡ before ++ Transmitted sender channel octets hearings ∷ rest
        → link_at handle (facts_at given station before).links ≡ Some link
        → sends_under handle (facts_at given station before).turn.doing ≡ true
        → link.setup.link.role ≡ Role.Central
        → control_fixing words (side_of station) ((links_of before).link_of station handle)
        (journal_of before) ≡ Some fixing
        → let sent = facts_after link.setup (facts_fixing link.setup link.past) PduFixed in
        is_acked sent.acknowledgement ≡ true
        → more_sent sent ≡ more_with_new fixing
        (data_waits_after (pdu_sent sent) (data_cut (facts_fixing link.setup link.past))) }
    ensures again { (words : Words) (given : Given) (before rest : List Event) (sender channel : ℕ)
        (octets : List ℕ) (hearings : List Hearing) (station handle : ℕ) (link : OpenLink)
        (fixing : Keyed)
        → given.stations ≡ 0 ∷ 1 ∷ [] → HaveAddresses given → GivesWords given words → Contains given.stations station
        → history_of (run_of given) ≡ before ++ Transmitted sender channel octets hearings ∷ rest
        → link_at handle (facts_at given station before).links ≡ Some link
        → sends_under handle (facts_at given station before).turn.doing ≡ true
        → link.setup.link.role ≡ Role.Central
        → control_fixing words (side_of station) ((links_of before).link_of station handle)
        (journal_of before) ≡ Some fixing
        → let outgoing = data_cut (facts_fixing link.setup link.past) in
        let sent = facts_after link.setup (facts_fixing link.setup link.past) PduFixed in
        is_acked sent.acknowledgement ≡ false
        → more_sent sent ≡ more_with_old fixing sent.acknowledgement.last (data_waits outgoing) }
{
    journal_controls::a_pdu_is_understood();
    advertise::laws::connections_are_taken();
    scan_init::laws::searches_give_each_valid_address();
    air_frame::laws::packet_tells_its_pdu();
}
