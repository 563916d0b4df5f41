//! What MD says in each packet of a link, by the ends that the lines of the journal give.
//! The bodies only call the laws that they rest on: the contracts are the laws.
ghost use Rattle.std.specs.Prelude.{◌≡◌, ◌++◌, ◌∷◌, [], ℕ, List, Some, false, true};
ghost use Rattle.std.specs.List.{Contains};
ghost use Rattle.journal_controls.specs.journal_ends.open_links.OpenLinks.{facts_in};
ghost use Rattle.journal_controls.specs.journal_packets.Senders.{IsOfSendersLink};
ghost use Rattle.journal_controls.specs.link_model.Acknowledgement.{is_acked};
ghost use Rattle.journal_controls.specs.link_model.Fixing.{data_cut};
ghost use Rattle.journal_controls.specs.link_model.Packets.{more_sent, pdu_sent};
ghost use Rattle.journal_controls.specs.link_model.keyed_control.Keyed.{Keyed};
ghost use Rattle.journal_controls.specs.run_model.History.{Event, Hearing, Transmitted};
ghost use Rattle.journal_controls.specs.run_model.Journal.{journal_of, side_of};
ghost use Rattle.journal_controls.specs.run_model.LinkEnds.{HaveAddresses};
ghost use Rattle.journal_controls.specs.run_model.Links.{is_advertising, links_of};
ghost use Rattle.journal_controls.specs.run_model.Run.{Given, history_of, run_of};
ghost use Rattle.journal_fixing.specs.EndPackets.{IsOfEnd};
ghost use Rattle.journal_fixing.specs.NextPdu.{data_waits, data_waits_after, more_with_new};
ghost use Rattle.journal_fixing.specs.NextPdu.{more_with_old};
ghost use Rattle.journal_fixing.specs.OnLines.{control_fixing};
ghost use Rattle.journal_fixing.specs.PastFixing.{facts_fixing};
ghost use Rattle.journal_controls.specs.journal_ends.Asked.{Words};
ghost use Rattle.journal_controls.specs.journal_ends.GivenWords.{GivesWords};

/// In a run of two stations, with any number of links each and whatever procedures they carry: each
/// packet off the advertising channels is of a link that its sender has open. Its octets carry the
/// PDU that this end sends, which is the one that the lines before it say, and the MD of that end
/// (Core 5.2, volume 6 part B, sections 2.1, 2.4 and 4.5.9).
pub fn each_packet_carries_the_pdu_and_md_of_its_end()
    ensures { (given : Given) (before rest : List Event) (station channel : ℕ)
        (octets : List ℕ) (hearings : List Hearing)
        → given.stations ≡ 0 ∷ 1 ∷ [] → HaveAddresses given
        → history_of (run_of given) ≡ before ++ Transmitted station channel octets hearings ∷ rest
        → is_advertising channel ≡ false → IsOfEnd given before station channel octets }
{
    journal_controls::a_pdu_is_understood();
    advertise::laws::connections_are_taken();
    scan_init::laws::searches_give_each_valid_address();
    air_frame::laws::packet_tells_its_pdu();
}

/// In such a run, MD of each packet of a link, at either role, follows from the end as it
/// fixed its next PDU by the lines before the packet, and from the data of the end
/// then. Where all PDUs of the end were acknowledged, MD says whether more waits after the PDU of
/// the packet. If a PDU is sent again, MD says whether more waited after that one, as the end fixed
/// its next PDU: what the end takes in this turn changes nothing of it (Core 5.2, volume 6 part B,
/// sections 4.5.6 and 4.5.9; when a PDU is fixed is our choice).
pub fn each_packet_tells_what_waits_by_the_lines()
    ensures new { (words : Words) (given : Given) (before rest : List Event) (station channel : ℕ)
        (octets : List ℕ) (hearings : List Hearing)
        (sent : IsOfSendersLink given before station channel octets) (fixing : Keyed)
        → given.stations ≡ 0 ∷ 1 ∷ [] → HaveAddresses given → GivesWords given words → Contains given.stations station
        → history_of (run_of given) ≡ before ++ Transmitted station channel octets hearings ∷ rest
        → control_fixing words (side_of station) ((links_of before).link_of station sent.handle)
        (journal_of before) ≡ Some fixing
        → let facts = facts_in sent.link in
        is_acked facts.acknowledgement ≡ true
        → more_sent facts ≡ more_with_new fixing (data_waits_after (pdu_sent facts)
        (data_cut (facts_fixing sent.link.setup sent.link.past))) }
    ensures again { (words : Words) (given : Given) (before rest : List Event) (station channel : ℕ)
        (octets : List ℕ) (hearings : List Hearing)
        (sent : IsOfSendersLink given before station channel octets) (fixing : Keyed)
        → given.stations ≡ 0 ∷ 1 ∷ [] → HaveAddresses given → GivesWords given words → Contains given.stations station
        → history_of (run_of given) ≡ before ++ Transmitted station channel octets hearings ∷ rest
        → control_fixing words (side_of station) ((links_of before).link_of station sent.handle)
        (journal_of before) ≡ Some fixing
        → let facts = facts_in sent.link in
        is_acked facts.acknowledgement ≡ false
        → more_sent facts ≡ more_with_old fixing facts.acknowledgement.last
        (data_waits (data_cut (facts_fixing sent.link.setup sent.link.past))) }
{
    journal_controls::a_pdu_is_understood();
    advertise::laws::connections_are_taken();
    scan_init::laws::searches_give_each_valid_address();
    air_frame::laws::packet_tells_its_pdu();
}
