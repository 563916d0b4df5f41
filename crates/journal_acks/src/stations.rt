//! The exchanges on all links of two stations. The body only calls the laws that it rests on: the
//! contract is the law.
ghost use Rattle.std.specs.Prelude.{◌≡◌, ◌++◌, ◌∷◌, [], ℕ, Bool, List, Some, false, true};
ghost use Rattle.std.specs.List.{Contains};
ghost use Rattle.ble_base.specs.declared.roles.Side.{Side};
ghost use Rattle.ble_base.specs.declared.verdicts.Verdict.{Verdict};
ghost use Rattle.journal.specs.declared.entries.Entry.{Entry};
ghost use Rattle.journal.specs.declared.entries.Entry.TheVariants.{Air, Enter, Sent};
ghost use Rattle.journal.specs.declared.entries.Mark.{Mark};
ghost use Rattle.journal_packets.specs.open_links.OpenLinks.{OpenLink, facts_in, link_at};
ghost use Rattle.link_calls.specs.run_model.History.{Event, Hearing, Transmitted, TurnBegan};
ghost use Rattle.link_calls.specs.run_model.History.{is_handed};
ghost use Rattle.link_calls.specs.run_model.Journal.{journal_of, side_of};
ghost use Rattle.link_calls.specs.run_model.LinkEnds.{HaveAddresses};
ghost use Rattle.link_calls.specs.run_model.Links.{is_advertising, links_of};
ghost use Rattle.link_calls.specs.run_model.Run.{Given, GoesOn, facts_at, history_of, run_of};
ghost use Rattle.journal_acks.specs.Carried.{IsLinkPacket, IsNewPdu};
ghost use Rattle.journal_acks.specs.Counted.{IsCounted};
ghost use Rattle.journal_acks.specs.EventOrder.{entered_on};
ghost use Rattle.journal_acks.specs.Exchange.{exchange_of};
ghost use Rattle.journal_acks.specs.HeardBy.{IsHeardLine};
ghost use Rattle.journal_acks.specs.Held.{HasPayloadOfEnd};

/// In a run of two stations, with any number of links each: before each turn, and at the end of a
/// whole run, each open end of a link has sent and accepted as many PDUs as the journal says, and
/// as many of its own are acknowledged to it. Each packet off the advertising channels is one of a
/// link, with the channel, the access address, the bits and the PDU that the lines before it give,
/// in clear or sealed. Its payload on the air is the one that its end made as it sent the PDU
/// first. Where the other side judges it good or forged, it does as the end of one of its links, of
/// which the lines count what it sent and accepted; and each new PDU goes out after all PDUs of its
/// side on its link are acknowledged. Each side enters the events 0, 1, 2, .. of a link one after
/// another, each once (Core 5.2, volume 6 part B, sections 2.1, 2.4, 4.5.1 and 4.5.9).
pub fn links_of_two_stations_keep_to_the_journal()
    ensures counts_before_a_turn { (given : Given) (before rest : List Event) (slot : ℕ)
        (radios : List Bool) (station handle : ℕ) (link : OpenLink)
        → given.stations ≡ 0 ∷ 1 ∷ [] → HaveAddresses given → Contains given.stations station
        → history_of (run_of given) ≡ before ++ TurnBegan slot radios ∷ rest
        → link_at handle (facts_at given station before).links ≡ Some link
        → IsCounted (exchange_of ((links_of before).link_of station handle) (journal_of before)
        (side_of station)) (facts_in link).acknowledgement }
    ensures counts_at_the_end { (given : Given) (history : List Event) (station handle : ℕ)
        (link : OpenLink)
        → given.stations ≡ 0 ∷ 1 ∷ [] → HaveAddresses given → Contains given.stations station
        → run_of given ≡ GoesOn history
        → link_at handle (facts_at given station history).links ≡ Some link
        → IsCounted (exchange_of ((links_of history).link_of station handle) (journal_of history)
        (side_of station)) (facts_in link).acknowledgement }
    ensures packets { (given : Given) (front rest : List Entry) (side : Side) (channel : ℕ)
        (octets : List ℕ) (fate : Mark) (verdict : Verdict)
        → given.stations ≡ 0 ∷ 1 ∷ [] → HaveAddresses given
        → journal_of (history_of (run_of given))
        ≡ front ++ Air side channel octets fate verdict ∷ rest
        → is_advertising channel ≡ false → IsLinkPacket front side channel octets }
    ensures payloads { (given : Given) (before rest : List Event) (station channel : ℕ)
        (octets : List ℕ) (hearings : List Hearing)
        → given.stations ≡ 0 ∷ 1 ∷ [] → HaveAddresses given
        → history_of (run_of given) ≡ before ++ Transmitted station channel octets hearings ∷ rest
        → is_advertising channel ≡ false → HasPayloadOfEnd given before station channel octets }
    ensures hearings { (given : Given) (front rest : List Entry) (side : Side) (channel : ℕ)
        (octets : List ℕ) (fate : Mark) (verdict : Verdict)
        → given.stations ≡ 0 ∷ 1 ∷ [] → HaveAddresses given
        → journal_of (history_of (run_of given))
        ≡ front ++ Air side channel octets fate verdict ∷ rest
        → is_advertising channel ≡ false → is_handed verdict ≡ true
        → IsHeardLine given front side channel octets fate verdict }
    ensures new_pdus { (given : Given) (front rest : List Entry) (side : Side)
        (number count llid : ℕ) (body : List ℕ)
        → given.stations ≡ 0 ∷ 1 ∷ [] → HaveAddresses given
        → journal_of (history_of (run_of given))
        ≡ front ++ Sent side number count llid body ∷ rest
        → IsNewPdu number front side (record { llid = llid; body = body }) }
    ensures events { (given : Given) (front rest : List Entry) (side : Side)
        (number event channel : ℕ)
        → given.stations ≡ 0 ∷ 1 ∷ [] → HaveAddresses given
        → journal_of (history_of (run_of given))
        ≡ front ++ Enter side number event channel ∷ rest
        → event ≡ entered_on side number front }
{
    journal_packets::a_pdu_is_understood();
    advertise::laws::connections_are_taken();
    scan_init::laws::searches_give_each_valid_address();
    air_frame::laws::packet_tells_its_pdu();
    link_calls::each_packet_on_the_air_is_due();
}
