//! The ranges of what happens to the open ends of a run, and what follows for the PDUs that they
//! send. The bodies only call the laws that they rest on: the contracts are the laws.
ghost use Rattle.std.specs.Prelude.{◌≡◌, ◌≤◌, ◌++◌, ℕ, true, List, Some, length};
ghost use Rattle.std.specs.List.{Contains};
ghost use Rattle.run_model.specs.link_model.Acknowledgement.{empty_pdu};
ghost use Rattle.run_model.specs.link_model.Controls.{pdu_fixed};
ghost use Rattle.run_model.specs.link_model.Data.{is_empty};
ghost use Rattle.run_model.specs.link_model.Hearing.{IsUnderstood};
ghost use Rattle.run_model.specs.link_model.Packets.{payload_sent, pdu_sent};
ghost use Rattle.run_model.specs.link_model.Payload.{CanOpen, payload_made};
ghost use Rattle.run_model.specs.link_model.enc_phase.Sealing.{EncEnd};
ghost use Rattle.run_model.specs.open_links.OpenLinks.{OpenLink, facts_in, link_at};
ghost use Rattle.run_model.specs.Feeding.{AreDistinct};
ghost use Rattle.run_model.specs.History.{Event};
ghost use Rattle.run_model.specs.Run.{Given, facts_at, history_of, run_of};
ghost use Rattle.run_laws.specs.Ranges.{HasRanges, IsReadable};

/// At any time of a run, what the host of an open end asked and answered is in range, and the most
/// octets of a payload that the end receives are 27 to 251 (Core 5.2, volume 6 part B, sections
/// 4.5.10 and 5.1).
pub fn what_hosts_ask_is_in_range()
    ensures { (given : Given) (before rest : List Event) (station handle : ℕ) (link : OpenLink)
        → AreDistinct given.stations → Contains given.stations station
        → history_of (run_of given) ≡ before ++ rest
        → link_at handle (facts_at given station before).links ≡ Some link → HasRanges link }
{}

/// The PDU that an end sends next is the empty one, or it has an octet and a LLID in use: a control
/// PDU has its opcode, and a piece of data an octet at least (Core 5.2, volume 6 part B, sections
/// 2.4 and 4.5.10).
pub fn what_is_sent_is_empty_or_has_octets()
    ensures { (link : OpenLink) → HasRanges link → is_empty (pdu_fixed (facts_in link)) ≡ true
        → pdu_fixed (facts_in link) ≡ empty_pdu }
{}

/// The packet that an end sends is in form in all phases of encryption: its PDU has at most 251
/// octets, and its payload on the air is the body of the PDU or has four octets more. An open end
/// understands each packet of the far end on its channel whose PDU has no more octets than it
/// receives, if it can open what the far end made: both are clear in that direction, or both have
/// one session and one counter (Core 5.2, volume 6 part B, sections 2.4, 4.5.10 and 5.1.3).
pub fn packets_are_understood_on_their_channel()
    ensures readable { (link : OpenLink) → HasRanges link → IsReadable (facts_in link) }
    ensures understood { (from to : OpenLink) (made : EncEnd) → HasRanges from
        → from.setup.link.fields ≡ to.setup.link.fields
        → (facts_in from).event.channel ≡ (facts_in to).event.channel
        → payload_sent (facts_in from) ≡ payload_made made (pdu_sent (facts_in from))
        → CanOpen made (facts_in to).encryption.end
        → length (pdu_sent (facts_in from)).body ≤ to.setup.link.max_rx
        → IsUnderstood from.setup (facts_in from) to.setup (facts_in to) }
{
    run_model::a_sealed_packet_is_opened();
}
