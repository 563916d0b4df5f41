//! Laws of one end of a link: what moves its control part, its phase and its keys is what its lines
//! say, and what they say of the packets that it hears. The bodies are empty: the contracts are the laws.
ghost use Rattle.std.specs.Prelude.{◌≡◌, ◌+◌, ℕ, Bool, List, [], Option, Some, length};
ghost use Rattle.ble_base.specs.declared.roles.Role.{Role};
ghost use Rattle.ble_base.specs.declared.roles.Side.{Side};
ghost use Rattle.ble_base.specs.declared.verdicts.Verdict.TheVariants.{Forged};
ghost use Rattle.data_pdu.specs.Header.{header_in};
ghost use Rattle.journal_ends.specs.journal_acks.Carried.{SentLine, pdu_carried};
ghost use Rattle.journal_ends.specs.journal_acks.Exchange.{Exchanged};
ghost use Rattle.journal_ends.specs.journal_links.Begun.{LinkBegun};
ghost use Rattle.journal_ends.specs.journal_links.Changes.{role_on};
ghost use Rattle.journal_ends.specs.link_model.Acknowledgement.{Pdu};
ghost use Rattle.journal_ends.specs.link_model.End.{facts_after, facts_of, notes_after};
ghost use Rattle.journal_ends.specs.link_model.Facts.{Facts, first_facts, keyed_of};
ghost use Rattle.journal_ends.specs.link_model.Packets.{good_pdu, verdict_of};
ghost use Rattle.journal_ends.specs.link_model.Setup.{Setup};
ghost use Rattle.journal_ends.specs.link_model.Step.{Step, EventEntered, PacketReceived};
ghost use Rattle.journal_ends.specs.link_model.Step.{PacketSent};
ghost use Rattle.journal_ends.specs.link_model.keyed_control.declared.material.Response.{Response};
ghost use Rattle.journal_controls.specs.KeyedLines.{Forges, has_next, keyed_by, keyed_by_all};
ghost use Rattle.journal_controls.specs.LineSteps.{keyed_begun, steps_heard};
ghost use Rattle.journal_controls.specs.OneEnd.{IsToldOf, steps_noted};

/// As an end enters an event, its control part, its phase and its keys go by the steps of the lines
/// that it says then (Core 5.2, volume 6 part B, sections 4.5.1, 5.1 and 5.5).
pub fn an_entry_moves_the_control_part_by_its_lines()
    ensures { (side : Side) (number slot : ℕ) (response : Response) (setup : Setup)
        (facts : Facts)
        → keyed_of (facts_after setup facts (EventEntered slot))
        ≡ keyed_by_all (steps_noted side number setup.link.role response slot
        (notes_after setup facts (EventEntered slot))) (keyed_of facts) }
{}

/// As an end sends its packet, its control part, its phase and its keys go by the steps of the lines
/// that it says then: a new PDU that is not empty takes a counter where it is sealed. A central may
/// send at any time. A peripheral sends after it heard a good packet, and its control part moved
/// then: now it does not (Core 5.2, volume 6 part B, sections 4.5.9 and 5.1.3).
pub fn a_sending_moves_the_control_part_by_its_lines()
    ensures central { (side : Side) (number slot : ℕ) (response : Response) (setup : Setup)
        (past : List Step)
        → setup.link.role ≡ Role.Central → let facts = facts_of setup past in
        keyed_of (facts_after setup facts (PacketSent slot))
        ≡ keyed_by_all (steps_noted side number Role.Central response slot
        (notes_after setup facts (PacketSent slot))) (keyed_of facts) }
    ensures peripheral { (side : Side) (number slot slot_heard : ℕ) (response : Response)
        (octets pdu : List ℕ) (room : Bool) (setup : Setup) (facts : Facts)
        → setup.link.role ≡ Role.Peripheral → good_pdu setup facts octets ≡ Some pdu
        → let now = facts_after setup facts (PacketReceived slot_heard octets room) in
        keyed_of (facts_after setup now (PacketSent slot))
        ≡ keyed_by_all (steps_noted side number Role.Peripheral response slot
        (notes_after setup now (PacketSent slot))) (keyed_of now) }
{}

/// As a good packet reaches an end, its control part, its phase and its keys go by the steps of a
/// packet that is heard, with what the lines say of it, and then by those of the lines that the end
/// says then: a new PDU that is not empty takes a counter where it is sealed (Core 5.2, volume 6
/// part B, sections 4.5.9, 5.1 and 5.1.3).
pub fn a_good_packet_moves_the_control_part_by_its_lines()
    ensures { (side : Side) (number slot : ℕ) (octets pdu : List ℕ) (room : Bool) (setup : Setup)
        (facts : Facts) (before after : Exchanged) (last : Pdu)
        → good_pdu setup facts octets ≡ Some pdu
        → IsToldOf setup.link.role facts (header_in pdu) before after last
        → keyed_of (facts_after setup facts (PacketReceived slot octets room))
        ≡ keyed_by_all (steps_noted side number setup.link.role facts.encryption.response slot
        (notes_after setup facts (PacketReceived slot octets room)))
        (keyed_by_all
        (steps_heard setup.link.role slot before after last (has_next (keyed_of facts)))
        (keyed_of facts)) }
{}

/// A packet that an end judges forged ends its link, and moves nothing else of its control part, its
/// phase and its keys; the end says no line then (Core 5.2, volume 6 part B, section 5.1.3.1).
pub fn a_forged_packet_ends_the_control_part()
    ensures moves { (setup : Setup) (facts : Facts) (slot : ℕ) (octets : List ℕ) (room : Bool)
        → verdict_of setup facts octets ≡ Forged
        → keyed_of (facts_after setup facts (PacketReceived slot octets room))
        ≡ keyed_by Forges (keyed_of facts) }
    ensures says_none { (setup : Setup) (facts : Facts) (slot : ℕ) (octets : List ℕ)
        (room : Bool) → verdict_of setup facts octets ≡ Forged
        → notes_after setup facts (PacketReceived slot octets room) ≡ [] }
{}

/// Where a journal counts what an end has sent, and how many of it are acknowledged, before a good
/// packet reaches the end and after it, and has the line of the PDU that the end sent last, it
/// tells of the end all that moves the control part as the packet is heard. A peripheral has fixed
/// a control PDU where one waits: that it has is the premise of this law (Core 5.2, volume 6 part
/// B, section 4.5.9).
pub fn counts_tell_of_an_end_that_hears()
    ensures { (setup : Setup) (past : List Step) (slot : ℕ) (octets pdu : List ℕ) (room : Bool)
        (before after : Exchanged) (line : Option SentLine)
        → let facts = facts_of setup past in
        let now = (facts_after setup facts (PacketReceived slot octets room)).acknowledgement in
        good_pdu setup facts octets ≡ Some pdu
        → before.acked ≡ facts.acknowledgement.acked
        → after.acked ≡ now.acked → after.sent ≡ length now.sent
        → ((count : ℕ) → count + 1 ≡ length facts.acknowledgement.sent
        → facts.acknowledgement.last ≡ pdu_carried line count)
        → (setup.link.role ≡ Role.Peripheral → facts.fixes_control ≡ has_next (keyed_of facts))
        → IsToldOf setup.link.role facts (header_in pdu) before after
        (pdu_carried line before.acked) }
{}

/// The control part of an end, its phase and its keys begin as those of its link do by the journal,
/// where the link has the fields and the turn of its CONNECT_IND, and the end has the role of its
/// side (Core 5.2, volume 6 part B, sections 2.3.3.1, 4.5.3 and 4.5.10).
pub fn an_end_begins_with_the_control_part_of_its_link()
    ensures { (side : Side) (link : LinkBegun) (setup : Setup)
        → link.fields ≡ setup.link.fields → link.slot ≡ setup.opened
        → role_on link side ≡ setup.link.role
        → keyed_begun setup.link.max_rx side (Some link) ≡ Some (keyed_of (first_facts setup)) }
{}
