//! Laws of one end of a link: which PDU it fixes, which one it sends then, and what MD says. The
//! bodies are empty: the contracts are the laws.
ghost use Rattle.std.specs.Prelude.{◌≡◌, ◌≤◌, ◌&&◌, ℕ, Bool, List, Some, false, is_some, not, true};
ghost use Rattle.ble_base.specs.declared.roles.Role.{Role};
ghost use Rattle.data_pdu.specs.Header.{header_in};
ghost use Rattle.data_pdu.specs.declared.header.DataHeader.{DataHeader};
ghost use Rattle.journal_controls.specs.LineSteps.{is_more_acked};
ghost use Rattle.journal_controls.specs.OneEnd.{IsToldOf};
ghost use Rattle.journal_controls.specs.journal_acks.Exchange.{Exchanged};
ghost use Rattle.journal_controls.specs.link_model.Acknowledgement.{Pdu, is_acked};
ghost use Rattle.journal_controls.specs.link_model.Data.{Data, is_control, is_empty, next_piece};
ghost use Rattle.journal_controls.specs.link_model.Data.{pdu_with};
ghost use Rattle.journal_controls.specs.link_model.End.{facts_after, facts_of};
ghost use Rattle.journal_controls.specs.link_model.Facts.{Facts, keyed_of};
ghost use Rattle.journal_controls.specs.link_model.Fixing.{data_cut};
ghost use Rattle.journal_controls.specs.link_model.Packets.{good_pdu, more_sent, pdu_sent};
ghost use Rattle.journal_controls.specs.link_model.Receiving.{acks_control};
ghost use Rattle.journal_controls.specs.link_model.Receiving.{has_acknowledged, keyed_acked_if};
ghost use Rattle.journal_controls.specs.link_model.Setup.{Setup};
ghost use Rattle.journal_controls.specs.link_model.Step.{Step, PacketReceived, PduFixed};
ghost use Rattle.journal_controls.specs.link_model.keyed_control.Keyed.{Keyed};
ghost use Rattle.journal_fixing.specs.NextPdu.{IsFixedBy, data_waits, data_waits_after};
ghost use Rattle.journal_fixing.specs.NextPdu.{more_with_new, more_with_old, pdu_next};

/// An end fixes its next PDU by its procedures and its phase, and by its data, which is cut at the
/// effective length of that time. The end stays as it is. A control PDU that has left the queue and
/// is not sent would stay fixed (Core 5.2, volume 6 part B, sections 4.5.6 and 4.5.10; when a PDU
/// is fixed is our choice).
pub fn a_pdu_is_fixed_by_the_control_part()
    ensures stays { (setup : Setup) (facts : Facts)
        → keyed_of (facts_after setup facts PduFixed) ≡ keyed_of facts }
    ensures fixed { (setup : Setup) (past : List Step) → let facts = facts_of setup past in
        is_control facts.outgoing.fixed ≡ false
        → IsFixedBy (keyed_of facts) (data_cut facts) (facts_after setup facts PduFixed) }
{}

/// An end that fixed its PDU sends it where the last one is acknowledged, and MD says whether more
/// waits after it. Otherwise it sends the last one again, and MD says whether more waited after that
/// as it fixed its PDU (Core 5.2, volume 6 part B, sections 4.5.6 and 4.5.9).
pub fn an_end_sends_the_pdu_that_it_fixed()
    ensures pdu { (fixing : Keyed) (outgoing : Data) (setup : Setup) (past : List Step)
        → let facts = facts_of setup past in IsFixedBy fixing outgoing facts
        → is_acked facts.acknowledgement ≡ true
        → pdu_sent facts ≡ pdu_next fixing (keyed_of facts) (next_piece outgoing) }
    ensures more_new { (fixing : Keyed) (outgoing : Data) (setup : Setup) (past : List Step)
        → let facts = facts_of setup past in IsFixedBy fixing outgoing facts
        → is_acked facts.acknowledgement ≡ true
        → more_sent facts ≡ more_with_new fixing (data_waits_after (pdu_sent facts) outgoing) }
    ensures more_old { (fixing : Keyed) (outgoing : Data) (setup : Setup) (past : List Step)
        → let facts = facts_of setup past in IsFixedBy fixing outgoing facts
        → is_acked facts.acknowledgement ≡ false
        → more_sent facts ≡ more_with_old fixing facts.acknowledgement.last (data_waits outgoing) }
{}

/// A peripheral that fixed its PDU and then hears a good packet of the central answers with that
/// PDU where its last one is acknowledged. A control PDU leaves the queue once the packet has
/// acknowledged the last one, and before its own PDU is taken. MD is as it was fixed. Else it sends
/// the last one again, and MD tells whether more waited after that as it fixed its PDU: the PDU of
/// the central changes nothing of it (Core 5.2, volume 6 part B, sections 4.5.6 and 4.5.9; the order
/// is our choice).
pub fn a_peripheral_answers_with_the_pdu_that_it_fixed()
    ensures pdu { (setup : Setup) (past : List Step) (slot : ℕ) (octets pdu : List ℕ)
        (room : Bool) (fixing : Keyed) (outgoing : Data) → let facts = facts_of setup past in
        setup.link.role ≡ Role.Peripheral → IsFixedBy fixing outgoing facts
        → good_pdu setup facts octets ≡ Some pdu
        → let heard = facts_after setup facts (PacketReceived slot octets room) in
        is_acked heard.acknowledgement ≡ true
        → pdu_sent heard ≡ pdu_next fixing
        (keyed_acked_if (acks_control (has_acknowledged facts (header_in pdu)) facts)
        (keyed_of facts)) (next_piece outgoing) }
    ensures more_new { (setup : Setup) (past : List Step) (slot : ℕ) (octets pdu : List ℕ)
        (room : Bool) (fixing : Keyed) (outgoing : Data) → let facts = facts_of setup past in
        setup.link.role ≡ Role.Peripheral → IsFixedBy fixing outgoing facts
        → good_pdu setup facts octets ≡ Some pdu
        → let heard = facts_after setup facts (PacketReceived slot octets room) in
        is_acked heard.acknowledgement ≡ true
        → more_sent heard ≡ more_with_new fixing (data_waits_after (pdu_sent heard) outgoing) }
    ensures more_old { (setup : Setup) (past : List Step) (slot : ℕ) (octets pdu : List ℕ)
        (room : Bool) (fixing : Keyed) (outgoing : Data) → let facts = facts_of setup past in
        setup.link.role ≡ Role.Peripheral → IsFixedBy fixing outgoing facts
        → good_pdu setup facts octets ≡ Some pdu
        → let heard = facts_after setup facts (PacketReceived slot octets room) in
        is_acked heard.acknowledgement ≡ false
        → more_sent heard ≡ more_with_old fixing heard.acknowledgement.last (data_waits outgoing) }
{}

/// Lines that tell of an end that hears tell whether the packet acknowledges a control PDU of it
/// (Core 5.2, volume 6 part B, section 4.5.9).
pub fn lines_tell_whether_a_control_pdu_is_acknowledged()
    ensures { (role : Role) (facts : Facts) (header : DataHeader) (before after : Exchanged)
        (last : Pdu) → IsToldOf role facts header before after last
        → (is_more_acked before after && is_control last)
        ≡ acks_control (has_acknowledged facts header) facts }
{}

/// A piece of data is next exactly where octets wait that were not sent, and then it has an octet
/// at least (Core 5.2, volume 6 part B, sections 2.4.1 and 4.5.10).
pub fn a_piece_is_next_where_octets_wait()
    ensures waits { (outgoing : Data) → is_some (next_piece outgoing) ≡ data_waits outgoing }
    ensures full { (outgoing : Data) → 1 ≤ outgoing.limit
        → not (is_empty (pdu_with (next_piece outgoing))) ≡ data_waits outgoing }
{}
