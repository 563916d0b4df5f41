//! Laws of one end of a link: how it leaves goes by its lines, by the packet that it hears and by
//! those that it sends. The bodies are empty: the contracts are the laws.
ghost use Rattle.std.specs.Prelude.{◌≡◌, ℕ, Bool, List, None, Option, Result, Some};
ghost use Rattle.ble_base.specs.declared.error_codes.ErrCode.{ErrCode};
ghost use Rattle.ble_base.specs.declared.roles.Side.{Side};
ghost use Rattle.data_pdu.specs.Header.{header_in};
ghost use Rattle.journal_controls.specs.Withheld.{nothing_withheld};
ghost use Rattle.journal_controls.specs.LineSteps.{is_more_acked};
ghost use Rattle.journal_controls.specs.OneEnd.{IsToldOf};
ghost use Rattle.journal_controls.specs.journal_acks.Exchange.{Exchanged};
ghost use Rattle.journal_controls.specs.link_model.Acknowledgement.{Pdu};
ghost use Rattle.journal_controls.specs.link_model.End.{facts_after, facts_of, notes_after};
ghost use Rattle.journal_controls.specs.link_model.Facts.{Facts, keyed_of};
ghost use Rattle.journal_controls.specs.link_model.Packets.{good_pdu};
ghost use Rattle.journal_controls.specs.link_model.Receiving.{leaving_acked_if};
ghost use Rattle.journal_controls.specs.link_model.Sending.{leaving_sent};
ghost use Rattle.journal_controls.specs.link_model.Setup.{Setup};
ghost use Rattle.journal_controls.specs.link_model.Step.{Step, KeyAnswered, PacketReceived};
ghost use Rattle.journal_controls.specs.link_model.Step.{PacketSent, RequestAnswered};
ghost use Rattle.journal_controls.specs.link_model.keyed_control.KeyedSteps.{LacksKey};
ghost use Rattle.journal_controls.specs.link_model.procedure_values.declared.asks.Ask.{Ask};
ghost use Rattle.journal_controls.specs.Hearing.{keyed_hearing};
ghost use Rattle.journal_leaving.specs.Hearing.{leaving_hearing};
ghost use Rattle.journal_leaving.specs.Lacking.{leaving_answering, leaving_refusing};
ghost use Rattle.journal_leaving.specs.Leaving.{acks_terminate};
ghost use Rattle.journal_leaving.specs.Said.{leaving_noted};

/// As a good packet reaches an end, it may acknowledge LL_TERMINATE_IND of the end, by what the
/// lines say of it (Core 5.2, volume 6 part B, sections 4.5.9 and 5.1.6).
pub fn lines_tell_how_an_end_that_hears_leaves()
    ensures { (slot : ℕ) (setup : Setup) (facts : Facts) (before after : Exchanged) (last : Pdu)
        (pdu : List ℕ) → IsToldOf setup.link.role facts (header_in pdu) before after last
        → leaving_acked_if (acks_terminate (is_more_acked before after) last) facts.leaving
        ≡ leaving_hearing setup.link.role slot (Some pdu) facts }
{}

/// A host that answers that it has no key makes an end that awaits one after a pause leave its link,
/// from the slot of the answer on; where the start may be refused, and where a key is given, the end
/// stays as it was, and so it does where a host answers a request for parameters. An answer that is
/// given at once does the same (Core 5.2, volume 6 part B, sections 5.1.3.1, 5.1.3.2 and 5.1.6).
pub fn a_lacking_key_moves_how_an_end_leaves()
    ensures answered { (setup : Setup) (facts : Facts) (key : Option (List ℕ)) (slot : ℕ)
        → (facts_after setup facts (KeyAnswered key slot)).leaving
        ≡ leaving_answering (keyed_of facts) facts.leaving (KeyAnswered key slot) }
    ensures requests { (setup : Setup) (facts : Facts) (answer : Result Ask ErrCode)
        → (facts_after setup facts (RequestAnswered answer)).leaving
        ≡ leaving_answering (keyed_of facts) facts.leaving (RequestAnswered answer) }
    ensures at_once { (setup : Setup) (facts : Facts) (slot : ℕ)
        → (facts_after setup facts (KeyAnswered None slot)).leaving
        ≡ leaving_refusing slot (keyed_of facts) (Some LacksKey) facts.leaving }
{}

/// Then the end moves by the lines that it says, where nothing is withheld from its host (Core 5.2,
/// volume 6 part B, section 5.1.6).
pub fn a_packet_moves_how_an_end_leaves_by_its_lines()
    ensures { (side : Side) (number slot : ℕ) (room : Bool) (setup : Setup) (past : List Step)
        (octets : List ℕ)
        → let facts = facts_of setup past in let heard = good_pdu setup facts octets in
        (facts_after setup facts (PacketReceived slot octets room)).leaving
        ≡ leaving_noted side number nothing_withheld facts.encryption.response slot
        (notes_after setup facts (PacketReceived slot octets room))
        (keyed_hearing setup.link.role slot heard facts)
        (leaving_hearing setup.link.role slot heard facts) }
{}

/// Each packet that an end sends is one more that it sent since it took LL_TERMINATE_IND, if it
/// did (Core 5.2, volume 6 part B, section 5.1.6).
pub fn an_end_that_sends_has_answered()
    ensures { (slot : ℕ) (setup : Setup) (facts : Facts)
        → (facts_after setup facts (PacketSent slot)).leaving ≡ leaving_sent facts.leaving }
{}
