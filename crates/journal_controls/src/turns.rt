//! Laws of one end in a turn: its control part, its phase and its keys go by the lines that the end
//! says in it, and by the packet that it hears. The bodies are empty: the contracts are the laws.
ghost use Rattle.std.specs.Prelude.{◌≡◌, ℕ, Bool, List, Some, fold, true};
ghost use Rattle.ble_base.specs.declared.roles.Role.{Role};
ghost use Rattle.ble_base.specs.declared.roles.Side.{Side};
ghost use Rattle.data_pdu.specs.Header.{header_in};
ghost use Rattle.journal_ends.specs.journal_acks.Exchange.{Exchanged};
ghost use Rattle.journal_ends.specs.link_model.Acknowledgement.{Pdu};
ghost use Rattle.journal_ends.specs.link_model.End.{facts_after, facts_of, notes_from};
ghost use Rattle.journal_ends.specs.link_model.Facts.{keyed_of};
ghost use Rattle.journal_ends.specs.link_model.Packets.{good_pdu};
ghost use Rattle.journal_ends.specs.link_model.Setup.{Setup};
ghost use Rattle.journal_ends.specs.link_model.Step.{Step};
ghost use Rattle.journal_ends.specs.link_model.keyed_control.declared.material.Response.{Response};
ghost use Rattle.journal_controls.specs.KeyedLines.{has_next, keyed_by_all};
ghost use Rattle.journal_controls.specs.LineSteps.{steps_heard};
ghost use Rattle.journal_controls.specs.OneEnd.{IsToldOf, steps_noted};
ghost use Rattle.journal_controls.specs.TurnSteps.{steps_begun, steps_taken};

/// As a turn begins, an end may enter an event, fix its next PDU, and send as a central: whichever
/// of these it does, its control part, its phase and its keys go by the steps of the lines that it
/// says in them (Core 5.2, volume 6 part B, section 4.5.1).
pub fn a_turn_that_begins_moves_the_control_part_by_its_lines()
    ensures { (side : Side) (number slot : ℕ) (response : Response) (setup : Setup)
        (past : List Step) (enters fixes sends : Bool)
        → (sends ≡ true → setup.link.role ≡ Role.Central)
        → let facts = facts_of setup past in
        let steps = steps_begun enters fixes sends slot in
        keyed_of (fold (facts_after setup) facts steps)
        ≡ keyed_by_all
        (steps_noted side number setup.link.role response slot (notes_from setup facts steps))
        (keyed_of facts) }
{}

/// As an end takes a good packet, and may answer it as a peripheral, its control part, its phase and
/// its keys go by the steps of a packet that is heard, with what the lines say of it, and then by
/// those of the lines that the end says (Core 5.2, volume 6 part B, sections 4.5.1, 4.5.9 and
/// 5.1.3).
pub fn a_packet_that_is_taken_moves_the_control_part_by_its_lines()
    ensures { (side : Side) (number slot : ℕ) (octets pdu : List ℕ) (room answers : Bool)
        (setup : Setup) (past : List Step) (before after : Exchanged) (last : Pdu)
        → (answers ≡ true → setup.link.role ≡ Role.Peripheral)
        → let facts = facts_of setup past in good_pdu setup facts octets ≡ Some pdu
        → IsToldOf setup.link.role facts (header_in pdu) before after last
        → let steps = steps_taken slot octets room answers in
        keyed_of (fold (facts_after setup) facts steps)
        ≡ keyed_by_all (steps_noted side number setup.link.role facts.encryption.response slot
        (notes_from setup facts steps))
        (keyed_by_all
        (steps_heard setup.link.role slot before after last (has_next (keyed_of facts)))
        (keyed_of facts)) }
{}
