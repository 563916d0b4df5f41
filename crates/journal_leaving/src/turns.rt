//! Laws of how one end leaves its link, in a turn. The bodies are empty: the contracts are the laws.
ghost use Rattle.std.specs.Prelude.{◌≡◌, ℕ, Bool, List, fold};
ghost use Rattle.ble_base.specs.declared.roles.Side.{Side};
ghost use Rattle.journal_controls.specs.Withheld.{Withheld, nothing_withheld};
ghost use Rattle.journal_controls.specs.TurnSteps.{steps_begun, steps_taken};
ghost use Rattle.journal_controls.specs.link_model.End.{facts_after, facts_of, notes_from};
ghost use Rattle.journal_controls.specs.link_model.Facts.{Facts};
ghost use Rattle.journal_controls.specs.link_model.Packets.{good_pdu};
ghost use Rattle.journal_controls.specs.link_model.Setup.{Setup};
ghost use Rattle.journal_controls.specs.link_model.Step.{Step};
ghost use Rattle.journal_controls.specs.link_model.keyed_control.Keyed.{Keyed};
ghost use Rattle.journal_controls.specs.link_model.keyed_control.declared.material.Response.{Response};
ghost use Rattle.journal_controls.specs.Hearing.{keyed_hearing};
ghost use Rattle.journal_leaving.specs.Hearing.{leaving_hearing};
ghost use Rattle.journal_leaving.specs.Leaving.{leaving_sent_if};
ghost use Rattle.journal_leaving.specs.Said.{leaving_noted};

/// As a turn begins, an end may enter an event, fix its next PDU, and send: it moves by the lines
/// that it says in these, whatever its control part and its keys, and then by its packet, if it
/// sends one (Core 5.2, volume 6 part B, section 4.5.1).
pub fn a_turn_that_begins_moves_how_an_end_leaves_by_its_lines()
    ensures { (side : Side) (number slot : ℕ) (setup : Setup) (facts : Facts)
        (withheld : Withheld) (enters fixes sends : Bool) (response : Response) (k : Keyed)
        → let steps = steps_begun enters fixes sends slot in
        (fold (facts_after setup) facts steps).leaving
        ≡ leaving_sent_if sends
        (leaving_noted side number withheld response slot (notes_from setup facts steps) k
        facts.leaving) }
{}

/// As a packet reaches an end, and it may answer it, it moves by the lines that it says, from what
/// it was as the packet reached it, where nothing is withheld from its host, and then by its own
/// packet, if it answers (Core 5.2, volume 6 part B, sections 4.5.9 and 5.1.6).
pub fn a_packet_that_is_taken_moves_how_an_end_leaves_by_its_lines()
    ensures { (side : Side) (number slot : ℕ) (octets : List ℕ) (room answers : Bool)
        (setup : Setup) (past : List Step)
        → let facts = facts_of setup past in let steps = steps_taken slot octets room answers in
        let heard = good_pdu setup facts octets in
        (fold (facts_after setup) facts steps).leaving
        ≡ leaving_sent_if answers
        (leaving_noted side number nothing_withheld facts.encryption.response slot
        (notes_from setup facts steps) (keyed_hearing setup.link.role slot heard facts)
        (leaving_hearing setup.link.role slot heard facts)) }
{}
