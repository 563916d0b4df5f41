//! Worked examples, which the definitions compute.
ghost use Rattle.std.specs.Prelude.{◌≡◌, [], ◌∷◌};
ghost use Rattle.ble_base.specs.declared.roles.Side.TheVariants.{A, B};
ghost use Rattle.ble_base.specs.declared.verdicts.Verdict.TheVariants.{Broken, Good, Missed};
ghost use Rattle.journal.specs.declared.entries.Mark.TheVariants.{Damage};
ghost use Rattle.journal_wants.specs.journal_controls.journal_ends.Left.{left_of};
ghost use Rattle.journal_wants.specs.controller_model.declared.doing.Doing.TheVariants.{AwaitsRequest};
ghost use Rattle.journal_wants.specs.controller_model.declared.doing.Doing.TheVariants.{CentralListens};
ghost use Rattle.journal_wants.specs.journal_controls.journal_ends.Rows.{some_words};
ghost use Rattle.journal_wants.specs.run_model.Rows.{first_packet, first_reply, one_connection_journal};
ghost use Rattle.journal_wants.specs.run_model.Rows.{one_event_journal};
ghost use Rattle.journal_wants.specs.Rows.{two_setups};
ghost use Rattle.journal_moves.specs.Doing.{doing_on};
ghost use Rattle.journal_moves.specs.Moves.{IsOwed, NothingIsOwed};
ghost use Rattle.journal_moves.specs.Rows.{advertised, anchor_begins, central_sent};
ghost use Rattle.journal_moves.specs.Verdicts.{verdict_due};

/// An advertiser listens after its advertisement. At an anchor the central sends, and then the
/// peripheral answers; after that neither side is to send.
pub fn worked_moves()
    ensures awaits { doing_on some_words two_setups A advertised ≡ AwaitsRequest 37 }
    ensures sends { IsOwed some_words two_setups anchor_begins B 25 first_packet }
    ensures listens { doing_on some_words two_setups B central_sent ≡ CentralListens 0 }
    ensures answers { IsOwed some_words two_setups central_sent A 25 first_reply }
    ensures connected { NothingIsOwed some_words two_setups one_connection_journal }
    ensures over { NothingIsOwed some_words two_setups one_event_journal }
{}

/// The peripheral judges the packet of its central good. With a bit of its PDU changed it is broken,
/// with one of its access address it is missed. So is the packet of a side that nobody listens for.
pub fn worked_verdicts()
    ensures passes { verdict_due some_words two_setups anchor_begins B 25 first_packet ≡ Good }
    ensures changed { verdict_due some_words two_setups anchor_begins B 25
        (left_of (Damage 5 (1 ∷ [])) first_packet) ≡ Broken }
    ensures of_others { verdict_due some_words two_setups anchor_begins B 25
        (left_of (Damage 0 (1 ∷ [])) first_packet) ≡ Missed }
    ensures answers { verdict_due some_words two_setups central_sent A 25 first_reply ≡ Good }
    ensures unheard { verdict_due some_words two_setups anchor_begins A 25 first_packet ≡ Missed }
{}
