//! Worked examples, which the definitions compute.
ghost use Rattle.std.specs.Prelude.{◌≡◌, ◌++◌, [], ◌∷◌, true};
ghost use Rattle.ble_base.specs.declared.roles.Side.TheVariants.{A, B};
ghost use Rattle.ble_base.specs.declared.verdicts.Verdict.TheVariants.{Missed};
ghost use Rattle.journal.specs.declared.entries.Entry.TheVariants.{Air};
ghost use Rattle.journal.specs.declared.entries.Mark.TheVariants.{Lost as WasLost};
ghost use Rattle.journal_moves.specs.journal_wants.journal_sending.journal_acks.Rows as rows;
ghost use Rattle.journal_pdus.specs.Settled.{acked_on};

/// A PDU of data is acknowledged with the reply that reaches its sender, and not before.
pub fn worked_acknowledged()
    ensures sent { acked_on 1 B rows.data_sent ≡ [] }
    ensures taken { acked_on 1 B rows.data_taken ≡ [] }
    ensures lost { acked_on 1 B (rows.data_taken ++ Air A 25 rows.reply_packet WasLost Missed
        ∷ []) ≡ [] }
    ensures acknowledged { acked_on 1 B rows.data_acknowledged ≡ (true, 0xAA) ∷ [] }
{}
