//! A worked example, which the definitions compute.
ghost use Rattle.std.specs.Prelude.{◌≡◌, ◌++◌, ◌∷◌, []};
ghost use Rattle.ble_base.specs.declared.roles.Side.TheVariants.{A, B};
ghost use Rattle.hci_cmd.specs.declared.command.Command.TheVariants.{Disconnect, Reset};
ghost use Rattle.host_answers.specs.Answered.{accepted_in, host_commands};
ghost use Rattle.host_answers.specs.Rows.{both_fed, disconnect_answer, reset_answer};

/// A host sends Reset and Disconnect, the second of them in two parts. The first answer is to Reset
/// and the second to Disconnect; an answer with another status than 00 accepts nothing, and neither
/// does one of the other side, nor one after all commands are answered.
pub fn worked_answers()
    ensures first { accepted_in A both_fed (reset_answer 0x00) ≡ Reset ∷ [] }
    ensures second { accepted_in A (both_fed ++ reset_answer 0x00 ∷ []) (disconnect_answer 0x00)
        ≡ Disconnect 0x0000 0x13 ∷ [] }
    ensures refused { accepted_in A (both_fed ++ reset_answer 0x00 ∷ []) (disconnect_answer 0x0C)
        ≡ [] }
    ensures other { accepted_in B both_fed (reset_answer 0x00) ≡ [] }
    ensures late { accepted_in A
        (both_fed ++ reset_answer 0x00 ∷ disconnect_answer 0x0C ∷ []) (disconnect_answer 0x00)
        ≡ [] }
    ensures all { host_commands A
        (both_fed ++ reset_answer 0x0C ∷ disconnect_answer 0x00 ∷ [])
        ≡ Disconnect 0x0000 0x13 ∷ [] }
{}
