//! Worked examples, and journals that the definition refuses.
ghost use Rattle.std.specs.Prelude.{◌≡◌, false, true};
ghost use Rattle.ble_base.specs.declared.roles.Side.TheVariants.{A, B};
ghost use Rattle.journal_acks.specs.Rows.{data_heard, data_packet, data_sent, given_to};
ghost use Rattle.journal_acks.specs.Rows.{more_packet, more_reply, reply_packet};
ghost use Rattle.journal_slots.specs.SecondSlot.{AllAreContinued, IsContinued, has_more};
ghost use Rattle.journal_slots.specs.Rows.{continued_by_none, continued_unheard, next_packet};
ghost use Rattle.journal_slots.specs.Rows.{peripheral_says_more};
ghost use Rattle.journal_acks.specs.run_model.Rows.{first_packet, first_reply};

/// MD is bit 4 of the first octet of a PDU.
pub fn worked_more_bits()
    ensures first { has_more 25 first_packet ≡ false }
    ensures first_more { has_more 25 more_packet ≡ true }
    ensures reply { has_more 25 first_reply ≡ false }
    ensures reply_more { has_more 25 more_reply ≡ true }
{}

/// In the turn of the anchor nothing is asked of the packets before. In the next turn both sides
/// send where the first packet of either says that more waits, and both packets were heard.
pub fn worked_second_slots()
    ensures first_slot { IsContinued (given_to B) B more_packet }
    ensures central { IsContinued data_sent B data_packet }
    ensures peripheral { IsContinued data_heard A reply_packet }
    ensures by_the_reply { IsContinued peripheral_says_more B next_packet }
{}

/// No side sends in the turn after that of the anchor where no packet in that had MD 1, nor where
/// it heard none in it.
pub fn second_slots_without_reason_are_refused()
    ensures no_more { AllAreContinued continued_by_none → ⊥ }
    ensures unheard { AllAreContinued continued_unheard → ⊥ }
{}
