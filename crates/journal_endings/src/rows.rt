//! Worked examples, which the definitions compute.
ghost use Rattle.std.specs.Prelude.{true};
ghost use Rattle.journal_endings.specs.Endings.{NoneEndsByProtocolError};
ghost use Rattle.journal_endings.specs.Rows.{shut_with};
ghost use Rattle.journal_indications.specs.journal_data.Followed.{none_mixed};

/// A link may end with 0x08 or 0x28, and with a reason that a host may give, as 0x13. It does not
/// end with 0x07, 0x23 or 0x2A, but where a packet of it is mixed.
pub fn links_that_end_with_an_error()
    ensures lost { NoneEndsByProtocolError none_mixed (shut_with 0x08) }
    ensures late { NoneEndsByProtocolError none_mixed (shut_with 0x28) }
    ensures asked { NoneEndsByProtocolError none_mixed (shut_with 0x13) }
    ensures full { NoneEndsByProtocolError none_mixed (shut_with 0x07) → ⊥ }
    ensures collides { NoneEndsByProtocolError none_mixed (shut_with 0x23) → ⊥ }
    ensures other { NoneEndsByProtocolError none_mixed (shut_with 0x2A) → ⊥ }
    ensures mixed { NoneEndsByProtocolError (λ number front. true) (shut_with 0x07) }
{}
