//! Worked examples, which the definitions compute.
ghost use Rattle.std.specs.Prelude.{true};
ghost use Rattle.journal_outcomes.specs.journal_collisions.journal_endings.Rows.{shut_with};
ghost use Rattle.journal_failures.specs.Failures.{AllFailuresAreForged};
ghost use Rattle.journal_failures.specs.Rows.{failed_journal};
ghost use Rattle.journal_outcomes.specs.journal_collisions.journal_endings.journal_indications.journal_data.Followed.{none_mixed};

/// A link may end with 0x3D after a packet that was forged to the side that shuts it, and with 0x08
/// without one. It does not end with 0x3D without one, but where a packet of it is mixed.
pub fn links_that_fail()
    ensures forged { AllFailuresAreForged none_mixed failed_journal }
    ensures lost { AllFailuresAreForged none_mixed (shut_with 0x08) }
    ensures failed { AllFailuresAreForged none_mixed (shut_with 0x3D) → ⊥ }
    ensures mixed { AllFailuresAreForged (λ number front. true) (shut_with 0x3D) }
{}
