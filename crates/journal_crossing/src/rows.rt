//! A worked journal, which the definitions compute, and journals that they refuse.
ghost use Rattle.std.specs.Prelude.{◌≡◌};
ghost use Rattle.ble_base.specs.declared.roles.Side.TheVariants.{A, B};
ghost use Rattle.journal_collisions.specs.Rows.{rejection, rejection_taken};
ghost use Rattle.journal_collisions.specs.journal_data.Followed.{none_mixed};
ghost use Rattle.journal_crossing.specs.Crossing.{AllControlsAreTaken, IsKnownControl};
ghost use Rattle.journal_crossing.specs.Crossing.{NoneIsTakenAfterTermination};
ghost use Rattle.journal_crossing.specs.Crossing.{count_sent, count_taken};
ghost use Rattle.journal_crossing.specs.Rows.{crossed, taken_after_end};

/// The peripheral sends a request, which the central takes and rejects, and takes the rejection:
/// each side has sent one PDU, and the other has taken it.
pub fn worked_controls()
    ensures request_sent { count_sent 1 A rejection_taken ≡ 1 }
    ensures request_taken { count_taken 1 B rejection_taken ≡ 1 }
    ensures rejection_sent { count_sent 1 B rejection_taken ≡ 1 }
    ensures rejection_taken { count_taken 1 A rejection_taken ≡ 1 }
    ensures known { IsKnownControl 3 (rejection 0x0F 0x2A) }
{}

/// The central takes a request while its own channel map is not taken; or the peripheral takes
/// LL_TERMINATE_IND, and then a channel map.
pub fn crossing_journals_are_refused()
    ensures crossing { AllControlsAreTaken none_mixed crossed → ⊥ }
    ensures after_the_end { NoneIsTakenAfterTermination none_mixed taken_after_end → ⊥ }
{}
