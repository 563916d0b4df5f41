//! A worked collision, which the definitions compute, and journals that they refuse.
ghost use Rattle.std.specs.Prelude.{◌≡◌, [], ◌∷◌, true, false};
ghost use Rattle.ble_base.specs.declared.procedure_kinds.Kind.{Kind};
ghost use Rattle.ble_base.specs.declared.roles.Side.TheVariants.{A, B};
ghost use Rattle.journal_collisions.specs.Collisions.{AllAreRefused, AllAreRejectedNext};
ghost use Rattle.journal_collisions.specs.Collisions.{Collides, IsRejection, runs_on};
ghost use Rattle.journal_collisions.specs.Outcomes.{NoneIsIndicated};
ghost use Rattle.journal_collisions.specs.Rows.{both_begun, done_all_the_same};
ghost use Rattle.journal_collisions.specs.Rows.{granted_all_the_same, map_octets, map_once_more};
ghost use Rattle.journal_collisions.specs.Rows.{refused_otherwise, rejected_second, rejection};
ghost use Rattle.journal_collisions.specs.Rows.{request_octets, sent_next};
ghost use Rattle.journal_endings.specs.journal_indications.journal_data.Followed.{none_mixed};
ghost use Rattle.journal_endings.specs.journal_indications.journal_data.journal_links.Rows.{one_link};

/// A channel map of the central and a request of the peripheral cross on a link. The central takes
/// the request while its map is in progress: the two collide, and are of two kinds, so the
/// rejection has the error 0x2A.
pub fn worked_collision()
    ensures own { runs_on Kind.Map B 1 both_begun ≡ true }
    ensures other { runs_on Kind.Request B 1 both_begun ≡ false }
    ensures peripheral { runs_on Kind.Request A 1 both_begun ≡ true }
    ensures collides { Collides both_begun one_link 1 3 request_octets Kind.Map Kind.Request }
    ensures rejection { IsRejection Kind.Map Kind.Request 3 (rejection 0x0F 0x2A) }
{}

/// The central rejects with the error of procedures of one kind; with the opcode of the answer; or
/// only after its own indication. The peripheral says that its procedure is refused with another
/// error, or that it is done, which is refused only where no packet of the link is mixed before.
pub fn wrong_collisions_are_refused()
    ensures error { AllAreRejectedNext none_mixed (sent_next (rejection 0x0F 0x23)) → ⊥ }
    ensures opcode { AllAreRejectedNext none_mixed (sent_next (rejection 0x10 0x2A)) → ⊥ }
    ensures second { AllAreRejectedNext none_mixed rejected_second → ⊥ }
    ensures indication { AllAreRejectedNext none_mixed (sent_next map_octets) → ⊥ }
    ensures refused { AllAreRefused none_mixed refused_otherwise → ⊥ }
    ensures done { AllAreRefused none_mixed done_all_the_same → ⊥ }
    ensures mixed { AllAreRefused (λ number front. true) done_all_the_same }
{}

/// The central grants the request that it rejected, by LL_CONNECTION_UPDATE_IND; or sends a channel
/// map once more, with no such procedure in progress.
pub fn wrong_outcomes_are_refused()
    ensures update { NoneIsIndicated none_mixed granted_all_the_same → ⊥ }
    ensures map { NoneIsIndicated none_mixed map_once_more → ⊥ }
{}
