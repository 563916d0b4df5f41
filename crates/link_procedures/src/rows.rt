//! Worked notes, which the definition computes, and what it does not say of them.
ghost use Rattle.std.specs.Prelude.{◌≡◌, ◌∷◌, ◌++◌, [], true, false};
ghost use Rattle.ble_base.specs.declared.procedure_kinds.Kind.{Kind};
ghost use Rattle.ble_base.specs.declared.roles.Role.{Role};
ghost use Rattle.link_model.specs.End.{notes_of};
ghost use Rattle.link_model.specs.Setup.{Setup};
ghost use Rattle.link_model.specs.Step.{EventEntered, ProcedureAsked};
ghost use Rattle.link_model.specs.procedure_values.declared.asks.Ask.{Ask};
ghost use Rattle.link_procedures.specs.Rows.{begins_procedure, completes_procedure};
ghost use Rattle.link_procedures.specs.Rows.{refuses_procedure};
ghost use Rattle.link_procedures.specs.Running.{runs_noted};

/// An update runs from its beginning until it is completed or refused, and may begin again. The
/// notes of another procedure change nothing.
pub fn worked_notes()
    ensures none { runs_noted Kind.Update [] ≡ false }
    ensures begun { runs_noted Kind.Update (begins_procedure Kind.Update) ≡ true }
    ensures done { runs_noted Kind.Update
        (begins_procedure Kind.Update ++ completes_procedure Kind.Update) ≡ false }
    ensures refused { runs_noted Kind.Update
        (begins_procedure Kind.Update ++ refuses_procedure Kind.Update) ≡ false }
    ensures again { runs_noted Kind.Update (begins_procedure Kind.Update
        ++ refuses_procedure Kind.Update ++ begins_procedure Kind.Update) ≡ true }
    ensures others { runs_noted Kind.Update (completes_procedure Kind.Version
        ++ begins_procedure Kind.Update ++ completes_procedure Kind.Version) ≡ true }
    ensures other_kind { runs_noted Kind.Map (begins_procedure Kind.Update) ≡ false }
{}

/// A PHY update for which the host of an end asks runs from the next event on that the end enters,
/// at a central and at a peripheral; before that it is only wanted.
pub fn worked_steps()
    ensures wanted { (setup : Setup)
        → runs_noted Kind.Phy (notes_of setup (ProcedureAsked Ask.Phy ∷ [])) ≡ false }
    ensures central { (setup : Setup) → setup.link.role ≡ Role.Central
        → runs_noted Kind.Phy
        (notes_of setup (ProcedureAsked Ask.Phy ∷ EventEntered 0 ∷ [])) ≡ true }
    ensures peripheral { (setup : Setup) → setup.link.role ≡ Role.Peripheral
        → runs_noted Kind.Phy
        (notes_of setup (ProcedureAsked Ask.Phy ∷ EventEntered 0 ∷ [])) ≡ true }
{}

/// A PHY update that is completed does not run, whether the peer refused it before or not. One that
/// is not completed runs on, although another procedure is refused.
pub fn wrong_notes()
    ensures done { runs_noted Kind.Phy
        (begins_procedure Kind.Phy ++ completes_procedure Kind.Phy) ≡ true → ⊥ }
    ensures twice { runs_noted Kind.Phy (begins_procedure Kind.Phy
        ++ refuses_procedure Kind.Phy ++ completes_procedure Kind.Phy) ≡ true → ⊥ }
    ensures other { runs_noted Kind.Phy
        (begins_procedure Kind.Phy ++ refuses_procedure Kind.Length) ≡ false → ⊥ }
{}
