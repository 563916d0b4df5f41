//! Laws of the phase of one end of a link by its notes, for each list of steps of the end, whatever
//! its peer sends. The bodies are empty: the contracts are the laws.
ghost use Rattle.std.specs.Prelude.{◌≡◌, false, not, List, None};
ghost use Rattle.ble_base.specs.declared.procedure_kinds.Kind.{Kind};
ghost use Rattle.ble_base.specs.declared.roles.Role.{Role};
ghost use Rattle.link_model.specs.Controls.{is_quiet_now};
ghost use Rattle.link_model.specs.End.{facts_of, notes_of};
ghost use Rattle.link_model.specs.Setup.{Setup};
ghost use Rattle.link_model.specs.Step.{Step};
ghost use Rattle.link_procedures.specs.Running.{runs_noted};

/// A central has noted that its encryption began, and not that it was done or refused since, exactly
/// where its phase is neither Clear nor Secure; a peripheral notes none. Where none is noted to run,
/// an end keeps no PDU of its peer to answer it later. This is so also after the end of the link
/// (Core 5.2, volume 6 part B, section 5.1.3).
pub fn an_encryption_runs_outside_clear_and_secure()
    ensures central { (setup : Setup) (past : List Step) → setup.link.role ≡ Role.Central
        → runs_noted Kind.Encrypt (notes_of setup past) ≡ not (is_quiet_now (facts_of setup past)) }
    ensures peripheral { (setup : Setup) (past : List Step) → setup.link.role ≡ Role.Peripheral
        → runs_noted Kind.Encrypt (notes_of setup past) ≡ false }
    ensures keeps_none { (setup : Setup) (past : List Step)
        → runs_noted Kind.Encrypt (notes_of setup past) ≡ false
        → (facts_of setup past).encryption.kept ≡ None }
{}
