//! Laws of the procedures of one end of a link by its notes, for each list of steps of the end,
//! whatever its peer sends. The bodies are empty: the contracts are the laws.
ghost use Rattle.std.specs.Prelude.{◌≡◌, List};
ghost use Rattle.ble_base.specs.declared.procedure_kinds.Kind.{Kind};
ghost use Rattle.ble_base.specs.declared.roles.Role.{Role};
ghost use Rattle.exclusive_stages.specs.Kinds.{kind_of};
ghost use Rattle.exclusive_stages.specs.declared.pdus.Exclusive.{Exclusive};
ghost use Rattle.link_model.specs.End.{facts_of, notes_of};
ghost use Rattle.link_model.specs.Setup.{Setup};
ghost use Rattle.link_model.specs.Step.{Step};
ghost use Rattle.link_procedures.specs.Running.{runs_at, runs_at_central, runs_at_peripheral};
ghost use Rattle.link_procedures.specs.Running.{runs_noted};

/// The procedure that an end began and that is in progress is the one that the end noted as begun,
/// and did not note as done or refused since, also after the end of the link. This is so of the
/// procedures that exclude each other, as joint runs see the table of a central or of a peripheral
/// (Core 5.2, volume 6 part B, sections 5.1 and 5.3).
pub fn an_end_runs_what_it_noted()
    ensures any { (setup : Setup) (past : List Step) (kind : Kind)
        → runs_noted kind (notes_of setup past) ≡ runs_at kind (facts_of setup past) }
    ensures central { (setup : Setup) (past : List Step) (kind : Exclusive)
        → setup.link.role ≡ Role.Central
        → runs_noted (kind_of kind) (notes_of setup past)
        ≡ runs_at_central kind (facts_of setup past) }
    ensures peripheral { (setup : Setup) (past : List Step) (kind : Exclusive)
        → setup.link.role ≡ Role.Peripheral
        → runs_noted (kind_of kind) (notes_of setup past)
        ≡ runs_at_peripheral kind (facts_of setup past) }
{}
