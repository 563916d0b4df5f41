//! Laws of the indications of one central, for each list of steps of the end, whatever its peer
//! sends. The bodies are empty: the contracts are the laws.
ghost use Rattle.std.specs.Prelude.{◌≡◌, ◌∷◌, [], ℕ, false, List, Some, fold};
ghost use Rattle.std.specs.List.{list_any};
ghost use Rattle.ble_base.specs.declared.notes.Note.TheVariants.{Sent};
ghost use Rattle.ble_base.specs.declared.roles.Role.{Role};
ghost use Rattle.collision_steps.specs.CentralPart.{central_of};
ghost use Rattle.data_pdu.specs.Reading.{ctrl_of};
ghost use Rattle.exclusive_stages.specs.Kinds.{central_kind};
ghost use Rattle.exclusive_stages.specs.declared.pdus.Exclusive.{Exclusive};
ghost use Rattle.link_model.specs.Data.{is_control};
ghost use Rattle.link_model.specs.End.{facts_after, facts_of, notes_from};
ghost use Rattle.link_model.specs.Fixing.{facts_fixed};
ghost use Rattle.link_model.specs.Sending.{sent_notes};
ghost use Rattle.link_model.specs.Setup.{Setup};
ghost use Rattle.link_model.specs.Step.{Step};
ghost use Rattle.link_answers.specs.Owing.{Owes, indicates, is_opening, is_opening_kept};

/// Where a central has no more indications of a kind queued than its own procedure owes, and no
/// procedure of the peripheral is in progress there that such an indication would answer, this
/// stays so in any steps, until it takes the first PDU of such a procedure, or a refusal of its own
/// PHY update (Core 5.2, volume 6 part B, sections 5.1.1, 5.1.2, 5.1.7 and 5.1.10). Nor does it keep
/// such a PDU, which its procedures would see once its encryption has begun or ended (section 5.1.3).
pub fn a_central_sends_what_its_procedures_owe()
    ensures owes { (setup : Setup) (past steps : List Step) (kind : Exclusive)
        → setup.link.role ≡ Role.Central
        → let facts = facts_of setup past in Owes kind (central_of facts.control.table)
        → is_opening_kept kind facts.encryption.kept ≡ false
        → list_any (is_opening kind) (notes_from setup facts steps) ≡ false
        → Owes kind (central_of (fold (facts_after setup) facts steps).control.table) }
    ensures kept { (setup : Setup) (past steps : List Step) (kind : Exclusive)
        → setup.link.role ≡ Role.Central
        → let facts = facts_of setup past in Owes kind (central_of facts.control.table)
        → is_opening_kept kind facts.encryption.kept ≡ false
        → list_any (is_opening kind) (notes_from setup facts steps) ≡ false
        → is_opening_kept kind (fold (facts_after setup) facts steps).encryption.kept ≡ false }
{}

/// The indication of a kind that such a central sends is of its own procedure, which is in progress
/// (Core 5.2, volume 6 part B, sections 5.1.1, 5.1.2 and 5.1.10).
pub fn an_indication_that_is_owed_is_of_the_own_procedure()
    ensures { (setup : Setup) (past : List Step) (kind : Exclusive) (handle count llid : ℕ)
        (body : List ℕ) → setup.link.role ≡ Role.Central
        → let facts = facts_of setup past in is_control facts.outgoing.fixed ≡ false
        → Owes kind (central_of facts.control.table)
        → sent_notes setup (facts_fixed facts)
        ≡ Sent handle count llid (record { items = body }) ∷ []
        → llid ≡ 3 → indicates (ctrl_of body) ≡ Some kind
        → central_kind (central_of facts.control.table).own ≡ Some kind }
{}
