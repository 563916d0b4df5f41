//! Laws of one end of a link by its notes, for each list of steps of the end, whatever its peer
//! sends. The bodies are empty: the contracts are the laws.
ghost use Rattle.std.specs.Prelude.{◌≡◌, ◌∷◌, ◌++◌, ℕ, false, List, Some};
ghost use Rattle.std.specs.List.{list_any};
ghost use Rattle.ble_base.specs.declared.notes.Note.{Note};
ghost use Rattle.ble_base.specs.declared.notes.Note.TheVariants.{Done, Sent, Took};
ghost use Rattle.ble_base.specs.declared.roles.Role.{Role};
ghost use Rattle.data_pdu.specs.Reading.{ctrl_of};
ghost use Rattle.data_pdu.specs.declared.ctrl.Ctrl.TheVariants.{TerminateInd};
ghost use Rattle.data_pdu.specs.declared.ctrl.CtrlRead.TheVariants.{Known};
ghost use Rattle.exclusive_stages.specs.Kinds.{kind_of};
ghost use Rattle.exclusive_stages.specs.declared.pdus.Exclusive.{Exclusive};
ghost use Rattle.link_model.specs.End.{facts_of, notes_of};
ghost use Rattle.link_model.specs.Setup.{Setup};
ghost use Rattle.link_model.specs.Step.{Step};
ghost use Rattle.link_outcomes.specs.Answered.{IsAnsweredIn, begins, kind_begun};
ghost use Rattle.link_outcomes.specs.Lasting.{is_lasting};

/// Where a peripheral sends LL_CONNECTION_PARAM_REQ or LL_PHY_REQ, and that procedure is done
/// before the peripheral begins another of its kind, the peripheral took the indication that
/// answers it in between: LL_CONNECTION_UPDATE_IND or LL_PHY_UPDATE_IND. No procedure of the kind
/// is done or refused in between (Core 5.2, volume 6 part B, sections 5.1.7 and 5.1.10).
pub fn a_procedure_is_done_only_as_it_is_answered()
    ensures { (setup : Setup) (past : List Step) (kind : Exclusive)
        (start between later : List Note) (handle other count : ℕ) (body : List ℕ)
        → setup.link.role ≡ Role.Peripheral
        → notes_of setup past ≡ start ++ Sent handle count 3 (record { items = body }) ∷ between
        ++ Done other (kind_of kind) ∷ later → kind_begun (ctrl_of body) ≡ Some kind
        → list_any (begins (kind_of kind)) between ≡ false → IsAnsweredIn kind between }
{}

/// The link does not last at an end that noted that it took LL_TERMINATE_IND (Core 5.2, volume 6
/// part B, section 5.1.6).
pub fn an_end_that_took_a_termination_is_over()
    ensures { (setup : Setup) (past : List Step) (start later : List Note) (handle count : ℕ)
        (body : List ℕ) (code : ℕ)
        → notes_of setup past ≡ start ++ Took handle count 3 (record { items = body }) ∷ later
        → ctrl_of body ≡ Known (TerminateInd code) → is_lasting (facts_of setup past) ≡ false }
{}
