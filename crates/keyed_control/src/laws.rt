//! The laws of one end with its keys, over all lists of steps from the beginning of its link. The
//! bodies do nothing: the contracts are the laws.
ghost use Rattle.std.specs.Prelude.{◌≡◌, ℕ, List, true};
ghost use Rattle.ble_base.specs.declared.roles.Role.{Role};
ghost use Rattle.instants.specs.declared.indications.Params.{Params};
ghost use Rattle.phased_control.specs.Phased.{first_phased};
ghost use Rattle.phased_control.specs.Taken.{phased_after_all};
ghost use Rattle.phased_control.specs.table_laws.Encrypting.{has_encryption};
ghost use Rattle.keyed_control.specs.Halves.{IsRequestWith};
ghost use Rattle.keyed_control.specs.Keyed.{first_keyed};
ghost use Rattle.keyed_control.specs.KeyedSteps.{KeyedStep, keyed_after_all, phased_steps};

/// Procedures, parameters and phase of an end move by its steps as if it had no keys.
pub fn an_end_moves_by_phased_steps()
    ensures { (role : Role) (max_rx : ℕ) (first : Params) (slot : ℕ) (steps : List KeyedStep)
        → (keyed_after_all steps (first_keyed role max_rx first slot)).phased
        ≡ phased_after_all (phased_steps steps) (first_phased role max_rx first slot) }
{}

/// An end seals and opens in the phase of its procedures, by its role.
pub fn an_end_seals_in_its_phase()
    ensures phase { (role : Role) (max_rx : ℕ) (first : Params) (slot : ℕ)
        (steps : List KeyedStep)
        → let k = keyed_after_all steps (first_keyed role max_rx first slot) in
        k.end.phase ≡ k.phased.phase }
    ensures role { (role : Role) (max_rx : ℕ) (first : Params) (slot : ℕ)
        (steps : List KeyedStep)
        → (keyed_after_all steps (first_keyed role max_rx first slot)).end.role ≡ role }
{}

/// While a central runs an encryption, its LL_ENC_REQ has the halves of the session key diversifier
/// and of the initialization vector with which its session begins.
pub fn a_central_has_the_halves_of_its_request()
    ensures { (max_rx : ℕ) (first : Params) (slot : ℕ) (steps : List KeyedStep)
        → let k = keyed_after_all steps (first_keyed Role.Central max_rx first slot) in
        has_encryption k.phased.control.table.progress ≡ true
        → IsRequestWith k.material k.phased.request }
{}
