//! The laws of ends that encrypt nothing. The bodies do nothing: the contracts are the laws.
ghost use Rattle.std.specs.Prelude.{◌≡◌, ◌||◌, ℕ, Bool, true, false, None, Some, Result};
ghost use Rattle.ble_base.specs.declared.error_codes.ErrCode.{ErrCode};
ghost use Rattle.ble_base.specs.declared.roles.Role.{Role};
ghost use Rattle.data_pdu.specs.declared.ctrl.Ctrl.{Ctrl};
ghost use Rattle.data_pdu.specs.declared.ctrl.CtrlRead.{CtrlRead};
ghost use Rattle.instants.specs.declared.indications.Params.{Params};
ghost use Rattle.phased_control.specs.procedure_values.declared.asks.Ask.{Ask};
ghost use Rattle.phased_control.specs.procedures.Queue.{next_of};
ghost use Rattle.phased_control.specs.procedures.Sending.{next_ctrl_of};
ghost use Rattle.phased_control.specs.control_model.Control.{Control, Step, after, first_control};
ghost use Rattle.phased_control.specs.Phased.{first_phased};
ghost use Rattle.phased_control.specs.Taken.{PhasedStep, Response, is_version, phased_after};
ghost use Rattle.phased_control.specs.control_model.Supported.{begins_encryption};
ghost use Rattle.unencrypted_ends.specs.Unencrypted.{IsUnencrypted};
ghost use Rattle.unencrypted_ends.specs.Unencrypted.{begins_no_encryption};
ghost use Rattle.unencrypted_ends.specs.Unencrypted.{encrypts_nothing, is_cipher_out, is_enc_req};
ghost use Rattle.phased_control.specs.control_model.Supported.{read_supported};
ghost use Rattle.unencrypted_ends.specs.Unencrypted.{plain_phased};

/// An end encrypts nothing as its link begins, and its phase is Clear.
pub fn ends_begin_unencrypted()
    ensures control { (role : Role) (max_rx : ℕ) (first : Params) (slot : ℕ)
        → IsUnencrypted (first_control role max_rx first slot) }
    ensures phased { (role : Role) (max_rx : ℕ) (first : Params) (slot : ℕ)
        → first_phased role max_rx first slot
        ≡ plain_phased (first_control role max_rx first slot) false }
{}

/// An end that encrypts nothing stays so in each step in which its host asks for no encryption, the
/// layer above queues nothing, and no PDU that begins or pauses an encryption is taken. Where such
/// a PDU is read as one that is not supported, it stays so whatever its peer sends.
pub fn an_unencrypted_end_stays_unencrypted()
    ensures steps { (c : Control) (step : Step) → IsUnencrypted c → encrypts_nothing step ≡ true
        → IsUnencrypted (after step c) }
    ensures takes { (c : Control) (read : CtrlRead) (slot : ℕ) (quiet : Bool) → IsUnencrypted c
        → IsUnencrypted (after (Step.Takes (read_supported read) slot quiet) c) }
    ensures read { (read : CtrlRead) → begins_no_encryption (read_supported read) ≡ true }
{}

/// Each step of an end that encrypts nothing, with its phase, is the same step of its control part
/// alone, in phase Clear, or none. The phase stays Clear, nothing is kept, and no key is asked for.
/// A PDU that begins or pauses an encryption counts as one that is not supported. This is said of
/// each PDU but LL_ENC_REQ, which begins an encryption at a peripheral. The version of the peer is
/// known once LL_VERSION_IND is taken, also where the link ends by it.
pub fn an_unencrypted_end_goes_by_its_control_part()
    ensures enters { (c : Control) (knows : Bool) (slot : ℕ) → IsUnencrypted c
        → phased_after (PhasedStep.Enters slot) (plain_phased c knows)
        ≡ plain_phased (after (Step.Enters slot true) c) knows }
    ensures asks { (c : Control) (knows : Bool) (ask : Ask)
        → phased_after (PhasedStep.Asks ask) (plain_phased c knows)
        ≡ plain_phased (after (Step.Asks ask) c) knows }
    ensures answers { (c : Control) (knows : Bool) (answer : Result Ask ErrCode)
        → phased_after (PhasedStep.Answers answer) (plain_phased c knows)
        ≡ plain_phased (after (Step.Answers answer) c) knows }
    ensures disconnects { (c : Control) (knows : Bool) (reason : ErrCode)
        → phased_after (PhasedStep.Disconnects reason) (plain_phased c knows)
        ≡ plain_phased (after (Step.Disconnects reason) c) knows }
    ensures sends { (c : Control) (knows : Bool) (slot : ℕ)
        → phased_after (PhasedStep.Sends slot) (plain_phased c knows)
        ≡ plain_phased (after (Step.Sends slot true) c) knows }
    ensures acknowledged { (c : Control) (knows : Bool)
        → phased_after PhasedStep.SeesAcknowledged (plain_phased c knows)
        ≡ plain_phased (after Step.SeesAcknowledged c) knows }
    ensures takes { (c : Control) (knows : Bool) (read : CtrlRead) (slot : ℕ)
        (response : Response) → is_enc_req read ≡ false → c.ends ≡ None
        → phased_after (PhasedStep.Takes read slot response) (plain_phased c knows)
        ≡ plain_phased (after (Step.Takes (read_supported read) slot true) c)
        (knows || is_version read) }
    ensures takes_control { (c : Control) (knows : Bool) (read : CtrlRead) (slot : ℕ)
        (response : Response) → is_enc_req read ≡ false
        → (phased_after (PhasedStep.Takes read slot response) (plain_phased c knows)).control
        ≡ after (Step.Takes (read_supported read) slot true) c }
    ensures takes_data { (c : Control) (knows : Bool)
        → phased_after PhasedStep.TakesData (plain_phased c knows) ≡ plain_phased c knows }
    ensures gives_key { (c : Control) (knows : Bool)
        → phased_after PhasedStep.GivesKey (plain_phased c knows) ≡ plain_phased c knows }
    ensures lacks_key { (c : Control) (knows : Bool)
        → phased_after PhasedStep.LacksKey (plain_phased c knows) ≡ plain_phased c knows }
{}

/// An end that encrypts nothing sends no PDU that begins or pauses an encryption, and nothing that
/// the layer above queued.
pub fn an_unencrypted_end_sends_no_encryption()
    ensures ctrl { (c : Control) (event latency : ℕ) (quiet : Bool) (ctrl : Ctrl)
        → IsUnencrypted c → next_ctrl_of c.table event latency quiet ≡ Some ctrl
        → begins_encryption ctrl ≡ false }
    ensures outgoing { (c : Control) (event : ℕ) (quiet : Bool) → IsUnencrypted c
        → is_cipher_out (next_of c.table event quiet) ≡ false }
{}
