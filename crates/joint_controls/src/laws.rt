//! The laws of joint runs about each end alone and its last PDU. The bodies do nothing: the
//! contracts are the laws.
ghost use Rattle.std.specs.Prelude.{◌≡◌, ℕ, List, false};
ghost use Rattle.ble_base.specs.declared.roles.Role.{Role};
ghost use Rattle.instants.specs.declared.indications.Params.{Params};
ghost use Rattle.phased_control.specs.Phased.{first_phased};
ghost use Rattle.phased_control.specs.Taken.{phased_after_all};
ghost use Rattle.joint_controls.specs.Joint.{JointStep, after_all, beginning, is_fixed};
ghost use Rattle.joint_controls.specs.Ends.{IsSentOn, outgoing_on, steps_of_central};
ghost use Rattle.joint_controls.specs.Ends.{steps_of_peripheral};

/// In a joint run each end makes steps of its own, from the beginning of the link.
pub fn each_end_makes_its_own_steps()
    ensures central { (central_rx peripheral_rx : ℕ) (first : Params) (slot : ℕ)
        (steps : List JointStep) → let s = beginning central_rx peripheral_rx first slot in
        (after_all steps s).central
        ≡ phased_after_all (steps_of_central steps s)
        (first_phased Role.Central central_rx first slot) }
    ensures peripheral { (central_rx peripheral_rx : ℕ) (first : Params) (slot : ℕ)
        (steps : List JointStep) → let s = beginning central_rx peripheral_rx first slot in
        (after_all steps s).peripheral
        ≡ phased_after_all (steps_of_peripheral steps s)
        (first_phased Role.Peripheral peripheral_rx first slot) }
{}

/// What the table of an end has as its last PDU is the control PDU that this end fixed, sent or saw
/// taken, and none where there is no such PDU or the last one is data. A central fixes a PDU only
/// as it sends it. The PDU that is read is the one that its sender fixed.
pub fn a_last_pdu_is_on_its_way()
    ensures central { (central_rx peripheral_rx : ℕ) (first : Params) (slot : ℕ)
        (steps : List JointStep)
        → let s = after_all steps (beginning central_rx peripheral_rx first slot) in
        s.central.control.table.out ≡ outgoing_on s.down }
    ensures peripheral { (central_rx peripheral_rx : ℕ) (first : Params) (slot : ℕ)
        (steps : List JointStep)
        → let s = after_all steps (beginning central_rx peripheral_rx first slot) in
        s.peripheral.control.table.out ≡ outgoing_on s.up }
    ensures down { (central_rx peripheral_rx : ℕ) (first : Params) (slot : ℕ)
        (steps : List JointStep)
        → is_fixed (after_all steps (beginning central_rx peripheral_rx first slot)).down ≡ false }
    ensures read_down { (central_rx peripheral_rx : ℕ) (first : Params) (slot : ℕ)
        (steps : List JointStep)
        → IsSentOn (after_all steps (beginning central_rx peripheral_rx first slot)).down }
    ensures read_up { (central_rx peripheral_rx : ℕ) (first : Params) (slot : ℕ)
        (steps : List JointStep)
        → IsSentOn (after_all steps (beginning central_rx peripheral_rx first slot)).up }
{}
