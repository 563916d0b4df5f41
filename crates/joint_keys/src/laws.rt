//! The laws of joint runs with keys. The bodies do nothing: the contracts are the laws.
ghost use Rattle.std.specs.Prelude.{◌≡◌, ℕ, Bool, true, List};
ghost use Rattle.ble_base.specs.declared.roles.Role.{Role};
ghost use Rattle.instants.specs.declared.indications.Params.{Params};
ghost use Rattle.joint_controls.specs.Joint.{Item, Joint, OnAir, after_all, beginning, is_running};
ghost use Rattle.joint_laws.specs.Runs.{IsRun};
ghost use Rattle.joint_laws.specs.joint_parameters.Turns.{all_joint_steps, first_link};
ghost use Rattle.joint_laws.specs.joint_parameters.Turns.{link_after_all};
ghost use Rattle.joint_keys.specs.KeyedJoint.{KeyedJoint, KeyedJointStep, keyed_beginning};
ghost use Rattle.joint_keys.specs.KeyedJoint.{keyed_joint_after_all, steps_of};
ghost use Rattle.joint_keys.specs.KeyedLinks.{KeyedLinkStep, all_keyed_steps, keys_of};
ghost use Rattle.joint_keys.specs.KeyedLinks.{link_steps};
ghost use Rattle.joint_keys.specs.OneKey.{AreOneKey};
ghost use Rattle.joint_keys.specs.Opening.{CanOpen};

/// A joint run with keys is a joint run, whatever keys the hosts give.
pub fn keyed_runs_are_joint_runs()
    ensures { (central_rx peripheral_rx : ℕ) (first : Params) (slot : ℕ)
        (steps : List KeyedJointStep)
        → (keyed_joint_after_all steps (keyed_beginning central_rx peripheral_rx first slot)).joint
        ≡ after_all (steps_of steps) (beginning central_rx peripheral_rx first slot) }
{}

/// A link by turns and packets with its keys is that link, whatever keys the hosts give: its steps
/// in the joint run with keys are those of the joint run, and so is its joint part.
pub fn keyed_links_are_links()
    ensures steps { (central_rx peripheral_rx : ℕ) (first : Params) (slot turns : ℕ)
        (steps : List KeyedLinkStep)
        → let l = first_link central_rx peripheral_rx first slot turns in
        steps_of (all_keyed_steps steps l) ≡ all_joint_steps (link_steps steps) l }
    ensures joint { (central_rx peripheral_rx : ℕ) (first : Params) (slot turns : ℕ)
        (steps : List KeyedLinkStep)
        → (keys_of central_rx peripheral_rx first slot turns steps).joint
        ≡ (link_after_all (link_steps steps)
        (first_link central_rx peripheral_rx first slot turns)).joint }
{}

/// As long as a joint run goes on, each end can open the PDU that the other end has on the air: it
/// opens sealed exactly where that was sealed; the session keys of both were made of the same
/// halves, so they differ only by the keys that the hosts gave; and where the session keys are
/// equal, both have one session and one counter. So a packet that arrives unchanged is forged only
/// where the session keys differ.
pub fn both_ends_open_what_the_other_seals()
    ensures down { (central_rx peripheral_rx : ℕ) (first : Params) (slot : ℕ)
        (steps : List KeyedJointStep) (item : Item) (sealed : Bool) → IsRun first (steps_of steps)
        → let s = keyed_joint_after_all steps
        (keyed_beginning central_rx peripheral_rx first slot) in
        is_running s.joint ≡ true → s.joint.down ≡ OnAir item sealed
        → CanOpen s.central.made s.peripheral.end }
    ensures up { (central_rx peripheral_rx : ℕ) (first : Params) (slot : ℕ)
        (steps : List KeyedJointStep) (item : Item) (sealed : Bool) → IsRun first (steps_of steps)
        → let s = keyed_joint_after_all steps
        (keyed_beginning central_rx peripheral_rx first slot) in
        is_running s.joint ≡ true → s.joint.up ≡ OnAir item sealed
        → CanOpen s.peripheral.made s.central.end }
{}

/// Where each long term key that the host of the peripheral gives is that with which the host of
/// the central asked for the encryption, the session keys are equal wherever a PDU on the air is
/// sealed. So a packet that arrives unchanged is then never forged.
pub fn keys_are_equal()
    ensures down { (central_rx peripheral_rx : ℕ) (first : Params) (slot : ℕ)
        (steps : List KeyedJointStep) (item : Item) → IsRun first (steps_of steps)
        → let start = keyed_beginning central_rx peripheral_rx first slot in
        let s = keyed_joint_after_all steps start in
        AreOneKey steps start → is_running s.joint ≡ true → s.joint.down ≡ OnAir item true
        → s.central.made.key ≡ s.peripheral.end.key }
    ensures up { (central_rx peripheral_rx : ℕ) (first : Params) (slot : ℕ)
        (steps : List KeyedJointStep) (item : Item) → IsRun first (steps_of steps)
        → let start = keyed_beginning central_rx peripheral_rx first slot in
        let s = keyed_joint_after_all steps start in
        AreOneKey steps start → is_running s.joint ≡ true → s.joint.up ≡ OnAir item true
        → s.peripheral.made.key ≡ s.central.end.key }
{}

/// As long as a joint run goes on, the session of each end is in the phase of that end, and has its
/// role.
pub fn each_session_is_in_the_phase_of_its_end()
    ensures central { (central_rx peripheral_rx : ℕ) (first : Params) (slot : ℕ)
        (steps : List KeyedJointStep) → IsRun first (steps_of steps)
        → let s = keyed_joint_after_all steps
        (keyed_beginning central_rx peripheral_rx first slot) in
        is_running s.joint ≡ true
        → (s.central.end.phase ≡ s.joint.central.phase) × (s.central.end.role ≡ Role.Central) }
    ensures peripheral { (central_rx peripheral_rx : ℕ) (first : Params) (slot : ℕ)
        (steps : List KeyedJointStep) → IsRun first (steps_of steps)
        → let s = keyed_joint_after_all steps
        (keyed_beginning central_rx peripheral_rx first slot) in
        is_running s.joint ≡ true
        → (s.peripheral.end.phase ≡ s.joint.peripheral.phase)
        × (s.peripheral.end.role ≡ Role.Peripheral) }
{}
