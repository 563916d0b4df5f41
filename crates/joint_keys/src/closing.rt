//! The laws of ends that are to end their link for want of a key. The bodies do nothing: the
//! contracts are the laws.
ghost use Rattle.std.specs.Prelude.{◌≡◌, ◌&&◌, ℕ, false, not, true, List};
ghost use Rattle.ble_base.specs.declared.roles.Role.{Role};
ghost use Rattle.enc_phase.specs.Phases.{may_follow};
ghost use Rattle.enc_phase.specs.declared.facts.Transition.{Transition};
ghost use Rattle.instants.specs.declared.indications.Params.{Params};
ghost use Rattle.joint_controls.specs.Joint.{Joint, JointStep, after_all, beginning, is_running};
ghost use Rattle.joint_laws.specs.Runs.{IsRun};
ghost use Rattle.phased_control.specs.Phased.{first_phased, is_open_now, is_quiet_now};
ghost use Rattle.phased_control.specs.Taken.{PhasedStep, phased_after, phased_after_all};
ghost use Rattle.phased_control.specs.procedure_stages.Closing.{is_disconnecting};

/// A peripheral whose host has no key after a pause, so that it can refuse no start and ends the
/// link, never comes to Clear or Secure again, whatever comes after that.
pub fn a_peripheral_without_a_key_stays_loud()
    ensures { (max_rx : ℕ) (first : Params) (slot : ℕ) (steps more : List PhasedStep)
        → let s = phased_after_all steps (first_phased Role.Peripheral max_rx first slot) in
        s.asks_key ≡ true → is_open_now s ≡ true → may_follow Transition.Refuse s.phase ≡ false
        → is_quiet_now (phased_after_all more (phased_after PhasedStep.LacksKey s)) ≡ false }
{}

/// As long as a joint run goes on, an end in Clear or Secure that is to end the link does so since
/// its host disconnects: it sends data while it has no LL_TERMINATE_IND to send, and that is while
/// its host has not disconnected.
pub fn in_quiet_a_link_is_to_end_by_its_host_alone()
    ensures central { (central_rx peripheral_rx : ℕ) (first : Params) (slot : ℕ)
        (steps : List JointStep) → IsRun first steps
        → let s = after_all steps (beginning central_rx peripheral_rx first slot) in
        is_running s ≡ true
        → (is_quiet_now s.central && not (is_disconnecting s.central.control.table.closing))
        ≡ (is_quiet_now s.central && is_open_now s.central) }
    ensures peripheral { (central_rx peripheral_rx : ℕ) (first : Params) (slot : ℕ)
        (steps : List JointStep) → IsRun first steps
        → let s = after_all steps (beginning central_rx peripheral_rx first slot) in
        is_running s ≡ true
        → (is_quiet_now s.peripheral && not (is_disconnecting s.peripheral.control.table.closing))
        ≡ (is_quiet_now s.peripheral && is_open_now s.peripheral) }
{}
