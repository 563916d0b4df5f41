//! Worked steps of one end.
ghost use Rattle.std.specs.Prelude.{◌≡◌, ℕ, List, false, length};
ghost use Rattle.ble_base.specs.declared.channel_map.ChannelMap.{ChannelMap};
ghost use Rattle.ble_base.specs.declared.roles.Role.{Role};
ghost use Rattle.enc_phase.specs.declared.facts.PhaseFacts.{PhaseFacts};
ghost use Rattle.table_laws.specs.procedures.Table.{first_facts};
ghost use Rattle.table_laws.specs.Pasts.{MayAll};
ghost use Rattle.control_model.specs.Worked.{six_slots};
ghost use Rattle.phased_control.specs.Calls.{all_phased_calls};
ghost use Rattle.phased_control.specs.Ciphers.{ciphers_waiting};
ghost use Rattle.phased_control.specs.Phased.{first_phased};
ghost use Rattle.phased_control.specs.Worked.{central_after, peripheral_after, start_at_central};
ghost use Rattle.phased_control.specs.Worked.{refusal_at_central};
ghost use Rattle.phased_control.specs.Worked.{answers_too_early, goes_on_too_early};

/// A central whose host asks for encryption is Secure once the peripheral has confirmed.
pub fn a_start_is_secure()
    ensures { (map : ChannelMap) → (central_after map start_at_central).phase ≡ PhaseFacts.Secure }
{}

/// A refusal leaves it Clear.
pub fn a_start_without_a_key_is_clear()
    ensures { (map : ChannelMap) → (central_after map refusal_at_central).phase
        ≡ PhaseFacts.Clear }
{}

/// Calls of a central whose peer does not send in turn need not be among those that may come: here
/// LL_ENC_REQ waits as the encryption ends.
pub fn a_peer_that_answers_too_early_breaks_the_rules()
    ensures { (map : ChannelMap) → MayAll (first_facts Role.Central 27) false
        (all_phased_calls answers_too_early (first_phased Role.Central 27 (six_slots map) 3)) → ⊥ }
{}

/// With such a peer three PDUs of the encryption may wait.
pub fn a_peer_that_goes_on_too_early_lets_three_wait()
    ensures { (map : ChannelMap)
        → length (ciphers_waiting (peripheral_after map goes_on_too_early).control.table) ≡ 3 }
{}
