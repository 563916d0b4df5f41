//! Worked steps of one end, with the sample data of the Core specification (Core 5.2, volume 6 part
//! C, section 1).
ghost use Rattle.std.specs.Prelude.{◌≡◌};
ghost use Rattle.ble_base.specs.declared.channel_map.ChannelMap.{ChannelMap};
ghost use Rattle.phased_control.specs.enc_phase.declared.facts.PhaseFacts.{PhaseFacts};
ghost use Rattle.keyed_control.specs.Keyed.{session_of};
ghost use Rattle.keyed_control.specs.Worked.{central_after, peripheral_after, sample_iv};
ghost use Rattle.keyed_control.specs.Worked.{sample_material, start_at_central};
ghost use Rattle.keyed_control.specs.Worked.{keyed_in_clear, start_at_peripheral};
ghost use Rattle.keyed_control.specs.Worked.{starts_in_clear};

/// The initialization vector of the sample data.
pub fn the_session_of_the_sample()
    ensures { (session_of sample_material).iv ≡ sample_iv }
{}

/// A central whose host asks for encryption is Secure once the peripheral has confirmed, with the
/// session of what its host and both LL_ENC_REQ and LL_ENC_RSP brought.
pub fn a_start_at_a_central_has_its_session()
    ensures phase { (map : ChannelMap)
        → (central_after map start_at_central).end.phase ≡ PhaseFacts.Secure }
    ensures key { (map : ChannelMap)
        → (central_after map start_at_central).end.key ≡ (session_of sample_material).key }
    ensures iv { (map : ChannelMap) → (central_after map start_at_central).end.iv ≡ sample_iv }
{}

/// A peripheral likewise.
pub fn a_start_at_a_peripheral_has_its_session()
    ensures phase { (map : ChannelMap)
        → (peripheral_after map start_at_peripheral).end.phase ≡ PhaseFacts.Secure }
    ensures key { (map : ChannelMap)
        → (peripheral_after map start_at_peripheral).end.key ≡ (session_of sample_material).key }
    ensures iv { (map : ChannelMap)
        → (peripheral_after map start_at_peripheral).end.iv ≡ sample_iv }
{}

/// Wrong material: a central that has started does not hold its own half of the session key
/// diversifier in place of the peripheral's, and an initialization vector with its halves exchanged
/// is not that of the sample data.
pub fn wrong_material_is_refused()
    ensures half { (map : ChannelMap)
        → (central_after map start_at_central).material
        ≡ record sample_material { skd_s = sample_material.skd_m } → ⊥ }
    ensures vector { (session_of (record sample_material {
      iv_m = sample_material.iv_s;
      iv_s = sample_material.iv_m;
    })).iv ≡ sample_iv → ⊥ }
{}

/// Wrong counters: those of a session that has begun do not begin at 1.
pub fn wrong_counters_are_refused()
    ensures sent { (map : ChannelMap)
        → (central_after map start_at_central).end.sent ≡ 1 → ⊥ }
    ensures opened { (map : ChannelMap)
        → (peripheral_after map start_at_peripheral).end.opened ≡ 1 → ⊥ }
{}

/// Wrong beginnings: no session begins in phase Clear, neither by an LL_START_ENC_REQ at a central,
/// nor by a key at a peripheral that took no LL_ENC_REQ.
pub fn a_session_begun_in_clear_is_refused()
    ensures central { (map : ChannelMap)
        → (central_after map starts_in_clear).end.phase ≡ PhaseFacts.HalfKeyed → ⊥ }
    ensures peripheral { (map : ChannelMap)
        → (peripheral_after map keyed_in_clear).end.phase ≡ PhaseFacts.HalfKeyed → ⊥ }
{}
