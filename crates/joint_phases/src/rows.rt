//! Worked joint runs in which the facts of the other procedures hold.
ghost use Rattle.std.specs.Prelude.{◌≡◌, true};
ghost use Rattle.ble_base.specs.declared.channel_map.ChannelMap.{ChannelMap};
ghost use Rattle.phase_pairs.specs.enc_phase.declared.facts.PhaseFacts.{PhaseFacts};
ghost use Rattle.joint_controls.specs.Joint.{after_all};
ghost use Rattle.joint_phases.specs.Facts.{FactsHold};
ghost use Rattle.joint_phases.specs.Worked.{crossed_versions, kept_version, link};

/// The central keeps an LL_VERSION_IND as encryption starts, and answers it in phase Secure.
pub fn a_kept_version_is_answered()
    ensures facts { (map : ChannelMap) → FactsHold (link map) kept_version }
    ensures central { (map : ChannelMap) → (after_all kept_version (link map)).central.phase
        ≡ PhaseFacts.Secure }
    ensures answered { (map : ChannelMap)
        → (after_all kept_version (link map)).peripheral.knows_version ≡ true }
{}

/// Two LL_VERSION_IND cross, and neither is answered.
pub fn crossed_versions_are_known()
    ensures facts { (map : ChannelMap) → FactsHold (link map) crossed_versions }
    ensures central { (map : ChannelMap)
        → (after_all crossed_versions (link map)).central.knows_version ≡ true }
    ensures peripheral { (map : ChannelMap)
        → (after_all crossed_versions (link map)).peripheral.knows_version ≡ true }
{}
