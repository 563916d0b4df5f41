//! Worked joint runs with keys, with the sample data of the Core specification (Core 5.2, volume 6
//! part C, section 1).
ghost use Rattle.std.specs.Prelude.{◌≡◌, ℕ, List, true};
ghost use Rattle.ble_base.specs.declared.roles.Role.{Role};
ghost use Rattle.ble_base.specs.declared.channel_map.ChannelMap.{ChannelMap};
ghost use Rattle.phased_control.specs.control_model.Worked.{six_slots};
ghost use Rattle.phased_control.specs.enc_phase.declared.facts.PhaseFacts.{PhaseFacts};
ghost use Rattle.keyed_control.specs.Worked.{sample_ltk};
ghost use Rattle.joint_controls.specs.Joint.{is_running};
ghost use Rattle.joint_laws.specs.Runs.{IsRun};
ghost use Rattle.joint_laws.specs.joint_parameters.Turns.{AreLinksInRange, MayLinkAll};
ghost use Rattle.joint_keys.specs.KeyedJoint.{steps_of};
ghost use Rattle.joint_keys.specs.KeyedLinks.{link_steps};
ghost use Rattle.joint_keys.specs.OneKey.{AreOneKey};
ghost use Rattle.joint_keys.specs.Worked.{end_in, first_by_turns, first_link_with};
ghost use Rattle.joint_keys.specs.Worked.{keyed_link_after, keys_by_turns, may_come};
ghost use Rattle.joint_keys.specs.Worked.{start_by_turns, start_with, whole_start_with};

/// Encryption starts with one long term key, by steps each of which may come, in a run that meets
/// the premises of the laws: both ends are Secure in the session of the sample, and each has sent
/// one sealed PDU, which the other has opened.
pub fn a_start_with_one_key()
    ensures comes { (map : ChannelMap) → may_come map (whole_start_with sample_ltk) ≡ true }
    ensures run { (map : ChannelMap)
        → IsRun (six_slots map) (steps_of (whole_start_with sample_ltk)) }
    ensures one_key { (map : ChannelMap)
        → AreOneKey (whole_start_with sample_ltk) (first_link_with map) }
    ensures goes { (map : ChannelMap)
        → is_running (keyed_link_after map (whole_start_with sample_ltk)).joint ≡ true }
    ensures central { (map : ChannelMap)
        → (keyed_link_after map (whole_start_with sample_ltk)).central.end
        ≡ end_in Role.Central PhaseFacts.Secure sample_ltk 1 }
    ensures peripheral { (map : ChannelMap)
        → (keyed_link_after map (whole_start_with sample_ltk)).peripheral.end
        ≡ end_in Role.Peripheral PhaseFacts.Secure sample_ltk 1 }
{}

/// With another long term key at the peripheral, which is not one key, all is the same but its
/// session key: the first sealed PDU of the central is on the air, with the counter and the
/// initialization vector that the peripheral opens it with.
pub fn a_start_with_two_keys()
    ensures comes { (map : ChannelMap) (ltk : List ℕ) → may_come map (start_with ltk) ≡ true }
    ensures two_keys { (map : ChannelMap) (ltk : List ℕ)
        → AreOneKey (start_with ltk) (first_link_with map) → ltk ≡ sample_ltk }
    ensures made { (map : ChannelMap) (ltk : List ℕ)
        → (keyed_link_after map (start_with ltk)).central.made
        ≡ end_in Role.Central PhaseFacts.HalfKeyed sample_ltk 0 }
    ensures listener { (map : ChannelMap) (ltk : List ℕ)
        → (keyed_link_after map (start_with ltk)).peripheral.end
        ≡ end_in Role.Peripheral PhaseFacts.HalfKeyed ltk 0 }
{}

/// By turns, each of these steps may come: encryption starts within three events, and both ends are
/// Secure in the session of the sample, with one sealed PDU each way.
pub fn a_start_comes_by_turns()
    ensures comes { (map : ChannelMap) (ltk : List ℕ)
        → MayLinkAll (link_steps (start_by_turns ltk)) (first_by_turns map) }
    ensures in_range { (ltk : List ℕ) → AreLinksInRange (link_steps (start_by_turns ltk)) }
    ensures central { (map : ChannelMap)
        → (keys_by_turns map (start_by_turns sample_ltk)).central.end
        ≡ end_in Role.Central PhaseFacts.Secure sample_ltk 1 }
    ensures peripheral { (map : ChannelMap)
        → (keys_by_turns map (start_by_turns sample_ltk)).peripheral.end
        ≡ end_in Role.Peripheral PhaseFacts.Secure sample_ltk 1 }
{}
