//! Worked joint runs that meet the premises of the laws.
ghost use Rattle.std.specs.Prelude.{◌≡◌, true};
ghost use Rattle.ble_base.specs.declared.channel_map.ChannelMap.{ChannelMap};
ghost use Rattle.joint_parameters.specs.control_model.Worked.{six_slots};
ghost use Rattle.joint_parameters.specs.joint_controls.Joint.{is_running};
ghost use Rattle.joint_parameters.specs.joint_controls.Worked.{cross, link_after, start};
ghost use Rattle.joint_laws.specs.Runs.{IsRun};

/// Encryption starts at both ends in a run that meets the premises of the laws, and goes on.
pub fn a_start_of_encryption_meets_the_premises()
    ensures run { (map : ChannelMap) → IsRun (six_slots map) start }
    ensures goes { (map : ChannelMap) → is_running (link_after map start) ≡ true }
{}

/// A map and a request cross in a run that meets the premises of the laws, and goes on.
pub fn a_crossing_meets_the_premises()
    ensures run { (map : ChannelMap) → IsRun (six_slots map) (cross map) }
    ensures goes { (map : ChannelMap) → is_running (link_after map (cross map)) ≡ true }
{}
