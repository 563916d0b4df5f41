//! Worked joint runs.
ghost use Rattle.std.specs.Prelude.{◌≡◌, [], ◌∷◌, ◌++◌, ℕ, List, Some, None, length, true};
ghost use Rattle.ble_base.specs.ErrorCodes.{instant_passed};
ghost use Rattle.ble_base.specs.declared.channel_map.ChannelMap.{ChannelMap};
ghost use Rattle.joint_controls.specs.control_model.Worked.{six_slots};
ghost use Rattle.joint_controls.specs.phased_control.Worked.{zero_response};
ghost use Rattle.joint_controls.specs.Joint.{PeripheralAcked, PeripheralFixes, PeripheralTakes};
ghost use Rattle.joint_controls.specs.Joint.{beginning, is_clear, is_fixed, is_running};
ghost use Rattle.joint_controls.specs.Joint.{is_same_event, is_taken};
ghost use Rattle.joint_controls.specs.Worked.{link_after};
ghost use Rattle.joint_parameters.specs.Indications.{changes_taken};
ghost use Rattle.joint_parameters.specs.Turns.{MayLinkAll, first_link, joint_steps};
ghost use Rattle.joint_parameters.specs.Worked.{data_and_map, hears_map, in_time, link_by_turns};
ghost use Rattle.joint_parameters.specs.Worked.{too_late, update_by_turns};

/// An update holds at both ends from the event of its Instant on.
pub fn an_update_holds_at_both_ends()
    ensures event { (map : ChannelMap) → is_same_event (link_after map in_time) ≡ true }
    ensures central { (map : ChannelMap)
        → (link_after map in_time).central.control.track.params.interval ≡ 8 }
    ensures peripheral { (map : ChannelMap)
        → (link_after map in_time).peripheral.control.track.params.interval ≡ 8 }
    ensures runs { (map : ChannelMap) → is_running (link_after map in_time) ≡ true }
{}

/// An update that is taken in event 7 ends the link, and was not taken.
pub fn a_late_update_ends_the_link()
    ensures ends { (map : ChannelMap) → (link_after map too_late).peripheral.control.ends
        ≡ Some (record { 0 = instant_passed }) }
    ensures sent { (map : ChannelMap)
        → length (link_after map too_late).central.control.sent ≡ 1 }
    ensures taken { (map : ChannelMap)
        → changes_taken too_late (beginning 27 27 (six_slots map) 3) ≡ [] }
{}

/// By turns, each of these steps may come: the central sends an update in event 0, the peripheral
/// takes it, and the central sees that.
pub fn an_update_comes_by_turns()
    ensures comes { (map : ChannelMap)
        → MayLinkAll update_by_turns (first_link 27 27 (six_slots map) 3 0) }
    ensures event { (map : ChannelMap)
        → is_same_event (link_by_turns map update_by_turns).joint ≡ true }
    ensures sent { (map : ChannelMap)
        → length (link_by_turns map update_by_turns).joint.central.control.sent ≡ 1 }
    ensures waits { (map : ChannelMap)
        → (link_by_turns map update_by_turns).joint.peripheral.control.track.waits
        ≡ (link_by_turns map update_by_turns).joint.central.control.track.waits }
    ensures clear { (map : ChannelMap)
        → is_clear (link_by_turns map update_by_turns).joint.down ≡ true }
{}

/// As it hears a packet with a new map, a peripheral sees its data acknowledged, then fixes its
/// request, and then takes the map.
pub fn a_request_is_fixed_before_a_map_is_taken()
    ensures comes { (map : ChannelMap) → MayLinkAll (data_and_map map ++ hears_map ∷ [])
        (first_link 27 27 (six_slots map) 3 0) }
    ensures steps { (map : ChannelMap)
        → joint_steps hears_map (link_by_turns map (data_and_map map))
        ≡ PeripheralAcked ∷ PeripheralFixes 9 ∷ PeripheralTakes 9 zero_response ∷ [] }
    ensures fixed { (map : ChannelMap)
        → is_fixed (link_by_turns map (data_and_map map ++ hears_map ∷ [])).joint.up ≡ true }
    ensures taken { (map : ChannelMap)
        → is_taken (link_by_turns map (data_and_map map ++ hears_map ∷ [])).joint.down ≡ true }
{}
