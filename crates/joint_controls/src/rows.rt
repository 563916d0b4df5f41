//! Worked joint runs.
ghost use Rattle.std.specs.Prelude.{◌≡◌, ◌∷◌, [], List, true};
ghost use Rattle.ble_base.specs.declared.channel_map.ChannelMap.{ChannelMap};
ghost use Rattle.phased_control.specs.enc_phase.declared.facts.PhaseFacts.{PhaseFacts};
ghost use Rattle.joint_controls.specs.Worked.{cross, link_after, may_come, start};

/// Encryption starts at both ends, by steps each of which may come.
pub fn a_link_starts_encryption()
    ensures comes { (map : ChannelMap) → may_come map start ≡ true }
    ensures central { (map : ChannelMap) → (link_after map start).central.phase
        ≡ PhaseFacts.Secure }
    ensures peripheral { (map : ChannelMap) → (link_after map start).peripheral.phase
        ≡ PhaseFacts.Secure }
{}

/// A map and a request cross, by steps each of which may come: the central rejects the request, and
/// goes on with its map.
pub fn a_map_and_a_request_cross()
    ensures comes { (map : ChannelMap) → may_come map (cross map) ≡ true }
    ensures rejected { (map : ChannelMap)
        → (link_after map (cross map)).central.control.table.queue.rejections
        ≡ record { opcode = 0x0F; code = record { 0 = 0x2A } } ∷ [] }
{}
