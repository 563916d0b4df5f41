//! Laws of one packet and a damage to it. The bodies only call laws that they use: the contracts are
//! the laws.
ghost use Rattle.std.specs.Prelude.{◌≡◌, ◌≢◌, ℕ, ◌^◌, ◌<◌, List, take};
ghost use Rattle.air_frame.specs.declared.Heard.{Heard};
ghost use Rattle.air_frame.specs.Hearing.{IsWhole, heard_in};
ghost use Rattle.air_frame.specs.Packet.{access_octets, on_air};
ghost use Rattle.radio_replay.specs.Damage.{damaged_packet};
ghost use Rattle.radio_replay.specs.declared.fates.Fate.{Fate};
ghost use Rattle.short_damage.specs.Short.{ChangesWithin, HasOctets, IsShort};
ghost use Rattle.short_damage.specs.Short.{IsShortPattern};

/// A packet whose changed bits lie within 24 consecutive ones of PDU and CRC is heard whole only
/// where none was changed, whatever its octets (Core 5.2, volume 6 part B, section 3.1.1).
pub fn a_short_damage_is_never_whole()
    ensures { (channel access init : ℕ) (pdu heard : List ℕ) (fate : Fate)
        → init < 2 ^ 24 → HasOctets fate → ChangesWithin 24 fate (on_air channel access init pdu)
        → IsWhole (heard_in channel access init
        (damaged_packet fate (on_air channel access init pdu))) heard
        → damaged_packet fate (on_air channel access init pdu) ≡ on_air channel access init pdu }
{
    air_frame::laws::packet_tells_its_pdu();
    air_frame::laws::short_damage_is_never_whole();
    frame_bits::laws::whitening_goes_bit_by_bit();
}

/// A damage that changes the access address is not heard by a listener for the packet's own access
/// address. A listener for just the changed address may hear it (Core 5.2, volume 6 part B, section
/// 2.1.2).
pub fn a_changed_access_address_is_not_heard()
    ensures { (channel access init : ℕ) (packet : List ℕ) (fate : Fate)
        → take 4 packet ≡ access_octets access
        → take 4 (damaged_packet fate packet) ≢ take 4 packet
        → heard_in channel access init (damaged_packet fate packet) ≡ Heard.NotOurs }
{}

/// A damage is short whose pattern begins after the access address and has ones only within 24
/// consecutive bits, in the order of the air.
pub fn a_short_pattern_is_a_short_damage()
    ensures { (fate : Fate) → IsShortPattern fate → IsShort fate }
{}
