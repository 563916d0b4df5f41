//! Laws of packets. The bodies only call laws that they use: the contracts are the laws.

ghost use Rattle.std.specs.Prelude.{◌≡◌, ◌↔◌, ℕ, ◌+◌, ◌^◌, ◌<◌, ◌≤◌};
ghost use Rattle.std.specs.Prelude.{List, length, drop, slice_index, All};
ghost use Rattle.frame_bits.specs.AirBits.{air_bits, DiffersWithin};
ghost use Rattle.air_frame.specs.declared.Heard.{Heard};
ghost use Rattle.air_frame.specs.Hearing.{heard_in};
ghost use Rattle.air_frame.specs.Packet.{on_air, pdu_in, IsPdu};

/// Octets have the form of a PDU exactly where there are 2 to 257 of them and the second counts
/// those after the first two (Core 5.2, volume 6 part B, sections 2.3 and 2.4).
pub fn pdu_form_is_a_count()
    ensures { (pdu : List ℕ) → IsPdu pdu ↔
        ((2 ≤ length pdu) × (length pdu ≤ 257) × (length pdu ≡ 2 + slice_index pdu 1)) }
{}

/// A packet is seven octets longer than its PDU. It is the packet of no other PDU, and the PDU is
/// what is left when the access address, the whitening and the CRC are taken off. A PDU is heard
/// whole where its packet arrives unchanged (Core 5.2, volume 6 part B, sections 2.1, 3.1.1, 3.2).
pub fn packet_tells_its_pdu()
    ensures length { (channel access init : ℕ) (pdu : List ℕ)
        → length (on_air channel access init pdu) ≡ length pdu + 7 }
    ensures only { (channel access init : ℕ) (pdu other : List ℕ)
        → on_air channel access init pdu ≡ on_air channel access init other → pdu ≡ other }
    ensures found { (channel access init : ℕ) (pdu : List ℕ)
        → pdu_in channel (on_air channel access init pdu) ≡ pdu }
    ensures heard { (channel access init : ℕ) (pdu : List ℕ) → IsPdu pdu
        → heard_in channel access init (on_air channel access init pdu)
        ≡ Heard.Whole (record { items = pdu }) }
{
    frame_bits::laws::whitening_is_linear();
}

/// Octets that have the length of a packet, that differ from it only within 24 consecutive bits of
/// its PDU and CRC, and that are the packet of some PDU, are that packet. So a packet changed
/// within 24 such bits is never heard whole.
pub fn short_damage_is_never_whole()
    ensures { (channel access init start : ℕ) (sent octets heard : List ℕ) → init < 2 ^ 24
        → All (λ octet. octet < 2 ^ 8) sent → All (λ octet. octet < 2 ^ 8) heard
        → length octets ≡ length (on_air channel access init sent)
        → DiffersWithin 24 start
        (air_bits (drop 4 (on_air channel access init sent)))
        (air_bits (drop 4 octets))
        → octets ≡ on_air channel access init heard
        → octets ≡ on_air channel access init sent }
{
    frame_bits::laws::short_change_is_seen();
    frame_bits::laws::whitening_goes_bit_by_bit();
    frame_bits::laws::whitening_is_linear();
}
