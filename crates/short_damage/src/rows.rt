//! Worked examples, which the definitions compute.
ghost use Rattle.std.specs.Prelude.{◌≡◌, [], ◌∷◌, replicate};
ghost use Rattle.air_frame.specs.Hearing.{IsWhole, heard_in};
ghost use Rattle.radio_replay.specs.Damage.{damaged_packet};
ghost use Rattle.short_damage.specs.Rows.{generator_bits, of_access, one_bit, packet_with};
ghost use Rattle.short_damage.specs.Rows.{past_end, too_wide, widest};
ghost use Rattle.short_damage.specs.Short.{ChangesWithin, IsShort};

/// A damage of one bit is short, and one of 24 bits over four octets. One of 25 bits is not, nor one
/// of the access address. What reaches past the end of a packet does not count: of five octets of
/// ones a packet of ten octets has two.
pub fn worked_damages()
    ensures one { IsShort one_bit }
    ensures widest { IsShort widest }
    ensures wide { IsShort too_wide → ⊥ }
    ensures access { IsShort of_access → ⊥ }
    ensures past_end { ChangesWithin 24 past_end (replicate 10 0) }
{}

/// A damage of 25 bits that are the generator of the CRC makes the packet of another PDU, which is
/// heard whole (Core 5.2, volume 6 part B, section 3.1.1). So it is not short: 24 bits are the most
/// that are always seen.
pub fn a_damage_of_25_bits_may_pass()
    ensures passes { IsWhole (heard_in 0 0x71764129 1
        (damaged_packet generator_bits (packet_with 0x00))) (0x02 ∷ 0x01 ∷ 0x01 ∷ []) }
    ensures refused { IsShort generator_bits → ⊥ }
{
    crate::packets::a_short_damage_is_never_whole();
}
