//! A bit of a number, for masks, maps and headers.

ghost use Rattle.std.specs.Prelude.{◌≡◌};
ghost use Rattle.ble_base.specs.Bits.{has_bit};

/// Whether the bit at this place is 1. Place 0 is the least significant; no bit is 1 from place 64
/// up.
pub fn has_bit(bits: u64, place: u8) -> bool
    ensures { result ≡ has_bit bits place }
{
    place < 64 && (bits >> place) & 1 == 1
}
