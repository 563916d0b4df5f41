//! Laws of the CRC and of whitening. The bodies do nothing: the contracts are the laws.

ghost use Rattle.std.specs.Prelude.{◌≡◌, ℕ, ◌+◌, ◌-◌, ◌*◌, ◌^◌, ◌<◌};
ghost use Rattle.std.specs.Prelude.{List, [], ◌∷◌, ◌++◌, length, map, bit_xor, All};
ghost use Rattle.std.specs.Int.{bit_at};
ghost use Rattle.std.specs.List.{range_with_len};
ghost use Rattle.frame_bits.specs.AirBits.{air_bits, sums, DiffersWithin};
ghost use Rattle.frame_bits.specs.Crc.{crc, crc_octets, generator, multiple, remainder};
ghost use Rattle.frame_bits.specs.Whitening.{whitening_of, whitening_bit};

/// The remainder of a polynomial is the one polynomial of a degree below 24 that differs from it by
/// a multiple of the generator (Core 5.2, volume 6 part B, section 3.1.1).
pub fn remainder_is_modulo()
    ensures degree { (n p : ℕ) → p < 2 ^ (24 + n) → remainder n p < 2 ^ 24 }
    ensures some { (n p : ℕ) → (quotient : List ℕ)
        × (length quotient ≡ n) × All (λ c. c < 2) quotient
        × (bit_xor (multiple quotient) (remainder n p) ≡ p) }
    ensures only { (quotient : List ℕ) (r : ℕ) → All (λ c. c < 2) quotient → r < 2 ^ 24
        → remainder (length quotient) (bit_xor (multiple quotient) r) ≡ r }
{}

/// The CRC of no octets is the initial value. The CRC of a list in two parts is that of the second
/// part, with the CRC of the first as its initial value.
pub fn crc_goes_on()
    ensures none { (init : ℕ) → crc init [] ≡ init }
    ensures more { (init : ℕ) (front back : List ℕ)
        → crc init (front ++ back) ≡ crc (crc init front) back }
{}

/// The CRC of a sum is the sum of the CRCs.
pub fn crc_is_linear()
    ensures { (init other : ℕ) (xs ys : List ℕ) → length xs ≡ length ys
        → crc (bit_xor init other) (sums xs ys) ≡ bit_xor (crc init xs) (crc other ys) }
{}

/// On the air a CRC is sent from position 23 down to position 0.
pub fn crc_goes_highest_first()
    ensures { (sum : ℕ)
        → air_bits (crc_octets sum) ≡ map (λ k. bit_at sum (23 - k)) (range_with_len 0 24) }
{}

/// Two PDUs of equal length whose bits on the air, CRC included, differ only within 24 consecutive
/// places are equal: the CRC detects every change within 24 consecutive bits.
pub fn short_change_is_seen()
    ensures { (init start : ℕ) (sent heard : List ℕ) → init < 2 ^ 24 → length heard ≡ length sent
        → All (λ octet. octet < 2 ^ 8) sent → All (λ octet. octet < 2 ^ 8) heard
        → DiffersWithin 24 start
        (air_bits (sent ++ crc_octets (crc init sent)))
        (air_bits (heard ++ crc_octets (crc init heard)))
        → heard ≡ sent }
{}

/// Bit t of the sequence is added to bit t of the octets on the air.
pub fn whitening_goes_bit_by_bit()
    ensures { (channel : ℕ) (octets : List ℕ)
        → air_bits (whitening_of channel octets) ≡ sums (air_bits octets)
        (map (whitening_bit channel) (range_with_len 0 (8 * length octets))) }
{}

/// Whitening keeps the number of octets and undoes itself. A change of the octets is the same
/// change of the whitened octets.
pub fn whitening_is_linear()
    ensures length { (channel : ℕ) (octets : List ℕ)
        → length (whitening_of channel octets) ≡ length octets }
    ensures twice { (channel : ℕ) (octets : List ℕ)
        → whitening_of channel (whitening_of channel octets) ≡ octets }
    ensures change { (channel : ℕ) (octets change : List ℕ)
        → whitening_of channel (sums octets change) ≡ sums (whitening_of channel octets) change }
{}
