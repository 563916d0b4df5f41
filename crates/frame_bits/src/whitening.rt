//! Data whitening (Core 5.2, volume 6 part B, section 3.2).

ghost use Rattle.std.specs.Prelude.{◌≡◌, ◌<◌};
ghost use Rattle.frame_bits.specs.Whitening.{mask_of, next_mask, whitening_of};

/// Adds the whitening sequence of a channel index to the octets, in place. Bit 0 of the sequence
/// goes to the least significant bit of the first octet (Core 5.2, volume 6 part B, section 3.2).
/// To whiten whitened octets gives the octets back.
pub fn whiten(channel: u8, octets: &mut [u8])
    requires { channel < 40 }
    ensures { octets.new ≡ whitening_of channel octets.old }
{
    let mut mask = first_mask(channel);
    for octet in octets.iter_mut() {
        *octet ^= mask;
        mask = next_mask(mask);
    }
}

/// The first eight bits of the sequence of a channel index. `register` has position 6 in its lowest
/// bit and position 0 in bit 6. Stepped back, it gives the seven bits that precede the sequence.
fn first_mask(channel: u8) -> u8
    requires { channel < 40 }
    ensures { result ≡ mask_of channel 0 }
{
    let register = 0x40 | channel;
    next_mask((register ^ (register >> 4)) << 1)
}

/// The next eight bits of the sequence: each is the sum of the bits seven and three places before.
fn next_mask(mask: u8) -> u8
    ensures { result ≡ next_mask mask }
{
    let entering = (mask >> 1) ^ (mask >> 5);
    let fed_back = entering ^ (entering << 3) ^ (entering << 6);
    fed_back ^ (fed_back << 7)
}
