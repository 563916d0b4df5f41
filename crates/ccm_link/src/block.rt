//! XOR on blocks of 16 octets.

ghost use Rattle.std.specs.Prelude.{◌≡◌, ◌+◌, ◌≤◌, ◌++◌, length};
ghost use Rattle.arrayvec.specs.ArrayVec.{array_vec_len};
ghost use Rattle.ccm_link.specs.Ccm.{padded_block, xor_of};

use arrayvec::ArrayVec;
use wire_fields::put_octets;

/// The XOR of a block and of at most 16 octets, which zeros fill up.
pub(crate) fn add(block: [u8; 16], octets: &[u8]) -> [u8; 16]
    requires { length octets.now ≤ 16 }
    ensures { result ≡ xor_of block (padded_block octets.now) }
{
    let mut sum = block;
    for (place, octet) in octets.iter().enumerate() {
        sum[place] ^= *octet;
    }
    sum
}

/// Appends at most 16 octets, XORed with a block.
pub(crate) fn push_sum<const CAP: usize>(
    out: &mut ArrayVec<u8, CAP>,
    block: [u8; 16],
    octets: &[u8],
)
    requires short { length octets.now ≤ 16 }
    requires room { array_vec_len out.old + length octets.now ≤ CAP }
    ensures { out.new.items ≡ out.old.items ++ xor_of octets.now block }
{
    let sum = add(block, octets);
    put_octets(out, &sum[..octets.len()]);
}
