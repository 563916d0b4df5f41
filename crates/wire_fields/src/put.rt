//! Appending fields to a packet.
ghost use Rattle.std.specs.Prelude.{◌≡◌, ◌≤◌, ◌<◌, ◌^◌, ◌+◌, ◌++◌, length};
ghost use Rattle.arrayvec.specs.ArrayVec.{array_vec_len};
ghost use Rattle.wire_fields.specs.Field.{little_endian};

use arrayvec::ArrayVec;

/// Appends these octets, unchanged.
pub fn put_octets<const N: usize>(packet: &mut ArrayVec<u8, N>, octets: &[u8])
    requires { array_vec_len packet.old + length octets.now ≤ N }
    ensures items { packet.new.items ≡ packet.old.items ++ octets.now }
    ensures len { array_vec_len packet.new ≡ array_vec_len packet.old + length octets.now }
{
    if packet.try_extend_from_slice(octets).is_err() {
        unreachable!();
    }
}

/// Appends an octet.
pub fn put_u8<const N: usize>(packet: &mut ArrayVec<u8, N>, number: u8)
    requires { array_vec_len packet.old + 1 ≤ N }
    ensures items { packet.new.items ≡ packet.old.items ++ little_endian 1 number }
    ensures len { array_vec_len packet.new ≡ array_vec_len packet.old + 1 }
{
    packet.push(number);
}

/// Appends a number of two octets, the least significant octet first.
pub fn put_u16<const N: usize>(packet: &mut ArrayVec<u8, N>, number: u16)
    requires { array_vec_len packet.old + 2 ≤ N }
    ensures items { packet.new.items ≡ packet.old.items ++ little_endian 2 number }
    ensures len { array_vec_len packet.new ≡ array_vec_len packet.old + 2 }
{
    put_octets(packet, &number.to_le_bytes());
}

/// Appends a number of three octets, the least significant octet first.
pub fn put_u24<const N: usize>(packet: &mut ArrayVec<u8, N>, number: u32)
    requires room { array_vec_len packet.old + 3 ≤ N }
    requires fits { number < 2 ^ 24 }
    ensures items { packet.new.items ≡ packet.old.items ++ little_endian 3 number }
    ensures len { array_vec_len packet.new ≡ array_vec_len packet.old + 3 }
{
    let [a, b, c, _] = number.to_le_bytes();
    put_octets(packet, &[a, b, c]);
}

/// Appends a number of four octets, the least significant octet first.
pub fn put_u32<const N: usize>(packet: &mut ArrayVec<u8, N>, number: u32)
    requires { array_vec_len packet.old + 4 ≤ N }
    ensures items { packet.new.items ≡ packet.old.items ++ little_endian 4 number }
    ensures len { array_vec_len packet.new ≡ array_vec_len packet.old + 4 }
{
    put_octets(packet, &number.to_le_bytes());
}

/// Appends a number of five octets, the least significant octet first.
pub fn put_u40<const N: usize>(packet: &mut ArrayVec<u8, N>, number: u64)
    requires room { array_vec_len packet.old + 5 ≤ N }
    requires fits { number < 2 ^ 40 }
    ensures items { packet.new.items ≡ packet.old.items ++ little_endian 5 number }
    ensures len { array_vec_len packet.new ≡ array_vec_len packet.old + 5 }
{
    let [a, b, c, d, e, _, _, _] = number.to_le_bytes();
    put_octets(packet, &[a, b, c, d, e]);
}

/// Appends a number of eight octets, the least significant octet first.
pub fn put_u64<const N: usize>(packet: &mut ArrayVec<u8, N>, number: u64)
    requires { array_vec_len packet.old + 8 ≤ N }
    ensures items { packet.new.items ≡ packet.old.items ++ little_endian 8 number }
    ensures len { array_vec_len packet.new ≡ array_vec_len packet.old + 8 }
{
    put_octets(packet, &number.to_le_bytes());
}
