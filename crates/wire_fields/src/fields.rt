//! Taking fields from the front of a packet.
ghost use Rattle.std.specs.Prelude.{◌≡◌, ◌↔◌, ◌≤◌, ◌+◌, ◌^◌, ◌<◌, ◌==◌, ◌∷◌, ◌++◌, IsTrue, length};
ghost use Rattle.std.specs.Prelude.{take, drop};
ghost use Rattle.wire_fields.specs.Field.{little_endian, number_of};

use std::marker::Model;

/// The octets of a packet that are still to be taken, field by field from the front. Numbers have
/// their least significant octet first.
#[derive(Drop)]
pub struct Fields<'a> {
    rest: &'a [u8],
}

// A clause sees the octets that are left.
impl<'a> Model for Fields<'a> {
    ghost use Rattle.std.specs.Prelude.{ℕ, List};

    ghost Value = { List ℕ };

    ghost view = { λ f. f.rest.now };
}

impl<'a> Fields<'a> {
    /// All of these octets are still to be taken.
    pub fn new(octets: &'a [u8]) -> Fields<'a>
        ensures { result ≡ octets.now }
    {
        Fields { rest: octets }
    }

    /// The number of octets that are left.
    pub fn len(&self) -> usize
        ensures { result ≡ length self.now }
    {
        self.rest.len()
    }

    /// Whether none is left.
    pub fn is_empty(&self) -> bool
        ensures { IsTrue result ↔ (length self.now ≡ 0) }
    {
        self.rest.is_empty()
    }

    /// Whether this number of octets is left.
    pub fn has_exactly(&self, count: usize) -> bool
        ensures value { result ≡ (length self.now == count) }
        ensures exact { IsTrue result ↔ (length self.now ≡ count) }
    {
        self.rest.len() == count
    }

    /// The next `count` octets, unchanged.
    pub fn slice(&mut self, count: usize) -> &'a [u8]
        requires { count ≤ length self.old }
        ensures value { result.now ≡ take count self.old }
        ensures new { self.new ≡ drop count self.old }
        ensures taken { self.old ≡ result.now ++ self.new }
        ensures len { length result.now ≡ count }
        ensures rest { length self.new + count ≡ length self.old }
    {
        let (front, rest) = self.rest.split_at(count);
        self.rest = rest;
        front
    }

    // The next `N` octets, those of a number.
    fn front<const N: usize>(&mut self) -> [u8; N]
        requires { N ≤ length self.old }
        ensures taken { self.old ≡ result ++ self.new }
        ensures rest { length self.new + N ≡ length self.old }
    {
        match self.rest.split_first_chunk::<N>() {
            Some((front, rest)) => {
                self.rest = rest;
                *front
            }
            None => unreachable!(),
        }
    }

    /// The next `N` octets, unchanged.
    #[tactic(auto, using(crate::proofs::LittleEndian::array_front))]
    pub fn octets<const N: usize>(&mut self) -> [u8; N]
        requires { N ≤ length self.old }
        ensures value { result ≡ take N self.old }
        ensures new { self.new ≡ drop N self.old }
        ensures taken { self.old ≡ result ++ self.new }
        ensures rest { length self.new + N ≡ length self.old }
    {
        self.front()
    }

    /// The next octet.
    pub fn u8(&mut self) -> u8
        requires { 1 ≤ length self.old }
        ensures value { result ≡ number_of (take 1 self.old) }
        ensures new { self.new ≡ drop 1 self.old }
        ensures taken { self.old ≡ little_endian 1 result ++ self.new }
        ensures octet { self.old ≡ result ∷ self.new }
        ensures rest { length self.new + 1 ≡ length self.old }
    {
        let [octet] = self.front::<1>();
        octet
    }

    /// The next number of two octets.
    pub fn u16(&mut self) -> u16
        requires { 2 ≤ length self.old }
        ensures value { result ≡ number_of (take 2 self.old) }
        ensures new { self.new ≡ drop 2 self.old }
        ensures taken { self.old ≡ little_endian 2 result ++ self.new }
        ensures rest { length self.new + 2 ≡ length self.old }
    {
        u16::from_le_bytes(self.front())
    }

    /// The next number of three octets.
    pub fn u24(&mut self) -> u32
        requires { 3 ≤ length self.old }
        ensures value { result ≡ number_of (take 3 self.old) }
        ensures new { self.new ≡ drop 3 self.old }
        ensures taken { self.old ≡ little_endian 3 result ++ self.new }
        ensures rest { length self.new + 3 ≡ length self.old }
        ensures fits { result < 2 ^ 24 }
    {
        let [a, b, c] = self.front::<3>();
        u32::from_le_bytes([a, b, c, 0])
    }

    /// The next number of four octets.
    pub fn u32(&mut self) -> u32
        requires { 4 ≤ length self.old }
        ensures value { result ≡ number_of (take 4 self.old) }
        ensures new { self.new ≡ drop 4 self.old }
        ensures taken { self.old ≡ little_endian 4 result ++ self.new }
        ensures rest { length self.new + 4 ≡ length self.old }
    {
        u32::from_le_bytes(self.front())
    }

    /// The next number of five octets.
    pub fn u40(&mut self) -> u64
        requires { 5 ≤ length self.old }
        ensures value { result ≡ number_of (take 5 self.old) }
        ensures new { self.new ≡ drop 5 self.old }
        ensures taken { self.old ≡ little_endian 5 result ++ self.new }
        ensures rest { length self.new + 5 ≡ length self.old }
        ensures fits { result < 2 ^ 40 }
    {
        let [a, b, c, d, e] = self.front::<5>();
        u64::from_le_bytes([a, b, c, d, e, 0, 0, 0])
    }

    /// The next number of eight octets.
    pub fn u64(&mut self) -> u64
        requires { 8 ≤ length self.old }
        ensures value { result ≡ number_of (take 8 self.old) }
        ensures new { self.new ≡ drop 8 self.old }
        ensures taken { self.old ≡ little_endian 8 result ++ self.new }
        ensures rest { length self.new + 8 ≡ length self.old }
    {
        u64::from_le_bytes(self.front())
    }
}
