//! The numbers that words of hexadecimal digits spell.
ghost use Rattle.std.specs.Prelude.{◌≡◌};
ghost use Rattle.radio_replay.specs.Numbers.{address_of, cursor_of, random_word_of};

use hex::FromHex;

/// The public device address that 12 hexadecimal digits spell, the most significant octet first.
/// The answer has the least significant octet first.
pub(crate) fn read_address(word: &[u8]) -> Option<[u8; 6]>
    ensures { result ≡ address_of word.now }
{
    let mut octets = <[u8; 6] as FromHex>::from_hex(word).ok()?;
    octets.reverse();
    Some(octets)
}

/// The number of 8 hexadecimal digits.
pub(crate) fn read_cursor(word: &[u8]) -> Option<u32>
    ensures { result ≡ cursor_of word.now }
{
    let octets = <[u8; 4] as FromHex>::from_hex(word).ok()?;
    Some(u32::from_be_bytes(octets))
}

/// The number of 16 hexadecimal digits.
pub(crate) fn read_random_word(word: &[u8]) -> Option<u64>
    ensures { result ≡ random_word_of word.now }
{
    let octets = <[u8; 8] as FromHex>::from_hex(word).ok()?;
    Some(u64::from_be_bytes(octets))
}
