//! Reading the parts of an entry from words.
ghost use Rattle.std.specs.Prelude.{◌≡◌, ◌%◌, IfOk, IsOk, length};
ghost use Rattle.journal.specs.Fields.{code_in, damage_in, kind_in, mark_in, octets_in, radios_in, role_in, side_in, u16_in, u64_in, u8_in, verdict_in};

use crate::entries::Mark;
use crate::octets::Octets;
use ble_base::{ErrCode, Kind, Role, Side, Verdict};
use hex::{FromHex, FromHexError};
use line_words::{read_number, read_sign, two_parts};
use std::alloc::{AllocError, Global};

/// The value of the name that this word is; None if it is none of these names.
macro_rules! value_of_name {
    ($word:ident; $($name:literal => $value:expr;)*) => {
        $(if $word == $name.as_slice() {
            return Some($value);
        })*
        None
    };
}

/// The side of a letter.
pub fn read_side(word: &[u8]) -> Option<Side>
    ensures { result ≡ side_in word.now }
{
    value_of_name! {
        word;
        b"a" => Side::A;
        b"b" => Side::B;
    }
}

/// The role of a name.
pub fn read_role(word: &[u8]) -> Option<Role>
    ensures { result ≡ role_in word.now }
{
    value_of_name! {
        word;
        b"central" => Role::Central;
        b"peripheral" => Role::Peripheral;
    }
}

/// The control procedure of a name.
pub fn read_kind(word: &[u8]) -> Option<Kind>
    ensures { result ≡ kind_in word.now }
{
    value_of_name! {
        word;
        b"update" => Kind::Update;
        b"request" => Kind::Request;
        b"map" => Kind::Map;
        b"phy" => Kind::Phy;
        b"features" => Kind::Features;
        b"version" => Kind::Version;
        b"length" => Kind::Length;
        b"encrypt" => Kind::Encrypt;
    }
}

/// The verdict of a name.
pub fn read_verdict(word: &[u8]) -> Option<Verdict>
    ensures { result ≡ verdict_in word.now }
{
    value_of_name! {
        word;
        b"missed" => Verdict::Missed;
        b"broken" => Verdict::Broken;
        b"forged" => Verdict::Forged;
        b"good" => Verdict::Good;
    }
}

/// The radios of a turn: that of A, and that of B if there are two.
pub fn read_radios(word: &[u8]) -> Option<(bool, Option<bool>)>
    ensures { result ≡ radios_in word.now }
{
    match word {
        [a] => Some((read_sign(*a)?, None)),
        [a, b] => Some((read_sign(*a)?, Some(read_sign(*b)?))),
        _ => None,
    }
}

/// A number of at most 64 bits.
pub fn read_u64(word: &[u8]) -> Option<u64>
    ensures { result ≡ u64_in word.now }
{
    read_number(word, 0, u64::MAX)
}

/// A number of at most 16 bits.
pub fn read_u16(word: &[u8]) -> Option<u16>
    ensures { result ≡ u16_in word.now }
{
    let number = read_number(word, 0, 0xFFFF)?;
    Some(number as u16)
}

/// A number of at most 8 bits.
pub fn read_u8(word: &[u8]) -> Option<u8>
    ensures { result ≡ u8_in word.now }
{
    let number = read_number(word, 0, 0xFF)?;
    Some(number as u8)
}

/// The error code of two hexadecimal digits.
pub fn read_code(word: &[u8]) -> Option<ErrCode>
    ensures { result ≡ code_in word.now }
{
    let octets = <[u8; 1] as FromHex>::from_hex(word).ok()?;
    Some(ErrCode(octets[0]))
}

/// The octets of hexadecimal digits, or no octets for a dash. None if a digit is missing or wrong.
/// The error is out of memory, which is never the answer to an odd number of digits.
pub fn read_octets(alloc: Global, word: &[u8]) -> Result<Option<Octets>, AllocError>
    ensures value { IfOk result (λ octets. octets ≡ octets_in word.now) }
    ensures odd { length word.now % 2 ≡ 1 → IsOk result }
{
    if word == b"-".as_slice() {
        return Ok(Some(Octets::from(Vec::new(alloc))));
    }
    match hex::decode(alloc, word) {
        Ok(octets) => Ok(Some(Octets::from(octets))),
        Err(FromHexError::OutOfMemory) => Err(AllocError),
        Err(_) => Ok(None),
    }
}

/// The damage that the octets after the letter spell.
fn read_damage(alloc: Global, octets: &[u8]) -> Result<Option<Mark>, AllocError>
    ensures { IfOk result (λ mark. mark ≡ damage_in octets.now) }
{
    let Some((place, digits)) = two_parts(octets, b':') else {
        return Ok(None);
    };
    let Some(at) = read_u16(place) else {
        return Ok(None);
    };
    let Some(pattern) = read_octets(alloc, digits)? else {
        return Ok(None);
    };
    Ok(Some(Mark::Damage { at, pattern }))
}

/// The mark that a word spells.
pub fn read_mark(alloc: Global, word: &[u8]) -> Result<Option<Mark>, AllocError>
    ensures { IfOk result (λ mark. mark ≡ mark_in word.now) }
{
    match word {
        [b'.'] => Ok(Some(Mark::Pass)),
        [b'x'] => Ok(Some(Mark::Lost)),
        [b'e', octets @ ..] => read_damage(alloc, octets),
        _ => Ok(None),
    }
}
