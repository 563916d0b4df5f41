//! The words for the fates of packets.
ghost use Rattle.std.specs.Prelude.{◌≡◌, ◌&&◌, nat_le};
ghost use Rattle.std.specs.Option.{option_map};
ghost use Rattle.radio_replay.specs.FateWord.{damage_in, fate_in, pattern_in};

use crate::fates::Fate;
use crate::limits::LAST_PLACE;
use arrayvec::ArrayVec;
use ble_base::AIR_PACKET_OCTETS;
use line_words::{read_number, two_parts};
use wire_fields::put_octets;

/// Whether a pattern can have this number of octets.
fn is_pattern_size(count: usize) -> bool
    ensures { result ≡ (nat_le 1 count && nat_le count AIR_PACKET_OCTETS) }
{
    1 <= count && count <= AIR_PACKET_OCTETS
}

/// The pattern that hexadecimal digits spell: 1 to 264 octets.
fn read_pattern(digits: &[u8]) -> Option<ArrayVec<u8, AIR_PACKET_OCTETS>>
    ensures { option_map (λ pattern. pattern.items) result ≡ pattern_in digits.now }
{
    let count = digits.len() / 2;
    if !is_pattern_size(count) {
        return None;
    }
    let mut room = [0; AIR_PACKET_OCTETS];
    let octets = &mut room[..count];
    hex::decode_to_slice(digits, octets).ok()?;
    let mut pattern = ArrayVec::new();
    put_octets(&mut pattern, octets);
    Some(pattern)
}

/// The damage that the octets after the letter spell.
fn read_damage(octets: &[u8]) -> Option<Fate>
    ensures { result ≡ damage_in octets.now }
{
    let (place, digits) = two_parts(octets, b':')?;
    let at = read_number(place, 0, LAST_PLACE as u64)?;
    let pattern = read_pattern(digits)?;
    Some(Fate::Damage {
        at: at as u16,
        pattern,
    })
}

/// The fate that a word spells. It takes no memory.
pub(crate) fn read_fate(word: &[u8]) -> Option<Fate>
    ensures { result ≡ fate_in word.now }
{
    match word {
        [b'.'] => Some(Fate::Pass),
        [b'x'] => Some(Fate::Lost),
        [b'e', octets @ ..] => read_damage(octets),
        _ => None,
    }
}
