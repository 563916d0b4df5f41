//! The key expansion (FIPS 197, section 5.2).

ghost use Rattle.std.specs.Prelude.{◌≡◌, ◌<◌, ◌≤◌};
ghost use Rattle.aes_block.specs.KeyExpansion.{addend, key_expansion, rcon};
ghost use Rattle.aes_block.specs.Words.{word_octets, state_octets, octet_words};

use crate::columns;
use crate::rounds::substituted;

/// The powers of x from x^0 on, each in the most significant octet of a word.
static ROUND_CONSTANTS: [u32; 10] = [
    0x0100_0000,
    0x0200_0000,
    0x0400_0000,
    0x0800_0000,
    0x1000_0000,
    0x2000_0000,
    0x4000_0000,
    0x8000_0000,
    0x1b00_0000,
    0x3600_0000,
];

/// Rcon of a round, 1 to 10.
fn round_constant(round: usize) -> u32
    requires low { 1 ≤ round }
    requires high { round ≤ 10 }
    ensures { word_octets result ≡ rcon round }
{
    ROUND_CONSTANTS[round - 1]
}

/// The word that is added to the word four places before word `place`; `last` is the word before
/// it.
fn addend(last: u32, place: usize) -> u32
    requires low { 4 ≤ place }
    requires high { place < 44 }
    ensures { word_octets result ≡ addend (word_octets last) place }
{
    if place % 4 == 0 {
        substituted(last.rotate_left(8).to_be_bytes()) ^ round_constant(place / 4)
    } else {
        last
    }
}

/// The words of all eleven round keys, four for each. The first four are the key (FIPS 197, section
/// 5.2).
pub(crate) fn expand(key: &[u8; 16]) -> [u32; 44]
    ensures key { state_octets result ≡ key.now }
    ensures words { octet_words result ≡ key_expansion key.now }
{
    let [a, b, c, d] = columns::read(key);
    let mut words = [0; 44];
    words[0] = a;
    words[1] = b;
    words[2] = c;
    words[3] = d;
    'words: for place in 4..44 {
        words[place] = words[place - 4] ^ addend(words[place - 1], place);
    }
    words
}
