//! Blocks and round keys as four columns, each a word whose most significant octet is row 0.

ghost use Rattle.std.specs.Prelude.{◌≡◌, ◌+◌, ◌≤◌, [], ◌∷◌, slice_index};
ghost use Rattle.aes_block.specs.State.{round_key};
ghost use Rattle.aes_block.specs.Words.{word_octets, state_octets, octet_words};

/// The word of four octets of a block, from place `at` on, most significant first.
#[inline(always)]
fn read_word(block: &[u8; 16], at: usize) -> u32
    requires { at + 4 ≤ 16 }
    ensures { let o = slice_index block.now in
        word_octets result ≡ o at ∷ o (at + 1) ∷ o (at + 2) ∷ o (at + 3) ∷ [] }
{
    u32::from_be_bytes([block[at], block[at + 1], block[at + 2], block[at + 3]])
}

/// The columns of a block: four octets each, one column after another (FIPS 197, section 3.4).
#[inline(always)]
pub(crate) fn read(block: &[u8; 16]) -> [u32; 4]
    ensures { state_octets result ≡ block.now }
{
    [
        read_word(block, 0),
        read_word(block, 4),
        read_word(block, 8),
        read_word(block, 12),
    ]
}

/// The block of these columns.
#[inline(always)]
pub(crate) fn write(columns: [u32; 4]) -> [u8; 16]
    ensures { result ≡ state_octets columns }
{
    let [a0, a1, a2, a3] = columns[0].to_be_bytes();
    let [b0, b1, b2, b3] = columns[1].to_be_bytes();
    let [c0, c1, c2, c3] = columns[2].to_be_bytes();
    let [d0, d1, d2, d3] = columns[3].to_be_bytes();
    [
        a0, a1, a2, a3, b0, b1, b2, b3, c0, c1, c2, c3, d0, d1, d2, d3,
    ]
}

/// The four words of the expanded key for a round, 0 to 10 (FIPS 197, section 5.1.4).
#[inline(always)]
pub(crate) fn round_key(words: &[u32; 44], round: usize) -> [u32; 4]
    requires { round ≤ 10 }
    ensures { state_octets result ≡ round_key (octet_words words.now) round }
{
    let at = 4 * round;
    [words[at], words[at + 1], words[at + 2], words[at + 3]]
}
