//! The rounds on the four columns of the state, each a word whose most significant octet is row 0.

ghost use Rattle.std.specs.Prelude.{◌≡◌, [], ◌∷◌, map, slice_index};
ghost use Rattle.std.specs.List.{range_with_len};
ghost use Rattle.aes_block.specs.State.{add_states, coefficient, mix_columns, mixing};
ghost use Rattle.aes_block.specs.State.{shift_rows, sub_byte, sub_bytes};
ghost use Rattle.aes_block.specs.Words.{word_octets, state_octets};

use crate::tables::{mixed_row, sub_byte};

/// A column of the state with its rows shifted: row 0 of the first of these columns, row 1 of the
/// second, and so on.
#[inline(always)]
fn shifted(first: u32, second: u32, third: u32, fourth: u32) -> [u8; 4]
    ensures { result ≡ slice_index (word_octets first) 0 ∷ slice_index (word_octets second) 1
        ∷ slice_index (word_octets third) 2 ∷ slice_index (word_octets fourth) 3 ∷ [] }
{
    [
        first.to_be_bytes()[0],
        second.to_be_bytes()[1],
        third.to_be_bytes()[2],
        fourth.to_be_bytes()[3],
    ]
}

/// The S-box on each octet of a column (FIPS 197, section 5.1.1).
#[inline(always)]
pub(crate) fn substituted(column: [u8; 4]) -> u32
    ensures { word_octets result ≡ map (λ r. sub_byte (slice_index column r)) (range_with_len 0 4) }
{
    let [a, b, c, d] = column;
    u32::from_be_bytes([sub_byte(a), sub_byte(b), sub_byte(c), sub_byte(d)])
}

/// The S-box on each octet of a column, and then MixColumns (FIPS 197, sections 5.1.1 and 5.1.3).
#[inline(always)]
fn mixed(column: [u8; 4]) -> u32
    ensures { let s = map (λ r. sub_byte (slice_index column r)) (range_with_len 0 4) in
        word_octets result ≡ map (coefficient mixing s) (range_with_len 0 4) }
{
    let [a, b, c, d] = column;
    mixed_row(a)
        ^ mixed_row(b).rotate_right(8)
        ^ mixed_row(c).rotate_right(16)
        ^ mixed_row(d).rotate_right(24)
}

/// AddRoundKey (FIPS 197, section 5.1.4).
#[inline(always)]
pub(crate) fn add(state: [u32; 4], key: [u32; 4]) -> [u32; 4]
    ensures { state_octets result ≡ add_states (state_octets state) (state_octets key) }
{
    [
        state[0] ^ key[0],
        state[1] ^ key[1],
        state[2] ^ key[2],
        state[3] ^ key[3],
    ]
}

/// A round with MixColumns.
#[inline(always)]
pub(crate) fn full(state: [u32; 4], key: [u32; 4]) -> [u32; 4]
    ensures { let s = state_octets state in
        state_octets result
        ≡ add_states (mix_columns (shift_rows (sub_bytes s))) (state_octets key) }
{
    let [a, b, c, d] = state;
    let state = [
        mixed(shifted(a, b, c, d)),
        mixed(shifted(b, c, d, a)),
        mixed(shifted(c, d, a, b)),
        mixed(shifted(d, a, b, c)),
    ];
    add(state, key)
}

/// A column of the last round: the S-box on each octet of a column with its rows shifted.
#[inline(always)]
fn last_column(first: u32, second: u32, third: u32, fourth: u32) -> u32
    ensures { word_octets result
        ≡ sub_byte (slice_index (word_octets first) 0)
        ∷ sub_byte (slice_index (word_octets second) 1)
        ∷ sub_byte (slice_index (word_octets third) 2)
        ∷ sub_byte (slice_index (word_octets fourth) 3) ∷ [] }
{
    substituted(shifted(first, second, third, fourth))
}

/// The last round, which mixes no columns.
#[inline(always)]
pub(crate) fn last(state: [u32; 4], key: [u32; 4]) -> [u32; 4]
    ensures { let s = state_octets state in
        state_octets result ≡ add_states (shift_rows (sub_bytes s)) (state_octets key) }
{
    let [a, b, c, d] = state;
    let state = [
        last_column(a, b, c, d),
        last_column(b, c, d, a),
        last_column(c, d, a, b),
        last_column(d, a, b, c),
    ];
    add(state, key)
}
