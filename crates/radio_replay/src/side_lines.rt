//! The lines of the two sides.
ghost use Rattle.std.specs.Prelude.{◌≡◌};
ghost use Rattle.std.specs.Option.{option_map, option_copied};
ghost use Rattle.radio_replay.specs.SideLine.{letter_of, random_words_in, config_in_words, config_in_line};
ghost use Rattle.line_words.specs.Text.{words_of};

use crate::numbers::{read_address, read_cursor, read_random_word};
use arrayvec::ArrayVec;
use ble_base::{Config, RANDOM_WORDS, Side};
use line_words::Words;

/// The letter that names a side.
fn letter(side: Side) -> u8
    ensures { result ≡ letter_of side }
{
    match side {
        Side::A => b'a',
        Side::B => b'b',
    }
}

/// The random words of a side: one to 64.
fn read_random_words(mut words: Words<'_>) -> Option<ArrayVec<u64, RANDOM_WORDS>>
    ensures { option_map (λ values. values.items) result ≡ random_words_in words.entry }
{
    let mut values = ArrayVec::new();
    while let Some(word) = words.next_word() {
        values.try_push(read_random_word(word)?).ok()?;
    }
    if values.is_empty() {
        None
    } else {
        Some(values)
    }
}

/// The settings of a side in the words of its line.
fn read_config_in_words(side: Side, line: &[u8]) -> Option<Config>
    ensures { result ≡ config_in_words side (words_of line.now) }
{
    let mut words = Words::of(line);
    let head = words.next_word()?;
    let name = words.next_word()?;
    let address = words.next_word()?;
    let cursor = words.next_word()?;
    if head != b"side".as_slice() || name != [letter(side)].as_slice() {
        return None;
    }
    Some(Config {
        public: read_address(address)?,
        cursor: read_cursor(cursor)?,
        words: read_random_words(words)?,
    })
}

/// The settings of a side in its line; None if there is no line.
pub(crate) fn read_config_in_line(side: Side, line: Option<&[u8]>) -> Option<Config>
    ensures { result ≡ config_in_line side (option_copied line.entry) }
{
    read_config_in_words(side, line?)
}
