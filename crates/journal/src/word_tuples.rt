//! The words of a line after the first, if there are exactly this many.
ghost use Rattle.std.specs.Prelude.{◌≡◌, ◌∷◌, [], MatchOption};
ghost use Rattle.std.specs.Option.{option_map};
ghost use Rattle.journal.specs.WordTuples.{five_words, four_words, three_words, two_words};

use line_words::Words;

/// A word of a line.
type Word<'a> = &'a [u8];

/// The first word, and those after it.
fn split_word<'a>(mut words: Words<'a>) -> Option<(Word<'a>, Words<'a>)>
    ensures { MatchOption result (words.entry ≡ [])
        (λ parts. words.entry ≡ parts.0.now ∷ parts.1) }
{
    let first = words.next_word()?;
    Some((first, words))
}

/// The two words.
pub fn two_words<'a>(words: Words<'a>) -> Option<(Word<'a>, Word<'a>)>
    ensures { option_map (λ w. (w.0.now, w.1.now)) result ≡ two_words words.entry }
{
    let (first, words) = split_word(words)?;
    let (second, words) = split_word(words)?;
    match split_word(words) {
        None => Some((first, second)),
        Some(_) => None,
    }
}

/// The three words.
pub fn three_words<'a>(words: Words<'a>) -> Option<(Word<'a>, Word<'a>, Word<'a>)>
    ensures { option_map (λ w. (w.0.now, w.1.now, w.2.now)) result ≡ three_words words.entry }
{
    let (first, words) = split_word(words)?;
    let (second, third) = two_words(words)?;
    Some((first, second, third))
}

/// The four words.
pub fn four_words<'a>(words: Words<'a>) -> Option<(Word<'a>, Word<'a>, Word<'a>, Word<'a>)>
    ensures { option_map (λ w. (w.0.now, w.1.now, w.2.now, w.3.now)) result
        ≡ four_words words.entry }
{
    let (first, words) = split_word(words)?;
    let (second, third, fourth) = three_words(words)?;
    Some((first, second, third, fourth))
}

/// The five words.
pub fn five_words<'a>(
    words: Words<'a>,
) -> Option<(Word<'a>, Word<'a>, Word<'a>, Word<'a>, Word<'a>)>
    ensures { option_map (λ w. (w.0.now, w.1.now, w.2.now, w.3.now, w.4.now)) result
        ≡ five_words words.entry }
{
    let (first, words) = split_word(words)?;
    let (second, third, fourth, fifth) = four_words(words)?;
    Some((first, second, third, fourth, fifth))
}
