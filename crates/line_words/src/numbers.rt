//! Decimal numbers.
ghost use Rattle.std.specs.Prelude.{◌≡◌, ◌≤◌, IfSome};
ghost use Rattle.line_words.specs.Numbers.{number_in, in_range};

/// The number from `least` to `most` that the word spells in decimal digits. None if the word is empty,
/// has a zero before other digits, or has an octet that is not a digit, or if the number is not in that
/// range.
pub fn read_number(word: &[u8], least: u64, most: u64) -> Option<u64>
    ensures value { result ≡ in_range least most (number_in word.now) }
    ensures most { IfSome result (λ number. number ≤ most) }
{
    if word.is_empty() || (word.len() > 1 && word[0] == b'0') {
        return None;
    }
    let mut number: u128 = 0;
    for digit in word {
        if !digit.is_ascii_digit() {
            return None;
        }
        number = number * 10 + u128::from(*digit - b'0');
        if number > u128::from(most) {
            return None;
        }
    }
    if number < u128::from(least) {
        return None;
    }
    Some(number as u64)
}
