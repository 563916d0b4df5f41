//! Cutting octets at their first separator.
ghost use Rattle.std.specs.Prelude.{◌≡◌, ◌<◌, ◌∷◌, ◌==◌, IfSome, length};
ghost use Rattle.std.specs.List.{position_from, slice_split};
ghost use Rattle.std.specs.Option.{option_copied, option_map};
ghost use Rattle.line_words.specs.Parts.{only_part, parts_after, two_parts};

/// The place of the first separator, if there is one.
fn place_of(octets: &[u8], separator: u8) -> Option<usize>
    ensures value { result ≡ position_from (λ octet. octet == separator) 0 octets.now }
    ensures place { IfSome result (λ at. at < length octets.now) }
{
    octets.iter().position(|octet| *octet == separator)
}

/// The octets before the first separator, and those after it, if there is one.
pub fn cut(octets: &[u8], separator: u8) -> (&[u8], Option<&[u8]>)
    ensures { slice_split (λ octet. octet == separator) octets.now
        ≡ result.0.now ∷ parts_after separator (option_copied result.1) }
{
    match place_of(octets, separator) {
        None => (octets, None),
        Some(at) => (&octets[..at], Some(&octets[at + 1..])),
    }
}

/// The octets, if no separator is among them.
fn only_part(octets: &[u8], separator: u8) -> Option<&[u8]>
    ensures { option_copied result
        ≡ only_part (slice_split (λ octet. octet == separator) octets.now) }
{
    match cut(octets, separator) {
        (part, None) => Some(part),
        (_, Some(_)) => None,
    }
}

/// The octets before the one separator, and those after it.
pub fn two_parts(octets: &[u8], separator: u8) -> Option<(&[u8], &[u8])>
    ensures { option_map (λ parts. (parts.0.now, parts.1.now)) result
        ≡ two_parts (slice_split (λ octet. octet == separator) octets.now) }
{
    let (front, rest) = cut(octets, separator);
    Some((front, only_part(rest?, separator)?))
}
