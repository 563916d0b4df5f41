//! Blocks of the entries of a journal.
ghost use Rattle.std.specs.Prelude.{◌≡◌, ◌++◌, ◌<◌, ◌≤◌, [], MatchOption, length};

use journal::Entry;

/// How many entries are written at once (our choice).
const BLOCK: usize = 256;

/// The entries that are written next, and those after them.
fn split_block(entries: &[Entry]) -> (&[Entry], &[Entry])
    ensures all { result.0.now ++ result.1.now ≡ entries.now }
    ensures at_most { length result.0.now ≤ 256 }
    ensures fewer { 0 < length entries.now → length result.1.now < length entries.now }
{
    entries.split_at(entries.len().min(BLOCK))
}

/// The entries that are written next, and those after them; none if none are left.
pub fn next_block(entries: &[Entry]) -> Option<(&[Entry], &[Entry])>
    ensures parts { MatchOption result (entries.now ≡ [])
        (λ parts. parts.0.now ++ parts.1.now ≡ entries.now) }
    ensures fewer { MatchOption result (entries.now ≡ [])
        (λ parts. length parts.1.now < length entries.now) }
{
    if entries.is_empty() {
        None
    } else {
        Some(split_block(entries))
    }
}
