//! Reading a whole journal, line by line.
ghost use Rattle.std.specs.Prelude.{◌≡◌, ◌⊎◌, ◌^◌, ◌<◌, ◌==◌, ◌++◌, ℕ, List, [], length};
ghost use Rattle.std.specs.Prelude.{IfOk, IfSome, IsErrOf, MatchResult, MatchOption};
ghost use Rattle.std.specs.List.{position_from};
ghost use Rattle.std.specs.Option.{option_map};
ghost use Rattle.line_words.specs.Text.{newline};
ghost use Rattle.journal.specs.declared.entries.Entry.{Entry};
ghost use Rattle.journal.specs.Division.{AreLinesOf, BeginsWithLine, IsFirstBadLine};
ghost use Rattle.journal.specs.FirstLine.{first_line};
ghost use Rattle.journal.specs.Range.{IsEntry};
ghost use Rattle.journal.specs.Text.{line};

use crate::entries::Entry;
use crate::faults::JournalFault;
use crate::journals::Journal;
use crate::line_reading::read_line;
use std::alloc::{AllocError, Global};

/// The place of the first newline, if there is one.
fn newline_in(octets: &[u8]) -> Option<usize>
    ensures place { result ≡ position_from (λ octet. octet == newline) 0 octets.now }
    ensures within { IfSome result (λ at. at < length octets.now) }
{
    octets.iter().position(|octet| *octet == b'\n')
}

/// The octets up to and with their first newline, and those after it. None without a newline.
fn split_line(octets: &[u8]) -> Option<(&[u8], &[u8])>
    ensures { option_map (λ parts. (parts.0.now, parts.1.now)) result ≡ first_line octets.now }
{
    match newline_in(octets) {
        Some(at) => Some(octets.split_at(at + 1)),
        None => None,
    }
}

/// The entry of the first line, and the octets after that line. None if they do not begin with the
/// line of an entry. The error is out of memory.
fn read_entry(alloc: Global, octets: &[u8]) -> Result<Option<(Entry, &[u8])>, AllocError>
    ensures { IfOk result (λ read. MatchOption read (BeginsWithLine octets.now → ⊥)
        (λ parts. IsEntry parts.0 × (octets.now ≡ line parts.0 ++ parts.1.now))) }
{
    let Some((line, after)) = split_line(octets) else {
        return Ok(None);
    };
    match read_line(alloc, line)? {
        Some(entry) => Ok(Some((entry, after))),
        None => Ok(None),
    }
}

impl Journal {
    /// Reads the text of a journal: the entries of its lines, in order. Each line is exactly as it
    /// is written, newline included. A journal that could not be read for want of memory is
    /// dropped.
    pub fn read(alloc: Global, octets: &[u8]) -> Result<Journal, JournalFault>
        requires { length octets.now < 2 ^ 32 }
        // What was read, and why nothing was.
        ensures ok { IfOk result (λ journal. AreLinesOf octets.now journal []) }
        ensures bad_line { (n : ℕ) → IsErrOf result (JournalFault.BadLine n)
            → IsFirstBadLine n octets.now }
        // The lines of entries are read as these entries, and a bad line is found, but for memory.
        ensures read { (entries : List Entry) → AreLinesOf octets.now entries []
            → MatchResult result (λ journal. journal ≡ entries)
            (λ fault. fault ≡ JournalFault.Memory) }
        ensures found { (n : ℕ) → IsFirstBadLine n octets.now → MatchResult result (λ journal. ⊥)
            (λ fault. (fault ≡ JournalFault.BadLine n) ⊎ (fault ≡ JournalFault.Memory)) }
    {
        let mut journal = Journal::new(alloc);
        let mut rest = octets;
        while !rest.is_empty() {
            let Some((entry, later)) = read_entry(alloc, rest)? else {
                return Err(JournalFault::BadLine(journal.len() as u32 + 1));
            };
            journal.push(entry)?;
            rest = later;
        }
        Ok(journal)
    }
}
