//! Reading lines, exactly as they are written.
ghost use Rattle.std.specs.Prelude.{◌≡◌, Some, IfOk, IfSome, IfNone};
ghost use Rattle.journal.specs.declared.entries.Entry.{Entry};
ghost use Rattle.journal.specs.Range.{IsEntry};
ghost use Rattle.journal.specs.Text.{line};

use crate::entries::Entry;
use crate::lines::write_line;
use crate::readers::read_first;
use std::alloc::{AllocError, Global};

/// The entry whose line this is, newline included. None exactly if no entry is written so. The
/// error is out of memory.
pub fn read_line(alloc: Global, octets: &[u8]) -> Result<Option<Entry>, AllocError>
    ensures written { IfOk result (λ read. IfSome read (λ entry. line entry ≡ octets.now)) }
    ensures fits { IfOk result (λ read. IfSome read IsEntry) }
    ensures read { (entry : Entry) → IsEntry entry → line entry ≡ octets.now
        → IfOk result (λ read. read ≡ Some entry) }
    ensures none { IfOk result (λ read. IfNone read
        ((entry : Entry) → IsEntry entry → line entry ≡ octets.now → ⊥)) }
{
    let Some(entry) = read_first(alloc, octets)? else {
        return Ok(None);
    };
    let written = write_line(alloc, &entry)?;
    if written.as_slice() == octets {
        Ok(Some(entry))
    } else {
        Ok(None)
    }
}
