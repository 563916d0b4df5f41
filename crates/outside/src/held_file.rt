//! One file of the files in memory.
ghost use Rattle.std.specs.Prelude.{◌≡◌, ◌<◌, ◌≤◌, ◌↔◌, ◌≢◌, length, IfOk, IsErrOf, Err};
ghost use Rattle.std.specs.Str.{bytes_eq};
ghost use Rattle.outside.specs.Count.{one_more};

use crate::files::FileFault;
use std::alloc::{AllocError, Global};
use std::marker::Model;

/// A file that is held in memory.
#[derive(Debug, Drop)]
pub(crate) struct HeldFile {
    name: String,
    content: Vec<u8>,
    faults: u64,
}

impl Model for HeldFile {
    ghost use Rattle.std.specs.Prelude.{string_bytes};
    ghost use Rattle.outside.specs.FileStore.{StoredFile};

    ghost Value = { StoredFile };

    ghost view = { λ file. record {
      name = string_bytes file.name;
      content = file.content.items;
      faults = file.faults;
    } };
}

impl HeldFile {
    /// A file of this name, with this content and this count of faults.
    pub(crate) fn new(
        alloc: Global,
        name: &str,
        content: Vec<u8>,
        faults: u64,
    ) -> Result<HeldFile, AllocError>
        ensures { IfOk result (λ file.
            file ≡ record { name = name.now; content = content.items; faults = faults }) }
    {
        let name = String::from_str(alloc, name)?;
        Ok(HeldFile {
            name,
            content,
            faults,
        })
    }

    /// Whether this is the name of the file, octet for octet.
    pub(crate) fn is_named(&self, name: &str) -> bool
        ensures { result ≡ bytes_eq self.now.name name.now }
    {
        self.name.as_str() == name
    }

    /// Counts a fault. The count stays at 2^64 - 1.
    pub(crate) fn count_fault(&mut self)
        ensures counted { self.new ≡ record self.old { faults = one_more self.old.faults } }
        ensures later { self.old.faults ≤ self.new.faults }
    {
        self.faults = self.faults.saturating_add(1);
    }

    /// Puts this content in place of the old one.
    pub(crate) fn replace(&mut self, content: Vec<u8>)
        ensures { self.new ≡ record self.old { content = content.items } }
    {
        self.content = content;
    }

    /// A copy of the content, of at most `limit` octets. The length is looked at first, so `Memory`
    /// comes only where the content is within the limit and its allocation failed.
    pub(crate) fn read(&self, alloc: Global, limit: u32) -> Result<Vec<u8>, FileFault>
        ensures ok { IfOk result (λ octets.
            (octets.items ≡ self.now.content) × (length self.now.content ≤ limit)) }
        ensures too_long { IsErrOf result FileFault.TooLong ↔ (limit < length self.now.content) }
        ensures not_failed { result ≢ Err FileFault.Failed }
    {
        if self.content.len() > limit as usize {
            return Err(FileFault::TooLong);
        }
        Ok(Vec::from_slice(alloc, &self.content)?)
    }
}
