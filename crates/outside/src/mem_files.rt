//! Files in memory, for tests and for all that needs no system.
ghost use Rattle.std.specs.Prelude.{◌≡◌, ◌≢◌, ◌<◌, ◌≤◌, ◌↔◌, ℕ, List, [], ◌∷◌, ◌++◌, length};
ghost use Rattle.std.specs.Prelude.{position, IsTrue, IfOk, OnOk, OnErr, IsErrOf};
ghost use Rattle.std.specs.Str.{bytes_eq};
ghost use Rattle.outside.specs.Calls.{after_call};
ghost use Rattle.outside.specs.FileStore.{content_of, faults_of, faults_after_read, read_fails};
ghost use Rattle.outside.specs.FileStore.{IsTooLong, NeverFails};

use crate::call_plan::CallPlan;
use crate::files::{FileFault, Files};
use crate::held_file::HeldFile;
use std::alloc::{AllocError, Global};
use std::marker::Model;

/// Files in memory, whose content is known. A read fails exactly where its call is planned to fail,
/// and where the name is not held.
///
/// Each name that is held has its own count of faults, and all other names share one, so that a
/// read that fails needs no allocation. A name that is newly held begins with the shared count.
#[derive(Debug, Drop)]
pub struct MemFiles {
    held: Vec<HeldFile>,
    others: u64,
    reads: CallPlan,
}

impl Model for MemFiles {
    ghost use Rattle.outside.specs.FileStore.{FileStore};

    ghost Value = { FileStore };

    ghost view = { λ files. record {
      held = files.held.items;
      others = files.others;
      reads = files.reads;
    } };
}

impl MemFiles {
    /// Holds no file, and plans no call to fail.
    pub fn new(alloc: Global) -> MemFiles
        ensures { result
            ≡ record { held = []; others = 0; reads = record { made = 0; failing = [] } } }
    {
        MemFiles {
            held: Vec::new(alloc),
            others: 0,
            reads: CallPlan::new(alloc),
        }
    }

    /// Sets the content of a name, in place of what it held. Its count of faults stays. An `Err`
    /// changes nothing.
    pub fn hold(&mut self, name: &str, content: &[u8]) -> Result<(), AllocError>
        ensures held { OnOk result (content_of self.new name.now ≡ Some content.now) }
        ensures others { OnOk result ((other : List ℕ) → other ≢ name.now
            → content_of self.new other ≡ content_of self.old other) }
        ensures faults { (other : List ℕ)
            → faults_of self.new other ≡ faults_of self.old other }
        ensures reads { self.new.reads ≡ self.old.reads }
        ensures err { OnErr result (self.new ≡ self.old) }
    {
        let alloc = *self.held.allocator();
        let content = Vec::from_slice(alloc, content)?;
        match place_of(&self.held, name) {
            Some(place) => self.held[place].replace(content),
            None => {
                let file = HeldFile::new(alloc, name, content, self.others)?;
                self.held.push(file)?;
            }
        }
        Ok(())
    }

    /// Plans a call of `read_file` to fail: the one of this number, counted from 1. An `Err`
    /// changes nothing.
    pub fn fail_at(&mut self, call: u64) -> Result<(), AllocError>
        ensures ok { OnOk result (self.new ≡ record self.old
            { reads = record self.old.reads { failing = self.old.reads.failing ++ call ∷ [] } }) }
        ensures err { OnErr result (self.new ≡ self.old) }
    {
        self.reads.fail_at(call)
    }

    /// Reads a file. A planned fault comes first, then the length, then the allocation.
    fn read(&mut self, alloc: Global, name: &str, limit: u32) -> Result<Vec<u8>, FileFault>
        ensures fits { IfOk result (λ octets. length octets.items ≤ limit) }
        ensures ok { IfOk result (λ octets. content_of self.old name.now ≡ Some octets.items) }
        ensures too_long { IsErrOf result FileFault.TooLong ↔ IsTooLong self.old name.now limit }
        ensures failed { IsErrOf result FileFault.Failed ↔ IsTrue (read_fails self.old name.now) }
        ensures contents { (other : List ℕ)
            → content_of self.new other ≡ content_of self.old other }
        ensures faults { (other : List ℕ)
            → faults_of self.new other ≡ faults_after_read self.old name.now other }
        ensures reads { self.new.reads ≡ after_call self.old.reads }
        ensures counts { (other : List ℕ)
            → faults_of self.old other ≤ faults_of self.new other }
    {
        let fails = self.reads.next_fails();
        match place_of(&self.held, name) {
            None => {
                self.others = self.others.saturating_add(1);
                Err(FileFault::Failed)
            }
            Some(place) if fails => {
                self.held[place].count_fault();
                Err(FileFault::Failed)
            }
            Some(place) => self.held[place].read(alloc, limit),
        }
    }
}

impl Files for MemFiles {
    ghost content = { content_of };

    ghost faults = { faults_of };

    ghost is_reliable = { NeverFails };

    #[tactic(auto, using(crate::proofs::StoreChanges::reliable_reads, crate::proofs::StoreChanges::reliable_counts, crate::proofs::CallNumbers::none_fails_later))]
    fn read_file(&mut self, alloc: Global, name: &str, limit: u32) -> Result<Vec<u8>, FileFault>
        ensures fits { IfOk result (λ octets. length octets.items ≤ limit) }
        ensures ok { IfOk result (λ octets. content_of self.old name.now ≡ Some octets.items) }
        ensures too_long { IsErrOf result FileFault.TooLong ↔ IsTooLong self.old name.now limit }
        ensures failed { IsErrOf result FileFault.Failed ↔ IsTrue (read_fails self.old name.now) }

        ensures contents { (other : List ℕ)
            → content_of self.new other ≡ content_of self.old other }
        ensures faults { (other : List ℕ)
            → faults_of self.new other ≡ faults_after_read self.old name.now other }
        ensures reads { self.new.reads ≡ after_call self.old.reads }
        ensures counts { (other : List ℕ)
            → faults_of self.old other ≤ faults_of self.new other }

        // Of a name that is held, where no call is planned to fail.
        ensures reliable { NeverFails self.old name.now → ¬ IsErrOf result FileFault.Failed }
        ensures no_fault { (other : List ℕ) → NeverFails self.old other
            → faults_of self.new other ≡ faults_of self.old other }
        ensures stays_reliable { (other : List ℕ)
            → NeverFails self.old other → NeverFails self.new other }
    {
        self.read(alloc, name, limit)
    }
}

/// The place of the file of a name.
fn place_of(held: &[HeldFile], name: &str) -> Option<usize>
    ensures { result ≡ position (λ file. bytes_eq file.name name.now) held.now }
{
    held.iter().position(|file| file.is_named(name))
}
