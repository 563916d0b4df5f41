//! The files of the system.
ghost use Rattle.std.specs.Prelude.{◌≡◌, ◌≢◌, ◌<◌, ◌≤◌, None, Ok, Err, length, take, nat_le};
ghost use Rattle.std.specs.Prelude.{IfOk, IfErr, IsErrOf, if◌then◌else◌};
ghost use Rattle.outside.specs.Count.{one_more};
ghost use Rattle.outside.specs.Known.{WhereKnown};
ghost use Rattle.outside.specs.SystemFault.{fault_of};

use crate::files::{FileFault, Files};
use std::alloc::Global;
use std::io::{ErrorKind, Read};
use std::marker::Model;
use std::{fs, rt};

/// The room that a read begins with, in octets.
const FIRST_ROOM: usize = 65_536;

/// The files of the system. Contracts do not know their content. One count of faults is that of
/// every name.
///
/// Contracts see them as that count. A name is opened as it is. At most one octet past its limit is
/// read of a file, so a read ends even where the file does not. A missing file and a directory are
/// faults.
#[derive(Drop)]
pub struct RealFiles<'a, R> {
    system: &'a R,
    faults: u64,
}

impl<'a, R> Model for RealFiles<'a, R> {
    ghost use Rattle.std.specs.Prelude.{ℕ};

    ghost Value = { ℕ };

    ghost view = { λ files. files.faults };
}

impl<'a, R: rt::Files> RealFiles<'a, R> {
    /// The system's files, before any read.
    pub fn new(system: &'a R) -> RealFiles<'a, R>
        ensures { result ≡ 0 }
    {
        RealFiles { system, faults: 0 }
    }
}

impl<R: rt::Files> Files for RealFiles<'_, R> {
    ghost content = { λ _ _. None };

    ghost faults = { λ files _. files };

    ghost is_reliable = { λ _ _. ⊥ };

    fn read_file(&mut self, alloc: Global, name: &str, limit: u32) -> Result<Vec<u8>, FileFault>
        ensures fits { IfOk result (λ octets. length octets.items ≤ limit) }
        ensures failed { IsErrOf result FileFault.Failed → self.new ≡ one_more self.old }
        ensures same { ¬ IsErrOf result FileFault.Failed → self.new ≡ self.old }
        ensures counts { self.old ≤ self.new }
    {
        let answer = read_named(self.system, alloc, name, limit);
        if let Err(FileFault::Failed) = answer {
            self.faults = self.faults.saturating_add(1);
        }
        answer
    }
}

/// Reads a whole file of the system, of at most `limit` octets.
fn read_named<R: rt::Files>(
    system: &R,
    alloc: Global,
    name: &str,
    limit: u32,
) -> Result<Vec<u8>, FileFault>
    ensures { IfOk result (λ octets. length octets.items ≤ limit) }
{
    match fs::File::open(system, name) {
        Ok(file) => read_whole(file, alloc, limit),
        Err(error) => Err(fault_of(error.kind())),
    }
}

/// Reads all that a reader has left, of at most `limit` octets. At most one octet more is read.
#[tactic(auto, using(crate::proofs::Fronts::whole_front))]
pub fn read_whole<R: Read + Drop>(
    reader: R,
    alloc: Global,
    limit: u32,
) -> Result<Vec<u8>, FileFault>
    ensures fits { IfOk result (λ octets. length octets.items ≤ limit) }
    ensures whole { IfOk result (λ octets.
        WhereKnown (R.remaining reader) (λ c. octets.items ≡ c)) }
    ensures too_long { IsErrOf result FileFault.TooLong
        → WhereKnown (R.remaining reader) (λ c. limit < length c) }
{
    let front = read_front(reader, alloc, u64::from(limit) + 1)?;
    answer_of(front, limit)
}

/// What a read answers, where these are the first octets of the file, up to one past the limit.
fn answer_of(front: Vec<u8>, limit: u32) -> Result<Vec<u8>, FileFault>
    ensures { result
        ≡ (if nat_le (length front.items) limit then Ok front else Err FileFault.TooLong) }
{
    if front.len() > limit as usize {
        return Err(FileFault::TooLong);
    }
    Ok(front)
}

/// Reads the first `most` octets of a reader, or all if there are fewer. No more are read, so this
/// ends whatever the reader gives.
fn read_front<R: Read + Drop>(reader: R, alloc: Global, most: u64) -> Result<Vec<u8>, FileFault>
    ensures ok { IfOk result (λ octets.
        WhereKnown (R.remaining reader) (λ c. octets.items ≡ take most c)) }
    ensures err { IfErr result (λ fault. fault ≢ FileFault.TooLong) }
{
    let mut octets = Vec::with_capacity(alloc, FIRST_ROOM)?;
    match reader.take(most).read_to_end(&mut octets) {
        Ok(_) => Ok(octets),
        Err(error) => Err(fault_of(error.kind())),
    }
}

/// Why a file was not read, where the system's error is of this kind: `Memory` exactly where the
/// system says so, and `Failed` everywhere else.
fn fault_of(kind: ErrorKind) -> FileFault
    ensures { result ≡ fault_of kind }
{
    match kind {
        ErrorKind::OutOfMemory => FileFault::Memory,
        _ => FileFault::Failed,
    }
}
