//! The files of a command, read in their order.
ghost use Rattle.std.specs.Prelude.{◌≡◌, ℕ, List, ◌≤◌, map, vec_items, IfOk, IfErr};
ghost use Rattle.program.specs.Commands.{files_of};
ghost use Rattle.program.specs.Reading.{IsRead, IsFileFault, AreRead, IsReadFault};
ghost use Rattle.program.specs.World.{reads_of};

use crate::commands::{Command, CommandFile};
use crate::faults::{Fault, fault_of_file};
use outside::Files;
use std::alloc::Global;

/// Reads a file of a command, at this place among its files.
fn read_one<F: Files>(
    alloc: Global,
    files: &mut F,
    file: &CommandFile<'_>,
    place: usize,
) -> Result<Vec<u8>, Fault>
    ensures ok { IfOk result (λ octets. IsRead
        (reads_of F.content F.is_reliable F.faults files.old files.new) file.now octets.items) }
    ensures err { IfErr result (IsFileFault
        (reads_of F.content F.is_reliable F.faults files.old files.new) file.now place) }

    // What stays the same of all names.
    ensures contents { (name : List ℕ)
        → F.content files.new name ≡ F.content files.old name }
    ensures counts { (name : List ℕ)
        → F.faults files.old name ≤ F.faults files.new name }
    ensures stays_reliable { (name : List ℕ)
        → F.is_reliable files.old name → F.is_reliable files.new name }
{
    match files.read_file(alloc, file.name(), file.limit()) {
        Ok(octets) => Ok(octets),
        Err(fault) => Err(fault_of_file(place, fault)),
    }
}

/// Reads the files of a command, one after another, each within its limit. The first that cannot be
/// read ends this.
///
/// The answer is `NoMemory` only where an allocation failed, for the octets of a file or for the
/// list of them.
pub(crate) fn read_files<F: Files>(
    alloc: Global,
    files: &mut F,
    command: &Command<'_>,
) -> Result<Vec<Vec<u8>>, Fault>
    // The octets of all of them, in order, or why not.
    ensures ok { IfOk result (λ contents. AreRead
        (reads_of F.content F.is_reliable F.faults files.old files.new) (files_of command.now)
        (map vec_items contents.items)) }
    ensures err { IfErr result (IsReadFault
        (reads_of F.content F.is_reliable F.faults files.old files.new) (files_of command.now)) }

    // What stays the same of all names.
    ensures contents { (name : List ℕ)
        → F.content files.new name ≡ F.content files.old name }
    ensures counts { (name : List ℕ)
        → F.faults files.old name ≤ F.faults files.new name }
    ensures stays_reliable { (name : List ℕ)
        → F.is_reliable files.old name → F.is_reliable files.new name }
{
    let mut contents = Vec::new(alloc);
    while let Some(file) = command.file_at(contents.len()) {
        let octets = read_one(alloc, files, &file, contents.len())?;
        let Ok(()) = contents.push(octets) else {
            return Err(Fault::NoMemory);
        };
    }
    Ok(contents)
}
