//! A call of the program: from its words to its status.
ghost use Rattle.std.specs.Prelude.{◌≡◌, ◌↔◌, ◌⊎◌, Some, IsNone, map, length, OnOk, IfErr};
ghost use Rattle.std.specs.Prelude.{string_bytes, vec_items};
ghost use Rattle.program.specs.Causes.{IsWorkDone, IsWorkFault, IsPerformed, IsNotPerformed};
ghost use Rattle.program.specs.Claims.{of_runs};
ghost use Rattle.program.specs.Commands.{command_of, files_of};
ghost use Rattle.program.specs.Ending.{IsEnding, CanPerform, NoneHasRisen, IsReliable};
ghost use Rattle.program.specs.Puts.{Says};
ghost use Rattle.program.specs.World.{world_of, reads_of, writes_of};
ghost use Rattle.program.specs.declared.commands.Command.{Command};

use crate::commands::Command;
use crate::faults::Fault;
use crate::makes::make;
use crate::messages::{refuse_words, report};
use crate::pairs::pair;
use crate::reading::read_files;
use outside::{Files, Sink};
use std::alloc::Global;

/// Does the work of a command over the octets of its files.
fn work<O: Sink>(
    alloc: Global,
    command: &Command<'_>,
    contents: &[Vec<u8>],
    out: &mut O,
) -> Result<(), Fault>
    requires { length contents.now ≡ length (files_of command.now) }
    ensures ok { OnOk result (IsWorkDone of_runs command.now
        (writes_of O.written O.is_reliable O.faults out.old out.new)
        (map vec_items contents.now)) }
    ensures err { IfErr result (λ fault. IsWorkFault of_runs command.now
        (writes_of O.written O.is_reliable O.faults out.old out.new) fault
        (map vec_items contents.now)) }
{
    match command {
        Command::Pair(_) => pair(alloc, contents, out),
        Command::Make(number) => make(alloc, *number, out),
    }
}

/// Reads the files of a command, and does its work.
fn perform<F: Files, O: Sink>(
    alloc: Global,
    command: &Command<'_>,
    files: &mut F,
    out: &mut O,
) -> Result<(), Fault>
    ensures ok { OnOk result (IsPerformed of_runs command.now (world_of
        (reads_of F.content F.is_reliable F.faults files.old files.new)
        (writes_of O.written O.is_reliable O.faults out.old out.new))) }
    ensures err { IfErr result (IsNotPerformed of_runs command.now (world_of
        (reads_of F.content F.is_reliable F.faults files.old files.new)
        (writes_of O.written O.is_reliable O.faults out.old out.new))) }
{
    let contents = read_files(alloc, files, command)?;
    work(alloc, command, &contents, out)
}

/// Does what the words after the program's name say, and gives the exit status (our choice).
///
/// `pair A B SCHEDULE` reads the octets of two hosts and the text of a schedule, in this order,
/// each of at most 1,048,576 octets, runs two controllers over them and writes the journal to
/// `out`. `make NUMBER` runs the load of a number from 0 to 4294967295, which has no zero before
/// other digits, as `pair` does, and writes one line on that run. With a status other than 0 one
/// line on `err` says why, or a prefix of that line where `err` fails.
pub fn run_words<F: Files, O: Sink, E: Sink>(
    alloc: Global,
    words: &Vec<String>,
    files: &mut F,
    out: &mut O,
    err: &mut E,
) -> u8
    // The words are not a command exactly where the status is 1.
    ensures usage { (result ≡ 1) ↔ IsNone (command_of (map string_bytes words.now.items)) }

    // Where the command can do its work, it does, or an allocation fails: if no count of faults has
    // risen,
    ensures complete { (command : Command)
        → let given = map string_bytes words.now.items in
        let world = world_of
        (reads_of F.content F.is_reliable F.faults files.old files.new)
        (writes_of O.written O.is_reliable O.faults out.old out.new) in
        command_of given ≡ Some command → CanPerform command world.reads
        → NoneHasRisen command world → (result ≡ 0) ⊎ (result ≡ 5) }
    // and if the files of the command and the output are reliable.
    ensures reliable { (command : Command)
        → let given = map string_bytes words.now.items in
        let world = world_of
        (reads_of F.content F.is_reliable F.faults files.old files.new)
        (writes_of O.written O.is_reliable O.faults out.old out.new) in
        command_of given ≡ Some command → CanPerform command world.reads
        → IsReliable command world → (result ≡ 0) ⊎ (result ≡ 5) }

    // Every call has an ending: its status, what holds then, and what was written to `err`.
    ensures ending { let given = map string_bytes words.now.items in
        let world = world_of
        (reads_of F.content F.is_reliable F.faults files.old files.new)
        (writes_of O.written O.is_reliable O.faults out.old out.new) in
        IsEnding of_runs given world (Says E.written E.faults E.wants_memory err.old err.new) result }
{
    let Some(command) = Command::of(words.as_slice()) else {
        return refuse_words(err);
    };
    match perform(alloc, &command, files, out) {
        Ok(()) => 0,
        Err(fault) => {
            report(err, &command, &fault);
            fault.status()
        }
    }
}
