//! A call of a program: from its words to its status.
ghost use Rattle.std.specs.Prelude.{◌≡◌, ◌↔◌, ◌<◌, ◌≤◌, ◌^◌, length, map, string_bytes};
ghost use Rattle.std.specs.Prelude.{IfOk, IfErr, IsNone, MatchOption, None, OnOk, Some};
ghost use Rattle.outside.specs.Known.{WhereKnown};
ghost use Rattle.journal_tool.specs.Causes.{IsCause, IsDone, IsReadFault, IsTextFault, IsTextOf};
ghost use Rattle.journal_tool.specs.Causes.{file_limit, seen_of};
ghost use Rattle.journal_tool.specs.Endings.{IsEnding, name_in, only_word};
ghost use Rattle.journal_tool.specs.Writing.{HasFailed, Says};

use crate::faults::{Fault, fault_of_file, fault_of_journal, fault_of_sink};
use crate::messages::{say_fault, say_usage};
use crate::rendering::Rendering;
use journal::Journal;
use outside::{Files, Sink};
use std::alloc::Global;

/// How long the file may be, in octets.
const FILE_LIMIT: u32 = 134_217_728;

/// The exit status where the words are not one word.
const NO_NAME: u8 = 1;

/// Reads the entries of a text.
fn read_text(alloc: Global, octets: &[u8]) -> Result<Journal, Fault>
    requires { length octets.now ≤ file_limit }
    ensures ok { IfOk result (λ journal. IsTextOf journal octets.now) }
    ensures few { IfOk result (λ journal. length journal < 2 ^ 32) }
    ensures err { IfErr result (IsTextFault octets.now) }
{
    match Journal::read(alloc, octets) {
        Ok(journal) => Ok(journal),
        Err(fault) => Err(fault_of_journal(fault)),
    }
}

/// Reads the journal in this file.
fn read_journal<F: Files>(alloc: Global, name: &str, files: &mut F) -> Result<Journal, Fault>
    ensures ok { IfOk result (λ journal.
        WhereKnown (F.content files.old name.now) (IsTextOf journal)) }
    ensures few { IfOk result (λ journal. length journal < 2 ^ 32) }
    ensures err { IfErr result (IsReadFault (F.content files.old name.now)
        (HasFailed (F.is_reliable files.old name.now) (F.faults files.old name.now)
        (F.faults files.new name.now))) }
{
    match files.read_file(alloc, name, FILE_LIMIT) {
        Ok(octets) => read_text(alloc, &octets),
        Err(fault) => Err(fault_of_file(fault)),
    }
}

/// Writes what is made of the journal in this file.
fn perform<R: Rendering, F: Files, O: Sink>(
    alloc: Global,
    rendering: &R,
    name: &str,
    files: &mut F,
    out: &mut O,
) -> Result<(), Fault>
    ensures ok { OnOk result (IsDone (R.octets rendering.now)
        (seen_of F.content F.faults F.is_reliable files.old files.new name.now
        O.written O.faults O.is_reliable out.old out.new)) }
    ensures err { IfErr result (IsCause (R.octets rendering.now)
        (seen_of F.content F.faults F.is_reliable files.old files.new name.now
        O.written O.faults O.is_reliable out.old out.new)) }
{
    let journal = read_journal(alloc, name, files)?;
    match rendering.write(alloc, journal.as_slice(), out) {
        Ok(()) => Ok(()),
        Err(fault) => Err(fault_of_sink(fault)),
    }
}

/// The one word of the words after the program's name.
fn only_word(words: &[String]) -> Option<&str>
    ensures { MatchOption result (only_word (map string_bytes words.now) ≡ None)
        (λ word. only_word (map string_bytes words.now) ≡ Some word.now) }
{
    match words {
        [word] => Some(word.as_str()),
        _ => None,
    }
}

/// Does what the words after the program's name say, and gives the exit status (our choice).
///
/// The one word is the name of a file with the text of a journal, of at most 134,217,728 octets.
/// What is made of it is written to `out`. With a status other than 0 one line on `err` says why,
/// or a prefix of that line where `err` fails:
///
/// - 0: the whole output was written;
/// - 1: the words are not one word;
/// - 2: the file could not be read;
/// - 3: a line of the journal is outside its grammar;
/// - 4: the output could not be written;
/// - 5: an allocation failed;
/// - 7: the file is longer than its limit.
///
/// Each status but 5 has its cause in the words, the file and the output. What is claimed of their
/// content holds where `files` and `out` make it known.
pub fn journal_tool<R: Rendering, F: Files, O: Sink, E: Sink>(
    alloc: Global,
    program: &str,
    rendering: &R,
    words: &[String],
    files: &mut F,
    out: &mut O,
    err: &mut E,
) -> u8
    // The words are not one word exactly where the status is 1.
    ensures usage { (result ≡ 1) ↔ IsNone (only_word (map string_bytes words.now)) }

    // Every call has an ending: its status, what holds then, and what was written to `err`.
    ensures ending { let name = only_word (map string_bytes words.now) in
        let seen = seen_of F.content F.faults F.is_reliable files.old files.new (name_in name)
        O.written O.faults O.is_reliable out.old out.new in
        IsEnding (R.octets rendering.now) program.now name seen
        (Says E.written E.faults E.wants_memory err.old err.new) result }
{
    let Some(name) = only_word(words) else {
        say_usage(err, program);
        return NO_NAME;
    };
    match perform(alloc, rendering, name, files, out) {
        Ok(()) => 0,
        Err(fault) => {
            say_fault(err, name, &fault);
            fault.status()
        }
    }
}
