//! A call of the program: from its words to its status.
ghost use Rattle.std.specs.Prelude.{◌≡◌, ◌≢◌, ◌↔◌, ◌⊎◌, ℕ, List, Some, IsNone, map, string_bytes};
ghost use Rattle.ble_tool.specs.Ending.{IsEnding};
ghost use Rattle.ble_tool.specs.Short.{IsShortText};
ghost use Rattle.program.specs.Commands.{command_of};
ghost use Rattle.program.specs.Ending.{CanPerform, NoneHasRisen, IsReliable};
ghost use Rattle.program.specs.PairFiles.{PairFiles};
ghost use Rattle.program.specs.Puts.{Says};
ghost use Rattle.program.specs.World.{world_of, reads_of, writes_of};
ghost use Rattle.program.specs.declared.commands.Command.{Command};

use outside::{Files, Sink};
use program::run_words;
use std::alloc::Global;

/// Does what the words after the program's name say, and gives the exit status (our choice).
///
/// `pair A B SCHEDULE` reads the octets of two hosts and the text of a schedule, in this order,
/// each of at most 1,048,576 octets, runs two controllers over them and writes the journal to
/// `out`. `make NUMBER` runs the load of a number from 0 to 4294967295, which has no zero before
/// other digits, as `pair` does, and writes one line on that run: `make NUMBER turns T links K a X b
/// Y`, with the numbers of turns, of links, and of the octets of data that the hosts of A and of B
/// receive. With a status other than 0 one line on `err` says why, or a prefix of that line where
/// `err` fails:
///
/// - 0: the whole journal was written, or the line on it;
/// - 1: the words are not a command;
/// - 2: a file could not be read;
/// - 3: a line of the schedule is outside its grammar;
/// - 4: the journal, or the line on it, could not be written;
/// - 5: an allocation failed;
/// - 6: a packet was changed on the air, and its receiver would judge it good;
/// - 7: a file is longer than its limit, or the schedule has more than 100,000 turns.
///
/// Each status but 5 has its cause in the words, the files and the output. What is claimed of the
/// content of files and output holds where `files` and `out` make it known: there, with status 0,
/// `out` has grown by exactly the text of the journal, or by that line.
///
/// Each journal is lawful: it follows the schedule; links are those of their CONNECT_INDs, and each
/// PDU goes out and is taken as it is due; after each of its lines what one host receives of a link
/// is the first octets of what the other submitted, and no packet is reported as complete that the
/// other side did not accept whole (Core 5.2, volume 4 part E, section 4.1).
///
/// Over a schedule each of whose damages changes at most 24 consecutive bits of PDU and CRC, the
/// status is never 6.
pub fn ble_tool<F: Files, O: Sink, E: Sink>(
    alloc: Global,
    words: &Vec<String>,
    files: &mut F,
    out: &mut O,
    err: &mut E,
) -> u8
    // The words are not a command exactly where the status is 1.
    ensures usage { (result ≡ 1) ↔ IsNone (command_of (map string_bytes words.now.items)) }

    // Where the command can do its work, it does, or an allocation fails: if no count of faults has
    // risen,
    ensures complete { (command : Command)
        → let given = map string_bytes words.now.items in
        let world = world_of
        (reads_of F.content F.is_reliable F.faults files.old files.new)
        (writes_of O.written O.is_reliable O.faults out.old out.new) in
        command_of given ≡ Some command → CanPerform command world.reads
        → NoneHasRisen command world → (result ≡ 0) ⊎ (result ≡ 5) }
    // and if the files of the command and the output are reliable.
    ensures reliable { (command : Command)
        → let given = map string_bytes words.now.items in
        let world = world_of
        (reads_of F.content F.is_reliable F.faults files.old files.new)
        (writes_of O.written O.is_reliable O.faults out.old out.new) in
        command_of given ≡ Some command → CanPerform command world.reads
        → IsReliable command world → (result ≡ 0) ⊎ (result ≡ 5) }

    // Over a schedule whose damages are all short, no packet that was changed is judged good.
    ensures short { (names : PairFiles) (text : List ℕ)
        → let given = map string_bytes words.now.items in
        let reads = reads_of F.content F.is_reliable F.faults files.old files.new in
        command_of given ≡ Some (Command.Pair names) → reads.content names.schedule ≡ Some text
        → IsShortText text → result ≢ 6 }

    // Every call has an ending: its status, what holds then, and what was written to `err`.
    ensures ending { let given = map string_bytes words.now.items in
        let world = world_of
        (reads_of F.content F.is_reliable F.faults files.old files.new)
        (writes_of O.written O.is_reliable O.faults out.old out.new) in
        IsEnding given world (Says E.written E.faults E.wants_memory err.old err.new) result }
{
    journal_pdus::each_journal_is_lawful();
    short_damage::short_damage_never_ends_a_run();
    run_words(alloc, words, files, out, err)
}
