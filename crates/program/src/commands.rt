//! The commands of the program, as its words give them, and the files that each reads.
ghost use Rattle.std.specs.Prelude.{◌≡◌, map, slice_get, string_bytes};
ghost use Rattle.program.specs.Commands.{host_file, schedule_file, name_at, word_at};
ghost use Rattle.program.specs.Commands.{pair_files, command_of, files_of, load_number};

use line_words::read_number;
use std::marker::Model;

/// How long the octets of a host and the text of a schedule may be, in octets.
pub const FILE_LIMIT: u32 = 1_048_576;

/// The place of the schedule among the files of `pair`, counted from 0.
pub(crate) const SCHEDULE: usize = 2;

/// A file that a command reads.
///
/// Contracts see it as the octets of its name, its limit and the octets of its word.
#[derive(Drop)]
pub struct CommandFile<'a> {
    name: &'a str,
    limit: u32,
    word: &'static str,
}

impl<'a> Model for CommandFile<'a> {
    ghost use Rattle.program.specs.FileRow.{FileRow};

    ghost Value = { FileRow };

    ghost view = { λ file. record {
      name = file.name.now;
      limit = file.limit;
      word = file.word.now;
    } };
}

impl<'a> CommandFile<'a> {
    /// A file of the octets of a host, in the order in which they are fed.
    fn host(name: &'a str) -> CommandFile<'a>
        ensures { result ≡ host_file name.now }
    {
        CommandFile {
            name,
            limit: FILE_LIMIT,
            word: "host",
        }
    }

    /// A file of the text of a schedule.
    fn schedule(name: &'a str) -> CommandFile<'a>
        ensures { result ≡ schedule_file name.now }
    {
        CommandFile {
            name,
            limit: FILE_LIMIT,
            word: "schedule",
        }
    }

    /// Its name.
    pub fn name(&self) -> &'a str
        ensures { result.now ≡ self.now.name }
    {
        self.name
    }

    /// How many octets it may have.
    pub fn limit(&self) -> u32
        ensures { result ≡ self.now.limit }
    {
        self.limit
    }

    /// The word for it in a message on one of its lines.
    pub fn word(&self) -> &'static str
        ensures { result.now ≡ self.now.word }
    {
        self.word
    }
}

/// The names of the three files of `pair`.
///
/// Contracts see them as the octets of each name.
#[derive(Drop)]
pub struct PairNames<'a> {
    a: &'a str,
    b: &'a str,
    schedule: &'a str,
}

impl<'a> Model for PairNames<'a> {
    ghost use Rattle.program.specs.PairFiles.{PairFiles};

    ghost Value = { PairFiles };

    ghost view = { λ names. record {
      a = names.a.now;
      b = names.b.now;
      schedule = names.schedule.now;
    } };
}

impl<'a> PairNames<'a> {
    /// The file at this place, or `None` past the last.
    fn file_at(&self, place: usize) -> Option<CommandFile<'a>>
        ensures { result ≡ slice_get (pair_files self.now) place }
    {
        match place {
            0 => Some(CommandFile::host(self.a)),
            1 => Some(CommandFile::host(self.b)),
            SCHEDULE => Some(CommandFile::schedule(self.schedule)),
            _ => None,
        }
    }
}

/// The number of a load in a word, or `None` where it is outside the range or has another form.
fn load_number(word: &str) -> Option<u32>
    ensures { result ≡ load_number word.now }
{
    let number = read_number(word.as_bytes(), 0, u64::from(u32::MAX))?;
    Some(number as u32)
}

/// A command, with the names of the files that it reads.
#[derive(Drop)]
pub enum Command<'a> {
    /// `pair A B SCHEDULE`: two controllers over the streams of two hosts and a schedule.
    Pair(PairNames<'a>),
    /// `make NUMBER`: the load of a number.
    Make(u32),
}

impl<'a> Command<'a> {
    /// The command of the words after the program's name, or `None` where they are not a command.
    pub fn of(words: &'a [String]) -> Option<Command<'a>>
        ensures { result ≡ command_of (map string_bytes words.now) }
    {
        match words {
            [word, a, b, schedule] if word.as_str() == "pair" => Some(Command::Pair(PairNames {
                a: a.as_str(),
                b: b.as_str(),
                schedule: schedule.as_str(),
            })),
            [word, number] if word.as_str() == "make" => match load_number(number.as_str()) {
                Some(number) => Some(Command::Make(number)),
                None => None,
            },
            _ => None,
        }
    }

    /// The file at this place among those that the command reads, counted from 0 in the order in
    /// which it reads them, or `None` past the last.
    pub fn file_at(&self, place: usize) -> Option<CommandFile<'a>>
        ensures { result ≡ slice_get (files_of self.now) place }
    {
        match self {
            Command::Pair(names) => names.file_at(place),
            Command::Make(_) => None,
        }
    }

    /// The name of the file at this place. Past the last there is none.
    pub fn name_at(&self, place: usize) -> &'a str
        ensures { result.now ≡ name_at (files_of self.now) place }
    {
        match self.file_at(place) {
            Some(file) => file.name(),
            None => "",
        }
    }

    /// The word for the file at this place, in a message on one of its lines.
    pub fn word_at(&self, place: usize) -> &'static str
        ensures { result.now ≡ word_at (files_of self.now) place }
    {
        match self.file_at(place) {
            Some(file) => file.word(),
            None => "",
        }
    }
}
