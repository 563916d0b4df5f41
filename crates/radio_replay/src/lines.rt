//! The lines after the first three: single turns, and runs of turns.
ghost use Rattle.std.specs.Prelude.{◌≡◌, ◌++◌, IfOk, OnOk, length, replicate};
ghost use Rattle.line_words.specs.Text.{words_of};
ghost use Rattle.radio_replay.specs.TurnLine.{count_in, line_in, plain_turn, line_turns};

use crate::limits::MOST_REPEATED;
use crate::turns::{KeptTurn, read_turn};
use line_words::{Words, read_number};
use std::alloc::{AllocError, Global};

/// A line of turns.
#[derive(Drop)]
pub(crate) enum Line {
    /// This number of plain turns.
    Run(u32),
    /// One turn.
    Single(KeptTurn),
}

/// The number of turns in a run.
fn read_count(mut words: Words<'_>) -> Option<u32>
    ensures { result ≡ count_in words.entry }
{
    let word = words.next_word()?;
    if words.next_word().is_some() {
        return None;
    }
    let count = read_number(word, 1, u64::from(MOST_REPEATED))?;
    Some(count as u32)
}

/// Reads a line of turns. None if it is outside the grammar.
pub(crate) fn read_line(alloc: Global, line: &[u8]) -> Result<Option<Line>, AllocError>
    ensures { IfOk result (λ read. read ≡ line_in (words_of line.now)) }
{
    let mut words = Words::of(line);
    let Some(head) = words.next_word() else {
        return Ok(None);
    };
    if head == b"run".as_slice() {
        return Ok(read_count(words).map(Line::Run));
    }
    if head == b"t".as_slice() {
        return Ok(read_turn(alloc, words)?.map(Line::Single));
    }
    Ok(None)
}

/// Adds `count` plain turns.
fn add_plain(alloc: Global, turns: &mut Vec<KeptTurn>, count: u32) -> Result<(), AllocError>
    ensures { OnOk result (turns.new.items ≡ turns.old.items ++ replicate count plain_turn) }
{
    for place in 0..count {
        turns.push(KeptTurn::plain(alloc))?;
    }
    Ok(())
}

impl Line {
    /// The number of its turns.
    pub(crate) fn count(&self) -> usize
        ensures { result ≡ length (line_turns self.now) }
    {
        match self {
            Line::Run(count) => *count as usize,
            Line::Single(_) => 1,
        }
    }

    /// Adds its turns.
    pub(crate) fn add_to(self, alloc: Global, turns: &mut Vec<KeptTurn>) -> Result<(), AllocError>
        ensures { OnOk result (turns.new.items ≡ turns.old.items ++ line_turns self) }
    {
        match self {
            Line::Run(count) => add_plain(alloc, turns, count),
            Line::Single(turn) => {
                turns.push(turn)?;
                Ok(())
            }
        }
    }
}
