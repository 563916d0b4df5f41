//! The lines of a text and the words of a line, taken one at a time.
ghost use Rattle.std.specs.Prelude.{◌≡◌, drop, slice_get};
ghost use Rattle.std.specs.Option.{option_copied};
ghost use Rattle.line_words.specs.Text.{lines_of, words_of};

use crate::cuts::cut;
use std::marker::Model;

/// The lines of a text that are left. A clause sees them as a list.
#[derive(Drop)]
pub struct Lines<'a> {
    text: &'a [u8],
}

impl<'a> Model for Lines<'a> {
    ghost use Rattle.std.specs.Prelude.{ℕ, List};
    ghost use Rattle.line_words.specs.Text.{lines_of};

    ghost Value = { List (List ℕ) };

    ghost view = { λ lines. lines_of lines.text.now };
}

impl<'a> Lines<'a> {
    /// All lines of a text.
    pub fn of(text: &'a [u8]) -> Lines<'a>
        ensures { result ≡ lines_of text.now }
    {
        Lines { text }
    }

    /// Takes the next line, without its newline.
    pub fn next_line(&mut self) -> Option<&'a [u8]>
        ensures first { option_copied result ≡ slice_get self.old 0 }
        ensures rest { self.new ≡ drop 1 self.old }
    {
        if self.text.is_empty() {
            return None;
        }
        let (line, rest) = cut(self.text, b'\n');
        self.text = rest.unwrap_or(&[]);
        Some(line)
    }
}

/// The words of a line that are left. A clause sees them as a list.
#[derive(Drop)]
pub struct Words<'a> {
    line: Option<&'a [u8]>,
}

impl<'a> Model for Words<'a> {
    ghost use Rattle.std.specs.Prelude.{ℕ, List};
    ghost use Rattle.std.specs.Option.{option_copied};
    ghost use Rattle.line_words.specs.Parts.{parts_after};

    ghost Value = { List (List ℕ) };

    ghost view = { λ words. parts_after 32 (option_copied words.line) };
}

impl<'a> Words<'a> {
    /// All words of a line.
    pub fn of(line: &'a [u8]) -> Words<'a>
        ensures { result ≡ words_of line.now }
    {
        Words { line: Some(line) }
    }

    /// The next word, without taking it.
    pub fn peek_word(&self) -> Option<&'a [u8]>
        ensures { option_copied result ≡ slice_get self.now 0 }
    {
        let (word, _) = cut(self.line?, b' ');
        Some(word)
    }

    /// Takes the next word.
    pub fn next_word(&mut self) -> Option<&'a [u8]>
        ensures first { option_copied result ≡ slice_get self.old 0 }
        ensures rest { self.new ≡ drop 1 self.old }
    {
        let (word, rest) = cut(self.line?, b' ');
        self.line = rest;
        Some(word)
    }
}
