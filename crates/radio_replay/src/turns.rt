//! Turns, and reading them.
ghost use Rattle.std.specs.Prelude.{◌≡◌, IfOk};
ghost use Rattle.std.specs.Option.{option_map};
ghost use Rattle.radio_replay.specs.Script.{fate_of};
ghost use Rattle.radio_replay.specs.TurnLine.{radios_of, feed_in, fates_in, plain_turn, turn_in};

use crate::fate_words::read_fate;
use crate::fates::Fate;
use crate::kept_fates::KeptFate;
use crate::limits::MOST_FED;
use line_words::{Words, read_number, read_sign};
use std::alloc::{AllocError, Global};
use std::marker::Model;

/// One turn of a schedule. One without fates owns no memory.
#[derive(Debug, Drop)]
pub(crate) struct KeptTurn {
    pub(crate) a_on: bool,
    pub(crate) b_on: bool,
    pub(crate) feed_a: u32,
    pub(crate) feed_b: u32,
    fates: Vec<KeptFate>,
}

impl Model for KeptTurn {
    ghost use Rattle.radio_replay.specs.Script.{Turn};

    ghost Value = { Turn };

    ghost view = { λ turn. record {
      a_on = turn.a_on;
      b_on = turn.b_on;
      feed_a = turn.feed_a;
      feed_b = turn.feed_b;
      fates = turn.fates.items;
    } };
}

impl KeptTurn {
    /// A turn with both radios on, in which nothing is fed and all packets pass.
    pub(crate) fn plain(alloc: Global) -> KeptTurn
        ensures { result ≡ plain_turn }
    {
        KeptTurn {
            a_on: true,
            b_on: true,
            feed_a: 0,
            feed_b: 0,
            fates: Vec::new(alloc),
        }
    }

    /// The fate of a packet, counted from 0. Packets past the fates of the turn pass.
    pub(crate) fn fate(&self, packet: u32) -> Fate
        ensures { result ≡ fate_of self.now packet }
    {
        match self.fates.get(packet as usize) {
            Some(kept) => kept.fate(),
            None => Fate::Pass,
        }
    }
}

/// The radios of A and of B.
fn read_radios(word: &[u8]) -> Option<(bool, bool)>
    ensures { result ≡ radios_of word.now }
{
    match word {
        [a, b] => Some((read_sign(*a)?, read_sign(*b)?)),
        _ => None,
    }
}

/// The number of octets fed to the side of this letter. It takes the next word if that begins with
/// the letter; otherwise the number is 0.
fn read_feed(letter: u8, words: &mut Words<'_>) -> Option<u32>
    ensures { option_map (λ count. record { count = count; words = words.new }) result
        ≡ feed_in letter words.old }
{
    match words.peek_word() {
        Some([first, digits @ ..]) if *first == letter => {
            words.next_word();
            let count = read_number(digits, 1, u64::from(MOST_FED))?;
            Some(count as u32)
        }
        _ => Some(0),
    }
}

/// Reads the fates that all remaining words spell. None if one of them spells no fate.
fn read_fates(alloc: Global, mut words: Words<'_>) -> Result<Option<Vec<KeptFate>>, AllocError>
    ensures { IfOk result (λ fates. option_map (λ kept. kept.items) fates ≡ fates_in words.entry) }
{
    let mut fates = Vec::new(alloc);
    while let Some(word) = words.next_word() {
        let Some(fate) = read_fate(word) else {
            return Ok(None);
        };
        fates.push(KeptFate::keep(alloc, &fate)?)?;
    }
    Ok(Some(fates))
}

/// Reads a turn from the words after the first word of its line. None if they are outside the
/// grammar.
pub(crate) fn read_turn(alloc: Global, mut words: Words<'_>) -> Result<Option<KeptTurn>, AllocError>
    ensures { IfOk result (λ turn. turn ≡ turn_in words.entry) }
{
    let Some(radios) = words.next_word() else {
        return Ok(None);
    };
    let Some((a_on, b_on)) = read_radios(radios) else {
        return Ok(None);
    };
    let Some(feed_a) = read_feed(b'a', &mut words) else {
        return Ok(None);
    };
    let Some(feed_b) = read_feed(b'b', &mut words) else {
        return Ok(None);
    };
    let Some(fates) = read_fates(alloc, words)? else {
        return Ok(None);
    };
    Ok(Some(KeptTurn {
        a_on,
        b_on,
        feed_a,
        feed_b,
        fates,
    }))
}
