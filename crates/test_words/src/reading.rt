//! The words of a line.
use std::alloc::Global;
use std::str::Split;

/// A call in a script: its name, and up to eight words. A word that is not there is empty.
#[derive(Clone, Copy)]
pub struct Call<'a> {
    pub name: &'a str,
    pub words: [&'a str; 8],
}

/// The call of a line, and what it gives.
pub fn parts_of(line: &str) -> (&str, &str) {
    let mut parts = line.split(" =");
    (parts.next().unwrap_or(""), parts.next().unwrap_or(""))
}

/// The call that these words spell.
pub fn call_of(text: &str) -> Call<'_> {
    call_in(&mut text.split(' '))
}

/// The side that a call is on, which is the first word, and the call.
pub fn side_and_call(text: &str) -> (&str, Call<'_>) {
    let mut words = text.split(' ');
    (next_of(&mut words), call_in(&mut words))
}

/// The call that the next words spell.
fn call_in<'a>(words: &mut Split<'a, char>) -> Call<'a> {
    Call {
        name: next_of(words),
        words: [
            next_of(words),
            next_of(words),
            next_of(words),
            next_of(words),
            next_of(words),
            next_of(words),
            next_of(words),
            next_of(words),
        ],
    }
}

/// The next word, or an empty one.
fn next_of<'a>(words: &mut Split<'a, char>) -> &'a str {
    words.next().unwrap_or("")
}

/// A number of 8 bits, or 255 where the word is none.
pub fn octet(word: &str) -> u8 {
    word.parse::<u8>().unwrap_or(u8::MAX)
}

/// A number of 16 bits, or 65535 where the word is none.
pub fn number(word: &str) -> u16 {
    word.parse::<u16>().unwrap_or(u16::MAX)
}

/// A slot of 32 bits, or the last one where the word is none.
pub fn slot(word: &str) -> u32 {
    word.parse::<u32>().unwrap_or(u32::MAX)
}

/// The octets that pairs of hexadecimal digits spell, or none where they spell none.
pub fn octets_of(alloc: Global, word: &str) -> Vec<u8> {
    match hex::decode(alloc, word) {
        Ok(octets) => octets,
        Err(_) => Vec::new(alloc),
    }
}

/// The number that pairs of hexadecimal digits spell, most significant first.
pub fn hex_number(alloc: Global, word: &str) -> u64 {
    let mut number = 0;
    for octet in octets_of(alloc, word).as_slice() {
        number = number << 8 | u64::from(*octet);
    }
    number
}
