//! Scripts: calls on a journal and its lines, each with what it gives. "|" ends a line.
use crate::entries::{packet_that, procedure, turn_or_link, with_octets};
use journal::{Entry, Journal, Octets, read_line, write_line, write_lines};
use std::alloc::{AllocError, Global};
use std::process::Abort;
use test_words::{
    Call, call_of, number, octets_of, parts_of, push_lines, put_number, put_text, rest_of,
};

/// A journal.
#[derive(Drop)]
struct Scene {
    journal: Journal,
}

/// Makes each call of a script, and compares what it gives. The journal is empty before the first
/// line.
pub(crate) fn check(rt: &impl Abort, alloc: Global, script: &str) -> Result<(), AllocError> {
    let mut scene = Scene {
        journal: Journal::new(alloc),
    };
    scene.run(rt, alloc, script)
}

impl Scene {
    /// Makes each call, and compares what it gives.
    fn run(&mut self, rt: &impl Abort, alloc: Global, script: &str) -> Result<(), AllocError> {
        for line in script.lines() {
            let (call, want) = parts_of(line);
            let told = self.told_of(alloc, call)?;
            assert_eq!(rt; told.as_str(), want, "{line}");
        }
        Ok(())
    }

    /// What a call gives.
    fn told_of(&mut self, alloc: Global, text: &str) -> Result<String, AllocError> {
        let mut told = String::new(alloc);
        let call = call_of(text);
        self.take(call, rest_of(text, call.name), &mut told)?;
        Ok(told)
    }

    /// Makes a call.
    fn take(&mut self, call: Call<'_>, rest: &str, told: &mut String) -> Result<(), AllocError> {
        match call.name {
            "push" => self.push(*told.allocator(), call.words),
            "write" => put_journal(told, &self.journal),
            "len" => put_number(told, self.journal.len() as u64),
            "get" => put_place(told, &self.journal, number(call.words[0])),
            "read" => put_again(told, rest),
            _ => told.push_str(" which call?"),
        }
    }

    /// Appends the entry of a name, with octets that digits spell.
    fn push(&mut self, alloc: Global, words: [&str; 8]) -> Result<(), AllocError> {
        let [kind, name, digits, ..] = words;
        let octets = Octets::copy(alloc, octets_of(alloc, digits).as_slice())?;
        let entry = entry_of(alloc, kind, name, octets)?;
        self.journal.push(entry)
    }
}

/// The entry of a name.
fn entry_of(alloc: Global, kind: &str, name: &str, octets: Octets) -> Result<Entry, AllocError> {
    match kind {
        "plain" => Ok(turn_or_link(name)),
        "procedure" => Ok(procedure(name)),
        "octets" => Ok(with_octets(name, octets)),
        _ => packet_that(alloc, name, octets),
    }
}

/// Writes all lines.
fn put_journal(told: &mut String, journal: &Journal) -> Result<(), AllocError> {
    let lines = write_lines(*told.allocator(), journal.as_slice())?;
    put_text(told, lines.as_slice())
}

/// Writes the line of the entry at a place.
fn put_place(told: &mut String, journal: &Journal, place: u16) -> Result<(), AllocError> {
    if usize::from(place) >= journal.len() {
        return told.push_str(" none");
    }
    put_entry(told, journal.get(usize::from(place)))
}

/// Writes the line of an entry.
fn put_entry(told: &mut String, entry: &Entry) -> Result<(), AllocError> {
    let line = write_line(*told.allocator(), entry)?;
    put_text(told, line.as_slice())
}

/// Writes the line of the entry that a line spells, if there is one.
fn put_again(told: &mut String, line: &str) -> Result<(), AllocError> {
    match entry_again(*told.allocator(), line)? {
        Some(entry) => put_entry(told, &entry),
        None => told.push_str(" none"),
    }
}

/// The entry that a line spells, if there is one.
fn entry_again(alloc: Global, line: &str) -> Result<Option<Entry>, AllocError> {
    let mut octets = Vec::new(alloc);
    push_lines(&mut octets, line)?;
    read_line(alloc, octets.as_slice())
}
