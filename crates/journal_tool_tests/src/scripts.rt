//! Scripts: a file with the name `journal`, and calls of the programs over it, each with what it
//! leaves: its status, its output and its error line. In a text "|" ends a line. A line that begins
//! with "#" says what follows: before it nothing is given.
use crate::calls::{Ending, ending_of};
use crate::files::{Given, packets_of, text_of};
use std::alloc::{AllocError, Global};
use std::process::Abort;
use test_words::{Call, call_of, parts_of, put_answer, put_number, put_text, rest_of, slot};

/// The file is empty, and nothing is planned to fail.
const NOTHING: Given<'static> = Given {
    text: "",
    lines: 0,
    zeros: 0,
    failing_read: 0,
    failing_write: 0,
    failing_error: 0,
};

/// Makes each call of a script, and compares what it leaves.
pub(crate) fn check(rt: &impl Abort, alloc: Global, script: &str) -> Result<(), AllocError> {
    let mut given = NOTHING;
    given.run(rt, alloc, script)
}

impl<'a> Given<'a> {
    /// Takes each line of a script, and compares what it leaves.
    fn run(&mut self, rt: &impl Abort, alloc: Global, script: &'a str) -> Result<(), AllocError> {
        for line in script.lines() {
            let (text, want) = parts_of(line);
            let told = self.told_of(alloc, text)?;
            assert_eq!(rt; told.as_str(), want, "{line}");
        }
        Ok(())
    }

    /// What a line leaves.
    fn told_of(&mut self, alloc: Global, text: &'a str) -> Result<String, AllocError> {
        let mut told = String::new(alloc);
        let call = call_of(text);
        self.take(call, rest_of(text, call.name), &mut told)?;
        Ok(told)
    }

    /// Takes what is given, or makes a call.
    fn take(&mut self, call: Call<'_>, rest: &'a str, told: &mut String) -> Result<(), AllocError> {
        let number = slot(call.words[0]);
        match call.name {
            "#" => *self = NOTHING,
            "file" => self.text = rest,
            "lines" => self.lines = number,
            "zeros" => self.zeros = number,
            "fail_read" => self.failing_read = number,
            "fail_write" => self.failing_write = number,
            "fail_error" => self.failing_error = number,
            _ => return self.call(call.name, rest, told),
        }
        Ok(())
    }

    /// Makes a call, and writes what it leaves. After "capture" come the words of `ble_capture`.
    /// After "packets" comes the number of packets that its output must have, and after "chart" the
    /// text in which the output of `ble_chart` must end. With "refuse" its files are too long, or
    /// there is no memory.
    fn call(&self, name: &str, rest: &str, told: &mut String) -> Result<(), AllocError> {
        let ending = ending_of(*told.allocator(), self, name, rest)?;
        put_ending(told, &ending, name, rest)
    }
}

/// Writes a status, what is shown of an output, and an error line.
fn put_ending(
    told: &mut String,
    ending: &Ending,
    name: &str,
    rest: &str,
) -> Result<(), AllocError> {
    put_number(told, u64::from(ending.status))?;
    put_output(told, ending.out.octets(), name, rest)?;
    put_text(told, ending.err.octets())
}

/// Writes the size of an output, or whether it is as it must be.
fn put_output(told: &mut String, out: &[u8], name: &str, rest: &str) -> Result<(), AllocError> {
    match name {
        "capture" | "refuse" => put_number(told, out.len() as u64),
        "packets" => put_packets(told, out, slot(rest)),
        "chart" => put_end(told, out, rest),
        _ => told.push_str(" which call?"),
    }
}

/// Writes whether an output is a capture with this number of packets.
fn put_packets(told: &mut String, out: &[u8], count: u32) -> Result<(), AllocError> {
    let capture = packets_of(*told.allocator(), count)?;
    put_answer(told, out == capture.as_slice())
}

/// Writes whether an output ends in a text.
fn put_end(told: &mut String, out: &[u8], text: &str) -> Result<(), AllocError> {
    let end = text_of(*told.allocator(), text)?;
    put_answer(told, out.ends_with(&end))
}
