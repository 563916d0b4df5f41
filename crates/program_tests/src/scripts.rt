//! Scripts: files, and calls of the program over them. A line with the words of a call has after
//! " =" what it leaves: its status, its output and its error line. In a text "|" ends a line. A
//! line that begins with "#" says what follows: before it nothing is given.
use crate::calls::{Ending, Given, called};
use crate::lines::put_shown;
use std::alloc::{AllocError, Global};
use std::process::Abort;
use test_words::{Call, call_of, parts_of, put_number, put_text, rest_of, slot};

/// Nothing is held, shown alone or planned to fail.
const NOTHING: Given<'static> = Given {
    a: "",
    b: "",
    turns: "",
    only: "",
    zeros: 0,
    off: 0,
    failing_read: 0,
    failing_write: 0,
};

/// Makes each call of a script, and compares what it leaves.
pub(crate) fn check(rt: &impl Abort, alloc: Global, script: &str) -> Result<(), AllocError> {
    let mut given = NOTHING;
    given.run(rt, alloc, script)
}

impl<'a> Given<'a> {
    /// Takes each line of a script, and compares what it leaves.
    fn run(&mut self, rt: &impl Abort, alloc: Global, script: &'a str) -> Result<(), AllocError> {
        for line in script.lines() {
            let (text, want) = parts_of(line);
            let told = self.told_of(alloc, text)?;
            assert_eq!(rt; told.as_str(), want, "{line}");
        }
        Ok(())
    }

    /// What a line leaves.
    fn told_of(&mut self, alloc: Global, text: &'a str) -> Result<String, AllocError> {
        let mut told = String::new(alloc);
        self.take(text, &mut told)?;
        Ok(told)
    }

    /// Takes what is given, or makes a call.
    fn take(&mut self, text: &'a str, told: &mut String) -> Result<(), AllocError> {
        let call = call_of(text);
        let rest = rest_of(text, call.name);
        match call.name {
            "a" => self.a = rest,
            "b" => self.b = rest,
            "turns" => self.turns = rest,
            "only" => self.only = rest,
            "#" => *self = NOTHING,
            _ => return self.take_number(call, text, told),
        }
        Ok(())
    }

    /// Takes a number that is given, or makes a call.
    fn take_number(
        &mut self,
        call: Call<'_>,
        text: &str,
        told: &mut String,
    ) -> Result<(), AllocError> {
        let number = slot(call.words[0]);
        match call.name {
            "zeros" => self.zeros = number,
            "off" => self.off = number,
            "fail_read" => self.failing_read = number,
            "fail_write" => self.failing_write = number,
            _ => return self.call(text, told),
        }
        Ok(())
    }

    /// Makes a call with these words, and writes what it leaves.
    fn call(&self, words: &str, told: &mut String) -> Result<(), AllocError> {
        let ending = called(*told.allocator(), self, words)?;
        self.put_ending(&ending, told)
    }

    /// Writes a status, an output and an error line.
    fn put_ending(&self, ending: &Ending, told: &mut String) -> Result<(), AllocError> {
        put_number(told, u64::from(ending.status))?;
        put_shown(told, ending.out.octets(), self.only)?;
        put_text(told, ending.err.octets())
    }
}
