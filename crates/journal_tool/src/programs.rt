//! A program over the files and the streams of the system.
ghost use Rattle.std.specs.Prelude.{◌≡◌, ◌↔◌, true};

use crate::faults::Fault;
use crate::messages::say_fault;
use crate::rendering::Rendering;
use crate::tool::journal_tool;
use outside::{RealFiles, RealSink};
use std::env;
use std::io::{self, ErrorKind};
use std::process::ExitCode;

/// The words after the program's name.
fn words(rt: &HostRuntime) -> io::Result<Vec<String>> {
    Ok(env::args(rt)?.skip(1).collect(rt.alloc())?)
}

/// Whether words that could not be read have one that is not UTF-8. If not, an allocation failed.
fn is_not_text(kind: ErrorKind) -> bool
    ensures { (result ≡ true) ↔ (kind ≡ ErrorKind.InvalidData) }
{
    matches!(kind, ErrorKind::InvalidData)
}

/// Runs a program that writes what is made of a journal to standard output.
pub fn start<R: Rendering>(rt: HostRuntime, program: &str, rendering: &R) -> ExitCode {
    let mut err = RealSink::new(rt.stderr());
    let words = match words(&rt) {
        Ok(words) => words,
        // No words are a faulty command line too, so the usage is written.
        Err(error) if is_not_text(error.kind()) => Vec::new(rt.alloc()),
        Err(_) => {
            say_fault(&mut err, "", &Fault::NoMemory);
            return ExitCode::from(Fault::NoMemory.status());
        }
    };
    let mut files = RealFiles::new(&rt);
    let mut out = RealSink::new(rt.stdout());
    ExitCode::from(journal_tool(
        rt.alloc(),
        program,
        rendering,
        words.as_slice(),
        &mut files,
        &mut out,
        &mut err,
    ))
}
