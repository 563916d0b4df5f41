//! The program `ble`: two Bluetooth Low Energy controllers over two host streams and a scripted
//! radio.
#![tactic(auto)]

ghost use Rattle.std.specs.Prelude.{◌≡◌, ◌↔◌, true};

use ble_tool::ble_tool;
use outside::{RealFiles, RealSink, Sink};
use std::env;
use std::io::{self, ErrorKind};
use std::process::ExitCode;

/// The exit status where an allocation failed.
const NO_MEMORY: u8 = 5;

/// The words after the program's name.
fn words(rt: &HostRuntime) -> io::Result<Vec<String>> {
    Ok(env::args(rt)?.skip(1).collect(rt.alloc())?)
}

/// Whether words that could not be read have one that is not UTF-8. If not, an allocation failed.
fn is_not_text(kind: ErrorKind) -> bool
    ensures { (result ≡ true) ↔ (kind ≡ ErrorKind.InvalidData) }
{
    matches!(kind, ErrorKind::InvalidData)
}

fn main(rt: HostRuntime) -> ExitCode {
    let mut err = RealSink::new(rt.stderr());
    let words = match words(&rt) {
        Ok(words) => words,
        // No words are a faulty command line too, so the usage is written.
        Err(error) if is_not_text(error.kind()) => Vec::new(rt.alloc()),
        Err(_) => {
            let _ = err.put(b"no memory\n");
            return ExitCode::from(NO_MEMORY);
        }
    };
    let mut files = RealFiles::new(&rt);
    let mut out = RealSink::new(rt.stdout());
    ExitCode::from(ble_tool(rt.alloc(), &words, &mut files, &mut out, &mut err))
}
