//! The lines that a program writes to its error stream.
ghost use Rattle.std.specs.Prelude.{◌≡◌, ◌++◌, ◌∷◌, [], decimal};
ghost use Rattle.journal_tool.specs.Endings.{fault_line, usage_line};
ghost use Rattle.journal_tool.specs.Writing.{IsWritten, Says};

use crate::faults::Fault;
use itoa::Buffer;
use outside::{Sink, SinkFault};

/// Writes some octets.
fn put_part<E: Sink>(err: &mut E, octets: &[u8]) -> Result<(), SinkFault>
    ensures { IsWritten E.written E.faults E.is_reliable E.wants_memory err.old err.new result
        octets.now }
{
    err.put(octets)
}

/// Writes three parts.
fn put_parts<E: Sink>(
    err: &mut E,
    front: &[u8],
    middle: &[u8],
    back: &[u8],
) -> Result<(), SinkFault>
    ensures { IsWritten E.written E.faults E.is_reliable E.wants_memory err.old err.new result
        (front.now ++ middle.now ++ back.now) }
{
    put_part(err, front)?;
    put_part(err, middle)?;
    put_part(err, back)
}

/// Writes three parts, or a prefix of them where the stream fails.
fn say<E: Sink>(err: &mut E, front: &[u8], middle: &[u8], back: &[u8])
    ensures { Says E.written E.faults E.wants_memory err.old err.new
        (front.now ++ middle.now ++ back.now) }
{
    let _ = put_parts(err, front, middle, back);
}

/// Writes a line of a text and a number, or a prefix of it where the stream fails.
fn say_line_number<E: Sink>(err: &mut E, front: &[u8], line: u32)
    ensures { Says E.written E.faults E.wants_memory err.old err.new
        (front.now ++ decimal line ++ 10 ∷ []) }
{
    say(err, front, Buffer::new().format(line).as_bytes(), b"\n");
}

/// Writes how the program is called: one line, or a prefix of it where the stream fails.
pub fn say_usage<E: Sink>(err: &mut E, program: &str)
    ensures { Says E.written E.faults E.wants_memory err.old err.new (usage_line program.now) }
{
    say(err, b"usage: ", program.as_bytes(), b" JOURNAL\n");
}

/// Writes why the program failed: one line, or a prefix of it where the stream fails.
pub fn say_fault<E: Sink>(err: &mut E, name: &str, fault: &Fault)
    ensures { Says E.written E.faults E.wants_memory err.old err.new
        (fault_line name.now fault.now) }
{
    match fault {
        Fault::CannotRead => say(err, b"cannot read ", name.as_bytes(), b"\n"),
        Fault::BadLine(line) => say_line_number(err, b"journal line ", *line),
        Fault::CannotWrite => say(err, b"cannot write", b"", b"\n"),
        Fault::NoMemory => say(err, b"no memory", b"", b"\n"),
        Fault::TooLong => say(err, b"too long: ", name.as_bytes(), b"\n"),
    }
}
