//! What the program writes to its error stream.
ghost use Rattle.std.specs.Prelude.{◌≡◌, ◌∷◌, [], ◌++◌, ◌≤◌, length, decimal};
ghost use Rattle.hex.specs.Hex.{encode_lower};
ghost use Rattle.journal.specs.Words.{hexadecimal};
ghost use Rattle.program.specs.Commands.{files_of};
ghost use Rattle.program.specs.Puts.{IsPut, Says};
ghost use Rattle.program.specs.Status.{fault_line, line_text, unseen_text, usage_line};

use crate::commands::Command;
use crate::faults::Fault;
use itoa::Buffer;
use outside::{Sink, SinkFault};

/// The exit status where the words are not a command.
const NO_COMMAND: u8 = 1;

/// How the program is called.
const USAGE: &[u8] = b"usage: ble pair A B SCHEDULE, ble make NUMBER, ble solo HOST AIR";

/// How many octets are written in hexadecimal at once.
const BLOCK: usize = 32;

/// Writes some octets.
fn put_part<E: Sink>(err: &mut E, octets: &[u8]) -> Result<(), SinkFault>
    ensures { IsPut E.written E.faults E.wants_memory err.old err.new result octets.now }
{
    err.put(octets)
}

/// Writes three parts.
fn put_parts<E: Sink>(
    err: &mut E,
    first: &[u8],
    second: &[u8],
    third: &[u8],
) -> Result<(), SinkFault>
    ensures { IsPut E.written E.faults E.wants_memory err.old err.new result
        (first.now ++ second.now ++ third.now) }
{
    put_part(err, first)?;
    put_part(err, second)?;
    put_part(err, third)
}

/// Writes a line of two parts.
fn put_line<E: Sink>(err: &mut E, front: &[u8], back: &[u8]) -> Result<(), SinkFault>
    ensures { IsPut E.written E.faults E.wants_memory err.old err.new result
        (front.now ++ back.now ++ 10 ∷ []) }
{
    put_parts(err, front, back, b"\n")
}

/// Writes a text, and a number after it.
fn put_number<E: Sink>(err: &mut E, front: &[u8], number: u64) -> Result<(), SinkFault>
    ensures { IsPut E.written E.faults E.wants_memory err.old err.new result
        (front.now ++ decimal number) }
{
    put_part(err, front)?;
    put_part(err, Buffer::new().format(number).as_bytes())
}

/// Writes a block of octets in hexadecimal.
fn put_block<E: Sink>(err: &mut E, octets: &[u8]) -> Result<(), SinkFault>
    requires { length octets.now ≤ BLOCK }
    ensures { IsPut E.written E.faults E.wants_memory err.old err.new result
        (encode_lower octets.now) }
{
    let mut buffer = [0; 2 * BLOCK];
    let digits = &mut buffer[..2 * octets.len()];
    hex::encode_to_slice(octets, digits).unwrap();
    put_part(err, digits)
}

/// Writes octets in hexadecimal, block by block, which needs no allocation.
fn put_digits<E: Sink>(err: &mut E, octets: &[u8]) -> Result<(), SinkFault>
    ensures { IsPut E.written E.faults E.wants_memory err.old err.new result
        (encode_lower octets.now) }
{
    let mut rest = octets;
    while rest.len() > BLOCK {
        let (front, back) = rest.split_at(BLOCK);
        put_block(err, front)?;
        rest = back;
    }
    put_block(err, rest)
}

/// Writes octets in hexadecimal, and a dash where there are none.
fn put_hexadecimal<E: Sink>(err: &mut E, octets: &[u8]) -> Result<(), SinkFault>
    ensures { IsPut E.written E.faults E.wants_memory err.old err.new result
        (hexadecimal octets.now) }
{
    if octets.is_empty() {
        put_part(err, b"-")
    } else {
        put_digits(err, octets)
    }
}

/// Writes a text, and octets in hexadecimal after it.
fn put_octets<E: Sink>(err: &mut E, front: &[u8], octets: &[u8]) -> Result<(), SinkFault>
    ensures { IsPut E.written E.faults E.wants_memory err.old err.new result
        (front.now ++ hexadecimal octets.now) }
{
    put_part(err, front)?;
    put_hexadecimal(err, octets)
}

/// Writes the text on damage that would be judged good.
fn put_unseen<E: Sink>(
    err: &mut E,
    turn: u64,
    packet: u32,
    sent: &[u8],
    heard: &[u8],
) -> Result<(), SinkFault>
    ensures { IsPut E.written E.faults E.wants_memory err.old err.new result
        (unseen_text turn packet sent.now heard.now) }
{
    put_number(err, b"unseen damage: turn ", turn)?;
    put_number(err, b" packet ", u64::from(packet))?;
    put_octets(err, b" sent ", sent)?;
    put_octets(err, b" heard ", heard)
}

/// Writes the line on damage that would be judged good.
fn put_unseen_line<E: Sink>(
    err: &mut E,
    turn: u64,
    packet: u32,
    sent: &[u8],
    heard: &[u8],
) -> Result<(), SinkFault>
    ensures { IsPut E.written E.faults E.wants_memory err.old err.new result
        (unseen_text turn packet sent.now heard.now ++ 10 ∷ []) }
{
    put_unseen(err, turn, packet, sent, heard)?;
    put_part(err, b"\n")
}

/// Writes the text on a line of a file for which there is this word.
fn put_line_text<E: Sink>(err: &mut E, word: &[u8], line: u32) -> Result<(), SinkFault>
    ensures { IsPut E.written E.faults E.wants_memory err.old err.new result
        (line_text word.now line) }
{
    put_parts(err, word, b" line ", Buffer::new().format(line).as_bytes())
}

/// Writes the line on a line of a file, after a text.
fn put_file_line<E: Sink>(
    err: &mut E,
    front: &[u8],
    word: &[u8],
    line: u32,
) -> Result<(), SinkFault>
    ensures { IsPut E.written E.faults E.wants_memory err.old err.new result
        (front.now ++ line_text word.now line ++ 10 ∷ []) }
{
    put_part(err, front)?;
    put_line_text(err, word, line)?;
    put_part(err, b"\n")
}

/// Writes a line of two parts, or a prefix of it where the stream fails.
fn say<E: Sink>(err: &mut E, front: &[u8], back: &[u8])
    ensures { Says E.written E.faults E.wants_memory err.old err.new
        (front.now ++ back.now ++ 10 ∷ []) }
{
    let _ = put_line(err, front, back);
}

/// Writes the line on a line of a file, or a prefix of it where the stream fails.
fn say_file_line<E: Sink>(err: &mut E, front: &[u8], word: &str, line: u32)
    ensures { Says E.written E.faults E.wants_memory err.old err.new
        (front.now ++ line_text word.now line ++ 10 ∷ []) }
{
    let _ = put_file_line(err, front, word.as_bytes(), line);
}

/// Writes the line on damage that would be judged good, or a prefix of it where the stream fails.
fn say_unseen<E: Sink>(err: &mut E, turn: u64, packet: u32, sent: &[u8], heard: &[u8])
    ensures { Says E.written E.faults E.wants_memory err.old err.new
        (unseen_text turn packet sent.now heard.now ++ 10 ∷ []) }
{
    let _ = put_unseen_line(err, turn, packet, sent, heard);
}

/// Writes how the program is called, or a prefix of that line where the stream fails, and gives the
/// exit status of a call that is not a command.
pub fn refuse_words<E: Sink>(err: &mut E) -> u8
    ensures status { result ≡ 1 }
    ensures said { Says E.written E.faults E.wants_memory err.old err.new usage_line }
{
    say(err, USAGE, b"");
    NO_COMMAND
}

/// Writes why a command did not do its work: one line, or a prefix of it where the stream fails.
pub fn report<E: Sink>(err: &mut E, command: &Command<'_>, fault: &Fault)
    ensures { Says E.written E.faults E.wants_memory err.old err.new
        (fault_line (files_of command.now) fault.now) }
{
    match fault {
        Fault::CannotRead { place } => {
            say(err, b"cannot read ", command.name_at(*place).as_bytes());
        }
        Fault::BadLine { place, line } => say_file_line(err, b"", command.word_at(*place), *line),
        Fault::CannotWrite => say(err, b"cannot write", b""),
        Fault::NoMemory => say(err, b"no memory", b""),
        Fault::Unseen {
            turn,
            packet,
            sent,
            heard,
        } => say_unseen(err, *turn, *packet, sent.as_slice(), heard.as_slice()),
        Fault::TooLong { place } => {
            say(err, b"too long: ", command.name_at(*place).as_bytes());
        }
        Fault::TooManyTurns { place, line } => {
            say_file_line(err, b"too long: ", command.word_at(*place), *line);
        }
    }
}
