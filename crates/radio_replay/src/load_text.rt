//! The text of the schedule of a load.
ghost use Rattle.std.specs.Prelude.{◌≡◌, ◌++◌, ◌<◌, OnOk, IfOk, decimal};
ghost use Rattle.line_words.specs.Text.{with_newline};
ghost use Rattle.radio_replay.specs.LoadSchedule.{block_lines, event_turn, feeding_turn};
ghost use Rattle.radio_replay.specs.LoadSchedule.{load_schedule, text_of_lines, turn_fed, turn_line};

use crate::streams::{PACKETS, size_of};
use itoa::Buffer;
use journal::Octets;
use std::alloc::{AllocError, Global};

/// How many blocks of turns there are.
const BLOCKS: u32 = 220;

/// The lines before those of the blocks.
const FIRST_LINES: &[u8] = b"ble-schedule 1\n\
    side a c0ffee00000a 71764129 0000000000000001\n\
    side b c0ffee00000b 71764129 0000000000000002\n\
    t ++ a29 b5\n";

/// Writes some octets, and then a number.
fn put_number(text: &mut Vec<u8>, front: &[u8], number: u16) -> Result<(), AllocError>
    ensures { OnOk result (text.new.items ≡ text.old.items ++ (front.now ++ decimal number)) }
{
    text.extend_from_slice(front)?;
    text.extend_from_slice(Buffer::new().format(number).as_bytes())
}

/// Writes the line of a turn in which each host is fed this number of octets.
fn put_fed(text: &mut Vec<u8>, count: u16) -> Result<(), AllocError>
    requires { 0 < count }
    ensures { OnOk result (text.new.items
        ≡ text.old.items ++ with_newline (turn_line (turn_fed count count))) }
{
    put_number(text, b"t ++ a", count)?;
    put_number(text, b" b", count)?;
    text.push(b'\n')?;
    Ok(())
}

/// Writes the line of the first turn of a block.
fn put_feeding(text: &mut Vec<u8>, block: u32) -> Result<(), AllocError>
    ensures { OnOk result (text.new.items
        ≡ text.old.items ++ with_newline (turn_line (feeding_turn block))) }
{
    if block < PACKETS {
        put_fed(text, 5 + size_of(block))
    } else {
        text.extend_from_slice(b"t ++\n")
    }
}

/// The line of the turn of the event of a block.
fn event_line(number: u32, block: u32) -> &'static [u8]
    ensures { result.now ≡ with_newline (turn_line (event_turn number block)) }
{
    if block % 3 == number % 3 {
        b"t ++ x\n"
    } else {
        b"t ++\n"
    }
}

/// Writes the lines of a block.
fn put_block(text: &mut Vec<u8>, number: u32, block: u32) -> Result<(), AllocError>
    ensures { OnOk result
        (text.new.items ≡ text.old.items ++ text_of_lines (block_lines number block)) }
{
    put_feeding(text, block)?;
    text.extend_from_slice(event_line(number, block))?;
    text.extend_from_slice(b"run 22\n")?;
    Ok(())
}

/// The text of the schedule.
pub(crate) fn make_schedule(alloc: Global, number: u32) -> Result<Octets, AllocError>
    ensures { IfOk result (λ text. text ≡ load_schedule number) }
{
    let mut text = Vec::from_slice(alloc, FIRST_LINES)?;
    for block in 0..BLOCKS {
        put_block(&mut text, number, block)?;
    }
    Ok(Octets::from(text))
}
