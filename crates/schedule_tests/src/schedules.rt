//! Tests of what no contract says: texts in and outside the grammar, the texts of faults, and
//! damages.
use crate::scripts::check;
use radio_replay::{a_run_is_plain_turns, every_schedule_is_read};
use std::alloc::AllocError;

/// The turns of a schedule with all that there can be. Packets after the last fate pass.
const TURNS: &str = "\
turn 0 = + + 41 17 . . . .
turn 1 = + + 0 0 . . . .
turn 2 = + + 0 0 . . . .
turn 3 = + - 0 1048576 . x e 11 01c0b401 .
turn 4 = - - 1 0 e 0 ff . . .
turn 5 = no turn
";

#[test]
fn every_turn_is_read(rt: HostRuntime) -> Result<(), AllocError> {
    check(&rt, rt.alloc(), TURNS)?;
    every_schedule_is_read();
    a_run_is_plain_turns();
    Ok(())
}

/// A fate of any packet, and the settings of both sides.
const SETTINGS: &str = "\
fate 4 4294967295 = .
side_a = 0a0000eeffc0 71764129 0000000000000001
side_b = 0b0000eeffc0 0000000a 0000000000000002 fedcba9876543210
";

#[test]
fn both_settings_are_read(rt: HostRuntime) -> Result<(), AllocError> {
    check(&rt, rt.alloc(), SETTINGS)
}

const FIRST_LINES: &str = "\
whole = Err(BadLine(1))
whole ble-schedule 1| = Err(BadLine(2))
whole ble-schedule 1|side a c0ffee00000a 71764129 0000000000000001| = Err(BadLine(3))
whole ble-schedule 1|side a c0ffee00000a 71764129|\
    side b c0ffee00000b 71764129 0000000000000002| = Err(BadLine(2))
whole ble-schedule 1|side b c0ffee00000b 71764129 0000000000000002|\
    side a c0ffee00000a 71764129 0000000000000001| = Err(BadLine(2))
";

#[test]
fn the_first_lines_must_be_there(rt: HostRuntime) -> Result<(), AllocError> {
    check(&rt, rt.alloc(), FIRST_LINES)
}

const RIGHT: &str = "\
lines = Ok(0)
lines t ++ a4 = Ok(1)
lines t -+ b1 x| = Ok(1)
lines t ++ e263:00| = Ok(1)
lines t ++ . . e0:aAbBcC . x x| = Ok(1)
lines run 1| = Ok(1)
lines run 99999|t ++| = Ok(100000)
lines run 50000|run 50000| = Ok(100000)
";

#[test]
fn lines_are_in_the_grammar(rt: HostRuntime) -> Result<(), AllocError> {
    check(&rt, rt.alloc(), RIGHT)
}

const WRONG: &str = "\
lines t +| = Err(BadLine(4))
lines t ++||t ++| = Err(BadLine(5))
lines t ++\r| = Err(BadLine(4))
lines t ++ | = Err(BadLine(4))
lines t ++  .| = Err(BadLine(4))
lines t ++ a0| = Err(BadLine(4))
lines t ++ a1048577| = Err(BadLine(4))
lines t ++ b5 a5| = Err(BadLine(4))
lines t ++ . a5| = Err(BadLine(4))
lines t ++ X| = Err(BadLine(4))
lines t ++ ..| = Err(BadLine(4))
lines t ++ e264:00| = Err(BadLine(4))
lines t ++ e00:00| = Err(BadLine(4))
lines t ++ e:00| = Err(BadLine(4))
lines t ++ e5| = Err(BadLine(4))
lines t ++ e5:| = Err(BadLine(4))
lines t ++ e5:0| = Err(BadLine(4))
lines t ++ e5:0g| = Err(BadLine(4))
lines t ++ e5:00:| = Err(BadLine(4))
lines run| = Err(BadLine(4))
lines run 0| = Err(BadLine(4))
lines run 007| = Err(BadLine(4))
lines run +7| = Err(BadLine(4))
lines run 5 .| = Err(BadLine(4))
lines run 1000000| = Err(BadLine(4))
lines run 2|t ++|run  2| = Err(BadLine(6))
";

#[test]
fn lines_are_outside_the_grammar(rt: HostRuntime) -> Result<(), AllocError> {
    check(&rt, rt.alloc(), WRONG)
}

/// The first line at fault is named. A side has one to 64 words, and a pattern one to 264 octets.
const FAULTS: &str = "\
lines run 100001| = Err(TooLong(4))
lines run 999999| = Err(TooLong(4))
lines run 50000|run 50000|t ++|t +| = Err(TooLong(6))
lines run 100000|t +|t ++| = Err(BadLine(5))
lines t +|run 100001| = Err(BadLine(4))
words 0 = Err(BadLine(2))
words 1 = Ok(1)
words 64 = Ok(1)
words 65 = Err(BadLine(2))
pattern 264 = Ok(1)
pattern 265 = Err(BadLine(4))
fault line 4 = schedule line 4
fault long 4 = too long: schedule line 4
fault memory = no memory
";

#[test]
fn the_first_line_at_fault_is_named(rt: HostRuntime) -> Result<(), AllocError> {
    check(&rt, rt.alloc(), FAULTS)
}

/// What fates make of a packet of three octets.
const DAMAGES: &str = "\
pass = 010203
lost = 010203
damage 0 ff = fe0203
damage 1 0280 = 010083
damage 2 010101 = 010202
damage 3 01 = 010203
damage 263 01 = 010203
";

#[test]
fn only_a_damage_changes_a_packet(rt: HostRuntime) -> Result<(), AllocError> {
    check(&rt, rt.alloc(), DAMAGES)
}
