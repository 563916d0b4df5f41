//! Words, files and schedules with which nothing is run, and the limits of what is run.
use crate::scripts::check;
use std::alloc::AllocError;

const NOT_RUN: &str = "\
# Words that are not a command.
turns t ++|
 = 1 [] [usage: ble pair A B SCHEDULE, ble make NUMBER, ble solo HOST AIR|]
pair a.bin b.bin = 1 [] [usage: ble pair A B SCHEDULE, ble make NUMBER, ble solo HOST AIR|]
pair a.bin b.bin schedule schedule = 1 [] [usage: ble pair A B SCHEDULE, ble make NUMBER, ble \
    solo HOST AIR|]
makes 7 = 1 [] [usage: ble pair A B SCHEDULE, ble make NUMBER, ble solo HOST AIR|]
pairs a.bin b.bin schedule = 1 [] [usage: ble pair A B SCHEDULE, ble make NUMBER, ble solo HOST \
    AIR|]
# The file that is missing is named, and no decoy, even where a later file is at fault too.
turns t +|
pair x b.bin schedule = 2 [] [cannot read x|]
pair a.bin y schedule = 2 [] [cannot read y|]
pair a.bin b.bin z = 2 [] [cannot read z|]
pair a.bin y z = 2 [] [cannot read y|]
# Of a line outside the grammar and a turn too many, the earlier line is reported.
turns t +|
pair a.bin b.bin schedule = 3 [] [schedule line 4|]
turns t ++|run 03|
pair a.bin b.bin schedule = 3 [] [schedule line 5|]
turns run 100001|
pair a.bin b.bin schedule = 7 [] [too long: schedule line 4|]
turns run 50000|run 50000|t ++|t +|
pair a.bin b.bin schedule = 7 [] [too long: schedule line 6|]
turns t +|run 100001|
pair a.bin b.bin schedule = 3 [] [schedule line 4|]
# The file that cannot be read is named.
a 01030c00
turns t ++ a4|
fail_read 1
pair a.bin b.bin schedule = 2 [] [cannot read a.bin|]
fail_read 2
pair a.bin b.bin schedule = 2 [] [cannot read b.bin|]
fail_read 3
pair a.bin b.bin schedule = 2 [] [cannot read schedule|]
";

#[test]
fn nothing_is_run(rt: HostRuntime) -> Result<(), AllocError> {
    check(&rt, rt.alloc(), NOT_RUN)
}

/// The longest file and one octet more, as the first file and as the last, and the most turns. Their lines have 9 octets without the
/// number, and the numbers 488,890 digits.
const LIMITS: &str = "\
turns t ++|
zeros 1048576
pair a.bin b.bin schedule = 0 [turn 0 ++|] []
zeros 1048577
pair a.bin b.bin schedule = 7 [] [too long: a.bin|]
pair a.bin y z = 7 [] [too long: a.bin|]
pair b.bin schedule a.bin = 7 [] [too long: a.bin|]
zeros 0
turns run 50000|run 50000|
only idle
pair a.bin b.bin schedule = 0 100000 1388890 []
";

#[test]
fn limits_of_what_is_run(rt: HostRuntime) -> Result<(), AllocError> {
    check(&rt, rt.alloc(), LIMITS)
}
