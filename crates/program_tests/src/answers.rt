//! What hosts are answered, turn by turn.
use crate::scripts::check;
use std::alloc::AllocError;

/// A Reset, in one turn and in three; a loss of synchronisation; an opcode that no command has; a
/// Reset with a parameter; and the address of a device. Then advertising on; parameters of
/// advertising, which are refused while it is on; on, off and a value that there is not; and
/// parameters again.
const ANSWERS: &str = "\
a 01030c00
turns t ++ a4|
pair a.bin b.bin schedule = 0 [turn 0 ++|in a 01030c00|up a 040e0401030c00|] []
a 01030c00
turns t ++ a1|t ++ a2|t ++ a1|
pair a.bin b.bin schedule = 0 [\
    turn 0 ++|\
    in a 01|\
    turn 1 ++|\
    in a 030c|\
    turn 2 ++|\
    in a 00|\
    up a 040e0401030c00|\
    ] []
a 07aa01030c00
turns t ++ a6|
pair a.bin b.bin schedule = 0 [turn 0 ++|in a 07aa01030c00|up a 04100101|up a 040e0401030c00|] []
a 01ffff00
turns t ++ a4|
pair a.bin b.bin schedule = 0 [turn 0 ++|in a 01ffff00|up a 040f040101ffff|] []
a 01030c0100
turns t ++ a5|
pair a.bin b.bin schedule = 0 [turn 0 ++|in a 01030c0100|up a 040e0401030c12|] []
a 01091000
turns t ++ a4|
pair a.bin b.bin schedule = 0 [turn 0 ++|in a 01091000|up a 040e0a010910000a0000eeffc0|] []
a 010a2001010106200f000800080200000000000000000700010a200101010a200100010a2001020106200f00080008\
    0300000000000000000700
turns t ++ a58|
pair a.bin b.bin schedule = 0 [\
    turn 0 ++|\
    in a 010a2001010106200f000800080200000000000000000700010a200101010a200100010a2001020106200f0\
    00800080300000000000000000700|\
    up a 040e04010a2000|\
    up a 040e040106200c|\
    up a 040e04010a2000|\
    up a 040e04010a2000|\
    up a 040e04010a2012|\
    up a 040e0401062000|\
    ] []
";

#[test]
fn the_host_of_a_is_answered(rt: HostRuntime) -> Result<(), AllocError> {
    check(&rt, rt.alloc(), ANSWERS)
}
