//! Procedures of both ends that meet (Core 5.2, volume 6 part B, section 5.3), turn by turn.
use crate::scripts::check;
use std::alloc::AllocError;

/// A link with an interval of 24 slots, of which A is the central. Event e is in turn 2 + 24e.
const COLLISIONS: &str = "\
# Crossing: A sends LE Set Host Channel Classification, and B LE Connection Update with an \
    interval of 32 slots. The request is rejected, and both ends change to the map.
a 01010c08ffffffffff1f0020010d20196000600000000b0000eeffc000180018000000480000000000\
    01142005ffffffff01
b 01010c08ffffffffff1f0020010a2001010113200e0000200020000000480000000000
turns t ++ a41 b17|run 9|t ++ a9 b18|run 160|
only began,refused,done,applied,sent,shut,up b 043e0a
pair a.bin b.bin schedule = 0 [\
    26 began a 1 map|\
    26 sent a 1 1 3 01ffffffff010700|\
    26 began b 1 request|\
    26 sent b 1 1 3 0f2000200000004800000100ffffffffffffffffffffffff|\
    50 sent a 1 2 3 110f2a|\
    50 refused b 1 request 2a|\
    50 up b 043e0a032a0000180000004800|\
    170 applied a 1 1 7|\
    170 done a 1 map|\
    170 applied b 1 1 7|\
    ] []
# Both ends' PHY requests: both hosts send LE Set PHY. The procedure of the central goes on.
a 01010c08ffffffffff1f0020010120081f08000000000000\
    010d20196000600000000b0000eeffc0001800180000004800000000000132200700000001010000
b 01010c08ffffffffff1f0020010120081f08000000000000010a2001010132200700000001010000
turns t ++ a53 b29|run 9|t ++ a11 b11|run 64|
only began,refused,done,sent,shut,up a 043e06,up b 043e06
pair a.bin b.bin schedule = 0 [\
    26 began a 1 phy|\
    26 sent a 1 1 3 160101|\
    26 began b 1 phy|\
    26 sent b 1 1 3 160101|\
    50 sent a 1 2 3 111623|\
    50 refused b 1 phy 23|\
    50 up b 043e060c2300000101|\
    50 sent b 1 2 3 170101|\
    74 sent a 1 3 3 1800000000|\
    74 done a 1 phy|\
    74 up a 043e060c0000000101|\
    ] []
# A request whose event is withheld by the masks of the central's host.
a 01010c08ffffffffff1f0020010d20196000600000000b0000eeffc000180018000000480000000000
b 01010c08ffffffffff1f0020010a2001010113200e0000200020000000480000000000
turns t ++ a41 b17|run 9|t ++ b18|run 64|
only began,refused,done,sent,shut,up a 043e0b,up b 043e0a
pair a.bin b.bin schedule = 0 [\
    26 began b 1 request|\
    26 sent b 1 1 3 0f2000200000004800000100ffffffffffffffffffffffff|\
    50 sent a 1 1 3 110f1a|\
    50 refused b 1 request 1a|\
    50 up b 043e0a031a0000180000004800|\
    ] []
# A request that the central's host refuses: A sends LE Remote Connection Parameter Request \
    Negative Reply in turn 30.
a 01010c08ffffffffff1f0020010120083f00000000000000\
    010d20196000600000000b0000eeffc0001800180000004800000000000121200300003b
b 01010c08ffffffffff1f0020010a2001010113200e0000200020000000480000000000
turns t ++ a53 b17|run 9|t ++ b18|run 19|t ++ a7|run 44|
only began,refused,done,sent,shut,up a 043e0b,up a 040e06,up b 043e0a
pair a.bin b.bin schedule = 0 [\
    26 began b 1 request|\
    26 sent b 1 1 3 0f2000200000004800000100ffffffffffffffffffffffff|\
    26 up a 043e0b0600002000200000004800|\
    30 up a 040e06012120000000|\
    50 sent a 1 1 3 110f3b|\
    50 refused b 1 request 3b|\
    50 up b 043e0a033b0000180000004800|\
    ] []
# A request that the central's host grants by LE Remote Connection Parameter Request Reply: event \
    9 is 32 slots after event 8, from which the new interval holds.
a 01010c08ffffffffff1f0020010120083f00000000000000\
    010d20196000600000000b0000eeffc000180018000000480000000000\
    0120200e0000200020000000480000000000
b 01010c08ffffffffff1f0020010a2001010113200e0000200020000000480000000000
turns t ++ a53 b17|run 9|t ++ b18|run 19|t ++ a18|run 196|
only began,refused,done,applied,sent,shut,enter a 1 9,enter b 1 9,up a 040e06,up a 043e0a,up b 043e0a
pair a.bin b.bin schedule = 0 [\
    26 began b 1 request|\
    26 sent b 1 1 3 0f2000200000004800000100ffffffffffffffffffffffff|\
    30 up a 040e06012020000000|\
    50 sent a 1 1 3 000100002000000048000800|\
    194 applied a 1 1 8|\
    194 up a 043e0a03000000200000004800|\
    194 applied b 1 1 8|\
    194 done b 1 request|\
    194 up b 043e0a03000000200000004800|\
    226 enter a 1 9 21|\
    226 enter b 1 9 21|\
    ] []
";

#[test]
fn procedures_of_both_ends_meet(rt: HostRuntime) -> Result<(), AllocError> {
    check(&rt, rt.alloc(), COLLISIONS)
}
