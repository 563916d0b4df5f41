//! Packets of the advertising channels on the air.
use crate::scripts::check;
use std::alloc::AllocError;

/// A is an advertiser: its parameters, of type 3, and then on. B is a scanner: an event mask with
/// the LE events, and then on, with each report anew.
const PACKETS: &str = "\
# The packet passes, is lost, is damaged, and is heard by nobody; and none is sent.
a 0106200f200020000300000000000000000700010a200101
b 01010c08ffffffffff1f0020010c20020100
turns t ++ a24 b18|
pair a.bin b.bin schedule = 0 [\
    turn 0 ++|\
    in a 0106200f200020000300000000000000000700010a200101|\
    up a 040e0401062000|\
    up a 040e04010a2000|\
    in b 01010c08ffffffffff1f0020010c20020100|\
    up b 040e0401010c00|\
    up b 040e04010c2000|\
    air a 37 d6be898e8fd45da13d499970f84ada . good|\
    up b 043e0c020103000a0000eeffc0007f|\
    ] []
turns t ++ a24 b18 x|
pair a.bin b.bin schedule = 0 [\
    turn 0 ++|\
    in a 0106200f200020000300000000000000000700010a200101|\
    up a 040e0401062000|\
    up a 040e04010a2000|\
    in b 01010c08ffffffffff1f0020010c20020100|\
    up b 040e0401010c00|\
    up b 040e04010c2000|\
    air a 37 d6be898e8fd45da13d499970f84ada x missed|\
    ] []
turns t ++ a24 b18 e6:01|
pair a.bin b.bin schedule = 0 [\
    turn 0 ++|\
    in a 0106200f200020000300000000000000000700010a200101|\
    up a 040e0401062000|\
    up a 040e04010a2000|\
    in b 01010c08ffffffffff1f0020010c20020100|\
    up b 040e0401010c00|\
    up b 040e04010c2000|\
    air a 37 d6be898e8fd45da13d499970f84ada e6:01 broken|\
    ] []
turns t +- a24 b18|
pair a.bin b.bin schedule = 0 [\
    turn 0 +-|\
    in a 0106200f200020000300000000000000000700010a200101|\
    up a 040e0401062000|\
    up a 040e04010a2000|\
    in b 01010c08ffffffffff1f0020010c20020100|\
    up b 040e0401010c00|\
    up b 040e04010c2000|\
    air a 37 d6be898e8fd45da13d499970f84ada . missed|\
    ] []
turns t -+ a24 b18|
pair a.bin b.bin schedule = 0 [\
    turn 0 -+|\
    in a 0106200f200020000300000000000000000700010a200101|\
    up a 040e0401062000|\
    up a 040e04010a2000|\
    in b 01010c08ffffffffff1f0020010c20020100|\
    up b 040e0401010c00|\
    up b 040e04010c2000|\
    ] []
# The damage of the packet fits its CRC: the journal of all before the packet is written, and \
    the error line has the packet as sent and then as heard, counted from 1. No packet is \
    invented: the same schedule without damage is done.
a 0106200f200020000300000000000000000700010a200101
b 01010c08ffffffffff1f0020010c20020100
turns t ++ a24 b18 e11:01c0b401|
pair a.bin b.bin schedule = 6 [\
    turn 0 ++|\
    in a 0106200f200020000300000000000000000700010a200101|\
    up a 040e0401062000|\
    up a 040e04010a2000|\
    in b 01010c08ffffffffff1f0020010c20020100|\
    up b 040e0401010c00|\
    up b 040e04010c2000|\
    ] [unseen damage: turn 0 packet 1 sent d6be898e8fd45da13d499970f84ada heard \
    d6be898e8fd45da13d49997138fedb|]
# A failed write is status 4, also where unseen damage ends the journal.
a 0106200f200020000300000000000000000700010a200101
b 01010c08ffffffffff1f0020010c20020100
fail_write 1
turns t ++ a24 b18|
pair a.bin b.bin schedule = 4 [] [cannot write|]
turns t ++ a24 b18 e11:01c0b401|
pair a.bin b.bin schedule = 4 [] [cannot write|]
";

#[test]
fn packets_go_over_the_air(rt: HostRuntime) -> Result<(), AllocError> {
    check(&rt, rt.alloc(), PACKETS)
}
