//! Data over a link, turn by turn. The host of A connects, as in the tests of links, and then sends
//! packets of data. At the end of a turn what goes to A's host comes before what goes to B's.
use crate::scripts::check;
use std::alloc::AllocError;

const DATA: &str = "\
# The reply to a packet of data is lost twice: the packet is sent three times, taken once and \
    credited once.
a 01010c08ffffffffff1f0020010d20196000600000000b0000eeffc000180018000000480000000000020000040001\
    020304
b 01010c08ffffffffff1f0020010a200101
turns t ++ a41 b17|run 9|t ++ a9|run 15|t ++ . x|run 23|t ++ . x|run 23|t ++|
only sent,took,up b 02,up a 0413,air
pair a.bin b.bin schedule = 0 [\
    0 air b 37 d6be898e . good|\
    0 air a 37 d6be898e . good|\
    2 air a 25 29417671 . good|\
    2 air b 25 29417671 . good|\
    26 sent a 1 1 2 01020304|\
    26 air a 20 29417671 . good|\
    26 took b 1 1 2 01020304|\
    26 air b 20 29417671 x missed|\
    26 up b 020020040001020304|\
    50 air a 6 29417671 . good|\
    50 air b 6 29417671 x missed|\
    74 air a 21 29417671 . good|\
    74 air b 21 29417671 . good|\
    74 up a 0413050100000100|\
    ] []
# Nine packets of one octet and one with none: eight are held, the ninth overflows, the empty \
    one is credited at once.
a 01010c08ffffffffff1f0020010d20196000600000000b0000eeffc000180018000000480000000000020000010031\
    02000001003202000001003302000001003402000001003502000001003602000001003702000001003802000001\
    00390200000000
b 01010c08ffffffffff1f0020010a200101
turns t ++ a41 b17|run 9|t ++ a59|run 89|
only up a 041a,up b 02,up a 0413
pair a.bin b.bin schedule = 0 [\
    10 up a 041a0101|\
    10 up a 0413050100000100|\
    26 up a 0413050100000100|\
    26 up b 020020010031|\
    27 up a 0413050100000100|\
    27 up b 020020010032|\
    50 up a 0413050100000100|\
    50 up b 020020010033|\
    51 up a 0413050100000100|\
    51 up b 020020010034|\
    74 up a 0413050100000100|\
    74 up b 020020010035|\
    75 up a 0413050100000100|\
    75 up b 020020010036|\
    98 up a 0413050100000100|\
    98 up b 020020010037|\
    99 up a 0413050100000100|\
    99 up b 020020010038|\
    ] []
# A packet of 28 octets is cut into two pieces, which are sent in turns that follow each \
    other, and is credited once.
a 01010c08ffffffffff1f0020010d20196000600000000b0000eeffc0001800180000004800000000000200001c0000\
    0102030405060708090a0b0c0d0e0f101112131415161718191a1b
b 01010c08ffffffffff1f0020010a200101
turns t ++ a41 b17|run 9|t ++ a33|run 40|
only sent,took,up b 02,up a 0413
pair a.bin b.bin schedule = 0 [\
    26 sent a 1 1 2 000102030405060708090a0b0c0d0e0f101112131415161718191a|\
    26 took b 1 1 2 000102030405060708090a0b0c0d0e0f101112131415161718191a|\
    26 up b 0200201b00000102030405060708090a0b0c0d0e0f101112131415161718191a|\
    27 sent a 1 2 1 1b|\
    27 took b 1 2 1 1b|\
    27 up a 0413050100000100|\
    27 up b 02001001001b|\
    ] []
# The host of B turns flow control on and has one buffer: the second packet waits until that \
    host says that it has taken the first.
a 01010c08ffffffffff1f0020010d20196000600000000b0000eeffc000180018000000480000000000020000010\
    05a02000001005a
b 01010c08ffffffffff1f002001310c010101330c071b000001000000010a20010101350c050100000100
turns t ++ a41 b33|run 9|t ++ a12|run 29|t ++ b9|
only took,up b 02
pair a.bin b.bin schedule = 0 [\
    26 took b 1 1 2 5a|\
    26 up b 02002001005a|\
    27 took b 1 2 2 5a|\
    40 up b 02002001005a|\
    ] []
# Damage to a packet of data that fits its CRC ends the run, and nothing is handed up.
a 01010c08ffffffffff1f0020010d20196000600000000b0000eeffc00018001800000048000000000002000001005a
b 01010c08ffffffffff1f0020010a200101
turns t ++ a41 b17|run 9|t ++ a6|run 15|t ++ e6:01c0b401|
only sent,took,up b 02
pair a.bin b.bin schedule = 6 [26 sent a 1 1 2 5a|\
    ] [unseen damage: turn 26 packet 1 sent 29417671fa543293c81c heard 29417671fa5433537c1d|]
";

#[test]
fn data_goes_over_a_link(rt: HostRuntime) -> Result<(), AllocError> {
    check(&rt, rt.alloc(), DATA)
}
