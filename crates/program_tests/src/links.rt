//! Links, turn by turn.
use crate::scripts::check;
use std::alloc::AllocError;

/// A link from B to A up to its first event, which is on data channel 25. The packets were worked
/// out by the rules of the standard for CRC, whitening and channel selection algorithm #2. The
/// access address is 71764129, and CRCInit is 000002. A sets LE Set Advertising Enable with all
/// defaults. B sends LE Create Connection with device A: an interval of 30 ms, no latency, and a
/// supervision timeout of 720 ms.
const LINK_OF_B: &str = "\
a 010a200101
b 010d20191000100000000a0000eeffc000180018000000480000000000
turns t ++ a5 b29|t ++|t ++|
pair a.bin b.bin schedule = 0 [\
    turn 0 ++|\
    in a 010a200101|\
    up a 040e04010a2000|\
    in b 010d20191000100000000a0000eeffc000180018000000480000000000|\
    up b 040f0400010d20|\
    air a 37 d6be898eadd45da13d499970163906 . good|\
    air b 37 d6be898ea8f05ca13d4999707f3111a669b7d1a23098a9d09e5233d8a2980824833b038e5c0b4a6dd1a\
    550 . good|\
    open a 1 0 peripheral|\
    open b 1 0 central|\
    turn 1 ++|\
    turn 2 ++|\
    enter a 1 0 25|\
    enter b 1 0 25|\
    air b 25 2941767150fadee550 . good|\
    air a 25 2941767154fa0de350 . good|\
    ] []
";

#[test]
fn a_link_opens_and_has_its_first_event(rt: HostRuntime) -> Result<(), AllocError> {
    check(&rt, rt.alloc(), LINK_OF_B)
}

/// A sends Set Event Mask with the LE events, and LE Create Connection with device B: an interval
/// of 30 ms, no latency, and a supervision timeout of 720 ms. B sends Set Event Mask with the LE
/// events, and LE Set Advertising Enable with all defaults.
const LINKS: &str = "\
# A CONNECT_IND that is taken, and two events with one exchange each.
a 01010c08ffffffffff1f0020010d20196000600000000b0000eeffc000180018000000480000000000
b 01010c08ffffffffff1f0020010a200101
turns t ++ a41 b17|run 26|
only air,open,enter,shut
pair a.bin b.bin schedule = 0 [\
    0 air b 37 d6be898e . good|\
    0 air a 37 d6be898e . good|\
    0 open a 1 0 central|\
    0 open b 1 0 peripheral|\
    2 enter a 1 0 25|\
    2 enter b 1 0 25|\
    2 air a 25 29417671 . good|\
    2 air b 25 29417671 . good|\
    26 enter a 1 1 20|\
    26 enter b 1 1 20|\
    26 air a 20 29417671 . good|\
    26 air b 20 29417671 . good|\
    ] []
# A CONNECT_IND that is lost: its sender hears nothing good for six intervals, and the other \
    side advertises on.
a 01010c08ffffffffff1f0020010d20196000600000000b0000eeffc000180018000000480000000000
b 01010c08ffffffffff1f0020010a200101
turns t ++ a41 b17 . x|run 144|
only open,shut,up,air b
pair a.bin b.bin schedule = 0 [\
    0 up a 040e0401010c00|\
    0 up a 040f0400010d20|\
    0 up b 040e0401010c00|\
    0 up b 040e04010a2000|\
    0 air b 37 d6be898e . good|\
    0 open a 1 0 central|\
    0 up a 043e130100000000000b0000eeffc018000000480000|\
    1 air b 38 d6be898e . missed|\
    2 air b 39 d6be898e . missed|\
    144 shut a 1 3e|\
    144 up a 0405040000003e|\
    ] []
# A supervision timeout: the radio of A is off in the second event and from then on.
a 01010c08ffffffffff1f0020010d20196000600000000b0000eeffc000180018000000480000000000
b 01010c08ffffffffff1f0020010a200101
turns t ++ a41 b17|run 9|
off 569
only shut,up b 0405,air a
pair a.bin b.bin schedule = 0 [\
    0 air a 37 d6be898e . good|\
    2 air a 25 29417671 . good|\
    578 shut a 1 08|\
    578 shut b 1 08|\
    578 up b 04050400000008|\
    ] []
# A peripheral with a latency of two events skips two after one in which it heard a good \
    packet, and enters them all the same.
a 01010c08ffffffffff1f0020010d20196000600000000b0000eeffc000180018000200480000000000
b 01010c08ffffffffff1f0020010a200101
turns t ++ a41 b17|run 74|
only air,enter b
pair a.bin b.bin schedule = 0 [\
    0 air b 37 d6be898e . good|\
    0 air a 37 d6be898e . good|\
    2 enter b 1 0 25|\
    2 air a 25 29417671 . good|\
    2 air b 25 29417671 . good|\
    26 enter b 1 1 20|\
    26 air a 20 29417671 . missed|\
    50 enter b 1 2 6|\
    50 air a 6 29417671 . missed|\
    74 enter b 1 3 21|\
    74 air a 21 29417671 . good|\
    74 air b 21 29417671 . good|\
    ] []
# A controller with room for a further link initiates while connectable advertising is on, and the \
    advertiser has the radio first. A sends LE Set Advertising Enable, and LE Create Connection \
    with device B.
a 010a200101010d20196000600000000b0000eeffc000180018000000480000000000
b
turns t ++ a34|
pair a.bin b.bin schedule = 0 [\
    turn 0 ++|\
    in a 010a200101010d20196000600000000b0000eeffc000180018000000480000000000|\
    up a 040e04010a2000|\
    up a 040f0400010d20|\
    air a 37 d6be898eadd45da13d499970163906 . missed|\
    ] []
# Two links between two devices, the second one with a random address of A, under the second \
    handle. Their events are in slots of their own.
a 01010c08ffffffffff1f0020010520060c0000eeffc0010d20196000600000000b0000eeffc000180018000000480000\
    000000010d20196000600000000b0000eeffc001180018000000480000000000
b 01010c08ffffffffff1f0020010a200101010a200101
turns t ++ a51 b17|run 11|t ++ a29 b5|run 27|
only open,up a 043e,up b 043e,air a 2,air a 33
pair a.bin b.bin schedule = 0 [\
    0 open a 1 0 central|\
    0 up a 043e130100000000000b0000eeffc018000000480000|\
    0 open b 1 0 peripheral|\
    0 up b 043e130100000001000a0000eeffc018000000480000|\
    2 air a 25 29417671 . good|\
    12 open a 2 1 central|\
    12 up a 043e130100010000000b0000eeffc018000000480000|\
    12 open b 2 1 peripheral|\
    12 up b 043e130100010001010c0000eeffc018000000480000|\
    14 air a 25 2a417671 . good|\
    26 air a 20 29417671 . good|\
    38 air a 33 2a417671 . good|\
    ] []
# Two links whose events are in the same slots: the one that had the radio less recently has it.
a 01010c08ffffffffff1f0020010520060c0000eeffc0010d20196000600000000b0000eeffc000180018000000480000\
    000000010d20196000600000000b0000eeffc001180018000000480000000000
b 01010c08ffffffffff1f0020010a200101010a200101
turns t ++ a51 b17|run 23|t ++ a29 b5|run 60|
only enter,air
pair a.bin b.bin schedule = 0 [\
    0 air b 37 d6be898e . good|\
    0 air a 37 d6be898e . good|\
    2 enter a 1 0 25|\
    2 enter b 1 0 25|\
    2 air a 25 29417671 . good|\
    2 air b 25 29417671 . good|\
    24 air b 37 d6be898e . good|\
    24 air a 37 d6be898e . good|\
    26 enter a 1 1 20|\
    26 enter a 2 0 25|\
    26 enter b 1 1 20|\
    26 enter b 2 0 25|\
    26 air a 20 29417671 . good|\
    26 air b 20 29417671 . good|\
    50 enter a 1 2 6|\
    50 enter a 2 1 33|\
    50 enter b 1 2 6|\
    50 enter b 2 1 33|\
    50 air a 33 2a417671 . good|\
    50 air b 33 2a417671 . good|\
    74 enter a 1 3 21|\
    74 enter a 2 2 2|\
    74 enter b 1 3 21|\
    74 enter b 2 2 2|\
    74 air a 21 29417671 . good|\
    74 air b 21 29417671 . good|\
    ] []
# Three links are the limit: a fourth is not asked for, and no advertiser asks for one.
a 01010c08ffffffffff1f0020010d20196000600000000b0000eeffc000180018000000480000000000010520060c00\
    00eeffc0010d20196000600000000b0000eeffc001180018000000480000000000010520060d0000eeffc0010d2019\
    6000600000000b0000eeffc001180018000000480000000000010520060e0000eeffc0010d20196000600000000b00\
    00eeffc001180018000000480000000000
b 01010c08ffffffffff1f0020010a200101010a200101010a200101010a200101
turns t ++ a41 b17|run 11|t ++ a39 b5|run 7|t ++ a39 b5|run 9|t ++ a39 b5|
only open,up a 040f,up b 040e
pair a.bin b.bin schedule = 0 [\
    0 up a 040f0400010d20|\
    0 up b 040e0401010c00|\
    0 up b 040e04010a2000|\
    0 open a 1 0 central|\
    0 open b 1 0 peripheral|\
    12 up a 040f0400010d20|\
    12 up b 040e04010a2000|\
    12 open a 2 1 central|\
    12 open b 2 1 peripheral|\
    20 up a 040f0400010d20|\
    20 up b 040e04010a2000|\
    20 open a 3 2 central|\
    20 open b 3 2 peripheral|\
    30 up a 040f0409010d20|\
    30 up b 040e04010a2009|\
    ] []
";

#[test]
fn links_open_and_end(rt: HostRuntime) -> Result<(), AllocError> {
    check(&rt, rt.alloc(), LINKS)
}
