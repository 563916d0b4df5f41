//! The channels of the events of a link, by both algorithms.
use crate::scripts::check;
use std::alloc::AllocError;

const CHANNELS: &str = "\
start 1d123456
# Both ends over six events, of which nothing is heard. A device with ChSel 0 asks for algorithm
# #1. The channels and the packets are those of another program, which goes by single bits.
# Algorithm #2 on all channels
a host 01010c08ffffffffff1f0020 = up 040e0401010c00
a host 010d20196000600000000b0000eeffc000180018000000480000000000 = up 040f0400010d20
b host 01010c08ffffffffff1f0020 = up 040e0401010c00
b host 010a200101 = up 040e04010a2000
a begin 0 = listen 37
a hear d6be898eadd45ca13d499970ede427 = send 37 \
    d6be898ea8f05da13d4999707e3111a669b7d1a23098aad09e5233d8a2980824833b038e5c0b4a6dc6c387
a unheard = idle open 0 central public 0a0000eeffc0 public 0b0000eeffc0 up \
    043e130100000000000b0000eeffc018000000480000
a unheard = idle
a end
b begin 0 = send 37 d6be898eadd45ca13d499970ede427
b unheard = listen 37
b judge d6be898ea8f05da13d4999707e3111a669b7d1a23098aad09e5233d8a2980824833b038e5c0b4a6dc6c387 = \
    good
b hear d6be898ea8f05da13d4999707e3111a669b7d1a23098aad09e5233d8a2980824833b038e5c0b4a6dc6c387 = \
    idle open 0 peripheral public 0b0000eeffc0 public 0a0000eeffc0 up \
    043e130100000001000a0000eeffc018000000480000
b unheard = idle
b end
a turns 1 144 = 2 send 25 2941767150fa1ee550 enter 0 0 25 listen 25 idle idle 26 send 20 \
    29417671f5555c9e1e enter 0 1 20 listen 20 idle idle 50 send 6 29417671f79cae9061 enter 0 2 6 \
    listen 6 idle idle 74 send 21 294176713ca752e1c2 enter 0 3 21 listen 21 idle idle 98 send 34 \
    29417671f30e4b8d9f enter 0 4 34 listen 34 idle idle 122 send 36 2941767145206d8f56 enter 0 5 \
    36 listen 36 idle idle
b turns 1 144 = 2 listen 25 enter 0 0 25 idle idle idle 26 listen 20 enter 0 1 20 idle idle idle \
    50 listen 6 enter 0 2 6 idle idle idle 74 listen 21 enter 0 3 21 idle idle idle 98 listen 34 \
    enter 0 4 34 idle idle idle 122 listen 36 enter 0 5 36 idle idle idle
start 1d123456
# Algorithm #2 on the channels 9, 10, 21, 22, 23, 33, 34, 35 and 36
a host 01010c08ffffffffff1f0020 = up 040e0401010c00
a host 010d20196000600000000b0000eeffc000180018000000480000000000 = up 040f0400010d20
b host 01010c08ffffffffff1f0020 = up 040e0401010c00
b host 010a200101 = up 040e04010a2000
a host 011420050006e0001e = up 040e0401142000
a begin 0 = listen 37
a hear d6be898eadd45ca13d499970ede427 = send 37 \
    d6be898ea8f05da13d4999707e3111a669b7d1a23098aad09e5233d8a2980824833bfc7743f44b6d171dc3
a unheard = idle open 0 central public 0a0000eeffc0 public 0b0000eeffc0 up \
    043e130100000000000b0000eeffc018000000480000
a unheard = idle
a end
b begin 0 = send 37 d6be898eadd45ca13d499970ede427
b unheard = listen 37
b judge d6be898ea8f05da13d4999707e3111a669b7d1a23098aad09e5233d8a2980824833bfc7743f44b6d171dc3 = \
    good
b hear d6be898ea8f05da13d4999707e3111a669b7d1a23098aad09e5233d8a2980824833bfc7743f44b6d171dc3 = \
    idle open 0 peripheral public 0b0000eeffc0 public 0a0000eeffc0 up \
    043e130100000001000a0000eeffc018000000480000
b unheard = idle
b end
a turns 1 144 = 2 send 35 294176713afc45f243 enter 0 0 35 listen 35 idle idle 26 send 9 \
    29417671c0d6f11597 enter 0 1 9 listen 9 idle idle 50 send 33 29417671a819580cfb enter 0 2 33 \
    listen 33 idle idle 74 send 21 294176713ca752e1c2 enter 0 3 21 listen 21 idle idle 98 send \
    34 29417671f30e4b8d9f enter 0 4 34 listen 34 idle idle 122 send 36 2941767145206d8f56 enter \
    0 5 36 listen 36 idle idle
b turns 1 144 = 2 listen 35 enter 0 0 35 idle idle idle 26 listen 9 enter 0 1 9 idle idle idle \
    50 listen 33 enter 0 2 33 idle idle idle 74 listen 21 enter 0 3 21 idle idle idle 98 listen \
    34 enter 0 4 34 idle idle idle 122 listen 36 enter 0 5 36 idle idle idle
start 1d123456
# Algorithm #1 on all channels
a host 01010c08ffffffffff1f0020 = up 040e0401010c00
a host 010d20196000600000000b0000eeffc000180018000000480000000000 = up 040f0400010d20
b host 01010c08ffffffffff1f0020 = up 040e0401010c00
b host 010a200101 = up 040e04010a2000
a begin 0 = listen 37
a hear d6be898e8dd45ca13d4999703ea7d9 = send 37 \
    d6be898ea8f05da13d4999707e3111a669b7d1a23098aad09e5233d8a2980824833b038e5c0b4a6dc6c387
a unheard = idle open 0 central public 0a0000eeffc0 public 0b0000eeffc0 up \
    043e130100000000000b0000eeffc018000000480000
a unheard = idle
a end
b begin 0 = send 37 d6be898eadd45ca13d499970ede427
b unheard = listen 37
b judge d6be898e88f05da13d4999707e3111a669b7d1a23098aad09e5233d8a2980824833b038e5c0b4a6dd8e1ae = \
    good
b hear d6be898e88f05da13d4999707e3111a669b7d1a23098aad09e5233d8a2980824833b038e5c0b4a6dd8e1ae = \
    idle open 0 peripheral public 0b0000eeffc0 public 0a0000eeffc0 up \
    043e130100000001000a0000eeffc018000000480000
b unheard = idle
b end
a turns 1 144 = 2 send 5 29417671ac8bbd1105 enter 0 0 5 listen 5 idle idle 26 send 10 \
    294176719bc1e294f3 enter 0 1 10 listen 10 idle idle 50 send 15 2941767176f8d7175e enter 0 2 \
    15 listen 15 idle idle 74 send 20 29417671f5555c9e1e enter 0 3 20 listen 20 idle idle 98 \
    send 25 2941767150fa1ee550 enter 0 4 25 listen 25 idle idle 122 send 30 294176712f26369845 \
    enter 0 5 30 listen 30 idle idle
b turns 1 144 = 2 listen 5 enter 0 0 5 idle idle idle 26 listen 10 enter 0 1 10 idle idle idle \
    50 listen 15 enter 0 2 15 idle idle idle 74 listen 20 enter 0 3 20 idle idle idle 98 listen \
    25 enter 0 4 25 idle idle idle 122 listen 30 enter 0 5 30 idle idle idle
start 1d123456
# Algorithm #1 on the channels 9, 10, 21, 22, 23, 33, 34, 35 and 36
a host 01010c08ffffffffff1f0020 = up 040e0401010c00
a host 010d20196000600000000b0000eeffc000180018000000480000000000 = up 040f0400010d20
b host 01010c08ffffffffff1f0020 = up 040e0401010c00
b host 010a200101 = up 040e04010a2000
a host 011420050006e0001e = up 040e0401142000
a begin 0 = listen 37
a hear d6be898e8dd45ca13d4999703ea7d9 = send 37 \
    d6be898ea8f05da13d4999707e3111a669b7d1a23098aad09e5233d8a2980824833bfc7743f44b6d171dc3
a unheard = idle open 0 central public 0a0000eeffc0 public 0b0000eeffc0 up \
    043e130100000000000b0000eeffc018000000480000
a unheard = idle
a end
b begin 0 = send 37 d6be898eadd45ca13d499970ede427
b unheard = listen 37
b judge d6be898e88f05da13d4999707e3111a669b7d1a23098aad09e5233d8a2980824833bfc7743f44b6d093fea = \
    good
b hear d6be898e88f05da13d4999707e3111a669b7d1a23098aad09e5233d8a2980824833bfc7743f44b6d093fea = \
    idle open 0 peripheral public 0b0000eeffc0 public 0a0000eeffc0 up \
    043e130100000001000a0000eeffc018000000480000
b unheard = idle
b end
a turns 1 144 = 2 send 33 29417671a819580cfb enter 0 0 33 listen 33 idle idle 26 send 10 \
    294176719bc1e294f3 enter 0 1 10 listen 10 idle idle 50 send 34 29417671f30e4b8d9f enter 0 2 \
    34 listen 34 idle idle 74 send 21 294176713ca752e1c2 enter 0 3 21 listen 21 idle idle 98 \
    send 35 294176713afc45f243 enter 0 4 35 listen 35 idle idle 122 send 22 2941767167b04160a6 \
    enter 0 5 22 listen 22 idle idle
b turns 1 144 = 2 listen 33 enter 0 0 33 idle idle idle 26 listen 10 enter 0 1 10 idle idle idle \
    50 listen 34 enter 0 2 34 idle idle idle 74 listen 21 enter 0 3 21 idle idle idle 98 listen \
    35 enter 0 4 35 idle idle idle 122 listen 22 enter 0 5 22 idle idle idle
";

#[test]
fn both_ends_change_channels(rt: HostRuntime) -> Result<(), AllocError> {
    check(&rt, rt.alloc(), CHANNELS)
}
