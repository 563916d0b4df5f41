//! Links of two controllers, call by call: packets, notes and events as worked out by hand.
use crate::scripts::check;
use std::alloc::AllocError;

const LINKS: &str = "\
start 1d123456
# A link is made and served.
# 30 ms from one event to the next, no latency, and a supervision timeout of 720 ms. After the
# link is made, the one no longer initiates, and the other no longer advertises.
a host 01010c08ffffffffff1f0020 = up 040e0401010c00
a host 010d20196000600000000b0000eeffc000180018000000480000000000 = up 040f0400010d20
b host 01010c08ffffffffff1f0020 = up 040e0401010c00
b host 010a200101 = up 040e04010a2000
a begin 0 = listen 37
a judge d6be898eadd45ca13d499970ede427 = good
a hear d6be898eadd45ca13d499970ede427 = send 37 \
    d6be898ea8f05da13d4999707e3111a669b7d1a23098aad09e5233d8a2980824833b038e5c0b4a6dc6c387
a unheard = idle open 0 central public 0a0000eeffc0 public 0b0000eeffc0 up \
    043e130100000000000b0000eeffc018000000480000
a unheard = idle
a end
b begin 0 = send 37 d6be898eadd45ca13d499970ede427
b unheard = listen 37
b judge d6be898ea8f05da13d4999707e3111a669b7d1a23098aad09e5233d8a2980824833b038e5c0b4a6dc6c387 = \
    good
b hear d6be898ea8f05da13d4999707e3111a669b7d1a23098aad09e5233d8a2980824833b038e5c0b4a6dc6c387 = \
    idle open 0 peripheral public 0b0000eeffc0 public 0a0000eeffc0 up \
    043e130100000001000a0000eeffc018000000480000
b unheard = idle
b end
a turns 1 2 =
a begin 2 = send 25 2941767150fa1ee550 enter 0 0 25
a unheard = listen 25
a judge 2941767154facde350 = good
a hear 2941767154facde350 = idle
a unheard = idle
a end
a turns 3 26 =
a begin 26 = send 20 29417671f95529951e enter 0 1 20
a unheard = listen 20
a judge 29417671fd55fa931e = good
a hear 29417671fd55fa931e = idle
a unheard = idle
a end
b turns 1 2 =
b begin 2 = listen 25 enter 0 0 25
b judge 2941767150fa1ee550 = good
b hear 2941767150fa1ee550 = send 25 2941767154facde350
b unheard = idle
b unheard = idle
b end
b turns 3 26 =
b begin 26 = listen 20 enter 0 1 20
b judge 29417671f95529951e = good
b hear 29417671f95529951e = send 20 29417671fd55fa931e
b unheard = idle
b unheard = idle
b end
start 1d123456
# Masks of the events of a link.
# The mask of LE events decides which events are reported of a link: none, LE Connection Complete
# and LE Channel Selection Algorithm, or LE Enhanced Connection Complete.
a host 01010c08ffffffffff1f0020 = up 040e0401010c00
a host 010d20196000600000000b0000eeffc000180018000000480000000000 = up 040f0400010d20
b host 01010c08ffffffffff1f0020 = up 040e0401010c00
b host 010a200101 = up 040e04010a2000
a host 010120081e00000000000000 = up 040e0401012000
b host 010120081e00000000000000 = up 040e0401012000
a begin 0 = listen 37
a judge d6be898eadd45ca13d499970ede427 = good
a hear d6be898eadd45ca13d499970ede427 = send 37 \
    d6be898ea8f05da13d4999707e3111a669b7d1a23098aad09e5233d8a2980824833b038e5c0b4a6dc6c387
a unheard = idle open 0 central public 0a0000eeffc0 public 0b0000eeffc0
a unheard = idle
a end
b begin 0 = send 37 d6be898eadd45ca13d499970ede427
b unheard = listen 37
b judge d6be898ea8f05da13d4999707e3111a669b7d1a23098aad09e5233d8a2980824833b038e5c0b4a6dc6c387 = \
    good
b hear d6be898ea8f05da13d4999707e3111a669b7d1a23098aad09e5233d8a2980824833b038e5c0b4a6dc6c387 = \
    idle open 0 peripheral public 0b0000eeffc0 public 0a0000eeffc0
b unheard = idle
b end
start 1d123456
a host 01010c08ffffffffff1f0020 = up 040e0401010c00
a host 010d20196000600000000b0000eeffc000180018000000480000000000 = up 040f0400010d20
b host 01010c08ffffffffff1f0020 = up 040e0401010c00
b host 010a200101 = up 040e04010a2000
a host 010120081f00080000000000 = up 040e0401012000
b host 010120081f00080000000000 = up 040e0401012000
a begin 0 = listen 37
a judge d6be898eadd45ca13d499970ede427 = good
a hear d6be898eadd45ca13d499970ede427 = send 37 \
    d6be898ea8f05da13d4999707e3111a669b7d1a23098aad09e5233d8a2980824833b038e5c0b4a6dc6c387
a unheard = idle open 0 central public 0a0000eeffc0 public 0b0000eeffc0 up \
    043e130100000000000b0000eeffc018000000480000 up 043e0414000001
a unheard = idle
a end
b begin 0 = send 37 d6be898eadd45ca13d499970ede427
b unheard = listen 37
b judge d6be898ea8f05da13d4999707e3111a669b7d1a23098aad09e5233d8a2980824833b038e5c0b4a6dc6c387 = \
    good
b hear d6be898ea8f05da13d4999707e3111a669b7d1a23098aad09e5233d8a2980824833b038e5c0b4a6dc6c387 = \
    idle open 0 peripheral public 0b0000eeffc0 public 0a0000eeffc0 up \
    043e130100000001000a0000eeffc018000000480000 up 043e0414000001
b unheard = idle
b end
start 1d123456
a host 01010c08ffffffffff1f0020 = up 040e0401010c00
a host 010d20196000600000000b0000eeffc000180018000000480000000000 = up 040f0400010d20
b host 01010c08ffffffffff1f0020 = up 040e0401010c00
b host 010a200101 = up 040e04010a2000
a host 010120081f02000000000000 = up 040e0401012000
b host 010120081f02000000000000 = up 040e0401012000
a begin 0 = listen 37
a judge d6be898eadd45ca13d499970ede427 = good
a hear d6be898eadd45ca13d499970ede427 = send 37 \
    d6be898ea8f05da13d4999707e3111a669b7d1a23098aad09e5233d8a2980824833b038e5c0b4a6dc6c387
a unheard = idle open 0 central public 0a0000eeffc0 public 0b0000eeffc0 up \
    043e1f0a00000000000b0000eeffc000000000000000000000000018000000480000
a unheard = idle
a end
b begin 0 = send 37 d6be898eadd45ca13d499970ede427
b unheard = listen 37
b judge d6be898ea8f05da13d4999707e3111a669b7d1a23098aad09e5233d8a2980824833b038e5c0b4a6dc6c387 = \
    good
b hear d6be898ea8f05da13d4999707e3111a669b7d1a23098aad09e5233d8a2980824833b038e5c0b4a6dc6c387 = \
    idle open 0 peripheral public 0b0000eeffc0 public 0a0000eeffc0 up \
    043e1f0a00000001000a0000eeffc000000000000000000000000018000000480000
b unheard = idle
b end
start 1d123456
# A link that is not answered ends.
# No end hears anything: six intervals after the CONNECT_IND the link ends, and its handle is
# free.
a host 01010c08ffffffffff1f0020 = up 040e0401010c00
a host 010d20196000600000000b0000eeffc000180018000000480000000000 = up 040f0400010d20
b host 01010c08ffffffffff1f0020 = up 040e0401010c00
b host 010a200101 = up 040e04010a2000
a begin 0 = listen 37
a judge d6be898eadd45ca13d499970ede427 = good
a hear d6be898eadd45ca13d499970ede427 = send 37 \
    d6be898ea8f05da13d4999707e3111a669b7d1a23098aad09e5233d8a2980824833b038e5c0b4a6dc6c387
a unheard = idle open 0 central public 0a0000eeffc0 public 0b0000eeffc0 up \
    043e130100000000000b0000eeffc018000000480000
a unheard = idle
a end
b begin 0 = send 37 d6be898eadd45ca13d499970ede427
b unheard = listen 37
b judge d6be898ea8f05da13d4999707e3111a669b7d1a23098aad09e5233d8a2980824833b038e5c0b4a6dc6c387 = \
    good
b hear d6be898ea8f05da13d4999707e3111a669b7d1a23098aad09e5233d8a2980824833b038e5c0b4a6dc6c387 = \
    idle open 0 peripheral public 0b0000eeffc0 public 0a0000eeffc0 up \
    043e130100000001000a0000eeffc018000000480000
b unheard = idle
b end
a pass 1 143
a turns 143 144 =
a turns 144 150 = 144 idle shut 0 3e up 0405040000003e idle idle idle
a host 013020020000 = up 040e080130200200000000
b pass 1 143
b turns 143 144 =
b turns 144 150 = 144 idle shut 0 3e up 0405040000003e idle idle idle
b host 013020020000 = up 040e080130200200000000
start 1d123456
# A silent link times out.
# After an exchange in slot 2 nothing is heard: the link ends when the supervision timeout of 576
# slots has passed.
a host 01010c08ffffffffff1f0020 = up 040e0401010c00
a host 010d20196000600000000b0000eeffc000180018000000480000000000 = up 040f0400010d20
b host 01010c08ffffffffff1f0020 = up 040e0401010c00
b host 010a200101 = up 040e04010a2000
a begin 0 = listen 37
a judge d6be898eadd45ca13d499970ede427 = good
a hear d6be898eadd45ca13d499970ede427 = send 37 \
    d6be898ea8f05da13d4999707e3111a669b7d1a23098aad09e5233d8a2980824833b038e5c0b4a6dc6c387
a unheard = idle open 0 central public 0a0000eeffc0 public 0b0000eeffc0 up \
    043e130100000000000b0000eeffc018000000480000
a unheard = idle
a end
b begin 0 = send 37 d6be898eadd45ca13d499970ede427
b unheard = listen 37
b judge d6be898ea8f05da13d4999707e3111a669b7d1a23098aad09e5233d8a2980824833b038e5c0b4a6dc6c387 = \
    good
b hear d6be898ea8f05da13d4999707e3111a669b7d1a23098aad09e5233d8a2980824833b038e5c0b4a6dc6c387 = \
    idle open 0 peripheral public 0b0000eeffc0 public 0a0000eeffc0 up \
    043e130100000001000a0000eeffc018000000480000
b unheard = idle
b end
a turns 1 2 =
a begin 2 = send 25 2941767150fa1ee550 enter 0 0 25
a unheard = listen 25
a judge 2941767154facde350 = good
a hear 2941767154facde350 = idle
a unheard = idle
a end
b turns 1 2 =
b begin 2 = listen 25 enter 0 0 25
b judge 2941767150fa1ee550 = good
b hear 2941767150fa1ee550 = send 25 2941767154facde350
b unheard = idle
b unheard = idle
b end
a pass 3 577
a turns 577 578 =
a turns 578 650 = 578 idle shut 0 08 up 04050400000008 idle idle idle
b pass 3 577
b turns 577 578 =
b turns 578 650 = 578 idle shut 0 08 up 04050400000008 idle idle idle
start 1d123456
# A reset shuts the link.
# A Reset shuts the link without an event. The next link has the next access address and the next
# random word.
a host 01010c08ffffffffff1f0020 = up 040e0401010c00
a host 010d20196000600000000b0000eeffc000180018000000480000000000 = up 040f0400010d20
b host 01010c08ffffffffff1f0020 = up 040e0401010c00
b host 010a200101 = up 040e04010a2000
a begin 0 = listen 37
a judge d6be898eadd45ca13d499970ede427 = good
a hear d6be898eadd45ca13d499970ede427 = send 37 \
    d6be898ea8f05da13d4999707e3111a669b7d1a23098aad09e5233d8a2980824833b038e5c0b4a6dc6c387
a unheard = idle open 0 central public 0a0000eeffc0 public 0b0000eeffc0 up \
    043e130100000000000b0000eeffc018000000480000
a unheard = idle
a end
b begin 0 = send 37 d6be898eadd45ca13d499970ede427
b unheard = listen 37
b judge d6be898ea8f05da13d4999707e3111a669b7d1a23098aad09e5233d8a2980824833b038e5c0b4a6dc6c387 = \
    good
b hear d6be898ea8f05da13d4999707e3111a669b7d1a23098aad09e5233d8a2980824833b038e5c0b4a6dc6c387 = \
    idle open 0 peripheral public 0b0000eeffc0 public 0a0000eeffc0 up \
    043e130100000001000a0000eeffc018000000480000
b unheard = idle
b end
a host 01030c
a host 00 = shut 0 00 up 040e0401030c00
a turns 1 5 =
b host 01030c
b host 00 = shut 0 00 up 040e0401030c00
b turns 1 5 =
a host 01010c08ffffffffff1f0020 = up 040e0401010c00
a host 010d20196000600000000b0000eeffc000180018000000480000000000 = up 040f0400010d20
a begin 5 = listen 37
a judge d6be898eadd45ca13d499970ede427 = good
a hear d6be898eadd45ca13d499970ede427 = send 37 \
    d6be898ea8f05da13d4999707e3111a669b7d2a23098fde48c5233d8a2980824833b038e5c0b4a628d5dfe
a unheard = idle open 0 central public 0a0000eeffc0 public 0b0000eeffc0 up \
    043e130100000000000b0000eeffc018000000480000
a unheard = idle
a end
start 1d123456
# A connection is cancelled.
# LE Create Connection Cancel is followed by the event of a connection that was not made.
a host 01010c08ffffffffff1f0020 = up 040e0401010c00
a host 010d20196000600000000b0000eeffc000180018000000480000000000 = up 040f0400010d20
b host 01010c08ffffffffff1f0020 = up 040e0401010c00
b host 010a200101 = up 040e04010a2000
a begin 0 = listen 37
a rest = idle idle
a host 010e2000 = up 040e04010e2000 up 043e1301020000000000000000000000000000000000
a host 010e2000 = up 040e04010e200c
a turns 1 9 =
start 1d123456
# Reads of a link.
# Commands on an open link: LE Read Channel Map, LE Read PHY and LE Create Connection to the same
# device.
a host 01010c08ffffffffff1f0020 = up 040e0401010c00
a host 010d20196000600000000b0000eeffc000180018000000480000000000 = up 040f0400010d20
b host 01010c08ffffffffff1f0020 = up 040e0401010c00
b host 010a200101 = up 040e04010a2000
a begin 0 = listen 37
a judge d6be898eadd45ca13d499970ede427 = good
a hear d6be898eadd45ca13d499970ede427 = send 37 \
    d6be898ea8f05da13d4999707e3111a669b7d1a23098aad09e5233d8a2980824833b038e5c0b4a6dc6c387
a unheard = idle open 0 central public 0a0000eeffc0 public 0b0000eeffc0 up \
    043e130100000000000b0000eeffc018000000480000
a unheard = idle
a end
b begin 0 = send 37 d6be898eadd45ca13d499970ede427
b unheard = listen 37
b judge d6be898ea8f05da13d4999707e3111a669b7d1a23098aad09e5233d8a2980824833b038e5c0b4a6dc6c387 = \
    good
b hear d6be898ea8f05da13d4999707e3111a669b7d1a23098aad09e5233d8a2980824833b038e5c0b4a6dc6c387 = \
    idle open 0 peripheral public 0b0000eeffc0 public 0a0000eeffc0 up \
    043e130100000001000a0000eeffc018000000480000
b unheard = idle
b end
a host 011520020000 = up 040e0b011520000000ffffffff1f
a host 013020020000 = up 040e080130200000000101
a host 010d20196000600000000b0000eeffc000180018000000480000000000 = up 040f040b010d20
start
# One link is the limit.
# A controller of one link: a second one is not asked for while the first is open, or while an
# advertiser may take one.
single host 01010c08ffffffffff1f0020 = up 040e0401010c00
single host 010d20196000600000000b0000eeffc000180018000000480000000000 = up 040f0400010d20
single begin 0 = listen 37
single judge d6be898eadd45ca13d499970ede427 = good
single hear d6be898eadd45ca13d499970ede427 = send 37 \
    d6be898ea8f05da13d4999707e3111a669b7d1a23098aad09e5233d8a2980824833b038e5c0b4a6dc6c387
single unheard = idle open 0 central public 0a0000eeffc0 public 0b0000eeffc0 up \
    043e130100000000000b0000eeffc018000000480000
single unheard = idle
single end
single host 010d20196000600000000c0000eeffc000180018000000480000000000 = up 040f0409010d20
single host 010a200101 = up 040e04010a2009
start
single host 010a200101 = up 040e04010a2000
single host 010d20196000600000000b0000eeffc000180018000000480000000000 = up 040f0409010d20
start 1d123456
# Events without a good packet.
# With the radio off an event is entered, and nothing is sent. A broken packet has no answer.
a host 01010c08ffffffffff1f0020 = up 040e0401010c00
a host 010d20196000600000000b0000eeffc000180018000000480000000000 = up 040f0400010d20
b host 01010c08ffffffffff1f0020 = up 040e0401010c00
b host 010a200101 = up 040e04010a2000
a begin 0 = listen 37
a judge d6be898eadd45ca13d499970ede427 = good
a hear d6be898eadd45ca13d499970ede427 = send 37 \
    d6be898ea8f05da13d4999707e3111a669b7d1a23098aad09e5233d8a2980824833b038e5c0b4a6dc6c387
a unheard = idle open 0 central public 0a0000eeffc0 public 0b0000eeffc0 up \
    043e130100000000000b0000eeffc018000000480000
a unheard = idle
a end
b begin 0 = send 37 d6be898eadd45ca13d499970ede427
b unheard = listen 37
b judge d6be898ea8f05da13d4999707e3111a669b7d1a23098aad09e5233d8a2980824833b038e5c0b4a6dc6c387 = \
    good
b hear d6be898ea8f05da13d4999707e3111a669b7d1a23098aad09e5233d8a2980824833b038e5c0b4a6dc6c387 = \
    idle open 0 peripheral public 0b0000eeffc0 public 0a0000eeffc0 up \
    043e130100000001000a0000eeffc018000000480000
b unheard = idle
b end
a turns 1 2 =
b turns 1 2 =
a off 2 = idle enter 0 0 25
b begin 2 = listen 25 enter 0 0 25
b judge 2941767150fa1ee551 = broken
b hear 2941767150fa1ee551 = idle
";

#[test]
fn links(rt: HostRuntime) -> Result<(), AllocError> {
    check(&rt, rt.alloc(), LINKS)
}
