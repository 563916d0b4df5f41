//! Data of links, call by call: packets, notes and credits as worked out by hand.
use crate::scripts::check;
use std::alloc::AllocError;

const DATA: &str = "\
start 1d123456
# A packet is sent in two pieces.
# A packet of 30 octets is sent in two pieces. The other host receives each as its turn ends, and
# the packet is complete when the second one is acknowledged.
a host 01010c08ffffffffff1f0020 = up 040e0401010c00
a host 010d20196000600000000b0000eeffc000180018000000480000000000 = up 040f0400010d20
b host 01010c08ffffffffff1f0020 = up 040e0401010c00
b host 010a200101 = up 040e04010a2000
a begin 0 = listen 37
a judge d6be898eadd45ca13d499970ede427 = good
a hear d6be898eadd45ca13d499970ede427 = send 37 \
    d6be898ea8f05da13d4999707e3111a669b7d1a23098aad09e5233d8a2980824833b038e5c0b4a6dc6c387
a unheard = idle open 0 central public 0a0000eeffc0 public 0b0000eeffc0 up \
    043e130100000000000b0000eeffc018000000480000
a unheard = idle
a end
b begin 0 = send 37 d6be898eadd45ca13d499970ede427
b unheard = listen 37
b judge d6be898ea8f05da13d4999707e3111a669b7d1a23098aad09e5233d8a2980824833b038e5c0b4a6dc6c387 = \
    good
b hear d6be898ea8f05da13d4999707e3111a669b7d1a23098aad09e5233d8a2980824833b038e5c0b4a6dc6c387 = \
    idle open 0 peripheral public 0b0000eeffc0 public 0a0000eeffc0 up \
    043e130100000001000a0000eeffc018000000480000
b unheard = idle
b end
a host 0200001e000102030405060708090a0b0c0d0e0f101112131415161718191a1b1c1d1e
a turns 1 2 =
b turns 1 2 =
a begin 2 = send 25 2941767140fa52fe50 enter 0 0 25
b begin 2 = listen 25 enter 0 0 25
a unheard = listen 25
b judge 2941767140fa52fe50 = good
b hear 2941767140fa52fe50 = send 25 2941767154facde350
a judge 2941767154facde350 = good
a hear 2941767154facde350 = idle
b unheard = idle
a unheard = idle
b unheard = idle
a end
b end
a begin 3 = send 25 294176714fe12bb6e4d009b0292e0bc3f90272d2276d04c8607e134d000b987e6204b8bc \
    sent 0 1 2 0102030405060708090a0b0c0d0e0f101112131415161718191a1b
b begin 3 = listen 25
a unheard = listen 25
b judge 294176714fe12bb6e4d009b0292e0bc3f90272d2276d04c8607e134d000b987e6204b8bc = good
b hear 294176714fe12bb6e4d009b0292e0bc3f90272d2276d04c8607e134d000b987e6204b8bc = send 25 \
    2941767158fab8e850 took 0 1 2 0102030405060708090a0b0c0d0e0f101112131415161718191a1b
a judge 2941767158fab8e850 = good
a hear 2941767158fab8e850 = idle
b unheard = idle
a unheard = idle
b unheard = idle
a end
b end = up 0200201b000102030405060708090a0b0c0d0e0f101112131415161718191a1b
a turns 4 26 =
b turns 4 26 =
a begin 26 = send 20 29417671f55674d2b7176301 enter 0 1 20 sent 0 2 1 1c1d1e
b begin 26 = listen 20 enter 0 1 20
a unheard = listen 20
b judge 29417671f55674d2b7176301 = good
b hear 29417671f55674d2b7176301 = send 20 29417671f1558f981e took 0 2 1 1c1d1e
a judge 29417671f1558f981e = good
a hear 29417671f1558f981e = idle
b unheard = idle
a unheard = idle
b unheard = idle
a end = up 0413050100000100
b end = up 02001003001c1d1e
a turns 27 50 =
b turns 27 50 =
start 1d123456
# A peripheral answers with data.
# A peripheral continues a message in its answer, and has its credit after the next event.
a host 01010c08ffffffffff1f0020 = up 040e0401010c00
a host 010d20196000600000000b0000eeffc000180018000000480000000000 = up 040f0400010d20
b host 01010c08ffffffffff1f0020 = up 040e0401010c00
b host 010a200101 = up 040e04010a2000
a begin 0 = listen 37
a judge d6be898eadd45ca13d499970ede427 = good
a hear d6be898eadd45ca13d499970ede427 = send 37 \
    d6be898ea8f05da13d4999707e3111a669b7d1a23098aad09e5233d8a2980824833b038e5c0b4a6dc6c387
a unheard = idle open 0 central public 0a0000eeffc0 public 0b0000eeffc0 up \
    043e130100000000000b0000eeffc018000000480000
a unheard = idle
a end
b begin 0 = send 37 d6be898eadd45ca13d499970ede427
b unheard = listen 37
b judge d6be898ea8f05da13d4999707e3111a669b7d1a23098aad09e5233d8a2980824833b038e5c0b4a6dc6c387 = \
    good
b hear d6be898ea8f05da13d4999707e3111a669b7d1a23098aad09e5233d8a2980824833b038e5c0b4a6dc6c387 = \
    idle open 0 peripheral public 0b0000eeffc0 public 0a0000eeffc0 up \
    043e130100000001000a0000eeffc018000000480000
b unheard = idle
b end
b host 02001002001122
a turns 1 2 =
b turns 1 2 =
a begin 2 = send 25 2941767150fa1ee550 enter 0 0 25
b begin 2 = listen 25 enter 0 0 25
a unheard = listen 25
b judge 2941767150fa1ee550 = good
b hear 2941767150fa1ee550 = send 25 2941767144fa81f850
a judge 2941767144fa81f850 = good
a hear 2941767144fa81f850 = idle
b unheard = idle
a unheard = idle
b unheard = idle
a end
b end
a begin 3 = send 25 294176715cfa6bee50
b begin 3 = listen 25
a unheard = listen 25
b judge 294176715cfa6bee50 = good
b hear 294176715cfa6bee50 = send 25 2941767158f83b96cea47e sent 0 1 1 1122
a judge 2941767158f83b96cea47e = good
a hear 2941767158f83b96cea47e = idle took 0 1 1 1122
b unheard = idle
a unheard = idle
b unheard = idle
a end = up 02001002001122
b end
a turns 4 26 =
b turns 4 26 =
a begin 26 = send 20 29417671f5555c9e1e enter 0 1 20
b begin 26 = listen 20 enter 0 1 20
a unheard = listen 20
b judge 29417671f5555c9e1e = good
b hear 29417671f5555c9e1e = send 20 29417671f1558f981e
a judge 29417671f1558f981e = good
a hear 29417671f1558f981e = idle
b unheard = idle
a unheard = idle
b unheard = idle
a end
b end = up 0413050100000100
start 1d123456
# Packets that are not kept.
# An empty packet is complete at once. One of 252 octets is lost, and so is one that comes while
# all eight buffers are taken. One for a link that is not open is ignored.
a host 01010c08ffffffffff1f0020 = up 040e0401010c00
a host 010d20196000600000000b0000eeffc000180018000000480000000000 = up 040f0400010d20
b host 01010c08ffffffffff1f0020 = up 040e0401010c00
b host 010a200101 = up 040e04010a2000
a begin 0 = listen 37
a judge d6be898eadd45ca13d499970ede427 = good
a hear d6be898eadd45ca13d499970ede427 = send 37 \
    d6be898ea8f05da13d4999707e3111a669b7d1a23098aad09e5233d8a2980824833b038e5c0b4a6dc6c387
a unheard = idle open 0 central public 0a0000eeffc0 public 0b0000eeffc0 up \
    043e130100000000000b0000eeffc018000000480000
a unheard = idle
a end
b begin 0 = send 37 d6be898eadd45ca13d499970ede427
b unheard = listen 37
b judge d6be898ea8f05da13d4999707e3111a669b7d1a23098aad09e5233d8a2980824833b038e5c0b4a6dc6c387 = \
    good
b hear d6be898ea8f05da13d4999707e3111a669b7d1a23098aad09e5233d8a2980824833b038e5c0b4a6dc6c387 = \
    idle open 0 peripheral public 0b0000eeffc0 public 0a0000eeffc0 up \
    043e130100000001000a0000eeffc018000000480000
b unheard = idle
b end
a host 0200200000 = up 0413050100000100
a host 0201200000
a host 020020fc0000000000000000000000000000000000000000000000000000000000000000000000000000000000\
    000000000000000000000000000000000000000000000000000000000000000000000000000000000000000000000\
    000000000000000000000000000000000000000000000000000000000000000000000000000000000000000000000\
    000000000000000000000000000000000000000000000000000000000000000000000000000000000000000000000\
    000000000000000000000000000000000000000000000000000000000000000000000000000000000000000000000\
    0000000000000000000000000000000000000000000000000000 = up 041a0101
a host 0200200100aa
a host 0200200100aa
a host 0200200100aa
a host 0200200100aa
a host 0200200100aa
a host 0200200100aa
a host 0200200100aa
a host 0200200100aa
a host 0200200100aa = up 041a0101
a host 0200200000 = up 0413050100000100
a turns 1 2 =
";

#[test]
fn data_of_links(rt: HostRuntime) -> Result<(), AllocError> {
    check(&rt, rt.alloc(), DATA)
}
