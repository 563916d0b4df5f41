//! Flow control of a controller towards its host, call by call, with packets of the peer as worked
//! out by hand (Core 5.2, volume 4 part E, sections 4.2 and 7.3.38 to 7.3.40).
use crate::scripts::check;
use std::alloc::AllocError;

const FLOW: &str = "\
start
# Commands without a link.
a host 01310c0102 = up 040e0401310c11
a host 01310c0103 = up 040e0401310c11
a host 01310c0104 = up 040e0401310c12
a host 01310c0101 = up 040e0401310c00
a host 01330c071a000001000000 = up 040e0401330c12
a host 01330c071b000000000000 = up 040e0401330c12
a host 01330c071b000001000000 = up 040e0401330c00
a host 01350c050100000100 = up 040e0401350c12
a host 01350c0100 =
a host 01030c00 = up 040e0401030c00
# A Reset turned it off: what a host has taken is not looked at.
a host 01350c050100000100 =
start
# One packet at a time.
# The host receives the second packet once it has taken the first, and cannot have taken more than
# it received. The settings stay while a link is open.
b host 01010c08ffffffffff1f0020 = up 040e0401010c00
b host 01310c0101 = up 040e0401310c00
b host 01330c071b000001000000 = up 040e0401330c00
b host 010a200101 = up 040e04010a2000
b begin 0 = send 37 d6be898eadd45ca13d499970ede427
b unheard = listen 37
b hear d6be898ea8f05da13d4999707e3111a669b7d1a23098aad09e5233d8a2980824833b038e5c0b4a6dc6c387 = \
    idle open 0 peripheral public 0b0000eeffc0 public 0a0000eeffc0 up \
    043e130100000001000a0000eeffc018000000480000
b unheard = idle
b end
b host 01310c0100 = up 040e0401310c0c
b host 01330c07fb000008000000 = up 040e0401330c0c
b turns 1 2 =
b begin 2 = listen 25 enter 0 0 25
b hear 2941767150fa1ee550 = send 25 2941767154facde350
b unheard = idle
b unheard = idle
b end
b turns 3 26 =
b begin 26 = listen 20 enter 0 1 20
b hear 29417671ea5432888d7a = send 20 29417671fd55fa931e took 0 1 2 5a
b unheard = idle
b unheard = idle
b end = up 02002001005a
b begin 27 = listen 20
b hear 29417671f65432584b5b = send 20 29417671f1558f981e took 0 2 2 5a
b unheard = idle
b unheard = idle
b end
b turns 28 40 =
b host 01350c050100000200 = up 040e0401350c12
b host 01350c050101000100 = up 040e0401350c12
b host 01350c050100000100 =
b turns 40 41 = 40 idle idle idle idle up 02002001005a
b host 01350c050100000100 =
b host 01350c050100000100 = up 040e0401350c12
start
# A link that ends.
# The packets of all links count together. Those of a link that ends count no more, and the host
# does not receive what waits of it.
b host 01010c08ffffffffff1f0020 = up 040e0401010c00
b host 01310c0101 = up 040e0401310c00
b host 01330c071b000002000000 = up 040e0401330c00
b host 010a200101 = up 040e04010a2000
b begin 0 = send 37 d6be898eadd45ca13d499970ede427
b unheard = listen 37
b hear d6be898ea8f05da13d4999707e3111a669b7d1a23098aad09e5233d8a2980824833b038e5c0b4a6dc6c387 = \
    idle open 0 peripheral public 0b0000eeffc0 public 0a0000eeffc0 up \
    043e130100000001000a0000eeffc018000000480000
b unheard = idle
b end
b turns 1 2 =
b begin 2 = listen 25 enter 0 0 25
b hear 2941767153fb70230596 = send 25 2941767154facde350 took 0 1 2 5a
b unheard = idle
b unheard = idle
b end = up 02002001005a
b turns 3 12 =
b host 010a200101 = up 040e04010a2000
b begin 12 = send 37 d6be898eadd45ca13d499970ede427
b unheard = listen 37
b hear d6be898ea8f05ba13d4999707e3111a669b7d2a23098a9d09e5233d8a2980824833b038e5c0b4a6da61938 = \
    idle open 1 peripheral public 0b0000eeffc0 public 0c0000eeffc0 up \
    043e130100010001000c0000eeffc018000000480000
b unheard = idle
b end
b turns 13 14 =
b begin 14 = listen 25 enter 1 0 25
b hear 2a41767153fb71e3e120 = send 25 2a41767154fa0de350 took 1 1 2 5b
b unheard = idle
b unheard = idle
b end = up 02012001005b
b turns 15 26 =
b begin 26 = listen 20 enter 0 1 20
b hear 29417671fa5434137219 = send 20 29417671fd55fa931e took 0 2 2 5c
b unheard = idle
b unheard = idle
b end
b turns 27 38 =
b begin 38 = listen 33 enter 1 1 33
b hear 2a417671a718314173b2 = send 33 2a417671a0193e01fb took 1 2 2 5d
b unheard = idle
b unheard = idle
b end
b turns 39 50 =
b begin 50 = listen 6 enter 0 2 6
b hear 29417671f59e98d20cc649 = send 6 29417671f39c7d9661 took 0 3 3 0213
b unheard = idle
b unheard = idle
b end = shut 0 13 up 04050400000013
b turns 51 52 = 51 idle idle idle idle up 02012001005d
b host 01350c050100000100 = up 040e0401350c12
b host 01350c050101000200 =
start
# A short buffer of the host.
# An end receives no more octets than its host takes in a packet, also with flow control off.
b host 01010c08ffffffffff1f0020 = up 040e0401010c00
b host 01330c0732000001000000 = up 040e0401330c00
b host 010a200101 = up 040e04010a2000
b begin 0 = send 37 d6be898eadd45ca13d499970ede427
b unheard = listen 37
b hear d6be898ea8f05da13d4999707e3111a669b7d1a23098aad09e5233d8a2980824833b038e5c0b4a6dc6c387 = \
    idle open 0 peripheral public 0b0000eeffc0 public 0a0000eeffc0 up \
    043e130100000001000a0000eeffc018000000480000
b unheard = idle
b end
b turns 1 2 =
b host 010120085f00000000000000 = up 040e0401012000
b begin 2 = listen 25 enter 0 0 25
b judge \
    2941767153c92bb6e4d009b0292e0bc3f90272d2276d04c8607e134d000b987e629b22708b9e2bcf1a11a68baca1\
    699897ef3219656fb4c4aff6e109 = broken
b judge \
    2941767153c82bb6e4d009b0292e0bc3f90272d2276d04c8607e134d000b987e629b22708b9e2bcf1a11a68baca1\
    699897ef3219656fb4c4f414ce = good
b hear 2941767152f33e4fe79c044d2e6e0abd930e = send 25 2941767154facde350 took 0 1 3 \
    14fb004808fb004808 up 043e0b0700001b00480132000002
b unheard = idle
b unheard = idle
b end
b turns 3 26 =
b begin 26 = listen 20 enter 0 1 20
b hear 29417671f95529951e = send 20 29417671ff5c7dfda9196e464c4c93bd963a sent 0 1 3 \
    15320000021b004801
";

#[test]
fn flow_control_of_a_host(rt: HostRuntime) -> Result<(), AllocError> {
    check(&rt, rt.alloc(), FLOW)
}
