//! What the host asks of a link, call by call, with packets of the peer as worked out by hand: a
//! command is refused while the procedure of the one before goes on, and accepted once it is done.
use crate::scripts::check;
use std::alloc::AllocError;

const ASKING: &str = "\
start 1d123456
# Read Remote Version Information.
# The peer sends its version in the first exchange. Then the command is answered at once.
a host 01010c08ffffffffff1f0020 = up 040e0401010c00
a host 010d20196000600000000b0000eeffc000180018000000480000000000 = up 040f0400010d20
a begin 0 = listen 37
a hear d6be898eadd45ca13d499970ede427 = send 37 \
    d6be898ea8f05da13d4999707e3111a669b7d1a23098aad09e5233d8a2980824833b038e5c0b4a6dc6c387
a unheard = idle open 0 central public 0a0000eeffc0 public 0b0000eeffc0 up \
    043e130100000000000b0000eeffc018000000480000
a unheard = idle
a end
a turns 1 2 =
a host 011d04020000 = up 040f0400011d04
a host 011d04020000 = up 040f040c011d04
a begin 2 = send 25 2941767140fa52fe50 enter 0 0 25 began 0 Version
a unheard = listen 25
a hear 2941767156fc26be182b0eb622b8b6 = idle took 0 1 3 0c0affff0200 done 0 Version up \
    040c080000000affff0200
a unheard = idle
a end
a host 011d04020000 = up 040f0400011d04 up 040c080000000affff0200
a host 011d04020000 = up 040f0400011d04 up 040c080000000affff0200
start 1d123456
# LE Connection Update.
# It is done at its Instant, in event 6.
a host 01010c08ffffffffff1f0020 = up 040e0401010c00
a host 010d20196000600000000b0000eeffc000180018000000480000000000 = up 040f0400010d20
a begin 0 = listen 37
a hear d6be898eadd45ca13d499970ede427 = send 37 \
    d6be898ea8f05da13d4999707e3111a669b7d1a23098aad09e5233d8a2980824833b038e5c0b4a6dc6c387
a unheard = idle open 0 central public 0a0000eeffc0 public 0b0000eeffc0 up \
    043e130100000000000b0000eeffc018000000480000
a unheard = idle
a end
a turns 1 2 =
a host 0113200e0000180018000000640000000000 = up 040f0400011320
a host 0113200e0000180018000000640000000000 = up 040f040c011320
a begin 2 = send 25 2941767140fa52fe50 enter 0 0 25 began 0 Update
a unheard = listen 25
a hear 2941767154facde350 = idle
a unheard = idle
a end
a begin 3 = send 25 294176715ef62ab5e7d414b62e2666c9f40e0e6486 sent 0 1 3 000100001800000064000600
a unheard = listen 25
a hear 2941767158fab8e850 = idle
a unheard = idle
a end
a pass 4 146
a host 0113200e0000180018000000640000000000 = up 040f040c011320
a begin 146 = send 23 29417671ae424f1f7a applied 0 1 6 enter 0 6 23 done 0 Update up \
    043e0a03000000180000006400
a rest = listen 23 idle
a host 0113200e0000180018000000640000000000 = up 040f0400011320
start 1d123456
# LE Set Data Length.
# The answer of the peer ends it. Then the host gives 1000 us, which is enough for 111 octets.
a host 01010c08ffffffffff1f0020 = up 040e0401010c00
a host 010d20196000600000000b0000eeffc000180018000000480000000000 = up 040f0400010d20
a begin 0 = listen 37
a hear d6be898eadd45ca13d499970ede427 = send 37 \
    d6be898ea8f05da13d4999707e3111a669b7d1a23098aad09e5233d8a2980824833b038e5c0b4a6dc6c387
a unheard = idle open 0 central public 0a0000eeffc0 public 0b0000eeffc0 up \
    043e130100000000000b0000eeffc018000000480000
a unheard = idle
a end
a turns 1 2 =
a host 012220060000fb004808 = up 040e06012220000000
a host 012220060000fb004808 = up 040e060122200c0000
a begin 2 = send 25 2941767140fa52fe50 enter 0 0 25 began 0 Length
a unheard = listen 25
a hear 2941767154facde350 = idle
a unheard = idle
a end
a begin 3 = send 25 294176715ef33e4fe79c044d2e6e0af711f9 sent 0 1 3 14fb004808fb004808
a unheard = listen 25
a hear 294176715af33f4fe79c044d2e6e0ac90bb8 = idle took 0 1 3 15fb004808fb004808 done 0 Length
a unheard = idle
a end
a host 012220060000fb00e803 = up 040e06012220000000
a turns 4 26 =
a begin 26 = send 20 29417671f75c7c34a95164324cec9145162f enter 0 1 20 began 0 Length sent 0 2 3 \
    14fb0048086f00e803
start 1d123456
# LE Set PHY.
# No other PHY is there, so the central ends it with LL_PHY_UPDATE_IND and no change.
a host 01010c08ffffffffff1f0020 = up 040e0401010c00
a host 010d20196000600000000b0000eeffc000180018000000480000000000 = up 040f0400010d20
a begin 0 = listen 37
a hear d6be898eadd45ca13d499970ede427 = send 37 \
    d6be898ea8f05da13d4999707e3111a669b7d1a23098aad09e5233d8a2980824833b038e5c0b4a6dc6c387
a unheard = idle open 0 central public 0a0000eeffc0 public 0b0000eeffc0 up \
    043e130100000000000b0000eeffc018000000480000
a unheard = idle
a end
a turns 1 2 =
a host 010120081f08000000000000 = up 040e0401012000
a host 0132200700000001010000 = up 040f0400013220
a host 0132200700000001010000 = up 040f040c013220
a begin 2 = send 25 2941767140fa52fe50 enter 0 0 25 began 0 Phy
a unheard = listen 25
a hear 2941767154facde350 = idle
a unheard = idle
a end
a begin 3 = send 25 294176715ef93cb5e6d396c5 sent 0 1 3 160101
a unheard = listen 25
a hear 294176715af93db5e666aa58 = idle took 0 1 3 170101
a unheard = idle
a end
a turns 4 26 =
a begin 26 = send 20 29417671f75070cfa9196c3d734d enter 0 1 20 sent 0 2 3 1800000000
a unheard = listen 20
a hear 29417671f1558f981e = idle done 0 Phy up 043e060c0000000101
";

#[test]
fn procedures_that_the_host_asks_for(rt: HostRuntime) -> Result<(), AllocError> {
    check(&rt, rt.alloc(), ASKING)
}
