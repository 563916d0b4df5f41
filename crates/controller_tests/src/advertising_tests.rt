//! Advertising, turn by turn, as worked out by hand.
use crate::scripts::check;
use std::alloc::AllocError;

const ADVERTISING: &str = "\
start
# Advertises on three channels.
# Every 20 ms, not connectable, under the public address.
a host 0106200f200020000300000000000000000700 = up 040e0401062000
a host 010a200101 = up 040e04010a2000
a turns 0 19 = 0 send 37 d6be898e8fd45da13d499970f84ada listen 37 idle idle 1 send 38 \
    d6be898ed4c34e2059301e4f96de64 listen 38 idle idle 2 send 39 d6be898e1d31405f8518635a4cad0e \
    listen 39 idle idle 16 send 37 d6be898e8fd45da13d499970f84ada listen 37 idle idle 17 send 38 \
    d6be898ed4c34e2059301e4f96de64 listen 38 idle idle 18 send 39 d6be898e1d31405f8518635a4cad0e \
    listen 39 idle idle
start
# Leaves out channels and turns without radio.
# Channels 37 and 39. The radio is off in slots 0 and 3.
a host 0106200f200020000300000000000000000500 = up 040e0401062000
a host 010a200101 = up 040e04010a2000
a off 0 = idle
a unheard = idle
a rest = idle idle
a turns 1 3 = 1 send 37 d6be898e8fd45da13d499970f84ada listen 37 idle idle
a off 3 = idle
a unheard = idle
a rest = idle idle
a turns 4 5 =
start
# Rounds an odd interval up.
# An interval of 33 times 0.625 ms is 17 slots.
a host 0106200f210021000300000000000000000700 = up 040e0401062000
a host 010a200101 = up 040e04010a2000
a turns 0 19 = 0 send 37 d6be898e8fd45da13d499970f84ada listen 37 idle idle 1 send 38 \
    d6be898ed4c34e2059301e4f96de64 listen 38 idle idle 2 send 39 d6be898e1d31405f8518635a4cad0e \
    listen 39 idle idle 17 send 37 d6be898e8fd45da13d499970f84ada listen 37 idle idle 18 send 38 \
    d6be898ed4c34e2059301e4f96de64 listen 38 idle idle
start
# Advertises data under a random address.
# Advertising data goes out in the packets, and a random address where its type is set:
# ADV_NONCONN_IND from C60504030201 with the data 02 01 06.
a host 010520060102030405c6 = up 040e0401052000
a host 0106200f200020000301000000000000000700 = up 040e0401062000
a host 010820200302010600000000000000000000000000000000000000000000000000000000 = up \
    040e0401082000
a host 010a200101 = up 040e04010a2000
a begin 0 = send 37 d6be898ecfdb56a33ea36376773017d741b5
start
# Answers a scan request.
# Without parameters of the host it is connectable and scannable. It answers one SCAN_REQ in its
# slot, with the scan response data 02 01 06.
b host 010920200302010600000000000000000000000000000000000000000000000000000000 = up \
    040e0401092000
b host 010a200101 = up 040e04010a2000
b begin 0 = send 37 d6be898eadd45ca13d499970ede427
b unheard = listen 37
b hear d6be898e8ede5da13d4999707e3111a669b74c8ab4 = send 37 d6be898e89db5ca13d4999707730178130f9
b unheard = idle
b end
start
# Advertises to one device.
# Directed advertising names its target, and answers no SCAN_REQ: ADV_DIRECT_IND with ChSel 1.
b host 0106200f200020000400000a0000eeffc00700 = up 040e0401062000
b host 010a200101 = up 040e04010a2000
b begin 0 = send 37 d6be898eacde5ca13d4999707f3111a669b7073045
b unheard = listen 37
b hear d6be898e8ede5da13d4999707e3111a669b74c8ab4 = idle
b end
start
# An advertiser begins anew.
# It is turned off and on again between slots 1 and 2.
a host 0106200f200020000300000000000000000700 = up 040e0401062000
a host 010a200101 = up 040e04010a2000
a turns 0 2 = 0 send 37 d6be898e8fd45da13d499970f84ada listen 37 idle idle 1 send 38 \
    d6be898ed4c34e2059301e4f96de64 listen 38 idle idle
a host 010a200100 = up 040e04010a2000
a host 010a200101 = up 040e04010a2000
a turns 2 20 = 2 send 37 d6be898e8fd45da13d499970f84ada listen 37 idle idle 3 send 38 \
    d6be898ed4c34e2059301e4f96de64 listen 38 idle idle 4 send 39 d6be898e1d31405f8518635a4cad0e \
    listen 39 idle idle 18 send 37 d6be898e8fd45da13d499970f84ada listen 37 idle idle 19 send 38 \
    d6be898ed4c34e2059301e4f96de64 listen 38 idle idle
";

#[test]
fn advertising(rt: HostRuntime) -> Result<(), AllocError> {
    check(&rt, rt.alloc(), ADVERTISING)
}
