//! Scanning, turn by turn, and what it reports, as worked out by hand.
use crate::scripts::check;
use std::alloc::AllocError;

const SCANNING: &str = "\
start
# Reports what it scans.
# Nothing is reported before the mask has the LE events, nor what is directed to another device. A
# damaged packet is broken or missed, and after the turn every packet is missed.
b host 010c20020100 = up 040e04010c2000
b begin 0 = listen 37
b judge d6be898e8fd45da13d499970f84ada = good
b hear d6be898e8fd45da13d499970f84ada = idle
b judge d6be898e8fd45da13d499970f84ada = missed
b rest = idle idle
b host 01010c08ffffffffff1f0020 = up 040e0401010c00
b begin 1 = listen 37
b judge d6be898e8fd45da13d499970f84ada = good
b hear d6be898e8fd45da13d499970f84ada = idle up 043e0c020103000a0000eeffc0007f
b judge d6be898e8fd45da13d499970f84ada = missed
b rest = idle idle
b begin 2 = listen 37
b judge d6be898e8fd45da13d499970f84ada = good
b hear d6be898e8fd45da13d499970f84ada = idle up 043e0c020103000a0000eeffc0007f
b judge d6be898e8fd45da13d499970f84ada = missed
b rest = idle idle
b begin 3 = listen 37
b judge d6be898e8cde5da13d4999707e3111a669b7cf2b92 = good
b hear d6be898e8cde5da13d4999707e3111a669b7cf2b92 = idle up 043e0c020101000a0000eeffc0007f
b judge d6be898e8cde5da13d4999707e3111a669b7cf2b92 = missed
b rest = idle idle
b begin 4 = listen 37
b judge d6be898e8cde5da13d499970793111a669b72e3a77 = good
b hear d6be898e8cde5da13d499970793111a669b72e3a77 = idle
b judge d6be898e8cde5da13d499970793111a669b72e3a77 = missed
b rest = idle idle
b begin 5 = listen 37
b judge d6be898e8fd45ca13d499970f84ada = broken
b judge d7be898e8fd45ca13d499970f84ada = missed
b end
b judge d6be898e8fd45da13d499970f84ada = missed
start
# Reports the type and the address of the sender.
# ADV_IND from a random address, and ADV_SCAN_IND from a public one.
b host 01010c08ffffffffff1f0020 = up 040e0401010c00
b host 010c20020100 = up 040e04010c2000
b begin 0 = listen 37
b judge d6be898eeddb5da13d499970773017eaf863 = good
b hear d6be898eeddb5da13d499970773017eaf863 = idle up 043e0f020100010a0000eeffc0030201067f
b judge d6be898eeddb5da13d499970773017eaf863 = missed
b rest = idle idle
b begin 1 = listen 37
b judge d6be898e8bd55da13d4999702ff4df65 = good
b hear d6be898e8bd55da13d4999702ff4df65 = idle up 043e0d020102000a0000eeffc0015a7f
b judge d6be898e8bd55da13d4999702ff4df65 = missed
b rest = idle idle
start
# Withholds duplicates until a reset.
# An advertisement is reported once, and after a Reset once again.
b host 01010c08ffffffffff1f0020 = up 040e0401010c00
b host 010c20020101 = up 040e04010c2000
b begin 0 = listen 37
b judge d6be898e8fd45da13d499970f84ada = good
b hear d6be898e8fd45da13d499970f84ada = idle up 043e0c020103000a0000eeffc0007f
b judge d6be898e8fd45da13d499970f84ada = missed
b rest = idle idle
b begin 1 = listen 37
b judge d6be898e8fd45da13d499970f84ada = good
b hear d6be898e8fd45da13d499970f84ada = idle
b judge d6be898e8fd45da13d499970f84ada = missed
b rest = idle idle
b host 01030c00 = up 040e0401030c00
b turns 2 3 =
b host 01010c08ffffffffff1f0020 = up 040e0401010c00
b host 010c20020101 = up 040e04010c2000
b begin 3 = listen 37
b judge d6be898e8fd45da13d499970f84ada = good
b hear d6be898e8fd45da13d499970f84ada = idle up 043e0c020103000a0000eeffc0007f
b judge d6be898e8fd45da13d499970f84ada = missed
b rest = idle idle
start
# Scans on one channel an interval.
# An interval is 10 ms, which are eight slots.
b host 010c20020100 = up 040e04010c2000
b turns 0 8 = 0 listen 37 idle idle idle 1 listen 37 idle idle idle 2 listen 37 idle idle idle 3 \
    listen 37 idle idle idle 4 listen 37 idle idle idle 5 listen 37 idle idle idle 6 listen 37 \
    idle idle idle 7 listen 37 idle idle idle
b turns 8 16 = 8 listen 38 idle idle idle 9 listen 38 idle idle idle 10 listen 38 idle idle idle \
    11 listen 38 idle idle idle 12 listen 38 idle idle idle 13 listen 38 idle idle idle 14 \
    listen 38 idle idle idle 15 listen 38 idle idle idle
b turns 16 24 = 16 listen 39 idle idle idle 17 listen 39 idle idle idle 18 listen 39 idle idle \
    idle 19 listen 39 idle idle idle 20 listen 39 idle idle idle 21 listen 39 idle idle idle 22 \
    listen 39 idle idle idle 23 listen 39 idle idle idle
b turns 24 26 = 24 listen 37 idle idle idle 25 listen 37 idle idle idle
start
# Remembers 16 reports.
# Advertisements of devices whose addresses differ in the last octet, each in a turn. The 17th
# report displaces the first.
b host 01010c08ffffffffff1f0020 = up 040e0401010c00
b host 010c20020101 = up 040e04010c2000
b begin 0 = listen 37
b hear d6be898e8fd457a13d499970d7de23 = idle up 043e0c02010300000000eeffc0007f
b rest = idle idle
b begin 1 = listen 37
b hear d6be898e8fd456a13d4999702c0302 = idle up 043e0c02010300010000eeffc0007f
b rest = idle idle
b begin 2 = listen 37
b hear d6be898e8fd455a13d499970216560 = idle up 043e0c02010300020000eeffc0007f
b rest = idle idle
b begin 3 = listen 37
b hear d6be898e8fd454a13d499970dab841 = idle up 043e0c02010300030000eeffc0007f
b rest = idle idle
b begin 4 = listen 37
b hear d6be898e8fd453a13d4999703ba9a4 = idle up 043e0c02010300040000eeffc0007f
b rest = idle idle
b begin 5 = listen 37
b hear d6be898e8fd452a13d499970c07485 = idle up 043e0c02010300050000eeffc0007f
b rest = idle idle
b begin 6 = listen 37
b hear d6be898e8fd451a13d499970cd12e7 = idle up 043e0c02010300060000eeffc0007f
b rest = idle idle
b begin 7 = listen 37
b hear d6be898e8fd450a13d49997036cfc6 = idle up 043e0c02010300070000eeffc0007f
b rest = idle idle
b begin 8 = listen 38
b hear d6be898ed4c34c2059301e4f606527 = idle up 043e0c02010300080000eeffc0007f
b rest = idle idle
b begin 9 = listen 38
b hear d6be898ed4c34d2059301e4f9bb806 = idle up 043e0c02010300090000eeffc0007f
b rest = idle idle
b begin 10 = listen 38
b hear d6be898ed4c34e2059301e4f96de64 = idle up 043e0c020103000a0000eeffc0007f
b rest = idle idle
b begin 11 = listen 38
b hear d6be898ed4c34f2059301e4f6d0345 = idle up 043e0c020103000b0000eeffc0007f
b rest = idle idle
b begin 12 = listen 38
b hear d6be898ed4c3482059301e4f8c12a0 = idle up 043e0c020103000c0000eeffc0007f
b rest = idle idle
b begin 13 = listen 38
b hear d6be898ed4c3492059301e4f77cf81 = idle up 043e0c020103000d0000eeffc0007f
b rest = idle idle
b begin 14 = listen 38
b hear d6be898ed4c34a2059301e4f7aa9e3 = idle up 043e0c020103000e0000eeffc0007f
b rest = idle idle
b begin 15 = listen 38
b hear d6be898ed4c34b2059301e4f8174c2 = idle up 043e0c020103000f0000eeffc0007f
b rest = idle idle
b begin 16 = listen 39
b hear d6be898e1d314a5f8518635a6339f7 = idle
b rest = idle idle
b begin 17 = listen 39
b hear d6be898e1d315a5f8518635ad0a637 = idle up 043e0c02010300100000eeffc0007f
b rest = idle idle
b begin 18 = listen 39
b hear d6be898e1d314a5f8518635a6339f7 = idle up 043e0c02010300000000eeffc0007f
b rest = idle idle
b begin 19 = listen 39
b hear d6be898e1d315a5f8518635ad0a637 = idle
b rest = idle idle
b begin 20 = listen 39
b hear d6be898e1d314b5f8518635a98e4d6 = idle up 043e0c02010300010000eeffc0007f
b rest = idle idle
start
# A scanner begins anew.
# It is turned off and on again before slot 10, in its second interval.
b host 010c20020100 = up 040e04010c2000
b pass 0 10
b host 010c20020000 = up 040e04010c2000
b host 010c20020100 = up 040e04010c2000
b turns 10 18 = 10 listen 37 idle idle idle 11 listen 37 idle idle idle 12 listen 37 idle idle \
    idle 13 listen 37 idle idle idle 14 listen 37 idle idle idle 15 listen 37 idle idle idle 16 \
    listen 37 idle idle idle 17 listen 37 idle idle idle
b turns 18 20 = 18 listen 38 idle idle idle 19 listen 38 idle idle idle
start
# Asks for a scan response.
# A scanner that is active asks for the scan response in the same slot, and reports that too.
a host 01010c08ffffffffff1f0020 = up 040e0401010c00
a host 010b200701100010000000 = up 040e04010b2000
a host 010c20020100 = up 040e04010c2000
a begin 0 = listen 37
a hear d6be898eadd45ca13d499970ede427 = send 37 d6be898e8ede5da13d4999707e3111a669b74c8ab4 up \
    043e0c020100000b0000eeffc0007f
a unheard = listen 37
a hear d6be898e89db5ca13d4999707730178130f9 = idle up 043e0f020104000b0000eeffc0030201067f
a end
";

#[test]
fn scanning(rt: HostRuntime) -> Result<(), AllocError> {
    check(&rt, rt.alloc(), SCANNING)
}
