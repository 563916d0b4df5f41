//! Links worked out by hand, turn by turn. The CONNECT_IND is in slot 0, and the anchors are 24
//! slots apart from slot 2 on.
use link_scripts::wrong_in;
use std::alloc::AllocError;

const LINKS: &str = "\
# The central asks for the version of the peer.
turn 2 = a b
a may_ask version = yes
a ask version
a may_ask version = no
turn 26 = a enter 1 20 began Version sent 1 3 0c0bffff0100 b enter 1 20 took 1 3 0c0bffff0100
turn 50 = a enter 2 6 took 1 3 0c0bffff0100 done Version b enter 2 6 sent 1 3 0c0bffff0100
a knows_version = yes
b knows_version = yes
new
# The host of the central ends the link: the peripheral answers, and so both end.
turn 2 = a b
a end 13 10
turn 26 = a enter 1 20 sent 1 3 0213 ends 16 b enter 1 20 took 1 3 0213 ends 13
new
# The host of the peripheral ends it: the central acknowledges that in the next event.
turn 2 = a b
b end 13 10
turn 26 = a enter 1 20 took 1 3 0213 b enter 1 20 sent 1 3 0213
turn 50 = a enter 2 6 ends 13 b enter 2 6 ends 16
new
# A channel map and an update. The update begins at the Instant of the map, and its indication goes
# in the event after.
turn 2 = a b
a ask map
a ask update
turn 26 = a enter 1 20 began Map sent 1 3 01ffffffff010700 b enter 1 20 took 1 3 01ffffffff010700
turn 50 = a enter 2 6 b enter 2 6
turn 74 = a enter 3 21 b enter 3 21
turn 98 = a enter 4 34 b enter 4 34
turn 122 = a enter 5 36 b enter 5 36
turn 146 = a enter 6 23 b enter 6 23
turn 170 = a applied 1 7 enter 7 14 done Map began Update b applied 1 7 enter 7 14
turn 194 = a enter 8 17 sent 2 3 000100001800000064000e00 \
    b enter 8 17 took 2 3 000100001800000064000e00
new
# An indication that arrives in the event of its Instant holds from the next event on.
turn 2 = a b
a ask update
turn 26 x = a enter 1 20 began Update sent 1 3 000100001800000064000700 b enter 1 20
turn 50 x = a enter 2 6 b enter 2 6
turn 74 x = a enter 3 21 b enter 3 21
turn 98 x = a enter 4 34 b enter 4 34
turn 122 x = a enter 5 36 b enter 5 36
turn 146 x = a enter 6 23 b enter 6 23
turn 170 = a applied 1 7 enter 7 14 done Update b enter 7 14 took 1 3 000100001800000064000700
a timeout = 100
b timeout = 72
turn 194 = a enter 8 17 b applied 1 8 enter 8 17
b timeout = 100
b wants = yes
new
# One that arrives later ends the link at the peripheral, which does not answer. The central ends
# 1 s after it received something last.
turn 2 = a b
a ask update
turn 26 x = a enter 1 20 began Update sent 1 3 000100001800000064000700 b enter 1 20
turn 50 x = a enter 2 6 b enter 2 6
turn 74 x = a enter 3 21 b enter 3 21
turn 98 x = a enter 4 34 b enter 4 34
turn 122 x = a enter 5 36 b enter 5 36
turn 146 x = a enter 6 23 b enter 6 23
turn 170 x = a applied 1 7 enter 7 14 done Update b enter 7 14
turn 194 = a enter 8 17 b enter 8 17 took 1 3 000100001800000064000700 ends 28
turn 218 = a enter 9 21 b ends 28
a due 801 =
a due 802 = ends 08
new
# Data of 28 octets goes in two pieces, the second of them in the second exchange of the event.
turn 2 = a b
a give 000102030405060708090a0b0c0d0e0f101112131415161718191a1b = yes
turn 26 = a enter 1 20 sent 1 2 000102030405060708090a0b0c0d0e0f101112131415161718191a \
    b enter 1 20 took 1 2 000102030405060708090a0b0c0d0e0f101112131415161718191a
turn 27 = a sent 2 1 1b b took 2 1 1b
a span = 2
b span = 2
new
# After the lengths are exchanged, data of 251 octets goes in one piece. An event has four slots.
turn 2 = a b
a ask length
turn 26 = a enter 1 20 began Length sent 1 3 14fb004808fb004808 \
    b enter 1 20 took 1 3 14fb004808fb004808 lengths 251 27
turn 50 = a enter 2 6 took 1 3 15fb0048081b004801 done Length lengths 27 251 \
    b enter 2 6 sent 1 3 15fb0048081b004801
a lengths = (27, 251)
b lengths = (251, 27)
a give most = yes
turn 74 = a enter 3 21 sent 2 2 251 b enter 3 21 took 2 2 251
a span = 4
b span = 4
new
# A reply is lost twice: the data is sent again, and taken once.
turn 2 = a b
a give 01020304 = yes
turn 26 . x = a enter 1 20 sent 1 2 01020304 b enter 1 20 took 1 2 01020304
turn 50 . x = a enter 2 6 b enter 2 6
turn 74 = a enter 3 21 b enter 3 21
new
# Data that is sent again says that more waits, which goes in the second exchange.
turn 2 = a b
a give 01 = yes
a give 02 = yes
turn 26 x = a enter 1 20 sent 1 2 01 b enter 1 20
turn 50 = a enter 2 6 b enter 2 6 took 1 2 01
turn 51 = a sent 2 2 02 b took 2 2 02
new
# So does LL_TERMINATE_IND that is sent again, although data that waits never goes.
turn 2 = a b
a end 13 10
turn 26 x = a enter 1 20 sent 1 3 0213 b enter 1 20
turn 50 x = a enter 2 6 b enter 2 6
a give 01 = yes
turn 74 . x = a enter 3 21 b enter 3 21 took 1 3 0213 ends 13
b again = yes
new
# The latency of an update holds in the event of its Instant.
turn 2 = a b
a ask latency
turn 26 = a enter 1 20 began Update sent 1 3 000100001800010064000700 \
    b enter 1 20 took 1 3 000100001800010064000700
turn 50 = a enter 2 6 b enter 2 6
turn 74 = a enter 3 21 b enter 3 21
turn 98 = a enter 4 34 b enter 4 34
turn 122 = a enter 5 36 b enter 5 36
turn 146 = a enter 6 23 b enter 6 23
b wants = yes
turn 170 x = a applied 1 7 enter 7 14 done Update b applied 1 7 enter 7 14
b wants = no
new
# A map of the central and a request of the peripheral cross: the request is rejected.
turn 2 = a b
a ask map
b ask request
turn 26 = a enter 1 20 began Map sent 1 3 01ffffffff010700 \
    took 1 3 0f2000200000004800000100ffffffffffffffffffffffff \
    b enter 1 20 began Request took 1 3 01ffffffff010700 \
    sent 1 3 0f2000200000004800000100ffffffffffffffffffffffff
turn 50 = a enter 2 6 sent 2 3 110f2a b enter 2 6 took 2 3 110f2a refused Request 2a
turn 74 = a enter 3 21 b enter 3 21
turn 98 = a enter 4 34 b enter 4 34
turn 122 = a enter 5 36 b enter 5 36
turn 146 = a enter 6 23 b enter 6 23
turn 170 = a applied 1 7 enter 7 14 done Map b applied 1 7 enter 7 14
new
# Both ends begin a PHY update: that of the peripheral is rejected.
turn 2 = a b
a ask phy
b ask phy
turn 26 = a enter 1 20 began Phy sent 1 3 160101 took 1 3 160101 \
    b enter 1 20 began Phy took 1 3 160101 sent 1 3 160101
turn 50 = a enter 2 6 sent 2 3 111623 took 2 3 170101 \
    b enter 2 6 took 2 3 111623 refused Phy 23 sent 2 3 170101
turn 74 = a enter 3 21 sent 3 3 1800000000 done Phy b enter 3 21 took 3 3 1800000000
new
# The host of the central grants a request, and refuses one.
turn 2 = a b
b ask request
turn 26 = a enter 1 20 took 1 3 0f2000200000004800000100ffffffffffffffffffffffff \
    requests 32 32 b enter 1 20 began Request \
    sent 1 3 0f2000200000004800000100ffffffffffffffffffffffff
a grant
turn 50 = a enter 2 6 sent 1 3 000100001800000064000800 \
    b enter 2 6 took 1 3 000100001800000064000800
turn 74 = a enter 3 21 b enter 3 21
turn 98 = a enter 4 34 b enter 4 34
turn 122 = a enter 5 36 b enter 5 36
turn 146 = a enter 6 23 b enter 6 23
turn 170 = a enter 7 14 b enter 7 14
turn 194 = a applied 1 8 enter 8 17 b applied 1 8 enter 8 17 done Request
new
turn 2 = a b
b ask request
turn 26 = a enter 1 20 took 1 3 0f2000200000004800000100ffffffffffffffffffffffff \
    requests 32 32 b enter 1 20 began Request \
    sent 1 3 0f2000200000004800000100ffffffffffffffffffffffff
a awaits_host = yes
a refuse 3b
turn 50 = a enter 2 6 sent 1 3 110f3b b enter 2 6 took 1 3 110f3b refused Request 3b
a awaits_host = no
new
# A key for which nobody asked changes nothing, nor does it that there is none.
turn 2 = a b
turn 26 = a enter 1 20 b enter 1 20
a may_ask encrypt = yes
b awaits_key = no
b key 27
b no_key 28
b give 01020304 = yes
turn 50 = a enter 2 6 took 1 2 01020304 b enter 2 6 sent 1 2 01020304
b awaits_key = no
";

#[test]
fn links_turn_by_turn(rt: HostRuntime) -> Result<(), AllocError> {
    let wrong = wrong_in(rt.alloc(), LINKS)?;
    assert_eq!(rt; wrong.as_str(), "");
    Ok(())
}
