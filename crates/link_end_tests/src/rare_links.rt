//! Links worked out by hand, turn by turn, which meet what links seldom do. The CONNECT_IND is in
//! slot 0, and the anchors are 24 slots apart from slot 2 on.
use link_scripts::wrong_in;
use std::alloc::AllocError;

const LINKS: &str = "\
# LL_REJECT_EXT_IND says that more waits, although LL_CONNECTION_UPDATE_IND may not go before the
# event after the Instant of the map.
turn 2 = a b
a ask map
a ask update
turn 26 = a enter 1 20 began Map sent 1 3 01ffffffff010700 b enter 1 20 took 1 3 01ffffffff010700
turn 50 = a enter 2 6 b enter 2 6
turn 74 = a enter 3 21 b enter 3 21
turn 98 = a enter 4 34 b enter 4 34
turn 122 = a enter 5 36 b enter 5 36
turn 146 . 030f2000200000004800000100ffffffffffffffffffffffff = a enter 6 23 \
    took 1 3 0f2000200000004800000100ffffffffffffffffffffffff b enter 6 23
turn 170 = a applied 1 7 enter 7 14 done Map began Update sent 2 3 110f2a \
    b applied 1 7 enter 7 14 took 2 3 110f2a
b again = yes
turn 171 = a b
turn 194 = a enter 8 17 sent 3 3 000100001800000064000e00 \
    b enter 8 17 took 3 3 000100001800000064000e00
b again = no
new
# The LL_PHY_REQ of the peripheral, which has answered that of the central, ends the link with LL
# Procedure Collision. Where its LL_TERMINATE_IND is acknowledged after that, the central ends with
# 16 all the same.
turn 2 = a b
a ask phy
turn 26 = a enter 1 20 began Phy sent 1 3 160101 b enter 1 20 took 1 3 160101
turn 50 = a enter 2 6 took 1 3 170101 b enter 2 6 sent 1 3 170101
a end 13 51
b give 02 = yes
b give 03 = yes
turn 74 . ~03160101 = a enter 3 21 sent 2 3 0213 took 2 3 160101 ends 23 \
    b enter 3 21 took 2 3 0213 sent 2 2 02 ends 13
turn 75 = a ends 16 b sent 3 2 03 ends 13
new
# In the event in which its lengths change an end has no second exchange, and in the next one it has.
turn 2 = a b
turn 26 0314fb004808fb004808 = a enter 1 20 \
    b enter 1 20 took 1 3 14fb004808fb004808 lengths 251 27
turn 50 03141b0048011b004801 = a enter 2 6 took 1 3 15fb0048081b004801 b enter 2 6 \
    took 2 3 141b0048011b004801 sent 1 3 15fb0048081b004801 lengths 27 27
a give 000102030405060708090a0b0c0d0e0f101112131415161718191a1b = yes
turn 74 = a enter 3 21 sent 1 2 000102030405060708090a0b0c0d0e0f101112131415161718191a \
    took 2 3 15fb0048081b004801 b enter 3 21 \
    took 3 2 000102030405060708090a0b0c0d0e0f101112131415161718191a sent 2 3 15fb0048081b004801
turn 75 = a sent 2 1 1b b took 4 1 1b
";

#[test]
fn rare_links_turn_by_turn(rt: HostRuntime) -> Result<(), AllocError> {
    let wrong = wrong_in(rt.alloc(), LINKS)?;
    assert_eq!(rt; wrong.as_str(), "");
    Ok(())
}
