//! Open links, turn by turn.
use crate::scripts::check;
use std::alloc::AllocError;

const LINKS: &str = "\
# Handles are the least free ones.
a free = 0
a has 0 = no
a central 0 0 1 0
a has 0 = yes
a free = 1
a has 1 = no
a central 1 0 1 0
a has 1 = yes
a free = 2
a has 2 = no
a central 2 0 1 0
a has 2 = yes
a free = none
a places = 3
new
# Before its first event a link sends and receives nothing.
a central 0 0 11 0
a has_entered 0 = no
a has_entered 1 = none
a enter 1 = nobody
a send 0 1 = none
a hear 0 1 = none
a enter 2 = 0 enter 0 0 25
a has_entered 0 = yes
a send 0 2 = 9
new
# Links are between addresses.
# The own address is that of number 10. Link 1 is to number 1, and link 2 to number 2.
a central 0 0 0 0
a central 1 0 1 0
a central 2 0 2 0
a between 10 1 = yes
a shut 1
a free = 1
a between 10 1 = no
a between 2 10 = no
a between 10 2 = yes
a shut_all = 0 2
a free = 0
new
# The radio goes to the one served earlier.
# The anchors of links 0 and 1 are in the same slots. The one that was served earlier has the
# radio, and the CONNECT_IND counts as served.
a central 0 0 1 0
a enter 2 = 0 enter 0 0 25
a central 1 24 2 0
a enter 25 = nobody
a enter 26 = 0 enter 0 1 20 enter 1 0 25
a serve 0 26
a enter 50 = 1 enter 0 2 6 enter 1 1 20
a serve 1 50
a enter 74 = 0 enter 0 3 21 enter 1 2 6
a serve 0 74
a enter 98 = 1 enter 0 4 34 enter 1 3 21
new
# The lesser handle has the radio.
# Of two links that were served in one slot, the one with the lesser handle has the radio.
a central 2 0 1 0
a central 1 0 2 0
a enter 2 = 1 enter 1 0 25 enter 2 0 25
new
# Links exchange packets and skip events.
# The peripheral has a latency of one event. After an exchange it enters the event that it may
# skip, and does not want the radio for it.
a central 1 0 11 1
b peripheral 0 0 12 1
a enter 2 = 1 enter 1 0 25
b enter 2 = 0 enter 0 0 25
a send 1 2 = 9
b judge 0 = good
b judge 1 = none
b hear 0 2 = yes
b send 0 2 = 9
a hear 1 2 = no
a shape 1 = 25 24 72 2 no
b enter 26 = nobody enter 0 1 20
b enter 50 = 0 enter 0 2 6
new
# Links end by handle with their reasons.
# Links 0, 1 and 2 of a peripheral. Link 1 hears a packet in slot 2, and link 2 is opened in slot
# 434. Nothing else is heard: links that were not established end after six intervals for the
# reason 3E, and link 1 after its supervision timeout for the reason 08.
b peripheral 0 0 1 0
b peripheral 1 0 2 0
b peripheral 2 434 3 0
b enter 2 = 0 enter 0 0 25 enter 1 0 25
a central 0 0 11 0
a enter 2 = 0 enter 0 0 25
a send 0 2 = 9
b hear 1 2 = yes
b shut_due 143 =
b shut_due 144 = 0 3e
b has 0 = no
b shut_due 577 =
b shut_due 578 = 1 08 2 3e
b shut_all =
";

#[test]
fn open_links(rt: HostRuntime) -> Result<(), AllocError> {
    check(&rt, rt.alloc(), LINKS)
}
