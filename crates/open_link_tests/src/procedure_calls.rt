//! Control procedures on open links: what hosts ask for, answer and end.
use crate::scripts::check;
use std::alloc::AllocError;

const PROCEDURES: &str = "\
# Versions are exchanged on one link.
# A central has links 0 and 1. The PDU has the Link Layer's version 0B, company FFFF and number 1.
a central 0 0 11 0
a central 1 0 12 0
c peripheral 0 0 10 0
a ask 1 version
a may_ask 0 version = yes
a may_ask 1 version = no
a may_ask 2 version = none
a enter 2 = 0 enter 0 0 25 enter 1 0 25 began 1 Version
c enter 2 = 0 enter 0 0 25
a send 1 2 = 9
c hear 0 2 = yes
c send 0 2 = 9
a hear 1 2 = no
a send 1 3 = 15 sent 1 1 3 0c0bffff0100
c peer 0 = unknown
c hear 0 3 = yes took 0 1 3 0c0bffff0100
c peer 0 = 11 65535 1
c send 0 3 = 9
a hear 1 3 = no
a enter 26 = 0 enter 0 1 20 enter 1 1 20
c enter 26 = 0 enter 0 1 20
a send 1 26 = 9
c hear 0 26 = yes
c send 0 26 = 15 sent 0 1 3 0c0bffff0100
a hear 1 26 = no took 1 1 3 0c0bffff0100 done 1 Version
a peer 0 = unknown
a peer 1 = 11 65535 1
a peer 2 = none
a may_ask 1 version = yes
new
# A map goes to the links of which an end is the central.
# Link 1, on which the end is the peripheral, hears nothing and ends after six intervals. The map
# of the channels 0 to 32 is in force on link 0 from event 6 on, and is not given again.
a central 0 0 11 0
a peripheral 1 0 12 0
b peripheral 0 0 10 0
a ask_map
a may_ask 0 map = no
a may_ask 1 map = yes
a enter 2 = 0 enter 0 0 25 began 0 Map enter 1 0 25
b enter 2 = 0 enter 0 0 25
a send 0 2 = 9
b hear 0 2 = yes
b send 0 2 = 9
a hear 0 2 = no
a shape 0 = 25 24 72 2 yes
a send 0 3 = 17 sent 0 1 3 01ffffffff010600
b hear 0 3 = yes took 0 1 3 01ffffffff010600
b send 0 3 = 9
a hear 0 3 = no
a enter 26 = 0 enter 0 1 20 enter 1 1 20
a enter 50 = 0 enter 0 2 6 enter 1 2 6
a enter 74 = 0 enter 0 3 21 enter 1 3 21
a enter 98 = 0 enter 0 4 34 enter 1 4 34
a enter 122 = 0 enter 0 5 36 enter 1 5 36
a shut_due 144 = 1 3e
a enter 146 = 0 applied 0 1 6 enter 0 6 23 done 0 Map
a ask_map
a may_ask 0 map = yes
b enter 26 = 0 enter 0 1 20
b enter 50 = 0 enter 0 2 6
b enter 74 = 0 enter 0 3 21
b enter 98 = 0 enter 0 4 34
b enter 122 = 0 enter 0 5 36
b enter 146 = 0 applied 0 1 6 enter 0 6 23
new
# A host grants a request.
# A peripheral requests an interval of 40 ms. It is granted with an update to a timeout of 1 s,
# which is in force from event 7 on.
a central 0 0 11 0
b peripheral 0 0 10 0
b ask 0 request
b may_ask 0 request = no
a enter 2 = 0 enter 0 0 25
b enter 2 = 0 enter 0 0 25 began 0 Request
a send 0 2 = 9
b hear 0 2 = yes
b send 0 2 = 9
a hear 0 2 = no
a shape 0 = 25 24 72 2 yes
a awaits_host 0 = no
a send 0 3 = 9
b hear 0 3 = yes
b send 0 3 = 33 sent 0 1 3 0f2000200000004800000000ffffffffffffffffffffffff
a hear 0 3 = no requests 32 32 took 0 1 3 0f2000200000004800000000ffffffffffffffffffffffff
a awaits_host 0 = yes
a awaits_host 1 = none
b awaits_host 0 = no
a grant 0
a awaits_host 0 = no
a enter 26 = 0 enter 0 1 20
b enter 26 = 0 enter 0 1 20
a send 0 26 = 21 sent 0 1 3 000100001800000064000700
b hear 0 26 = yes took 0 1 3 000100001800000064000700
b send 0 26 = 9
a hear 0 26 = no
a enter 50 = 0 enter 0 2 6
a enter 74 = 0 enter 0 3 21
a enter 98 = 0 enter 0 4 34
a enter 122 = 0 enter 0 5 36
a enter 146 = 0 enter 0 6 23
a shape 0 = 23 24 72 2 no
a enter 170 = 0 applied 0 1 7 enter 0 7 14 updated
a shape 0 = 14 24 100 2 no
b enter 50 = 0 enter 0 2 6
b enter 74 = 0 enter 0 3 21
b enter 98 = 0 enter 0 4 34
b enter 122 = 0 enter 0 5 36
b enter 146 = 0 enter 0 6 23
b enter 170 = 0 applied 0 1 7 enter 0 7 14 done 0 Request updated
b shape 0 = 14 24 100 2 no
b may_ask 0 request = yes
new
# A host refuses a request.
a central 0 0 11 0
b peripheral 0 0 10 0
b ask 0 request
a enter 2 = 0 enter 0 0 25
b enter 2 = 0 enter 0 0 25 began 0 Request
a send 0 2 = 9
b hear 0 2 = yes
b send 0 2 = 9
a hear 0 2 = no
a send 0 3 = 9
b hear 0 3 = yes
b send 0 3 = 33 sent 0 1 3 0f2000200000004800000000ffffffffffffffffffffffff
a hear 0 3 = no requests 32 32 took 0 1 3 0f2000200000004800000000ffffffffffffffffffffffff
a refuse 0 3b
a awaits_host 0 = no
a enter 26 = 0 enter 0 1 20
b enter 26 = 0 enter 0 1 20
a send 0 26 = 12 sent 0 1 3 110f3b
b hear 0 26 = yes took 0 1 3 110f3b refused 0 Request 3b
b may_ask 0 request = yes
";

const ENDED: &str = "\
# The host of a central ends one of two links.
# LL_TERMINATE_IND is acknowledged in the event in which it is sent. What the host gave to the link
# does not go out, and its buffer is free once the turn has ended. The other link goes on.
a central 0 0 11 0
a central 1 0 12 0
b peripheral 0 0 10 0
c peripheral 0 0 10 0
a give 0 02 = kept
a give 1 01 = kept
a enter 2 = 0 enter 0 0 25 enter 1 0 25
b enter 2 = 0 enter 0 0 25
c enter 2 = 0 enter 0 0 25
a send 0 2 = 9
b hear 0 2 = yes
b send 0 2 = 9
a hear 0 2 = no
a send 1 3 = 9
c hear 0 3 = yes
c send 0 3 = 9
a hear 1 3 = no
a end 1 13 10
a enter 26 = 0 enter 0 1 20 enter 1 1 20
b enter 26 = 0 enter 0 1 20
c enter 26 = 0 enter 0 1 20
a send 1 26 = 11 sent 1 1 3 0213
c hear 0 26 = yes took 0 1 3 0213
c shut_ended =
c send 0 26 = 9
c shut_ended = 0 13
c has 0 = no
a shut_ended =
a hear 1 26 = no
a give 0 03 = overflow
a shut_ended = 1 16
a has 1 = no
a free = 1
a between 10 12 = no
a between 10 11 = yes
a give 0 03 = kept
a send 0 27 = 10 sent 0 1 2 02
b hear 0 27 = yes took 0 1 2 02
b send 0 27 = 9
a hear 0 27 = no
a shut_ended =
a report = 0 1
a enter 50 = 0 enter 0 2 6
new
# The host of a peripheral ends a link.
# The central acknowledges LL_TERMINATE_IND in the event after, and the peripheral does not answer.
a central 0 0 11 0
b peripheral 0 0 10 0
a enter 2 = 0 enter 0 0 25
b enter 2 = 0 enter 0 0 25
a send 0 2 = 9
b hear 0 2 = yes
b send 0 2 = 9
a hear 0 2 = no
b end 0 13 10
a enter 26 = 0 enter 0 1 20
b enter 26 = 0 enter 0 1 20
a send 0 26 = 9
b hear 0 26 = yes
b send 0 26 = 11 sent 0 1 3 0213
a hear 0 26 = no took 0 1 3 0213
a shut_ended =
b shut_ended =
a enter 50 = 0 enter 0 2 6
b enter 50 = 0 enter 0 2 6
a send 0 50 = 9
a shut_ended = 0 13
b hear 0 50 = no
b shut_ended = 0 16
new
# An end that is not acknowledged.
# The host of the peripheral ends the link in slot 10. The peripheral hears a packet in slot 26, but
# nothing that acknowledges. The link ends when the supervision timeout has passed since slot 10.
a central 0 0 11 0
b peripheral 0 0 10 0
a enter 2 = 0 enter 0 0 25
b enter 2 = 0 enter 0 0 25
b end 0 13 10
a enter 26 = 0 enter 0 1 20
b enter 26 = 0 enter 0 1 20
a send 0 26 = 9
b hear 0 26 = yes
b shut_due 585 =
b shut_due 586 = 0 16
b has 0 = no
";

#[test]
fn procedures_on_links(rt: HostRuntime) -> Result<(), AllocError> {
    check(&rt, rt.alloc(), PROCEDURES)
}

#[test]
fn links_that_hosts_end(rt: HostRuntime) -> Result<(), AllocError> {
    check(&rt, rt.alloc(), ENDED)
}
