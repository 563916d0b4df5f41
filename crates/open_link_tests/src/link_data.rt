//! The data of two links.
use crate::scripts::check;
use std::alloc::AllocError;

const DATA: &str = "\
# What the host gives.
# There are two buffers for packets of the host.
a central 0 0 1 0
a central 1 0 2 0
a give 2 01 = no link
a give 0  = empty
a give 0 long = overflow
a give 0 0102 = kept
a give 1 03 = kept
a give 1 04 = overflow
new
# Buffers are freed.
# A packet of 251 octets fits a buffer. A link that ends frees the buffers of its packets.
a central 0 0 1 0
a central 1 0 2 0
a give 1 most = kept
a give 0 00 = kept
a give 0 08 = overflow
a shut 1
a give 0 08 = kept
new
# No piece has octets of two packets.
# Two packets that would fit one PDU.
a central 0 0 11 0
b peripheral 0 0 10 0
a give 0 0102 = kept
a give 0 03 = kept
a enter 2 = 0 enter 0 0 25
b enter 2 = 0 enter 0 0 25
a send 0 2 = 9
b hear 0 2 = yes
b send 0 2 = 9
a hear 0 2 = no
a send 0 3 = 11 sent 0 1 2 0102
b hear 0 3 = yes took 0 1 2 0102
b send 0 3 = 9
a hear 0 3 = no
a send 0 4 = 10 sent 0 2 2 03
new
# Data of two links.
# A central has links 0 and 1 to two peripherals. Its host gives each a packet, it exchanges empty
# PDUs with both, and then sends each its piece. What is given to one link goes nowhere else, and
# is complete as that link is answered.
a central 0 0 1 0
a central 1 0 2 0
b peripheral 0 0 12 0
c peripheral 0 0 12 0
a give 0 0102 = kept
a give 1 03 = kept
a enter 2 = 0 enter 0 0 25 enter 1 0 25
b enter 2 = 0 enter 0 0 25
c enter 2 = 0 enter 0 0 25
a send 0 2 = 9
b hear 0 2 = yes
b send 0 2 = 9
a hear 0 2 = no
a send 1 3 = 9
c hear 0 3 = yes
c send 0 3 = 9
a hear 1 3 = no
a send 0 4 = 11 sent 0 1 2 0102
b hear 0 4 = yes took 0 1 2 0102
a send 1 5 = 10 sent 1 1 2 03
c hear 0 5 = yes took 0 1 2 03
a report =
b send 0 6 = 9
a hear 0 6 = no
a report = 0 1
a report =
b receive = 0 yes 0102
b receive = none
new
# Data of a link that ends.
# A link that ends frees its buffer, and its host receives no more of it, also not where the
# handle has a new link.
a central 0 0 1 0
a central 1 0 2 0
b peripheral 0 0 12 0
c peripheral 0 0 12 0
a give 0 0102 = kept
a give 1 03 = kept
a enter 2 = 0 enter 0 0 25 enter 1 0 25
b enter 2 = 0 enter 0 0 25
c enter 2 = 0 enter 0 0 25
a send 0 2 = 9
b hear 0 2 = yes
b send 0 2 = 9
a hear 0 2 = no
a send 1 3 = 9
c hear 0 3 = yes
c send 0 3 = 9
a hear 1 3 = no
a send 0 4 = 11 sent 0 1 2 0102
b hear 0 4 = yes took 0 1 2 0102
a send 1 5 = 10 sent 1 1 2 03
c hear 0 5 = yes took 0 1 2 03
a give 0 04 = overflow
a shut 1
a give 1 04 = no link
a give 0 04 = kept
c shut 0
c peripheral 0 6 10 0
c receive = none
";

#[test]
fn data_of_links(rt: HostRuntime) -> Result<(), AllocError> {
    check(&rt, rt.alloc(), DATA)
}
