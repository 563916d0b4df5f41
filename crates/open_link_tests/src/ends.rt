//! Two ends of a link, event by event, data over packets that are lost, and the channels of a whole
//! link.
use crate::scripts::check;
use std::alloc::AllocError;

const ENDS: &str = "\
# Two ends exchange empty PDUs.
# Each end wants each event, and none continues.
a central 0 0 11 0
b peripheral 0 0 10 0
a enter 2 = 0 enter 0 0 25
b enter 2 = 0 enter 0 0 25
a send 0 2 = 9
b hear 0 2 = yes
b send 0 2 = 9
a hear 0 2 = no
a shape 0 = 25 24 72 2 no
a enter 26 = 0 enter 0 1 20
b enter 26 = 0 enter 0 1 20
a send 0 26 = 9
b hear 0 26 = yes
b send 0 26 = 9
a hear 0 26 = no
a shape 0 = 20 24 72 2 no
a enter 50 = 0 enter 0 2 6
new
# Data over lost packets.
# A packet of 28 octets goes over in two pieces. The packet with the first piece is lost, then the
# answer to it, so that it is repeated after it was taken; and the second piece is repeated until
# there is room for it.
a central 0 0 11 0
b peripheral 0 0 10 0
a give 0 0102030405060708090a0b0c0d0e0f101112131415161718191a1b1c = kept
a enter 2 = 0 enter 0 0 25
b enter 2 = 0 enter 0 0 25
a send 0 2 = 9
b hear 0 2 = yes
b send 0 2 = 9
a hear 0 2 = no
a shape 0 = 25 24 72 2 yes
a send 0 3 = 36 sent 0 1 2 0102030405060708090a0b0c0d0e0f101112131415161718191a1b
a shape 0 = 25 24 72 2 yes
a enter 26 = 0 enter 0 1 20
b enter 26 = 0 enter 0 1 20
a send 0 26 = 36
b hear 0 26 = yes took 0 1 2 0102030405060708090a0b0c0d0e0f101112131415161718191a1b
b send 0 26 = 9
a shape 0 = 20 24 72 2 no
a enter 50 = 0 enter 0 2 6
b enter 50 = 0 enter 0 2 6
a send 0 50 = 36
b hear 0 50 = yes
b send 0 50 = 9
a hear 0 50 = no
a shape 0 = 6 24 72 2 yes
a send 0 51 = 10 sent 0 2 1 1c
b hear 0 51 = yes
b send 0 51 = 9
a hear 0 51 = no
a shape 0 = 6 24 72 2 yes
a enter 74 = 0 enter 0 3 21
b enter 74 = 0 enter 0 3 21
b receive = 0 yes 0102030405060708090a0b0c0d0e0f101112131415161718191a1b
a send 0 74 = 10
b hear 0 74 = yes took 0 2 1 1c
b send 0 74 = 9
a hear 0 74 = no
a shape 0 = 21 24 72 2 no
b receive = 0 no 1c
a report = 0 1
new
# Numbers change only with an acknowledgement.
# The packets of channel 25, by their octets: NESN and SN are bits 2 and 3 of the fifth one, as
# they are whitened. The central repeats its packet until the answer arrives.
a central 0 0 11 0
b peripheral 0 0 10 0
a enter 2 = 0 enter 0 0 25
b enter 2 = 0 enter 0 0 25
a send 0 2 = 9
a air = 2941767150fa1ee550
b hear 0 2 = yes
a send 0 2 = 9
a air = 2941767150fa1ee550
b send 0 2 = 9
b air = 2941767154facde350
a hear 0 2 = no
a send 0 3 = 9
a air = 294176715cfa6bee50
new
# Verdicts on packets.
# One octet of a packet is changed: of its CRC, then of its access address.
a central 0 0 11 0
b peripheral 0 0 10 0
a enter 2 = 0 enter 0 0 25
b enter 2 = 0 enter 0 0 25
a send 0 2 = 9
a flip 8
b judge 0 = broken
b hear 0 2 = no
a send 0 3 = 9
a flip 0
b judge 0 = missed
b hear 0 3 = no
a send 0 4 = 9
b judge 0 = good
b hear 0 4 = yes
new
# Links time out.
# An end that received nothing good ends after six intervals, and another one after its
# supervision timeout.
a central 0 0 11 2
b peripheral 0 0 10 2
a enter 2 = 0 enter 0 0 25
b enter 2 = 0 enter 0 0 25
a send 0 2 = 9
b hear 0 2 = yes
b send 0 2 = 9
a shut_due 143 =
a shut_due 144 = 0 3e
b shut_due 577 =
b shut_due 578 = 0 08
new
# An idle peripheral skips events.
# A peripheral with a latency of two events wants the third one after it heard a packet.
a central 0 0 11 2
b peripheral 0 0 10 2
a enter 2 = 0 enter 0 0 25
b enter 2 = 0 enter 0 0 25
a send 0 2 = 9
b hear 0 2 = yes
b send 0 2 = 9
a hear 0 2 = no
b enter 26 = nobody enter 0 1 20
b enter 50 = nobody enter 0 2 6
b enter 74 = 0 enter 0 3 21
new
# A busy peripheral skips no event.
# A peripheral with latency skips no event while its host has data to send.
a central 0 0 11 2
b peripheral 0 0 10 2
b give 0 0102030405060708090a0b0c0d0e0f101112131415161718191a1b1c = kept
a enter 2 = 0 enter 0 0 25
b enter 2 = 0 enter 0 0 25
a send 0 2 = 9
b hear 0 2 = yes
b send 0 2 = 9
a hear 0 2 = no
b enter 26 = 0 enter 0 1 20
b enter 50 = 0 enter 0 2 6
b enter 74 = 0 enter 0 3 21
new
# Channels of a whole link.
# The channels of a link over 100 events, by both algorithms on all channels and on nine, as a
# program of another language lists them that goes by single steps and bits.
a sample one all
a channels 100 = 7 14 21 28 35 5 12 19 26 33 3 10 17 24 31 1 8 15 22 29 36 6 13 20 27 34 4 \
    11 18 25 32 2 9 16 23 30 0 7 14 21 28 35 5 12 19 26 33 3 10 17 24 31 1 8 15 22 29 36 6 13 20 \
    27 34 4 11 18 25 32 2 9 16 23 30 0 7 14 21 28 35 5 12 19 26 33 3 10 17 24 31 1 8 15 22 29 36 \
    6 13 20 27 34
a sample one nine
a channels 100 = 35 33 21 10 35 33 22 10 36 33 22 10 36 34 23 10 36 34 22 21 36 34 23 21 9 \
    34 23 21 9 35 33 21 9 35 23 22 9 35 33 21 10 35 33 22 10 36 33 22 10 36 34 23 10 36 34 22 21 \
    36 34 23 21 9 34 23 21 9 35 33 21 9 35 23 22 9 35 33 21 10 35 33 22 10 36 33 22 10 36 34 23 \
    10 36 34 22 21 36 34 23 21 9 34
a sample two all
a channels 100 = 25 20 6 21 34 36 23 14 17 21 6 7 5 20 4 4 23 27 13 17 19 26 23 35 2 25 16 \
    34 0 7 16 10 23 14 10 17 35 33 15 36 24 17 32 19 3 28 17 12 10 23 16 18 19 29 30 3 2 35 13 \
    15 27 31 21 24 10 2 28 28 16 27 10 4 36 28 34 32 24 11 35 12 3 5 21 13 22 32 35 26 26 0 31 9 \
    3 36 0 30 35 32 6 35
a sample two nine
a channels 100 = 35 9 33 21 34 36 23 9 34 21 21 10 23 22 9 36 23 36 34 34 36 33 23 35 36 23 \
    22 34 35 33 21 10 23 21 10 9 35 33 35 36 36 21 35 23 34 9 10 34 10 23 10 36 10 35 33 35 10 \
    35 33 36 9 22 21 35 10 36 23 35 36 23 10 34 36 9 34 34 22 21 35 21 9 9 21 21 22 22 35 33 23 \
    36 21 9 35 36 10 33 35 23 36 35
";

#[test]
fn two_ends_of_a_link(rt: HostRuntime) -> Result<(), AllocError> {
    check(&rt, rt.alloc(), ENDS)
}
