//! A packet worked out by hand, and what a listener makes of it, whole and damaged; and packets by
//! a second program.
use crate::scripts::check;
use air_frame::laws;
use std::alloc::AllocError;

const PACKETS: &str = "\
# Worked out by hand: the packet of a PDU without a payload, on channel 37 with the access
# address of the advertising channels, and a CRC that starts at 0.
build 37 8e89bed6 000000 0100 = d6be898e8cd2e3f08a
hear 37 8e89bed6 000000 d6be898e8cd2e3f08a = Whole([1, 0])
# Another access address, and packets that end before its four octets.
hear 37 8e89bed6 000000 d7be898e8cd2e3f08a = NotOurs
hear 37 8e89bed6 000000 d6be89 = NotOurs
hear 37 8e89bed6 000000 = NotOurs
# An octet is changed, and packets that are too short or too long.
hear 37 8e89bed6 000000 d6be898e8cd2e3f08b = Broken
hear 37 8e89bed6 000000 d6be898e8dd2e3f08a = Broken
hear 37 8e89bed6 000000 d6be898e8cd2e3f0 = Broken
hear 37 8e89bed6 000000 d6be898e8cd2e3f08a00 = Broken
hear 37 8e89bed6 000000 d6be898e = Broken
# As the plain rules say. The first rows have the access address and the start of the
# CRC of the advertising channels.
plain 37 8e89bed6 555555 02060a0000eeffc0 = yes yes yes
plain 38 8e89bed6 555555 44090102030405c6020106 = yes yes yes
plain 39 8e89bed6 555555 60070900000000ff00 = yes yes yes
plain 39 8e89bed6 000000 0000 = yes yes yes
plain 0 71764129 123456 0100 = yes yes yes
plain 12 50655d5a abcdef 0e0480017ffe = yes yes yes
plain 12 00000000 ffffff ff01a5 = yes yes yes
plain 37 ffffffff 000001 030a09080706050403020100 = yes yes yes
";

#[test]
fn packets(rt: HostRuntime) -> Result<(), AllocError> {
    check(&rt, rt.alloc(), PACKETS)?;
    laws::pdu_form_is_a_count();
    laws::packet_tells_its_pdu();
    laws::short_damage_is_never_whole();
    Ok(())
}
