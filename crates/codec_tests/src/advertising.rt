//! PDUs of the advertising channels and their octets on the air.
use crate::scripts::check;
use std::alloc::AllocError;

const PDUS: &str = "\
# The addresses are C0FFEE00000A and C0FFEE00000B, which are public, and a random one.
pdu 02060a0000eeffc0 = Nonconn { from: Address { random: false, octets: [0x0a, 0x00, 0x00, 0xee, \
    0xff, 0xc0] }, body: [] }
pdu 60090102030405c6020106 = Ind { from: Address { random: true, octets: [0x01, 0x02, 0x03, 0x04, \
    0x05, 0xc6] }, ch_sel: true, body: [0x02, 0x01, 0x06] }
pdu 46060102030405c6 = ScanInd { from: Address { random: true, octets: [0x01, 0x02, 0x03, 0x04, \
    0x05, 0xc6] }, body: [] }
pdu 04090a0000eeffc0020a00 = ScanRsp { from: Address { random: false, octets: [0x0a, 0x00, 0x00, \
    0xee, 0xff, 0xc0] }, body: [0x02, 0x0a, 0x00] }
pdu a10c0a0000eeffc00102030405c6 = Direct { from: Address { random: false, octets: [0x0a, 0x00, \
    0x00, 0xee, 0xff, 0xc0] }, to: Address { random: true, octets: [0x01, 0x02, 0x03, 0x04, 0x05, \
    0xc6] }, ch_sel: true }
pdu 430c0102030405c60a0000eeffc0 = ScanReq { from: Address { random: true, octets: [0x01, 0x02, \
    0x03, 0x04, 0x05, 0xc6] }, to: Address { random: false, octets: [0x0a, 0x00, 0x00, 0xee, 0xff, \
    0xc0] } }
pdu 25220a0000eeffc00b0000eeffc029417671010000010000180000004800ffffffff1f05 = Connect { \
    from: Address { random: false, octets: [0x0a, 0x00, 0x00, 0xee, 0xff, 0xc0] }, to: Address { \
    random: false, octets: [0x0b, 0x00, 0x00, 0xee, 0xff, 0xc0] }, ch_sel: true, \
    fields: ConnectFields { access: 0x71764129, crc_init: 1, win_size: 1, win_offset: 0, \
    interval: 24, latency: 0, timeout: 72, map: 0x1fffffffff, hop: 5, sca: 0 } }
pdu 85220a0000eeffc00102030405c629417671efcdab0102011800f3014800ffffffff1ff0 = Connect { \
    from: Address { random: false, octets: [0x0a, 0x00, 0x00, 0xee, 0xff, 0xc0] }, to: Address { \
    random: true, octets: [0x01, 0x02, 0x03, 0x04, 0x05, 0xc6] }, ch_sel: false, \
    fields: ConnectFields { access: 0x71764129, crc_init: 0xabcdef, win_size: 1, \
    win_offset: 0x0102, interval: 24, latency: 0x01f3, timeout: 72, map: 0x1fffffffff, hop: 16, \
    sca: 7 } }
# Bits that are ignored, and are 0 in what is written.
pdu 02060a0000eeffc0 = Nonconn { from: Address { random: false, octets: [0x0a, 0x00, 0x00, 0xee, \
    0xff, 0xc0] }, body: [] }
pdu 12060a0000eeffc0 = Nonconn { from: Address { random: false, octets: [0x0a, 0x00, 0x00, 0xee, \
    0xff, 0xc0] }, body: [] } as 02060a0000eeffc0
pdu 22060a0000eeffc0 = Nonconn { from: Address { random: false, octets: [0x0a, 0x00, 0x00, 0xee, \
    0xff, 0xc0] }, body: [] } as 02060a0000eeffc0
pdu 82060a0000eeffc0 = Nonconn { from: Address { random: false, octets: [0x0a, 0x00, 0x00, 0xee, \
    0xff, 0xc0] }, body: [] } as 02060a0000eeffc0
pdu b2060a0000eeffc0 = Nonconn { from: Address { random: false, octets: [0x0a, 0x00, 0x00, 0xee, \
    0xff, 0xc0] }, body: [] } as 02060a0000eeffc0
# Lengths that a type does not have, and types of no PDU. A payload of 37
# octets is the longest.
pdu = none
pdu 02 = none
pdu 0200 = none
pdu 02050102030405 = none
pdu 02060102030405 = none
pdu 020601020304050607 = none
pdu 0706010203040506 = none
pdu 0f06010203040506 = none
pdu 0106010203040506 = none
pdu 030d01020304050601020304050607 = none
pdu 050c010203040506010203040506 = none
pdu 002500000000000000000000000000000000000000000000000000000000000000000000000000 = Ind { \
    from: Address { random: false, octets: [0, 0, 0, 0, 0, 0] }, ch_sel: false, body: [0, 0, 0, 0, \
    0, 0, 0, 0, 0, 0, 0, 0, 0, 0, 0, 0, 0, 0, 0, 0, 0, 0, 0, 0, 0, 0, 0, 0, 0, 0, 0] }
pdu 00260000000000000000000000000000000000000000000000000000000000000000000000000000 = none
# The fields that begin a link, of which some are outside their
# ranges: the window and its offset, the interval, the latency, the timeout, the channel map, the
# hop increment and the SCA.
fields 1 6 6 0 10 0000000003 5 0 = yes
fields 1 25 25 499 3200 1fffffffff 16 7 = yes
fields 1 6 3200 0 801 0000000003 5 0 = yes
fields 2 6 6 0 10 0000000003 5 0 = no
fields 1 7 6 0 10 0000000003 5 0 = no
fields 1 0 5 0 10 0000000003 5 0 = no
fields 1 6 3201 0 3200 0000000003 5 0 = no
fields 1 6 3200 0 800 0000000003 5 0 = no
fields 1 6 6 500 3200 0000000003 5 0 = no
fields 1 6 6 0 9 0000000003 5 0 = no
fields 1 6 6 0 3201 0000000003 5 0 = no
fields 1 6 6 0 10 0000000004 5 0 = no
fields 1 6 6 0 10 2000000003 5 0 = no
fields 1 6 6 0 10 0000000003 4 0 = no
fields 1 6 6 0 10 0000000003 17 0 = no
";

#[test]
fn pdus_of_advertising_channels(rt: HostRuntime) -> Result<(), AllocError> {
    check(&rt, rt.alloc(), PDUS)
}
