//! A field vector and the mask bit of each event, events of recorded streams, and octets that are
//! no event.
use crate::scripts::check;
use std::alloc::AllocError;

const EVENTS: &str = "\
# The octets after the head of each packet are 1, 2, 3 and so on, so two fields that were
# exchanged show.
event 04050401020304 = DisconnectionComplete { status: 0x01, handle: 0x0302, reason: 0x04 } Main(4)
event 04080401020304 = EncryptionChange { status: 0x01, handle: 0x0302, enabled: 0x04 } Main(7)
event 040c080102030405060708 = RemoteVersion { status: 0x01, handle: 0x0302, version: 0x04, \
    company: 0x0605, sub: 0x0807 } Main(11)
event 04100101 = HardwareError { code: 0x01 } Main(15)
event 041a0101 = BufferOverflow { link_kind: 0x01 } Main(25)
event 043003010203 = KeyRefresh { status: 0x01, handle: 0x0302 } Main(47)
event 040f0401020304 = CommandStatus { status: 0x01, number: 0x02, opcode: 0x0403 } Always
event 0413050101020304 = CompletedPackets { handle: 0x0201, count: 0x0403 } Always
event 040e06010203040506 = CommandComplete { number: 0x01, opcode: 0x0302, fields: [0x04, 0x05, \
    0x06] } Always
# The same of the events that have the bits of the LE mask.
event 043e13010102030405060708090a0b0c0d0e0f101112 = ConnectionComplete { status: 0x01, \
    handle: 0x0302, role: 0x04, peer_kind: 0x05, peer: [0x06, 0x07, 0x08, 0x09, 0x0a, 0x0b], \
    interval: 0x0d0c, latency: 0x0f0e, timeout: 0x1110, accuracy: 0x12 } Meta(0)
event 043e0a03010203040506070809 = UpdateComplete { status: 0x01, handle: 0x0302, \
    interval: 0x0504, latency: 0x0706, timeout: 0x0908 } Meta(2)
event 043e0c040102030405060708090a0b = RemoteFeatures { status: 0x01, handle: 0x0302, \
    features: 0x0b0a090807060504 } Meta(3)
event 043e0d050102030405060708090a0b0c = KeyRequest { handle: 0x0201, rand: 0x0a09080706050403, \
    ediv: 0x0c0b } Meta(4)
event 043e0b060102030405060708090a = ParamRequest { handle: 0x0201, min: 0x0403, max: 0x0605, \
    latency: 0x0807, timeout: 0x0a09 } Meta(5)
event 043e0b070102030405060708090a = LengthChange { handle: 0x0201, tx_octets: 0x0403, \
    tx_time: 0x0605, rx_octets: 0x0807, rx_time: 0x0a09 } Meta(6)
event 043e1f0a0102030405060708090a0b0c0d0e0f101112131415161718191a1b1c1d1e = EnhancedConnection { \
    status: 0x01, handle: 0x0302, role: 0x04, peer_kind: 0x05, peer: [0x06, 0x07, 0x08, 0x09, \
    0x0a, 0x0b], local_private: [0x0c, 0x0d, 0x0e, 0x0f, 0x10, 0x11], peer_private: [0x12, 0x13, \
    0x14, 0x15, 0x16, 0x17], interval: 0x1918, latency: 0x1b1a, timeout: 0x1d1c, accuracy: 0x1e } \
    Meta(9)
event 043e060c0102030405 = PhyComplete { status: 0x01, handle: 0x0302, tx: 0x04, rx: 0x05 } Meta(11)
event 043e0414010203 = ChannelSelection { handle: 0x0201, algorithm: 0x03 } Meta(19)
event 043e0f0201010203040506070803090a0b0c = AdvertisingReport { kind: 0x01, address_kind: 0x02, \
    address: [0x03, 0x04, 0x05, 0x06, 0x07, 0x08], octets: [0x09, 0x0a, 0x0b], rssi: 0x0c } \
    Meta(1)
# Events of recorded streams.
event 040e0401030c00 = CommandComplete { number: 1, opcode: 0x0c03, fields: [0x00] } Always
event 040e0401030c12 = CommandComplete { number: 1, opcode: 0x0c03, fields: [0x12] } Always
event 040e06012220000000 = CommandComplete { number: 1, opcode: 0x2022, fields: [0x00, 0x00, 0x00] \
    } Always
event 040f040101ffff = CommandStatus { status: 1, number: 1, opcode: 0xffff } Always
event 040f0400010d20 = CommandStatus { status: 0, number: 1, opcode: 0x200d } Always
event 04100101 = HardwareError { code: 1 } Main(15)
event 041a0101 = BufferOverflow { link_kind: 1 } Main(25)
event 0413050100000100 = CompletedPackets { handle: 0, count: 1 } Always
event 0405040000003e = DisconnectionComplete { status: 0, handle: 0, reason: 0x3e } Main(4)
event 04080406000000 = EncryptionChange { status: 6, handle: 0, enabled: 0 } Main(7)
event 040c080000000bffff0100 = RemoteVersion { status: 0, handle: 0, version: 0x0b, \
    company: 0xffff, sub: 1 } Main(11)
event 043e130100000001000a0000eeffc018000000480000 = ConnectionComplete { status: 0, handle: 0, \
    role: 1, peer_kind: 0, peer: [0x0a, 0x00, 0x00, 0xee, 0xff, 0xc0], interval: 24, latency: 0, \
    timeout: 72, accuracy: 0 } Meta(0)
event 043e1f0a00000000000b0000eeffc000000000000000000000000018000000480000 = EnhancedConnection { \
    status: 0, handle: 0, role: 0, peer_kind: 0, peer: [0x0b, 0x00, 0x00, 0xee, 0xff, 0xc0], \
    local_private: [0, 0, 0, 0, 0, 0], peer_private: [0, 0, 0, 0, 0, 0], interval: 24, latency: 0, \
    timeout: 72, accuracy: 0 } Meta(9)
event 043e0c020103000a0000eeffc0007f = AdvertisingReport { kind: 3, address_kind: 0, \
    address: [0x0a, 0x00, 0x00, 0xee, 0xff, 0xc0], octets: [], rssi: 0x7f } Meta(1)
event 043e0f020100000a0000eeffc0030201067f = AdvertisingReport { kind: 0, address_kind: 0, \
    address: [0x0a, 0x00, 0x00, 0xee, 0xff, 0xc0], octets: [2, 1, 6], rssi: 0x7f } Meta(1)
event 043e0a03000000180000006400 = UpdateComplete { status: 0, handle: 0, interval: 24, \
    latency: 0, timeout: 100 } Meta(2)
event 043e0d05000000000000000000000000 = KeyRequest { handle: 0, rand: 0, ediv: 0 } Meta(4)
event 043e0b0600002000200000004800 = ParamRequest { handle: 0, min: 32, max: 32, latency: 0, \
    timeout: 72 } Meta(5)
event 043e0b070000fb0048081b004801 = LengthChange { handle: 0, tx_octets: 251, tx_time: 2120, \
    rx_octets: 27, rx_time: 328 } Meta(6)
event 043e060c2300000101 = PhyComplete { status: 0x23, handle: 0, tx: 1, rx: 1 } Meta(11)
event 043e0414000001 = ChannelSelection { handle: 0, algorithm: 1 } Meta(19)
# An octet too few or too many, another indicator, codes of no event, and numbers of entries that
# are not 1.
event  = none
event 041001 = none
event 0410010100 = none
event 0410020100 = none
event 02100101 = none
event 04110101 = none
event 043e00 = none
event 043e0415000001 = none
event 0413050200000100 = none
event 040e020103 = none
event 043e0c020203000a0000eeffc0007f = none
event 043e0c020103000a0000eeffc0017f = none
";

#[test]
fn events(rt: HostRuntime) -> Result<(), AllocError> {
    check(&rt, rt.alloc(), EVENTS)
}
