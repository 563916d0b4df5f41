//! A field vector for each command, commands of recorded streams, and opcodes of no command.
use crate::scripts::check;
use std::alloc::AllocError;

const COMMANDS: &str = "\
# The parameters of each command are the octets 1, 2, 3 and so on, so two fields that were
# exchanged show. With an octet more or less each has a bad length.
command 0c03 = Known(Reset)
command 1001 = Known(ReadLocalVersion)
command 1003 = Known(ReadLocalFeatures)
command 1009 = Known(ReadBdAddr)
command 2002 = Known(LeReadBufferSize)
command 2003 = Known(LeReadFeatures)
command 200e = Known(LeCreateCancel)
command 200f = Known(LeReadListSize)
command 2010 = Known(LeClearList)
command 2018 = Known(LeRand)
command 202f = Known(LeReadMaxLength)
command 0406 010203 = Known(Disconnect { handle: 0x0201, reason: 0x03 })
command 041d 0102 = Known(ReadRemoteVersion { handle: 0x0201 })
command 0c01 0102030405060708 = Known(SetEventMask { mask: 0x0807060504030201 })
command 0c31 01 = Known(SetHostFlow { value: 0x01 })
command 0c33 01020304050607 = Known(HostBufferSize { acl_length: 0x0201, sco_length: 0x03, \
    acl_count: 0x0504, sco_count: 0x0706 })
command 0c35 020102030405060708 = Known(HostCompleted { counts: [HandleCount { handle: 0x0201, \
    count: 0x0403 }, HandleCount { handle: 0x0605, count: 0x0807 }] })
opcode 0c35 02010203040506070809 = BadLength
opcode 0c35 0201020304050607 = BadLength
opcode 0c35 = BadLength
# The same of the LE commands.
command 2001 0102030405060708 = Known(LeSetEventMask { mask: 0x0807060504030201 })
command 2005 010203040506 = Known(LeSetRandomAddress { address: [0x01, 0x02, 0x03, 0x04, 0x05, \
    0x06] })
command 2006 0102030405060708090a0b0c0d0e0f = Known(LeSetAdvParams { min: 0x0201, max: 0x0403, \
    kind: 0x05, own: 0x06, peer_kind: 0x07, peer: [0x08, 0x09, 0x0a, 0x0b, 0x0c, 0x0d], \
    channels: 0x0e, policy: 0x0f })
command 2008 0102030405060708090a0b0c0d0e0f101112131415161718191a1b1c1d1e1f20 = Known(LeSetAdvData \
    { length: 0x01, octets: [0x02, 0x03, 0x04, 0x05, 0x06, 0x07, 0x08, 0x09, 0x0a, 0x0b, 0x0c, \
    0x0d, 0x0e, 0x0f, 0x10, 0x11, 0x12, 0x13, 0x14, 0x15, 0x16, 0x17, 0x18, 0x19, 0x1a, 0x1b, \
    0x1c, 0x1d, 0x1e, 0x1f, 0x20] })
command 2009 0102030405060708090a0b0c0d0e0f101112131415161718191a1b1c1d1e1f20 \
    = Known(LeSetScanResponse { length: 0x01, octets: [0x02, 0x03, 0x04, 0x05, 0x06, 0x07, 0x08, \
    0x09, 0x0a, 0x0b, 0x0c, 0x0d, 0x0e, 0x0f, 0x10, 0x11, 0x12, 0x13, 0x14, 0x15, 0x16, 0x17, \
    0x18, 0x19, 0x1a, 0x1b, 0x1c, 0x1d, 0x1e, 0x1f, 0x20] })
command 200a 01 = Known(LeSetAdvEnable { value: 0x01 })
command 200b 01020304050607 = Known(LeSetScanParams { kind: 0x01, interval: 0x0302, \
    window: 0x0504, own: 0x06, policy: 0x07 })
command 200c 0102 = Known(LeSetScanEnable { value: 0x01, duplicates: 0x02 })
command 200d 0102030405060708090a0b0c0d0e0f10111213141516171819 = Known(LeCreateConnection { \
    scan_interval: 0x0201, window: 0x0403, policy: 0x05, peer_kind: 0x06, peer: [0x07, 0x08, 0x09, \
    0x0a, 0x0b, 0x0c], own: 0x0d, min: 0x0f0e, max: 0x1110, latency: 0x1312, timeout: 0x1514, \
    lengths: [0x1716, 0x1918] })
command 2011 01020304050607 = Known(LeAddToList { kind: 0x01, address: [0x02, 0x03, 0x04, 0x05, \
    0x06, 0x07] })
command 2012 01020304050607 = Known(LeRemoveFromList { kind: 0x01, address: [0x02, 0x03, 0x04, \
    0x05, 0x06, 0x07] })
command 2013 0102030405060708090a0b0c0d0e = Known(LeConnectionUpdate { handle: 0x0201, \
    min: 0x0403, max: 0x0605, latency: 0x0807, timeout: 0x0a09, lengths: [0x0c0b, 0x0e0d] })
command 2014 0102030405 = Known(LeSetChannels { map: 0x0504030201 })
command 2015 0102 = Known(LeReadChannelMap { handle: 0x0201 })
command 2016 0102 = Known(LeReadRemoteFeatures { handle: 0x0201 })
command 2017 0102030405060708090a0b0c0d0e0f101112131415161718191a1b1c1d1e1f20 = Known(LeEncrypt { \
    key: [0x01, 0x02, 0x03, 0x04, 0x05, 0x06, 0x07, 0x08, 0x09, 0x0a, 0x0b, 0x0c, 0x0d, 0x0e, \
    0x0f, 0x10], text: [0x11, 0x12, 0x13, 0x14, 0x15, 0x16, 0x17, 0x18, 0x19, 0x1a, 0x1b, 0x1c, \
    0x1d, 0x1e, 0x1f, 0x20] })
command 2019 0102030405060708090a0b0c0d0e0f101112131415161718191a1b1c = Known(LeEnableEncryption { \
    handle: 0x0201, rand: 0x0a09080706050403, ediv: 0x0c0b, key: [0x0d, 0x0e, 0x0f, 0x10, 0x11, \
    0x12, 0x13, 0x14, 0x15, 0x16, 0x17, 0x18, 0x19, 0x1a, 0x1b, 0x1c] })
command 201a 0102030405060708090a0b0c0d0e0f101112 = Known(LeKeyReply { handle: 0x0201, key: [0x03, \
    0x04, 0x05, 0x06, 0x07, 0x08, 0x09, 0x0a, 0x0b, 0x0c, 0x0d, 0x0e, 0x0f, 0x10, 0x11, 0x12] })
command 201b 0102 = Known(LeKeyNegative { handle: 0x0201 })
command 2020 0102030405060708090a0b0c0d0e = Known(LeParamReply { handle: 0x0201, min: 0x0403, \
    max: 0x0605, latency: 0x0807, timeout: 0x0a09, lengths: [0x0c0b, 0x0e0d] })
command 2021 010203 = Known(LeParamNegative { handle: 0x0201, reason: 0x03 })
command 2022 010203040506 = Known(LeSetDataLength { handle: 0x0201, octets: 0x0403, time: 0x0605 })
command 2030 0102 = Known(LeReadPhy { handle: 0x0201 })
command 2031 010203 = Known(LeSetDefaultPhy { all: 0x01, tx: 0x02, rx: 0x03 })
command 2032 01020304050607 = Known(LeSetPhy { handle: 0x0201, all: 0x03, tx: 0x04, rx: 0x05, \
    options: 0x0706 })
# Commands of recorded streams.
command 0c03 = Known(Reset)
command 0c01 ffffffffff1f0020 = Known(SetEventMask { mask: 0x20001fffffffffff })
command 0c33 1b000001000000 = Known(HostBufferSize { acl_length: 27, sco_length: 0, acl_count: 1, \
    sco_count: 0 })
command 0c31 01 = Known(SetHostFlow { value: 1 })
command 200a 01 = Known(LeSetAdvEnable { value: 1 })
command 200c 0100 = Known(LeSetScanEnable { value: 1, duplicates: 0 })
command 2006 200020000300000000000000000700 = Known(LeSetAdvParams { min: 32, max: 32, kind: 3, \
    own: 0, peer_kind: 0, peer: [0, 0, 0, 0, 0, 0], channels: 7, policy: 0 })
command 200b 01600060000000 = Known(LeSetScanParams { kind: 1, interval: 96, window: 96, own: 0, \
    policy: 0 })
command 200d 6000600000000b0000eeffc000180018000200480000000000 = Known(LeCreateConnection { \
    scan_interval: 96, window: 96, policy: 0, peer_kind: 0, peer: [0x0b, 0x00, 0x00, 0xee, 0xff, \
    0xc0], own: 0, min: 24, max: 24, latency: 2, timeout: 72, lengths: [0, 0] })
command 2013 0000200020000000480000000000 = Known(LeConnectionUpdate { handle: 0, min: 32, \
    max: 32, latency: 0, timeout: 72, lengths: [0, 0] })
command 2022 0000fb004808 = Known(LeSetDataLength { handle: 0, octets: 251, time: 2120 })
command 2014 ffffffff01 = Known(LeSetChannels { map: 0x01ffffffff })
command 2032 00000001020000 = Known(LeSetPhy { handle: 0, all: 0, tx: 1, rx: 2, options: 0 })
command 0406 000013 = Known(Disconnect { handle: 0, reason: 0x13 })
command 2019 000000000000000000000000bf01fb9d4ef3bc36d874f5394138684c = Known(LeEnableEncryption { \
    handle: 0, rand: 0, ediv: 0, key: [0xbf, 0x01, 0xfb, 0x9d, 0x4e, 0xf3, 0xbc, 0x36, 0xd8, 0x74, \
    0xf5, 0x39, 0x41, 0x38, 0x68, 0x4c] })
command 201a 0000bf01fb9d4ef3bc36d874f5394138684c = Known(LeKeyReply { handle: 0, key: [0xbf, \
    0x01, 0xfb, 0x9d, 0x4e, 0xf3, 0xbc, 0x36, 0xd8, 0x74, 0xf5, 0x39, 0x41, 0x38, 0x68, 0x4c] })
command 0c35 0100000100 = Known(HostCompleted { counts: [HandleCount { handle: 0, count: 1 }] })
# Opcodes that no command has.
opcode 0000 = UnknownOpcode
opcode 0405 = UnknownOpcode
opcode 0c02 = UnknownOpcode
opcode 1002 = UnknownOpcode
opcode 2000 = UnknownOpcode
opcode 2004 = UnknownOpcode
opcode 2033 = UnknownOpcode
opcode ffff = UnknownOpcode
";

#[test]
fn commands(rt: HostRuntime) -> Result<(), AllocError> {
    check(&rt, rt.alloc(), COMMANDS)
}
