//! Runs of two ends, worked out by hand. A control PDU that an end takes is given by its octets.
use crate::scripts::check;
use std::alloc::AllocError;

const RUNS: &str = "\
# Map and request cross.
# A map of the central and a request of the peripheral cross: the map holds from event 7, and the
# request is rejected with Different Transaction Collision.
central may_ask map = yes
central ask map
peripheral ask request
peripheral may_ask request = no
central enter 26 = Some(Map)
peripheral enter 26 = Some(Request)
central send 1 26 = ChannelMapInd { map: 0x01ffffffff, instant: 7 } Some(Map { map: ChannelMap { \
    bits: 0x01ffffffff }, instant: 7 })
peripheral send 1 26 = ConnectionParamReq { interval_min: 32, interval_max: 32, latency: 0, \
    timeout: 72, periodicity: 0, reference: 1, offsets: [0xffff, 0xffff, 0xffff, 0xffff, 0xffff, \
    0xffff] } None
peripheral take 26 01ffffffff010700 = Step { effect: Indicated(Map { map: ChannelMap { \
    bits: 0x01ffffffff }, instant: 7 }), ends: None, refused: None, done: None }
central acked = None
central take 26 0f2000200000004800000100ffffffffffffffffffffffff = Step { effect: Nothing, \
    ends: None, refused: None, done: None }
central waiting = 1
peripheral acked = None
central send 2 50 = RejectExtInd { opcode: 0x0f, code: 0x2a } None
peripheral take 50 110f2a = Step { effect: Nothing, ends: None, refused: Some((Request, \
    ErrCode(0x2a))), done: None }
central acked = None
central busy = yes
peripheral busy = yes
central apply = Some(Map)
peripheral apply = None
central busy = no
peripheral busy = no
new
# Both ends update the phy.
# Both hosts ask for a PHY update: the peripheral's is rejected with LL Procedure Collision, and
# the central's ends as LL_PHY_UPDATE_IND is taken and acknowledged.
central ask phy
peripheral ask phy
central enter 26 = Some(Phy)
peripheral enter 26 = Some(Phy)
central send 1 26 = PhyReq { tx: 1, rx: 1 } None
peripheral send 1 26 = PhyReq { tx: 1, rx: 1 } None
peripheral take 26 160101 = Step { effect: Nothing, ends: None, refused: None, done: None }
central acked = None
central take 26 160101 = Step { effect: Nothing, ends: None, refused: None, done: None }
central send 2 50 = RejectExtInd { opcode: 0x16, code: 0x23 } None
peripheral acked = None
peripheral send 2 50 = PhyRsp { tx: 1, rx: 1 } None
peripheral take 50 111623 = Step { effect: Nothing, ends: None, refused: Some((Phy, \
    ErrCode(0x23))), done: None }
central acked = None
central take 50 170101 = Step { effect: Nothing, ends: None, refused: None, done: None }
peripheral acked = None
central send 3 74 = PhyUpdateInd { to_peripheral: 0, to_central: 0, instant: 0 } None
peripheral take 74 1800000000 = Step { effect: Nothing, ends: None, refused: None, done: None }
central acked = Some(Phy)
central busy = no
peripheral busy = no
new
# Late indication.
# LL_CONNECTION_UPDATE_IND is first sent in event 1 and arrives in event 7, that of its Instant:
# it holds from event 7 at the central and from event 8 at the peripheral. In event 8 its Instant
# has passed. The central's next indication waits until event 8.
track enter 7 = no
central ask update
central enter 26 = Some(Update)
central send 1 26 = ConnectionUpdateInd { win_size: 1, win_offset: 0, interval: 24, latency: 0, \
    timeout: 100, instant: 7 } Some(Update { win_offset: 0, interval: 24, latency: 0, \
    timeout: 100, instant: 7 })
central apply = Some(Update)
peripheral take 170 000100001800000064000700 = Step { effect: Indicated(Update { win_offset: 0, \
    interval: 24, latency: 0, timeout: 100, instant: 7 }), ends: None, refused: None, done: None }
track follow = yes
peripheral busy = yes
track enter 1 = yes
peripheral apply = None
peripheral busy = no
track follow = no
central ask all_channels
central enter 170 = Some(Map)
central next 7 = None
central next 8 = Some(ChannelMapInd { map: 0x1fffffffff, instant: 14 })
new
# Requests are judged.
# A request whose least interval is 5 is rejected with Invalid LL Parameters, and one that the
# host does not want with the reason of the host.
central take 26 0f0500200000004800000100ffffffffffffffffffffffff = Step { effect: Nothing, \
    ends: None, refused: None, done: None }
central next 1 = Some(RejectExtInd { opcode: 0x0f, code: 0x1e })
central busy = no
new
peripheral ask request
peripheral enter 26 = Some(Request)
peripheral send 1 26 = ConnectionParamReq { interval_min: 32, interval_max: 32, latency: 0, \
    timeout: 72, periodicity: 0, reference: 1, offsets: [0xffff, 0xffff, 0xffff, 0xffff, 0xffff, \
    0xffff] } None
central take 26 0f2000200000004800000100ffffffffffffffffffffffff = Step { effect: AskHost { \
    min: 32, max: 32, latency: 0, timeout: 72 }, ends: None, refused: None, done: None }
peripheral acked = None
central refuse 1a
central send 2 50 = RejectExtInd { opcode: 0x0f, code: 0x1a } None
peripheral take 50 110f1a = Step { effect: Nothing, ends: None, refused: Some((Request, \
    ErrCode(0x1a))), done: None }
central acked = None
central busy = no
peripheral busy = no
new
# A crowd of control PDUs.
# While fifteen control PDUs wait, the host of the central is asked. While sixteen wait, the link
# ends with Memory Capacity Exceeded where it would be asked.
central crowd 15
central take 26 0f2000200000004800000100ffffffffffffffffffffffff = Step { effect: AskHost { \
    min: 32, max: 32, latency: 0, timeout: 72 }, ends: None, refused: None, done: None }
new
central crowd 16
central take 26 0f2000200000004800000100ffffffffffffffffffffffff = Step { effect: Nothing, \
    ends: Some(ErrCode(0x07)), refused: None, done: None }
new
# One indication waits for its Instant.
# A second one that is taken meanwhile ends the link: with LL Procedure Collision where it is of the
# same procedure, and else with Different Transaction Collision.
peripheral take 26 01ffffffff010700 = Step { effect: Indicated(Map { map: ChannelMap { \
    bits: 0x01ffffffff }, instant: 7 }), ends: None, refused: None, done: None }
peripheral take 50 000100001800000064000700 = Step { effect: Nothing, \
    ends: Some(ErrCode(0x2a)), refused: None, done: None }
peripheral take 50 01ffffffff010700 = Step { effect: Nothing, \
    ends: Some(ErrCode(0x23)), refused: None, done: None }
new
peripheral take 26 000100001800000064000700 = Step { effect: Indicated(Update { win_offset: 0, \
    interval: 24, latency: 0, timeout: 100, instant: 7 }), ends: None, refused: None, done: None }
peripheral take 50 000100001800000064000700 = Step { effect: Nothing, \
    ends: Some(ErrCode(0x23)), refused: None, done: None }
peripheral take 50 01ffffffff010700 = Step { effect: Nothing, \
    ends: Some(ErrCode(0x2a)), refused: None, done: None }
new
# Response times out.
# The peer has 32,000 slots from the slot in which LL_LENGTH_REQ was first sent.
central ask length
central enter 26 = Some(Length)
central tick 40000 = None
central send 1 26 = LengthReq { max_rx_octets: 251, max_rx_time: 2120, max_tx_octets: 100, \
    max_tx_time: 912 } None
peripheral take 26 14fb00480864009003 = Step { effect: Lengths { rx: 100, tx: 27 }, ends: None, \
    refused: None, done: None }
central acked = None
peripheral lengths = (100, 27)
central tick 32025 = None
central tick 32026 = Some(ErrCode(0x22))
new
# Encryption is refused.
# An encryption start that the peripheral refuses, and a Disconnect while it is awaited.
central ask encrypt
central enter 26 = Some(Encrypt)
central waiting = 0
central owe 0300000000000000000000020000000000000003000000
central next_unquiet 1 = Some(EncReq { rand: 0, ediv: 0, skd_m: 2, iv_m: 3 })
central terminate 13
central next 1 = Some(TerminateInd { code: 0x13 })
central next_unquiet 1 = Some(EncReq { rand: 0, ediv: 0, skd_m: 2, iv_m: 3 })
central take 27 110306 = Step { effect: Nothing, ends: None, refused: None, done: None }
central send_unquiet 1 26 = EncReq { rand: 0, ediv: 0, skd_m: 2, iv_m: 3 } None
central take 50 110306 = Step { effect: Nothing, ends: None, refused: Some((Encrypt, \
    ErrCode(0x06))), done: None }
";

#[test]
fn runs_of_both_ends(rt: HostRuntime) -> Result<(), AllocError> {
    check(&rt, rt.alloc(), RUNS)
}
