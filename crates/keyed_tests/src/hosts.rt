//! What the host of an end asks, answers and ends.
use crate::sample::{DRAWN, REQUEST, params};
use ble_base::{ErrCode, Kind, Role, SlotNo};
use data_pdu::{Ctrl, CtrlRead};
use phased_end::PhasedEnd;
use procedures::Ask;

#[test]
fn a_host_ends_the_link(rt: HostRuntime) {
    let mut peripheral = PhasedEnd::new(Role::Peripheral, 27, params(), SlotNo(2));
    peripheral.enter(SlotNo(2));
    peripheral.disconnect(ErrCode::REMOTE_USER_TERMINATED);
    assert_eq!(rt; peripheral.is_closing(), true);
    assert_eq!(rt; peripheral.next(), Some(Ctrl::TerminateInd { code: 0x13 }));
    // No key is asked for while the link is to end.
    peripheral.take(&CtrlRead::Known(REQUEST), SlotNo(2), DRAWN);
    assert_eq!(rt; peripheral.awaits_key(), false);
    assert_eq!(rt; peripheral.ends(), None);
}

#[test]
fn a_peer_that_does_not_answer_is_late_after_forty_seconds(rt: HostRuntime) {
    let mut central = PhasedEnd::new(Role::Central, 27, params(), SlotNo(2));
    assert_eq!(rt; central.may_ask(Kind::Features), true);
    central.ask(Ask::Features);
    assert_eq!(rt; central.may_ask(Kind::Features), false);
    central.enter(SlotNo(2));
    central.send(SlotNo(2));
    assert_eq!(rt; central.is_out(), true);
    assert_eq!(rt; central.tick(SlotNo(32_001)), None);
    assert_eq!(rt;
        central.tick(SlotNo(32_002)),
        Some(ErrCode::LL_RESPONSE_TIMEOUT)
    );
}

#[test]
fn a_host_refuses_parameters(rt: HostRuntime) {
    let mut central = PhasedEnd::new(Role::Central, 27, params(), SlotNo(2));
    central.enter(SlotNo(2));
    let request = Ctrl::ConnectionParamReq {
        interval_min: 24,
        interval_max: 40,
        latency: 0,
        timeout: 72,
        periodicity: 0,
        reference: 0,
        offsets: [0xFFFF; 6],
    };
    assert_eq!(rt; central.awaits_host(), false);
    central.take(&CtrlRead::Known(request), SlotNo(2), DRAWN);
    assert_eq!(rt; central.awaits_host(), true);
    central.answer(Err(ErrCode::UNACCEPTABLE_PARAMETERS));
    assert_eq!(rt; central.awaits_host(), false);
    // LL_REJECT_EXT_IND with the opcode of LL_CONNECTION_PARAM_REQ.
    let refusal = Ctrl::RejectExtInd {
        opcode: 0x0F,
        code: 0x3B,
    };
    assert_eq!(rt; central.next(), Some(refusal));
}
