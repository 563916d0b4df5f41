//! Encryption starts at a central and at a peripheral.
use crate::sample::{DRAWN, FROM_CENTRAL, FROM_PERIPHERAL, LTK, OPCODE, REQUEST, RESPONSE, params};
use ble_base::{ErrCode, Kind, Role, SlotNo};
use data_pdu::{Ctrl, CtrlRead};
use enc_phase::PhaseFacts;
use keyed_control::Response;
use phased_end::PhasedEnd;
use procedures::Ask;

#[test]
fn a_central_starts_with_the_sample(rt: HostRuntime) {
    let none = Response { skd_s: 0, iv_s: 0 };
    let mut central = PhasedEnd::new(Role::Central, 27, params(), SlotNo(2));
    central.ask(Ask::Encrypt {
        rand: 0xABCDEF1234567890,
        ediv: 0x2474,
        ltk: LTK,
        skd_m: 0xACBDCEDFE0F10213,
        iv_m: 0xBADCAB24,
    });
    let entry = central.enter(SlotNo(2));
    assert_eq!(rt; entry.began, Some(Kind::Encrypt));
    assert_eq!(rt; central.next(), Some(REQUEST));
    central.send(SlotNo(2));
    assert_eq!(rt; central.acked(), None);
    central.take(&CtrlRead::Known(RESPONSE), SlotNo(26), none);
    central.take(&CtrlRead::Known(Ctrl::StartEncReq), SlotNo(50), none);
    assert_eq!(rt; central.next(), Some(Ctrl::StartEncRsp));
    central.send(SlotNo(50));
    assert_eq!(rt;
        central.seal(0x0F, &OPCODE).as_slice(),
        FROM_CENTRAL.as_slice()
    );
    assert_eq!(rt; central.open(0x07, &FROM_PERIPHERAL).is_ok(), true);
    central.take(&CtrlRead::Known(Ctrl::StartEncRsp), SlotNo(74), none);
    assert_eq!(rt; central.facts(), PhaseFacts::Secure);
    assert_eq!(rt; (central.sent(), central.opened()), (1, 1));
}

#[test]
fn a_peripheral_starts_with_the_sample(rt: HostRuntime) {
    let mut peripheral = PhasedEnd::new(Role::Peripheral, 27, params(), SlotNo(2));
    peripheral.enter(SlotNo(2));
    peripheral.take(&CtrlRead::Known(REQUEST), SlotNo(2), DRAWN);
    assert_eq!(rt; peripheral.awaits_key(), true);
    assert_eq!(rt; peripheral.next(), Some(RESPONSE));
    peripheral.send(SlotNo(2));
    assert_eq!(rt; peripheral.acked(), None);
    peripheral.give_key(LTK);
    assert_eq!(rt; peripheral.next(), Some(Ctrl::StartEncReq));
    peripheral.send(SlotNo(26));
    peripheral.acked();
    assert_eq!(rt; peripheral.would_open(0x0F, &FROM_CENTRAL), true);
    assert_eq!(rt; peripheral.open(0x0F, &FROM_CENTRAL).is_ok(), true);
    peripheral.take(&CtrlRead::Known(Ctrl::StartEncRsp), SlotNo(50), DRAWN);
    assert_eq!(rt; peripheral.facts(), PhaseFacts::Secure);
    assert_eq!(rt; peripheral.waiting(), 1);
    if peripheral.sent() < 1 << 39 {
        let sealed = peripheral.seal(0x07, &OPCODE);
        assert_eq!(rt; sealed.as_slice(), FROM_PERIPHERAL.as_slice());
    }
    assert_eq!(rt; (peripheral.sent(), peripheral.opened()), (1, 1));
}

#[test]
fn a_peripheral_without_a_key_refuses(rt: HostRuntime) {
    let mut peripheral = PhasedEnd::new(Role::Peripheral, 27, params(), SlotNo(2));
    peripheral.enter(SlotNo(2));
    peripheral.take(&CtrlRead::Known(REQUEST), SlotNo(2), DRAWN);
    peripheral.send(SlotNo(2));
    peripheral.acked();
    peripheral.lack_key();
    // LL_REJECT_EXT_IND with the opcode of LL_ENC_REQ and 06, PIN or Key Missing.
    let refusal = Ctrl::RejectExtInd {
        opcode: 0x03,
        code: 0x06,
    };
    assert_eq!(rt; peripheral.next(), Some(refusal));
    assert_eq!(rt; peripheral.facts(), PhaseFacts::Clear);
    assert_eq!(rt; peripheral.ends(), None);
}

#[test]
fn data_in_asked_ends_a_peripheral(rt: HostRuntime) {
    let mut peripheral = PhasedEnd::new(Role::Peripheral, 27, params(), SlotNo(2));
    peripheral.enter(SlotNo(2));
    peripheral.take(&CtrlRead::Known(REQUEST), SlotNo(2), DRAWN);
    peripheral.take_data();
    assert_eq!(rt; peripheral.ends(), Some(ErrCode::MIC_FAILURE));
    assert_eq!(rt; peripheral.next(), None);
}

#[test]
fn a_forged_packet_ends_a_peripheral(rt: HostRuntime) {
    let mut peripheral = PhasedEnd::new(Role::Peripheral, 27, params(), SlotNo(2));
    peripheral.enter(SlotNo(2));
    peripheral.take(&CtrlRead::Known(REQUEST), SlotNo(2), DRAWN);
    peripheral.give_key(LTK);
    // The last octet of the integrity code differs.
    let forged = [0x9F, 0xCD, 0xA7, 0xF4, 0x49];
    assert_eq!(rt; peripheral.would_open(0x0F, &forged), false);
    assert_eq!(rt; peripheral.open(0x0F, &forged).is_ok(), false);
    peripheral.hear_forged();
    assert_eq!(rt; peripheral.ends(), Some(ErrCode::MIC_FAILURE));
    assert_eq!(rt; peripheral.next(), None);
    // It opens what the session has next all the same.
    assert_eq!(rt; peripheral.open(0x0F, &FROM_CENTRAL).is_ok(), true);
    assert_eq!(rt; peripheral.opened(), 1);
}
