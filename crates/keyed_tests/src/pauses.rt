//! A pause of encryption and a restart with other keys, and a PDU that a central keeps meanwhile.
ghost use Rattle.std.specs.Prelude.{◌≤◌};
ghost use Rattle.phased_end.specs.Reached.{IsReached};

use crate::sample::{DRAWN, FROM_CENTRAL, LTK, OPCODE, REQUEST, RESPONSE, params};
use ble_base::{ErrCode, Kind, Role, SlotNo};
use data_pdu::{Ctrl, CtrlRead};
use enc_phase::PhaseFacts;
use phased_end::PhasedEnd;
use procedures::Ask;

/// LL_LENGTH_REQ of a peripheral with 251 octets in 2120 us, each way.
const LENGTHS: Ctrl = Ctrl::LengthReq {
    max_rx_octets: 251,
    max_rx_time: 2120,
    max_tx_octets: 251,
    max_tx_time: 2120,
};

/// A central that asked for encryption with another long term key than that of the sample data, and
/// took LL_ENC_RSP.
fn asking() -> PhasedEnd
    ensures reached { IsReached result }
    ensures entered { 1 ≤ result.control.track.entered }
{
    let mut central = PhasedEnd::new(Role::Central, 27, params(), SlotNo(2));
    central.ask(Ask::Encrypt {
        rand: 0,
        ediv: 0,
        ltk: [0x11; 16],
        skd_m: 1,
        iv_m: 2,
    });
    central.enter(SlotNo(2));
    central.send(SlotNo(2));
    central.acked();
    central.take(&CtrlRead::Known(RESPONSE), SlotNo(26), DRAWN);
    central
}

/// The same central once its session has begun and both LL_START_ENC_RSP have passed.
fn start(central: &mut PhasedEnd)
    requires reached { IsReached central.old }
    requires entered { 1 ≤ central.old.control.track.entered }
    ensures reached { IsReached central.new }
    ensures entered { 1 ≤ central.new.control.track.entered }
{
    central.take(&CtrlRead::Known(Ctrl::StartEncReq), SlotNo(26), DRAWN);
    central.send(SlotNo(26));
    central.acked();
    central.take(&CtrlRead::Known(Ctrl::StartEncRsp), SlotNo(26), DRAWN);
}

#[test]
fn a_central_keeps_a_request_until_it_is_secure(rt: HostRuntime) {
    let mut central = asking();
    central.take(&CtrlRead::Known(LENGTHS), SlotNo(26), DRAWN);
    assert_eq!(rt; central.next(), None);
    start(&mut central);
    assert_eq!(rt; central.facts(), PhaseFacts::Secure);
    // It receives and transmits 27 octets at most, in 328 us.
    let response = Ctrl::LengthRsp {
        max_rx_octets: 27,
        max_rx_time: 328,
        max_tx_octets: 27,
        max_tx_time: 328,
    };
    assert_eq!(rt; central.next(), Some(response));
}

#[test]
fn a_second_request_meanwhile_ends_a_central(rt: HostRuntime) {
    let mut central = asking();
    central.take(&CtrlRead::Known(LENGTHS), SlotNo(26), DRAWN);
    assert_eq!(rt; central.ends(), None);
    let features = Ctrl::PeripheralFeatureReq { features: 1 };
    central.take(&CtrlRead::Known(features), SlotNo(26), DRAWN);
    assert_eq!(rt; central.ends(), Some(ErrCode::MIC_FAILURE));
}

#[test]
fn a_pause_and_a_restart_have_the_keys_of_the_restart(rt: HostRuntime) {
    let mut central = asking();
    start(&mut central);
    central.ask(Ask::Encrypt {
        rand: 0xABCDEF1234567890,
        ediv: 0x2474,
        ltk: LTK,
        skd_m: 0xACBDCEDFE0F10213,
        iv_m: 0xBADCAB24,
    });
    assert!(rt; central.sent() < 1 << 39);
    central.seal(0x0F, &OPCODE);
    assert_eq!(rt; central.sent(), 1);
    assert!(rt; central.next_anchor().0 < 1 << 32);
    let entry = central.enter(SlotNo(26));
    assert_eq!(rt; entry.began, Some(Kind::Encrypt));
    assert_eq!(rt; central.next(), Some(Ctrl::PauseEncReq));
    central.send(SlotNo(26));
    central.acked();
    central.take(&CtrlRead::Known(Ctrl::PauseEncRsp), SlotNo(26), DRAWN);
    assert_eq!(rt; central.next(), Some(Ctrl::PauseEncRsp));
    central.send(SlotNo(26));
    central.acked();
    assert_eq!(rt; central.next(), Some(REQUEST));
    assert_eq!(rt; (central.sent(), central.opened()), (0, 0));
    central.send(SlotNo(26));
    central.acked();
    central.take(&CtrlRead::Known(RESPONSE), SlotNo(26), DRAWN);
    central.take(&CtrlRead::Known(Ctrl::StartEncReq), SlotNo(26), DRAWN);
    assert_eq!(rt; (central.sent(), central.opened()), (0, 0));
    assert!(rt; central.sent() < 1 << 39);
    assert_eq!(rt;
        central.seal(0x0F, &OPCODE).as_slice(),
        FROM_CENTRAL.as_slice()
    );
}
