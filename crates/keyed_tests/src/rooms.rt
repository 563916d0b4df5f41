//! Control PDUs that wait leave no room for an answer.
ghost use Rattle.std.specs.Prelude.{◌≤◌};
ghost use Rattle.phased_end.specs.Reached.{IsReached};

use crate::sample::{DRAWN, REQUEST, params};
use ble_base::{ErrCode, Role, SlotNo};
use data_pdu::CtrlRead;
use phased_end::PhasedEnd;

/// A peripheral with this number of LL_UNKNOWN_RSP that wait.
fn crowded(count: u8) -> PhasedEnd
    ensures reached { IsReached result }
    ensures entered { 1 ≤ result.control.track.entered }
{
    let mut peripheral = PhasedEnd::new(Role::Peripheral, 27, params(), SlotNo(2));
    peripheral.enter(SlotNo(2));
    for _ in 0..count {
        peripheral.take(&CtrlRead::Unknown(0x2A), SlotNo(2), DRAWN);
    }
    peripheral
}

#[test]
fn sixteen_control_pdus_leave_no_room(rt: HostRuntime) {
    let mut peripheral = crowded(15);
    assert_eq!(rt; peripheral.waiting(), 15);
    peripheral.take(&CtrlRead::Known(REQUEST), SlotNo(2), DRAWN);
    assert_eq!(rt; (peripheral.awaits_key(), peripheral.ends()), (true, None));
    let mut crowd = crowded(16);
    assert_eq!(rt; (crowd.waiting(), crowd.ends()), (16, None));
    // LL_ENC_REQ would be answered: the link ends with Memory Capacity Exceeded.
    crowd.take(&CtrlRead::Known(REQUEST), SlotNo(2), DRAWN);
    assert_eq!(rt; crowd.ends(), Some(ErrCode::MEMORY_CAPACITY_EXCEEDED));
}
