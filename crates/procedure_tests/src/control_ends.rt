//! An update of a central, through the control parts of both ends of its link.
ghost use Rattle.std.specs.Prelude.{◌≡◌};

use ble_base::{ChannelMap, Kind, Role, SlotNo};
use control_end::{ControlEnd, Entry};
use data_pdu::{Ctrl, CtrlRead};
use instants::Params;
use procedures::{Ask, Effect};

/// Parameters with this interval, in 1.25 ms, and this timeout, in 10 ms.
fn params(interval: u16, timeout: u16) -> Params
    ensures interval { result.interval ≡ interval }
    ensures latency { result.latency ≡ 0 }
{
    Params {
        interval,
        latency: 0,
        timeout,
        map: ChannelMap::default(),
    }
}

/// Enters the next event, in this slot.
fn enter(end: &mut ControlEnd, slot: u64) -> Option<Entry> {
    if end.next_anchor().0 >= 1 << 32 || end.waiting() >= 24 {
        return None;
    }
    Some(end.enter(SlotNo(slot), true))
}

#[test]
fn an_update_holds_at_both_ends(rt: HostRuntime) {
    let mut central = ControlEnd::new(Role::Central, 251, params(24, 72), SlotNo(2));
    let mut peripheral = ControlEnd::new(Role::Peripheral, 251, params(24, 72), SlotNo(2));
    central.ask(Ask::Update {
        interval: 32,
        latency: 0,
        timeout: 100,
    });
    let entry = central.enter(SlotNo(2), true);
    assert_eq!(rt; entry.began, Some(Kind::Update));
    peripheral.enter(SlotNo(2), true);
    let nothing = Entry {
        applied: None,
        updated: false,
        done: None,
        began: None,
    };
    // The Instant is six events ahead.
    let update = Ctrl::ConnectionUpdateInd {
        win_size: 1,
        win_offset: 0,
        interval: 32,
        latency: 0,
        timeout: 100,
        instant: 6,
    };
    assert_eq!(rt; central.next(true), Some(update));
    central.send(SlotNo(2), true);
    let taken = peripheral.take(&CtrlRead::Known(update), SlotNo(2), true);
    assert_eq!(rt; taken.effect, Effect::Nothing);
    assert_eq!(rt; central.acked(), None);
    // Events 1 to 5 have the old interval.
    for slot in [26, 50, 74, 98, 122] {
        assert_eq!(rt; enter(&mut central, slot), Some(nothing));
        assert_eq!(rt; enter(&mut peripheral, slot), Some(nothing));
    }
    assert_eq!(rt;
        (central.params().interval, peripheral.params().interval),
        (24, 24)
    );
    // From event 6 on both have the new one.
    let held = Entry {
        applied: Some(1),
        updated: true,
        ..nothing
    };
    let done = Entry {
        done: Some(Kind::Update),
        ..held
    };
    assert_eq!(rt; enter(&mut central, 146), Some(done));
    assert_eq!(rt; enter(&mut peripheral, 146), Some(held));
    assert_eq!(rt;
        (central.params(), peripheral.params()),
        (params(32, 100), params(32, 100))
    );
    assert_eq!(rt;
        (central.next_anchor(), peripheral.next_anchor()),
        (SlotNo(178), SlotNo(178))
    );
}
