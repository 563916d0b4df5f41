//! When a scanner or an initiator listens.
ghost use Rattle.std.specs.Prelude.{◌≡◌, ◌≤◌, ◌<◌, IfSome};
ghost use Rattle.scan_init.specs.Windows.{scan_channel, slots_of};

use ble_base::SlotNo;

/// The first of the three advertising channels (Core 5.2, volume 6 part B, section 1.4.1).
const FIRST_ADVERTISING_CHANNEL: u8 = 37;

/// How many advertising channels there are.
const CHANNELS: u64 = 3;

/// Units of 0.625 ms in slots of 1.25 ms, rounded up.
pub fn slots_of(units: u16) -> u64
    ensures { result ≡ slots_of units }
{
    (u64::from(units) + 1) / 2
}

/// The channel on which a scanner or an initiator listens in a slot. The interval and the window
/// are in units of 0.625 ms; `since` is the slot in which it began.
/// A slot before that is as that one.
pub(crate) fn scan_channel(interval: u16, window: u16, since: SlotNo, slot: SlotNo) -> Option<u8>
    requires interval { 1 ≤ interval }
    ensures value { result ≡ scan_channel interval window since.0 slot.0 }
    ensures channel { IfSome result (λ channel. channel < 40) }
{
    let elapsed = slot.0.saturating_sub(since.0);
    let interval = slots_of(interval);
    if elapsed % interval < slots_of(window) {
        Some(FIRST_ADVERTISING_CHANNEL + (elapsed / interval % CHANNELS) as u8)
    } else {
        None
    }
}
