//! Channel selection algorithm #1 (Core 5.2, volume 6 part B, section 4.5.8.2).

ghost use Rattle.std.specs.Prelude.{◌≡◌, ◌<◌, ◌^◌, Contains};
ghost use Rattle.ble_base.specs.ChannelMap.{used_channels};
ghost use Rattle.chan_select.specs.Hopping.{unmapped_channel, channel_one};

use ble_base::{ChannelMap, EventNo};

/// The data channel of an event below 2^32, 0 to 36, for a link with this hop increment.
pub(crate) fn channel_one(hop: u8, event: EventNo, map: &ChannelMap) -> u8
    requires { event.0 < 2 ^ 32 }
    ensures channel { result ≡ channel_one hop event.0 map.now }
    ensures used { Contains (used_channels map.now) result }
    ensures data { result < 37 }
{
    let unmapped = unmapped_channel(hop, event);
    if map.uses(unmapped) {
        unmapped
    } else {
        map.nth(unmapped % map.count())
    }
}

/// unmappedChannel of an event below 2^32: its channel before remapping, 0 to 36.
fn unmapped_channel(hop: u8, event: EventNo) -> u8
    requires { event.0 < 2 ^ 32 }
    ensures channel { result ≡ unmapped_channel hop event.0 }
    ensures data { result < 37 }
{
    (u64::from(hop) * (event.0 + 1) % 37) as u8
}
