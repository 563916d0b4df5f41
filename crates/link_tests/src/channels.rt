//! Channels of the standard's sample data, and against plain programs.
use crate::plain::{plain_by_hop, plain_by_number};
use crate::scripts::check;
use ble_base::{ChannelMap, EventNo};
use chan_select::Selector;
use chan_select::laws::{hop_is_added_each_event, numbers_of_the_sample_data};
use std::alloc::AllocError;
use test_words::{Call, hex_number, put_number, slot};

/// The access address of the sample data of Core 5.2, volume 6 part C, section 3.
const SAMPLE: u32 = 0x8E89_BED6;

/// Makes a call on the selection of channels of a map.
pub(crate) fn take(call: Call<'_>, told: &mut String) -> Result<(), AllocError> {
    let [map, event, ..] = call.words;
    match ChannelMap::new(hex_number(*told.allocator(), map)) {
        None => told.push_str(" no map"),
        Some(map) => select(call.name, &map, slot(event), told),
    }
}

/// Selects the channel of an event, or of the next 80 ones.
fn select(name: &str, map: &ChannelMap, event: u32, told: &mut String) -> Result<(), AllocError> {
    match name {
        "by_number" => put_number(told, u64::from(by_number(event, map))),
        "by_hop" => put_number(told, u64::from(by_hop(event, map))),
        "plain" => put_difference(told, first_difference(map, event)),
        _ => told.push_str(" which call?"),
    }
}

/// Writes the event in which two programs differ.
fn put_difference(told: &mut String, event: Option<u32>) -> Result<(), AllocError> {
    match event {
        None => told.push_str(" same"),
        Some(event) => put_number(told, u64::from(event)),
    }
}

const CHANNELS: &str = "\
# Algorithm #2 as in the sample data of Core 5.2, volume 6 part C, section 3: on all channels, and
# on the channels 9, 10, 21, 22, 23, 33, 34, 35 and 36.
channel by_number 1fffffffff 0 = 25
channel by_number 1fffffffff 1 = 20
channel by_number 1fffffffff 2 = 6
channel by_number 1fffffffff 3 = 21
channel by_number 1e00e00600 6 = 23
channel by_number 1e00e00600 7 = 9
channel by_number 1e00e00600 8 = 34
# Algorithm #1 as worked out by hand where its counter wraps.
channel by_hop 1fffffffff 65535 = 33
channel by_hop 1fffffffff 65536 = 12
channel by_hop 1fffffffff 65537 = 28
# Both algorithms against programs that go by single steps and single bits, on six maps, from four
# events on.
channel plain 1fffffffff 0 = same
channel plain 1fffffffff 65500 = same
channel plain 1fffffffff 131060 = same
channel plain 1fffffffff 4294967040 = same
channel plain 1e00e00600 0 = same
channel plain 1e00e00600 65500 = same
channel plain 1e00e00600 131060 = same
channel plain 1e00e00600 4294967040 = same
channel plain 1000000001 0 = same
channel plain 1000000001 65500 = same
channel plain 1000000001 131060 = same
channel plain 1000000001 4294967040 = same
channel plain 1555555555 0 = same
channel plain 1555555555 65500 = same
channel plain 1555555555 131060 = same
channel plain 1555555555 4294967040 = same
channel plain 0000000006 0 = same
channel plain 0000000006 65500 = same
channel plain 0000000006 131060 = same
channel plain 0000000006 4294967040 = same
channel plain 001fff8000 0 = same
channel plain 001fff8000 65500 = same
channel plain 001fff8000 131060 = same
channel plain 001fff8000 4294967040 = same
";

#[test]
fn channels_of_events(rt: HostRuntime) -> Result<(), AllocError> {
    check(&rt, rt.alloc(), CHANNELS)?;
    hop_is_added_each_event();
    numbers_of_the_sample_data();
    Ok(())
}

/// The channel of an event by algorithm #1 with a hop increment of 16.
fn by_hop(event: u32, map: &ChannelMap) -> u8 {
    Selector::one(16).channel(EventNo(u64::from(event)), map)
}

/// The channel of an event by algorithm #2 with the access address of the sample data.
fn by_number(event: u32, map: &ChannelMap) -> u8 {
    Selector::two(SAMPLE).channel(EventNo(u64::from(event)), map)
}

/// The first of 80 events in which a channel is not that of the plain programs.
fn first_difference(map: &ChannelMap, first: u32) -> Option<u32> {
    (first..first.saturating_add(80)).find(|event| differs_by_hop(map, *event)
        || differs_by_number(map, *event))
}

/// Whether algorithm #1 selects another channel than the plain program, with one of these hops.
fn differs_by_hop(map: &ChannelMap, event: u32) -> bool {
    let event = u64::from(event);
    for hop in 5..17 {
        let channel = Selector::one(hop).channel(EventNo(event), map);
        if channel != plain_by_hop(hop, event, map.bits()) {
            return true;
        }
    }
    false
}

/// Whether algorithm #2 selects another channel than the plain program, with one of these access
/// addresses.
fn differs_by_number(map: &ChannelMap, event: u32) -> bool {
    differs_with(SAMPLE, map, event)
        || differs_with(0x7176_4129, map, event)
        || differs_with(0x50C2_33A1, map, event)
        || differs_with(0, map, event)
}

/// Whether algorithm #2 selects another channel than the plain program, with this access address.
fn differs_with(access: u32, map: &ChannelMap, event: u32) -> bool {
    let event = u64::from(event);
    Selector::two(access).channel(EventNo(event), map) != plain_by_number(access, event, map.bits())
}
