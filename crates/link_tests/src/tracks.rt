//! Calls on the parameters of a link, and what each gives, as words.
ghost use Rattle.std.specs.Prelude.{◌≤◌};
ghost use Rattle.instants.specs.Track.{HasInterval};

use ble_base::{ChannelMap, SlotNo, instant_gap};
use instants::{Indication, ParamTrack, Params};
use std::alloc::AllocError;
use test_words::{Call, number, put_answer, put_number};

/// The channels 0 to 32.
const LOW_CHANNELS: u64 = 0x01_FFFF_FFFF;

/// A link whose event 0 has its anchor in slot 2, with 30 ms from one event to the next, which are
/// 24 slots, no latency, a supervision timeout of 720 ms and all channels.
pub(crate) fn new_track() -> ParamTrack {
    let params = Params {
        interval: 24,
        latency: 0,
        timeout: 72,
        map: ChannelMap::default(),
    };
    ParamTrack::new(params, SlotNo(2))
}

/// Makes a call on the parameters of a link.
pub(crate) fn take(
    track: &mut ParamTrack,
    call: Call<'_>,
    told: &mut String,
) -> Result<(), AllocError> {
    let [first, second, ..] = call.words;
    match call.name {
        "enter" => enter(track, number(first), told),
        "update" => hear(track, update(number(first), number(second)), told),
        "map" => hear(track, low_channels(number(first)), told),
        "gap" => put_gap(told, number(first), number(second)),
        "free" => put_answer(told, track.free()),
        "anchor" => put_number(told, track.next_anchor().0),
        "params" => put_params(track.params(), told),
        _ => told.push_str(" which call?"),
    }
}

/// Writes the number of events from one to an Instant.
fn put_gap(told: &mut String, instant: u16, now: u16) -> Result<(), AllocError> {
    put_number(told, u64::from(instant_gap(instant, now)))
}

/// Enters this number of events, and writes the number of each indication that they apply.
fn enter(track: &mut ParamTrack, count: u16, told: &mut String) -> Result<(), AllocError> {
    for _ in 0..count {
        enter_one(track, told)?;
    }
    Ok(())
}

/// Enters an event, and writes the number of the indication that it applies.
fn enter_one(track: &mut ParamTrack, told: &mut String) -> Result<(), AllocError> {
    if track.next_anchor().0 >= 1 << 32 {
        return told.push_str(" too late");
    }
    match track.enter() {
        None => Ok(()),
        Some(number) => put_number(told, number),
    }
}

/// An update to an interval of 48 slots.
fn update(win_offset: u16, instant: u16) -> Indication
    ensures { HasInterval result }
{
    Indication::Update {
        win_offset,
        interval: 48,
        latency: 0,
        timeout: 100,
        instant,
    }
}

/// A map of 33 channels.
fn low_channels(instant: u16) -> Indication
    ensures { HasInterval result }
{
    Indication::Map {
        map: ChannelMap::new(LOW_CHANNELS).unwrap_or_default(),
        instant,
    }
}

/// Enters an event and takes an indication in it, and writes the event and whether it was taken.
fn hear(track: &mut ParamTrack, indication: Indication, told: &mut String) -> Result<(), AllocError>
    requires { HasInterval indication }
{
    if track.next_anchor().0 >= 1 << 32 {
        return told.push_str(" too late");
    }
    track.enter();
    let event = track.event();
    if !track.free() {
        return told.push_str(" busy");
    }
    let is_taken = track.take(indication).is_ok();
    put_number(told, event.0)?;
    put_answer(told, is_taken)
}

/// Writes the interval, the latency, the supervision timeout and the number of channels.
fn put_params(params: Params, told: &mut String) -> Result<(), AllocError> {
    put_number(told, u64::from(params.interval))?;
    put_number(told, u64::from(params.latency))?;
    put_number(told, u64::from(params.timeout))?;
    put_number(told, u64::from(params.map.count()))
}
