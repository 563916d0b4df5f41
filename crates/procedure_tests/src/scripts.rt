//! Scripts: calls on both ends of a link, each with what it gives. Numbers after 0x are
//! hexadecimal, and a value is as `Debug` writes it.
ghost use Rattle.instants.specs.Track.{HasInterval};

use crate::calls::take;
use ble_base::{ChannelMap, Role, SlotNo};
use instants::{Indication, ParamTrack, Params};
use procedures::ProcTable;
use std::alloc::{AllocError, Global};
use std::process::Abort;
use test_words::{Call, TakesCalls, first_wrong, number, put_answer};

/// Both ends of a link, and the parameters of the peripheral.
#[derive(Drop)]
struct Ends {
    central: ProcTable,
    peripheral: ProcTable,
    track: ParamTrack,
}

/// A central and a peripheral, each with the lengths of a new link and 251 octets to receive. The
/// link has 30 ms from one event to the next.
fn new_ends() -> Ends {
    let params = Params {
        interval: 24,
        latency: 0,
        timeout: 72,
        map: ChannelMap::default(),
    };
    Ends {
        central: ProcTable::new(Role::Central, 251),
        peripheral: ProcTable::new(Role::Peripheral, 251),
        track: ParamTrack::new(params, SlotNo(2)),
    }
}

/// Each line has a call, and after " =" what it gives. Both ends are new before the first line. A
/// line that begins with "#" says what follows.
pub(crate) fn check(rt: &impl Abort, alloc: Global, script: &str) -> Result<(), AllocError> {
    let mut ends = new_ends();
    let wrong = first_wrong(&mut ends, alloc, script)?;
    assert_eq!(rt; wrong.as_str(), "");
    Ok(())
}

impl TakesCalls for Ends {
    /// Makes a call on a side. At "new" both ends are new.
    fn take(&mut self, side: &str, call: Call<'_>, told: &mut String) -> Result<(), AllocError> {
        match side {
            "central" => take(&mut self.central, call, told),
            "peripheral" => take(&mut self.peripheral, call, told),
            "track" => take_event(&mut self.track, call, told),
            "new" => self.begin(),
            "#" => Ok(()),
            _ => told.push_str(" which side?"),
        }
    }
}

impl Ends {
    /// Both ends are new.
    fn begin(&mut self) -> Result<(), AllocError> {
        *self = new_ends();
        Ok(())
    }
}

/// Enters events, or follows an indication in the next one.
fn take_event(track: &mut ParamTrack, call: Call<'_>, told: &mut String) -> Result<(), AllocError> {
    match call.name {
        "enter" => put_answer(told, enter_events(track, number(call.words[0]))),
        "follow" => put_answer(told, follows_in_next(track)),
        _ => told.push_str(" which call?"),
    }
}

/// Enters this number of events, and gives whether an indication holds from the last of them.
fn enter_events(track: &mut ParamTrack, count: u16) -> bool {
    let mut applied = false;
    for _ in 0..count {
        if track.next_anchor().0 < 1 << 32 {
            applied = track.enter().is_some();
        }
    }
    applied
}

/// Enters the next event and follows the indication of an update to 30 ms, from event 7. False if
/// its Instant has passed.
fn follows_in_next(track: &mut ParamTrack) -> bool {
    if track.next_anchor().0 >= 1 << 32 {
        return false;
    }
    track.enter();
    track.free() && track.take(update_at_7()).is_ok()
}

/// The indication of an update to 30 ms, from event 7.
fn update_at_7() -> Indication
    ensures { HasInterval result }
{
    Indication::Update {
        win_offset: 0,
        interval: 24,
        latency: 0,
        timeout: 100,
        instant: 7,
    }
}
