//! The indications that an end follows.
ghost use Rattle.std.specs.Prelude.{◌≡◌, ◌≤◌, IfSome, IsTrue};
ghost use Rattle.ble_base.specs.ChannelMap.{IsMap};
ghost use Rattle.data_pdu.specs.Ranges.{IsInRange};
ghost use Rattle.data_pdu.specs.Reading.{IfKnown};
ghost use Rattle.instants.specs.Track.{HasInterval, is_free};
ghost use Rattle.control_end.specs.Following.{indication_followed, indication_read};
ghost use Rattle.control_end.specs.Following.{is_peripheral, track_following};
ghost use Rattle.control_model.specs.procedures.procedure_stages.Kinds.{role_of};

use crate::end::ControlEnd;
use ble_base::{ChannelMap, Role};
use data_pdu::{Ctrl, CtrlRead};
use instants::{Indication, ParamTrack};

/// The indication that sets this map from its Instant on.
fn map_indication(map: u64, instant: u16) -> Indication
    requires { IsMap map }
    ensures { result ≡ Indication.Map map instant }
{
    match ChannelMap::new(map) {
        Some(map) => Indication::Map { map, instant },
        None => unreachable!(),
    }
}

/// The indication that a control PDU is.
fn indication_of(ctrl: &Ctrl) -> Option<Indication>
    requires { IsInRange ctrl.now }
    ensures read { result ≡ indication_read (CtrlRead.Known ctrl.now) }
    ensures interval { IfSome result HasInterval }
{
    match *ctrl {
        Ctrl::ConnectionUpdateInd {
            win_offset,
            interval,
            latency,
            timeout,
            instant,
            ..
        } => Some(Indication::Update {
            win_offset,
            interval,
            latency,
            timeout,
            instant,
        }),
        Ctrl::ChannelMapInd { map, instant } => Some(map_indication(map, instant)),
        _ => None,
    }
}

/// The indication that was read.
fn indication_read(read: &CtrlRead) -> Option<Indication>
    requires { IfKnown read.now IsInRange }
    ensures read { result ≡ indication_read read.now }
    ensures interval { IfSome result HasInterval }
{
    match read {
        CtrlRead::Known(ctrl) => indication_of(ctrl),
        _ => None,
    }
}

/// The track that follows an indication; there is none if its Instant has passed.
fn track_taking(mut track: ParamTrack, indication: Indication) -> Option<ParamTrack>
    requires free { IsTrue (is_free track) }
    requires entered { 1 ≤ track.entered }
    requires interval { HasInterval indication }
    ensures { result ≡ track_following (Some indication) track }
{
    match track.take(indication) {
        Ok(()) => Some(track),
        Err(_) => None,
    }
}

impl ControlEnd {
    /// Whether this is the peripheral of its link.
    fn is_peripheral(&self) -> bool
        ensures { result ≡ is_peripheral (role_of self.now.table.progress) }
    {
        matches!(self.table.role(), Role::Peripheral)
    }

    /// The track after what was read; there is none if it is an indication that this end would
    /// follow, and its Instant has passed.
    pub(crate) fn track_after(&self, read: &CtrlRead) -> Option<ParamTrack>
        requires entered { 1 ≤ self.now.track.entered }
        requires in_range { IfKnown read.now IsInRange }
        ensures { result
            ≡ track_following (indication_followed read.now self.now) self.now.track }
    {
        if !self.is_peripheral() || !self.track.free() {
            return Some(self.track);
        }
        match indication_read(read) {
            Some(indication) => track_taking(self.track, indication),
            None => Some(self.track),
        }
    }
}
