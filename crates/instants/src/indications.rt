//! The parameters of a link, and the indications that change them.
ghost use Rattle.std.specs.Prelude.{◌≡◌};
ghost use Rattle.instants.specs.Parameters.{params_after, instant_of, win_offset_of};

use ble_base::ChannelMap;

/// What an indication may change on a link.
#[derive(Clone, Copy, Debug, PartialEq, Eq)]
pub struct Params {
    /// connInterval, in units of 1.25 ms, which are slots (Core 5.2, volume 6 part B,
    /// section 4.5.1).
    pub interval: u16,
    /// connSlaveLatency, in connection events (section 4.5.1).
    pub latency: u16,
    /// connSupervisionTimeout, in units of 10 ms (section 4.5.2).
    pub timeout: u16,
    /// The data channels that the link uses (section 4.5.8.1).
    pub map: ChannelMap,
}

impl Params {
    /// These parameters after this indication.
    pub(crate) fn after(&self, indication: &Indication) -> Self
        ensures { result ≡ params_after self.now indication.now }
    {
        match *indication {
            Indication::Update {
                interval,
                latency,
                timeout,
                ..
            } => Params {
                interval,
                latency,
                timeout,
                map: self.map,
            },
            Indication::Map { map, .. } => Params { map, ..*self },
        }
    }
}

/// An indication of the central: the parameters that change, and the counter of the connection
/// event from which they hold.
#[derive(Clone, Copy, Debug, PartialEq, Eq)]
pub enum Indication {
    /// LL_CONNECTION_UPDATE_IND (Core 5.2, volume 6 part B, section 2.4.2.1), with the units of
    /// `Params`. The event of its Instant comes later by `win_offset` slots.
    Update {
        win_offset: u16,
        interval: u16,
        latency: u16,
        timeout: u16,
        instant: u16,
    },
    /// LL_CHANNEL_MAP_IND (Core 5.2, volume 6 part B, section 2.4.2.2).
    Map {
        map: ChannelMap,
        instant: u16,
    },
}

impl Indication {
    /// Its Instant.
    pub(crate) fn instant(&self) -> u16
        ensures { result ≡ instant_of self.now }
    {
        match *self {
            Indication::Update { instant, .. } | Indication::Map { instant, .. } => instant,
        }
    }

    /// By how many slots the event of its Instant comes later.
    pub(crate) fn win_offset(&self) -> u16
        ensures { result ≡ win_offset_of self.now }
    {
        match *self {
            Indication::Update { win_offset, .. } => win_offset,
            Indication::Map { .. } => 0,
        }
    }
}
