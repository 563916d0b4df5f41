//! The channel of an event, by the algorithm of its link.

ghost use Rattle.std.specs.Prelude.{◌≡◌, ◌<◌, ◌≤◌, ◌^◌, Contains};
ghost use Rattle.ble_base.specs.ChannelMap.{used_channels};
ghost use Rattle.chan_select.specs.Channel.{channel_of};

use crate::hopping::channel_one;
use crate::pseudo_random::channel_two;
use ble_base::{ChannelMap, EventNo};
use std::marker::Model;

/// How the channels of a link are selected (Core 5.2, volume 6 part B, section 4.5.8).
#[derive(Clone, Copy, Debug, PartialEq, Eq)]
pub enum Algorithm {
    /// Channel selection algorithm #1, with the hop increment (section 4.5.8.2).
    One(u8),
    /// Channel selection algorithm #2, with the access address (section 4.5.8.3).
    Two(u32),
}

/// Selects the data channel of each connection event of one link.
#[derive(Clone, Copy, Debug, PartialEq, Eq)]
pub struct Selector {
    algorithm: Algorithm,
}

impl Model for Selector {
    ghost use Rattle.chan_select.specs.declared.selection.Algorithm.{Algorithm};

    ghost Value = { Algorithm };

    ghost use Rattle.chan_select.specs.Channel.{HasValidHop};

    ghost view = { λ s. s.algorithm };

    ghost invariant = { λ s. HasValidHop s.algorithm };

    ghost inverse = { λ a. record { algorithm = a } };
}

impl Selector {
    /// Algorithm #1 with this hop increment, 5 to 16, from the CONNECT_IND.
    pub fn one(hop: u8) -> Self
        requires least { 5 ≤ hop }
        requires most { hop ≤ 16 }
        ensures { result ≡ Algorithm.One hop }
    {
        Selector {
            algorithm: Algorithm::One(hop),
        }
    }

    /// Algorithm #2 with the access address of the link.
    pub fn two(access: u32) -> Self
        ensures { result ≡ Algorithm.Two access }
    {
        Selector {
            algorithm: Algorithm::Two(access),
        }
    }

    /// The data channel of a connection event, 0 to 36, one of those that the map uses (Core 5.2,
    /// volume 6 part B, section 4.5.8). Events are counted from 0, not modulo 65536, and are below
    /// 2^32.
    #[tactic(auto, unfolding(crate::specs::Channel::channel_of))]
    pub fn channel(&self, event: EventNo, map: &ChannelMap) -> u8
        requires { event.0 < 2 ^ 32 }
        ensures channel { result ≡ channel_of self.now event.0 map.now }
        ensures used { Contains (used_channels map.now) result }
        ensures data { result < 37 }
    {
        match self.algorithm {
            Algorithm::One(hop) => channel_one(hop, event, map),
            Algorithm::Two(access) => channel_two(access, event, map),
        }
    }
}
