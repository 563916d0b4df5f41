//! Channel maps: which data channels a link uses.

ghost use Rattle.std.specs.Prelude.{◌≡◌, ◌<◌, ◌≤◌, ◌^◌, ◌-◌, ◌⊎◌, ◌↔◌, ℕ, false, length, IsTrue, IsSome, IfSome, IsNone, Contains, slice_index};
ghost use Rattle.std.specs.Int.{bit_at};
ghost use Rattle.ble_base.specs.ChannelMap.{used_channels, IsMap};

use crate::has_bit;
use std::marker::Model;

/// How many data channels there are: 0 to 36 (Core 5.2, volume 6 part B, section 1.4.1).
pub const DATA_CHANNELS: u8 = 37;

/// Which data channels a link uses (Core 5.2, volume 6 part B, section 4.5.8.1): at least two of
/// them.
#[derive(Clone, Copy, Debug, PartialEq, Eq)]
pub struct ChannelMap {
    bits: u64,
}

impl Model for ChannelMap {
    ghost use Rattle.std.specs.Prelude.{ℕ};
    ghost use Rattle.ble_base.specs.ChannelMap.{IsMap};

    ghost Value = { ℕ };

    ghost view = { λ m. m.bits };

    ghost invariant = { λ m. IsMap m.bits };

    ghost inverse = { λ n. record { bits = n } };
}

impl ChannelMap {
    /// The map that uses channel k exactly if bit k is 1. None if a bit from 37 up is 1 or if fewer
    /// than two bits are 1.
    pub fn new(bits: u64) -> Option<Self>
        ensures valid { IsSome result ↔ IsMap bits }
        ensures value { IfSome result (λ map. map ≡ bits) }
        ensures none { IsNone result ↔ ((2 ^ 37 ≤ bits) ⊎ (length (used_channels bits) < 2)) }
    {
        if is_map(bits) {
            Some(ChannelMap { bits })
        } else {
            None
        }
    }

    /// The map as a number: bit k is 1 exactly if channel k is used.
    pub fn bits(&self) -> u64
        ensures value { result ≡ self.now }
        ensures map { IsMap result }
    {
        self.bits
    }

    /// Whether the map uses this channel; false from 37 up.
    pub fn uses(&self, channel: u8) -> bool
        ensures bit { IsTrue result ↔ (bit_at self.now channel ≡ 1) }
        ensures listed { IsTrue result ↔ Contains (used_channels self.now) channel }
        ensures beyond { 37 ≤ channel → result ≡ false }
    {
        is_bit_set(self.bits, channel)
    }

    /// How many channels the map uses.
    pub fn count(&self) -> u8
        ensures count { result ≡ length (used_channels self.now) }
        ensures two_or_more { 2 ≤ result }
        ensures at_most_all { result ≤ 37 }
    {
        self.bits.count_ones() as u8
    }

    /// The used channel with this index in ascending order, counted from 0.
    pub fn nth(&self, index: u8) -> u8
        requires { index < length (used_channels self.now) }
        ensures channel { result ≡ slice_index (used_channels self.now) index }
        ensures used { Contains (used_channels self.now) result }
        ensures data { result < 37 }
    {
        nth_set_bit(self.bits, index)
    }
}

/// The map that uses all the data channels.
impl Default for ChannelMap {
    ghost is_default = { λ map. map ≡ 2 ^ 37 - 1 };

    fn default() -> Self {
        ChannelMap {
            bits: (1 << DATA_CHANNELS) - 1,
        }
    }
}

/// Whether the number is a channel map.
fn is_map(bits: u64) -> bool
    ensures { IsTrue result ↔ IsMap bits }
{
    bits < 1 << DATA_CHANNELS && bits.count_ones() >= 2
}

/// Whether this bit is one of the low 37 and 1.
fn is_bit_set(bits: u64, channel: u8) -> bool
    ensures { IsTrue result ↔ ((channel < 37) × (bit_at bits channel ≡ 1)) }
{
    channel < DATA_CHANNELS && has_bit(bits, channel)
}

/// The place of the bit with this index among those of the low 37 that are 1.
fn nth_set_bit(bits: u64, index: u8) -> u8
    requires { index < length (used_channels bits) }
    ensures { result ≡ slice_index (used_channels bits) index }
{
    let mut left = index;
    for channel in 0..DATA_CHANNELS {
        if is_bit_set(bits, channel) {
            if left == 0 {
                return channel;
            }
            left -= 1;
        }
    }
    unreachable!()
}
