//! Channel selection algorithm #2 (Core 5.2, volume 6 part B, section 4.5.8.3).

ghost use Rattle.std.specs.Prelude.{◌≡◌, ◌<◌, ◌%◌, ◌^◌, Contains};
ghost use Rattle.ble_base.specs.ChannelMap.{used_channels};
ghost use Rattle.chan_select.specs.PseudoRandom.{channel_identifier, channel_two, mam};
ghost use Rattle.chan_select.specs.PseudoRandom.{mapped_channel, perm, prn, reversed_octet, stage};

use ble_base::{ChannelMap, EventNo};

/// The data channel of an event, 0 to 36, for a link with this access address.
pub(crate) fn channel_two(access: u32, event: EventNo, map: &ChannelMap) -> u8
    ensures channel { result ≡ channel_two access event.0 map.now }
    ensures used { Contains (used_channels map.now) result }
    ensures data { result < 37 }
{
    mapped_channel(prn(channel_identifier(access), event.counter()), map)
}

/// The data channel for a pseudo-random number, 0 to 36: unmapped, or remapped where that is not
/// used.
fn mapped_channel(prn: u16, map: &ChannelMap) -> u8
    ensures channel { result ≡ mapped_channel prn map.now }
    ensures used { Contains (used_channels map.now) result }
    ensures data { result < 37 }
{
    let unmapped = (prn % 37) as u8;
    if map.uses(unmapped) {
        unmapped
    } else {
        map.nth((u32::from(map.count()) * u32::from(prn) / 65536) as u8)
    }
}

/// channelIdentifier of an access address: the XOR of its two halves.
fn channel_identifier(access: u32) -> u16
    ensures { result ≡ channel_identifier access }
{
    (access / 65536) as u16 ^ (access % 65536) as u16
}

/// prn_e of an event with this counter.
#[tactic(auto, unfolding(crate::specs::PseudoRandom::prn))]
pub(crate) fn prn(identifier: u16, counter: u16) -> u16
    ensures { result ≡ prn identifier counter }
{
    let first = stage(counter ^ identifier, identifier);
    let second = stage(first, identifier);
    let third = stage(second, identifier);
    third ^ identifier
}

/// One stage: PERM, then MAM.
#[tactic(auto, unfolding(crate::specs::PseudoRandom::stage))]
fn stage(n: u16, identifier: u16) -> u16
    ensures { result ≡ stage n identifier }
{
    mam(perm(n), identifier)
}

/// MAM: 17 times the number and the identifier, modulo 2^16.
#[tactic(auto, unfolding(crate::specs::PseudoRandom::mam))]
fn mam(n: u16, identifier: u16) -> u16
    ensures { result ≡ mam n identifier }
{
    ((17 * u32::from(n) + u32::from(identifier)) % 65536) as u16
}

/// PERM: reverses the bits of each octet.
#[tactic(auto, unfolding(crate::specs::PseudoRandom::perm))]
fn perm(n: u16) -> u16
    ensures { result ≡ perm n }
{
    let [high, low] = n.to_be_bytes();
    u16::from_be_bytes([reversed_octet(high), reversed_octet(low)])
}

/// The octet with its bits in reverse order.
fn reversed_octet(octet: u8) -> u8
    ensures { result ≡ reversed_octet octet }
{
    octet.reverse_bits()
}
