//! Calls on the bits of packets and on channels, and what each gives, as words.
use crate::plain::{changed, plain_packet};
use air_frame::{Heard, build, unframe};
use arrayvec::ArrayVec;
use ble_base::{ChannelMap, instant_gap};
use frame_bits::{crc_octets, crc24, whiten};
use std::alloc::AllocError;
use test_words::{hex_number, number, octet, put_answer, put_number, put_octets, put_value};

/// The number of values of 24 bits.
const VALUES: u32 = 0x100_0000;

/// The number of channels.
const CHANNELS: u8 = 40;

/// The number of 32 bits that eight digits or fewer spell.
pub(crate) fn wide(told: &String, word: &str) -> u32 {
    u32::try_from(hex_number(*told.allocator(), word)).unwrap_or(u32::MAX)
}

/// A CRC, and the octets in which it is sent.
pub(crate) fn put_crc(told: &mut String, init: &str, octets: &[u8]) -> Result<(), AllocError> {
    let init = wide(told, init);
    if init >= VALUES {
        return told.push_str(" cannot");
    }
    let crc = crc24(init, octets);
    put_octets(told, &crc.to_be_bytes())?;
    put_octets(told, &crc_octets(crc))
}

/// Octets that are whitened.
pub(crate) fn put_whitened(
    told: &mut String,
    channel: &str,
    octets: &[u8],
) -> Result<(), AllocError> {
    let channel = octet(channel);
    let mut whitened: ArrayVec<u8, 40> = ArrayVec::new();
    if channel >= CHANNELS || whitened.try_extend_from_slice(octets).is_err() {
        return told.push_str(" cannot");
    }
    whiten(channel, whitened.as_mut_slice());
    put_octets(told, whitened.as_slice())
}

/// The packet of a PDU.
pub(crate) fn put_built(
    told: &mut String,
    [channel, access, init]: [&str; 3],
    pdu: &[u8],
) -> Result<(), AllocError> {
    match built(octet(channel), wide(told, access), wide(told, init), pdu) {
        None => told.push_str(" cannot"),
        Some(packet) => put_octets(told, packet.as_slice()),
    }
}

/// What is heard of a packet.
pub(crate) fn put_heard(
    told: &mut String,
    [channel, access, init]: [&str; 3],
    packet: &[u8],
) -> Result<(), AllocError> {
    match heard(octet(channel), wide(told, access), wide(told, init), packet) {
        None => told.push_str(" cannot"),
        Some(heard) => put_value(told, &heard),
    }
}

/// Whether a PDU is built as the plain rules say, is heard of that packet, and is not heard where
/// any bit of it is changed.
pub(crate) fn put_plain(
    told: &mut String,
    [channel, access, init]: [&str; 3],
    pdu: &[u8],
) -> Result<(), AllocError> {
    let air = (octet(channel), wide(told, access), wide(told, init));
    let octets = plain_packet(air, pdu);
    let is_seen = is_each_change_seen(air, octets, pdu.len() + 7);
    let Some(packet) = octets.get(..pdu.len() + 7) else {
        return told.push_str(" too long");
    };
    put_answer(told, is_built(air, pdu, packet))?;
    put_answer(told, is_heard(air, pdu, packet))?;
    put_answer(told, is_seen)
}

/// What `build` makes of a PDU, if that is in range.
fn built(channel: u8, access: u32, init: u32, pdu: &[u8]) -> Option<ArrayVec<u8, 264>> {
    let [_, length, payload @ ..] = pdu else {
        return None;
    };
    if channel >= CHANNELS || init >= VALUES || payload.len() != usize::from(*length) {
        return None;
    }
    Some(build(channel, access, init, pdu))
}

/// What `unframe` makes of octets, if that is in range.
fn heard(channel: u8, access: u32, init: u32, octets: &[u8]) -> Option<Heard> {
    if channel >= CHANNELS || init >= VALUES {
        return None;
    }
    Some(unframe(channel, access, init, octets))
}

/// Whether this packet is built of a PDU.
fn is_built((channel, access, init): (u8, u32, u32), pdu: &[u8], packet: &[u8]) -> bool {
    match built(channel, access, init, pdu) {
        None => false,
        Some(built) => built.as_slice() == packet,
    }
}

/// Whether a PDU is heard of a packet.
fn is_heard((channel, access, init): (u8, u32, u32), pdu: &[u8], packet: &[u8]) -> bool {
    match heard(channel, access, init, packet) {
        Some(Heard::Whole(whole)) => whole.as_slice() == pdu,
        _ => false,
    }
}

/// Whether each bit that is changed in the first octets of a packet is seen.
fn is_each_change_seen(air: (u8, u32, u32), octets: [u8; 19], count: usize) -> bool {
    for place in 0..count {
        for bit in 0..8u8 {
            let damaged = changed(octets, place, bit);
            if !is_change_seen(air, damaged.get(..count).unwrap_or(&[]), place) {
                return false;
            }
        }
    }
    true
}

/// Whether a change of the octet at this place is seen: of the access address, or of the rest.
fn is_change_seen((channel, access, init): (u8, u32, u32), damaged: &[u8], place: usize) -> bool {
    match heard(channel, access, init, damaged) {
        Some(Heard::NotOurs) => place < 4,
        Some(Heard::Broken) => place >= 4,
        _ => false,
    }
}

/// Channels in order, or none where the bits are no channel map: those by their places, and then
/// those that the map uses.
pub(crate) fn put_map(told: &mut String, bits: &str) -> Result<(), AllocError> {
    let bits = hex_number(*told.allocator(), bits);
    let Some(map) = ChannelMap::new(bits) else {
        return told.push_str(" none");
    };
    put_places(told, &map)?;
    told.push_str(" used")?;
    put_used(told, &map)?;
    put_answer(told, map.bits() == bits)
}

/// The channels of a map by their places.
fn put_places(told: &mut String, map: &ChannelMap) -> Result<(), AllocError> {
    for index in 0..map.count() {
        put_number(told, u64::from(map.nth(index)))?;
    }
    Ok(())
}

/// The numbers of 8 bits that are channels which a map uses.
fn put_used(told: &mut String, map: &ChannelMap) -> Result<(), AllocError> {
    for channel in 0..=u8::MAX {
        if map.uses(channel) {
            put_number(told, u64::from(channel))?;
        }
    }
    Ok(())
}

/// The number of events from one to an Instant.
pub(crate) fn put_gap(told: &mut String, [instant, now, ..]: [&str; 8]) -> Result<(), AllocError> {
    put_number(told, u64::from(instant_gap(number(instant), number(now))))
}
