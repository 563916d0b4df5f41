//! Writing packets on the air.
ghost use Rattle.std.specs.Prelude.{◌≡◌, ◌<◌, ◌++◌, take, drop, IfOk};
ghost use Rattle.frame_bits.specs.Whitening.{whitening_of};
ghost use Rattle.capture.specs.Air.{air_packet, crc_bits, flags, heard, plain, reference, rf_channel, type_bits};
ghost use Rattle.radio_replay.specs.Damage.{xor_of};

use crate::blocks::put_half;
use crate::centrals::Direction;
use ble_base::Verdict;
use frame_bits::whiten;
use journal::Mark;
use std::alloc::{AllocError, Global};

/// The number of channels (Core 5.2, volume 6 part B, section 1.4.1).
const CHANNELS: u8 = 40;

/// The octets of an access address.
const ACCESS_OCTETS: usize = 4;

/// The RF channel of a channel index, in the order of frequencies. An index past 39 stays.
fn rf_channel(channel: u8) -> u8
    ensures { result ≡ rf_channel channel }
{
    match channel {
        37 => 0,
        38 => 12,
        0..=10 => channel + 1,
        11..=36 => channel + 2,
        _ => channel,
    }
}

/// Xors a pattern into the octets from a place on.
fn xor_into(octets: &mut [u8], at: u16, pattern: &[u8])
    ensures { octets.new ≡ take at octets.old ++ xor_of pattern.now (drop at octets.old) }
{
    let first = usize::from(at);
    for (place, octet) in pattern.iter().enumerate() {
        if first + place < octets.len() {
            octets[first + place] ^= *octet;
        }
    }
}

/// Does to octets what the radio did to them.
fn damage(octets: &mut [u8], fate: &Mark)
    ensures { octets.new ≡ heard fate.now octets.old }
{
    if let Mark::Damage { at, pattern } = fate {
        xor_into(octets, *at, pattern.as_slice());
    }
}

/// Adds the whitening of a channel to what is after the access address, which takes it off.
fn whiten_body(channel: u8, octets: &mut [u8])
    requires { channel < 40 }
    ensures { octets.new ≡ take 4 octets.old ++ whitening_of channel (drop 4 octets.old) }
{
    if octets.len() > ACCESS_OCTETS {
        whiten(channel, &mut octets[ACCESS_OCTETS..]);
    }
}

/// Takes the whitening off a packet, if this is the index of a channel.
fn dewhiten(channel: u8, octets: &mut [u8])
    ensures { octets.new ≡ plain channel octets.old }
{
    if channel < CHANNELS {
        whiten_body(channel, octets);
    }
}

/// A packet without its whitening. The error is out of memory.
pub fn plain(alloc: Global, channel: u8, octets: &[u8]) -> Result<Vec<u8>, AllocError>
    ensures { IfOk result (λ made. made.items ≡ plain channel octets.now) }
{
    let mut made = Vec::from_slice(alloc, octets)?;
    dewhiten(channel, &mut made);
    Ok(made)
}

/// What was heard of a packet, without its whitening. The error is out of memory.
fn heard(alloc: Global, channel: u8, octets: &[u8], fate: &Mark) -> Result<Vec<u8>, AllocError>
    ensures { IfOk result (λ made. made.items ≡ plain channel (heard fate.now octets.now)) }
{
    let mut made = Vec::from_slice(alloc, octets)?;
    damage(&mut made, fate);
    dewhiten(channel, &mut made);
    Ok(made)
}

/// The bits of the CRC.
fn crc_bits(verdict: Verdict) -> u16
    ensures { result ≡ crc_bits verdict }
{
    match verdict {
        Verdict::Missed => 0,
        Verdict::Broken => 0x0400,
        Verdict::Forged | Verdict::Good => 0x0C00,
    }
}

/// The bits of the type of the PDU.
fn type_bits(direction: Direction) -> u16
    ensures { result ≡ type_bits direction }
{
    match direction {
        Direction::Unknown => 0,
        Direction::FromCentral => 0x0100,
        Direction::FromPeripheral => 0x0180,
    }
}

/// The flags of a packet.
fn flags(channel: u8, octets: &[u8], verdict: Verdict, direction: Direction) -> u16
    ensures { result ≡ flags channel octets.now verdict direction }
{
    let whitening = if channel < CHANNELS { 0x0001 } else { 0 };
    let access = if octets.len() >= ACCESS_OCTETS {
        0x0010
    } else {
        0
    };
    whitening + access + crc_bits(verdict) + type_bits(direction)
}

/// The access address of a packet; zeros for the octets that are missing.
fn reference(octets: &[u8]) -> [u8; 4]
    ensures { result ≡ reference octets.now }
{
    match octets {
        [a, b, c, d, ..] => [*a, *b, *c, *d],
        [a, b, c] => [*a, *b, *c, 0],
        [a, b] => [*a, *b, 0, 0],
        [a] => [*a, 0, 0, 0],
        [] => [0; 4],
    }
}

/// A packet on the air with its pseudo header. The error is out of memory.
pub fn air_packet(
    alloc: Global,
    channel: u8,
    octets: &[u8],
    fate: &Mark,
    verdict: Verdict,
    direction: Direction,
) -> Result<Vec<u8>, AllocError>
    ensures { IfOk result (λ made. made.items
        ≡ air_packet channel octets.now fate.now verdict direction) }
{
    let mut made = Vec::from_slice(alloc, &[rf_channel(channel), 0, 0, 0])?;
    made.extend_from_slice(&reference(octets))?;
    put_half(&mut made, flags(channel, octets, verdict, direction))?;
    made.extend_from_slice(&heard(alloc, channel, octets, fate)?)?;
    Ok(made)
}
