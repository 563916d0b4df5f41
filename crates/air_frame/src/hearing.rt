//! From the octets of a packet to what a listener makes of them.

ghost use Rattle.std.specs.Prelude.{◌≡◌, ◌≢◌, ℕ, ◌+◌, ◌-◌, ◌^◌, ◌<◌, ◌≤◌, ◌↔◌};
ghost use Rattle.std.specs.Prelude.{List, length, take, drop, IsTrue, IfSome, IfNone};
ghost use Rattle.air_frame.specs.Hearing.{heard_in, IsWhole, MatchHeard};
ghost use Rattle.air_frame.specs.Packet.{access_octets, on_air, with_crc, IsPdu};
ghost use Rattle.frame_bits.specs.Crc.{crc, crc_octets};
ghost use Rattle.frame_bits.specs.Whitening.{whitening_of};

use crate::Heard;
use crate::building::LONGEST_BODY;
use arrayvec::ArrayVec;
use frame_bits::{crc_octets, crc24, whiten};
use wire_fields::put_octets;

/// What a listener on this channel index, for this access address and with this initial CRC, makes
/// of the octets of a packet. The octets are in the order of the air, without preamble, and of any
/// number (Core 5.2, volume 6 part B, sections 2.1, 3.1.1 and 3.2). A packet whose length octet or
/// whose CRC does not fit its octets is `Broken`.
pub fn unframe(channel: u8, access: u32, init: u32, octets: &[u8]) -> Heard
    requires channel { channel < 40 }
    requires init { init < 2 ^ 24 }
    ensures not_ours { (result ≡ Heard.NotOurs) ↔ (take 4 octets.now ≢ access_octets access) }
    ensures broken { (result ≡ Heard.Broken) ↔ ((take 4 octets.now ≡ access_octets access)
        × ((pdu : List ℕ) → IsPdu pdu → octets.now ≢ on_air channel access init pdu)) }
    ensures whole { (pdu : List ℕ)
        → IsWhole result pdu ↔ (IsPdu pdu × (octets.now ≡ on_air channel access init pdu)) }
    // The same by a definition that computes.
    ensures heard { result ≡ heard_in channel access init octets.now }
{
    frame_bits::laws::whitening_is_linear();
    crate::laws::packet_tells_its_pdu();
    addressed(channel, access, init, octets)
}

/// As `unframe`, with one fact for each answer.
fn addressed(channel: u8, access: u32, init: u32, octets: &[u8]) -> Heard
    requires channel { channel < 40 }
    requires init { init < 2 ^ 24 }
    ensures { MatchHeard result (take 4 octets.now ≢ access_octets access)
        ((take 4 octets.now ≡ access_octets access)
        × ((pdu : List ℕ) → IsPdu pdu → octets.now ≢ on_air channel access init pdu))
        (λ pdu. IsPdu pdu × (octets.now ≡ on_air channel access init pdu)) }
{
    match octets.strip_prefix(&access.to_le_bytes()) {
        Some(body) => dewhitened(channel, init, body),
        None => Heard::NotOurs,
    }
}

/// What the octets after the access address are.
fn dewhitened(channel: u8, init: u32, octets: &[u8]) -> Heard
    requires channel { channel < 40 }
    requires init { init < 2 ^ 24 }
    ensures { MatchHeard result ⊥
        ((pdu : List ℕ) → IsPdu pdu → octets.now ≢ whitening_of channel (with_crc init pdu))
        (λ pdu. IsPdu pdu × (octets.now ≡ whitening_of channel (with_crc init pdu))) }
{
    frame_bits::laws::whitening_is_linear();
    if octets.len() > LONGEST_BODY {
        return Heard::Broken;
    }
    let mut body = ArrayVec::<u8, LONGEST_BODY>::new();
    put_octets(&mut body, octets);
    whiten(channel, body.as_mut_slice());
    checked(init, body.as_slice())
}

/// What a PDU and its CRC are, no longer whitened.
fn checked(init: u32, octets: &[u8]) -> Heard
    requires { init < 2 ^ 24 }
    ensures { MatchHeard result ⊥ ((pdu : List ℕ) → IsPdu pdu → octets.now ≢ with_crc init pdu)
        (λ pdu. IsPdu pdu × (octets.now ≡ with_crc init pdu)) }
{
    let Some((pdu, sum)) = pdu_and_crc(octets) else {
        return Heard::Broken;
    };
    if is_pdu(pdu) && has_crc(init, pdu, sum) {
        whole(pdu)
    } else {
        Heard::Broken
    }
}

/// The octets of a PDU, and the three octets of its CRC: always the last three, whatever the length
/// octet says.
fn pdu_and_crc(octets: &[u8]) -> Option<(&[u8], &[u8; 3])>
    ensures pdu { IfSome result (λ parts. parts.0.now ≡ take (length octets.now - 3) octets.now) }
    ensures crc { IfSome result (λ parts. parts.1.now ≡ drop (length octets.now - 3) octets.now) }
    ensures short { IfNone result (length octets.now < 3) }
{
    octets.split_last_chunk::<3>()
}

/// Whether the octets have the form of a PDU.
fn is_pdu(octets: &[u8]) -> bool
    ensures { IsTrue result ↔ IsPdu octets.now }
{
    octets.len() >= 2 && octets.len() == 2 + octets[1] as usize
}

/// Whether these three octets are the CRC of the PDU.
fn has_crc(init: u32, pdu: &[u8], sum: &[u8; 3]) -> bool
    requires { init < 2 ^ 24 }
    ensures { IsTrue result ↔ (sum.now ≡ crc_octets (crc init pdu.now)) }
{
    *sum == crc_octets(crc24(init, pdu))
}

/// The answer with this PDU.
fn whole(pdu: &[u8]) -> Heard
    requires { length pdu.now ≤ 257 }
    ensures { IsWhole result pdu.now }
{
    let mut octets = ArrayVec::new();
    put_octets(&mut octets, pdu);
    Heard::Whole(octets)
}
