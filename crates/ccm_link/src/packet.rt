//! CCM on the payload of one packet, with an expanded session key and the nonce of the packet, 13
//! octets (Core 5.2, volume 6 part E, section 2.1).

ghost use Rattle.std.specs.Prelude.{◌≡◌, ◌+◌, ◌^◌, ◌<◌, ◌≤◌, ◌++◌};
ghost use Rattle.std.specs.Prelude.{length, MatchResult, if◌then◌else◌};
ghost use Rattle.arrayvec.specs.ArrayVec.{array_vec_len};
ghost use Rattle.ccm_link.specs.Ccm.{authentication_field, block_with, ciphertext, key_block};
ghost use Rattle.ccm_link.specs.Ccm.{mic, opened_payload, sealed_payload};
ghost use Rattle.ccm_link.specs.Payload.{IsGenuine, additional_data, nonce};

use crate::{Forged, block};
use aes_block::Aes;
use arrayvec::ArrayVec;
use wire_fields::put_octets;

/// The flags of the first block: additional data (64), an integrity check of four octets (8) and a
/// length of two (1).
const FIRST_FLAGS: u8 = 0x49;

/// The flags of the blocks that make the key stream: a length of two octets.
const COUNTER_FLAGS: u8 = 0x01;

/// The bits of the first header octet that are authenticated: all but NESN, SN and MD.
const AUTHENTICATED: u8 = 0xE3;

/// The octets of a message integrity check (MIC).
const MIC_LEN: usize = 4;

/// The nonce of the packet with this counter in this direction.
pub(crate) fn nonce(counter: u64, from_central: bool, iv: &[u8; 8]) -> [u8; 13]
    requires { counter < 2 ^ 39 }
    ensures { result ≡ nonce counter from_central iv.now }
{
    let [c0, c1, c2, c3, c4, ..] = numbered(counter, from_central).to_le_bytes();
    let [i0, i1, i2, i3, i4, i5, i6, i7] = *iv;
    [c0, c1, c2, c3, c4, i0, i1, i2, i3, i4, i5, i6, i7]
}

/// The packet counter with the direction in bit 39.
fn numbered(counter: u64, from_central: bool) -> u64
    requires { counter < 2 ^ 39 }
    ensures { result ≡ counter + (if from_central then 2 ^ 39 else 0) }
{
    if from_central {
        counter + (1 << 39)
    } else {
        counter
    }
}

/// A block of these flags, the nonce and this number.
fn block_with(flags: u8, nonce: &[u8; 13], number: u16) -> [u8; 16]
    ensures { result ≡ block_with flags nonce.now number }
{
    let n = nonce;
    let [high, low] = number.to_be_bytes();
    [
        flags, n[0], n[1], n[2], n[3], n[4], n[5], n[6], n[7], n[8], n[9], n[10], n[11], n[12],
        high, low,
    ]
}

/// A block of the key stream, S_i (RFC 3610, section 2.3).
#[tactic(auto, unfolding(crate::specs::Ccm::key_block))]
fn key_block(aes: &Aes, nonce: &[u8; 13], number: u16) -> [u8; 16]
    ensures { result ≡ key_block aes.now nonce.now number }
{
    aes.encrypt(&block_with(COUNTER_FLAGS, nonce, number))
}

/// The four octets that authenticate header and body, not yet encrypted: T (RFC 3610, section 2.2).
fn authentication_field(aes: &Aes, nonce: &[u8; 13], header: u8, body: &[u8]) -> [u8; 4]
    requires { length body.now < 2 ^ 16 }
    ensures { let extra = additional_data header in
        result ≡ authentication_field aes.now nonce.now extra body.now }
{
    let first = block_with(FIRST_FLAGS, nonce, body.len() as u16);
    let data = [0, 1, header & AUTHENTICATED];
    let mut state = aes.encrypt(&block::add(aes.encrypt(&first), &data));
    for chunk in body.chunks(16) {
        let next = aes.encrypt(&block::add(state, chunk));
        state = next;
    }
    let [a, b, c, d, ..] = state;
    [a, b, c, d]
}

/// The MIC that follows the encrypted body, four octets: U (RFC 3610, section 2.3).
fn mic(aes: &Aes, nonce: &[u8; 13], header: u8, body: &[u8]) -> [u8; 4]
    requires { length body.now < 2 ^ 16 }
    ensures { result ≡ mic aes.now nonce.now (additional_data header) body.now }
{
    let [a, b, c, d] = authentication_field(aes, nonce, header, body);
    let key = key_block(aes, nonce, 0);
    [a ^ key[0], b ^ key[1], c ^ key[2], d ^ key[3]]
}

/// Encrypts octets, or decrypts them, and appends them (RFC 3610, sections 2.3 and 2.5).
fn push_encrypted<const CAP: usize>(
    aes: &Aes,
    nonce: &[u8; 13],
    octets: &[u8],
    out: &mut ArrayVec<u8, CAP>,
)
    requires room { array_vec_len out.old + length octets.now ≤ CAP }
    requires counted { length octets.now < 2 ^ 16 }
    ensures { out.new.items ≡ out.old.items ++ ciphertext aes.now nonce.now octets.now }
{
    let mut number = 0u16;
    for chunk in octets.chunks(16) {
        number += 1;
        block::push_sum(out, key_block(aes, nonce, number), chunk);
    }
}

/// Encrypts a body and appends its MIC (RFC 3610, section 2.4).
#[tactic(auto, unfolding(crate::specs::Ccm::sealed_payload))]
pub(crate) fn seal(aes: &Aes, nonce: &[u8; 13], header: u8, body: &[u8]) -> ArrayVec<u8, 255>
    requires { length body.now ≤ 251 }
    ensures sealed { let extra = additional_data header in
        result.items ≡ sealed_payload aes.now nonce.now extra body.now }
    ensures longer { array_vec_len result ≡ length body.now + 4 }
{
    let mut sealed = ArrayVec::new();
    push_encrypted(aes, nonce, body, &mut sealed);
    put_octets(&mut sealed, &mic(aes, nonce, header, body));
    sealed
}

/// Decrypts the octets before the MIC, if the MIC is right (RFC 3610, section 2.5).
#[tactic(auto, unfolding(crate::specs::Ccm::opened_payload))]
pub(crate) fn open(
    aes: &Aes,
    nonce: &[u8; 13],
    header: u8,
    sealed: &[u8],
) -> Result<ArrayVec<u8, 251>, Forged>
    requires { length sealed.now ≤ 255 }
    ensures { let key = aes.now in let n = nonce.now in let extra = additional_data header in
        MatchResult result
        (λ o. IsGenuine key n extra sealed.now × (o.items ≡ opened_payload key n sealed.now))
        (λ _. ¬ IsGenuine key n extra sealed.now) }
{
    if sealed.len() <= MIC_LEN {
        return Err(Forged);
    }
    let (encrypted, check) = sealed.split_at(sealed.len() - MIC_LEN);
    let mut opened = ArrayVec::new();
    push_encrypted(aes, nonce, encrypted, &mut opened);
    if mic(aes, nonce, header, opened.as_slice()).as_slice() == check {
        Ok(opened)
    } else {
        Err(Forged)
    }
}
