//! The security of one link: the session key, and payloads sealed with CCM (Core 5.2, volume 6 part
//! E; RFC 3610).
#![tactic(auto)]

ghost use Rattle.std.specs.Prelude.{◌≡◌, ◌≢◌, ℕ, ◌+◌, ◌-◌, ◌^◌, ◌<◌, ◌≤◌, ◌⊎◌, ◌↔◌};
ghost use Rattle.std.specs.Prelude.{List, length, drop, is_ok, IsOk, IsErr, IsOkAnd, IfOk};
ghost use Rattle.arrayvec.specs.ArrayVec.{array_vec_len};
ghost use Rattle.ccm_link.specs.Ccm.{mic, opened_payload, sealed_payload};
ghost use Rattle.ccm_link.specs.Payload.{IsGenuine, additional_data, is_genuine};
ghost use Rattle.ccm_link.specs.Payload.{nonce, session_key};

mod block;
pub mod laws;
mod packet;
mod seal_key;

use aes_block::Aes;
use arrayvec::ArrayVec;
pub use seal_key::SealKey;
use std::error::Error;
use std::fmt;

/// The message integrity check of a payload is not that of its octets, or no octet precedes it.
#[derive(Clone, Copy, Debug, Default, PartialEq, Eq)]
pub struct Forged;

impl fmt::Display for Forged {
    ghost use Rattle.std.specs.Prelude.{Some, codes};

    ghost output = { λ _. Some (codes "the payload is not sealed for this packet") };

    fn fmt<W: fmt::Write>(&self, f: &mut fmt::Formatter<W>) -> fmt::Result {
        f.write_str("the payload is not sealed for this packet")
    }
}

impl Error for Forged {}

/// The session key, from the long term key and the two parts of the session key diversifier: the
/// central's (SKDm) and the peripheral's (SKDs) (Core 5.2, volume 6 part B, section 5.1.3.1). Keys
/// are 16 octets, most significant first.
#[tactic(auto, unfolding(crate::specs::Payload::session_key))]
pub fn session_key(ltk: &[u8; 16], skd_m: u64, skd_s: u64) -> [u8; 16]
    ensures { result ≡ session_key ltk.now skd_m skd_s }
{
    let [s0, s1, s2, s3, s4, s5, s6, s7] = skd_s.to_be_bytes();
    let [m0, m1, m2, m3, m4, m5, m6, m7] = skd_m.to_be_bytes();
    let skd = [
        s0, s1, s2, s3, s4, s5, s6, s7, m0, m1, m2, m3, m4, m5, m6, m7,
    ];
    Aes::new(ltk).encrypt(&skd)
}

/// As `SealKey::seal`, with a session key of 16 octets, most significant first, that is expanded
/// for this payload alone.
pub fn seal(
    key: &[u8; 16],
    counter: u64,
    from_central: bool,
    iv: &[u8; 8],
    header: u8,
    body: &[u8],
) -> ArrayVec<u8, 255>
    requires counter { counter < 2 ^ 39 }
    requires some { 1 ≤ length body.now }
    requires room { length body.now ≤ 251 }
    ensures sealed { let n = nonce counter from_central iv.now in
        result.items ≡ sealed_payload key.now n (additional_data header) body.now }
    ensures longer { array_vec_len result ≡ length body.now + 4 }
{
    SealKey::new(key).seal(counter, from_central, iv, header, body)
}

/// As `SealKey::unseal`, with a session key of 16 octets, most significant first, that is expanded
/// for this payload alone.
pub fn unseal(
    key: &[u8; 16],
    counter: u64,
    from_central: bool,
    iv: &[u8; 8],
    header: u8,
    body: &[u8],
) -> Result<ArrayVec<u8, 251>, Forged>
    requires counter { counter < 2 ^ 39 }
    requires room { length body.now ≤ 255 }
    // What was sealed for this packet opens.
    ensures of_sealed { let n = nonce counter from_central iv.now in
        (plain : List ℕ) → 1 ≤ length plain
        → body.now ≡ sealed_payload key.now n (additional_data header) plain
        → IsOkAnd result (λ o. o.items ≡ plain) }

    ensures tested { let n = nonce counter from_central iv.now in
        is_ok result ≡ is_genuine key.now n (additional_data header) body.now }
    ensures genuine { let n = nonce counter from_central iv.now in
        IsOk result ↔ IsGenuine key.now n (additional_data header) body.now }
    ensures opened { let n = nonce counter from_central iv.now in
        IfOk result (λ o. o.items ≡ opened_payload key.now n body.now) }

    // Fewer than five octets, or the last four are not the integrity check of those before them.
    ensures forged { let n = nonce counter from_central iv.now in
        let fresh = mic key.now n (additional_data header) (opened_payload key.now n body.now) in
        IsErr result ↔ ((length body.now < 5) ⊎ (drop (length body.now - 4) body.now ≢ fresh)) }
{
    SealKey::new(key).unseal(counter, from_central, iv, header, body)
}
