//! A session key that is expanded once for all payloads of a session.

ghost use Rattle.std.specs.Prelude.{◌≡◌, ◌≢◌, ℕ, ◌+◌, ◌-◌, ◌^◌, ◌<◌, ◌≤◌, ◌⊎◌, ◌↔◌};
ghost use Rattle.std.specs.Prelude.{List, length, drop, is_ok, IsOk, IsErr, IsOkAnd, IfOk};
ghost use Rattle.arrayvec.specs.ArrayVec.{array_vec_len};
ghost use Rattle.ccm_link.specs.Ccm.{mic, opened_payload, sealed_payload};
ghost use Rattle.ccm_link.specs.Payload.{IsGenuine, additional_data, is_genuine, nonce};

use crate::{Forged, packet};
use aes_block::Aes;
use arrayvec::ArrayVec;
use std::marker::Model;

/// A session key with its expansion. Contracts see the key: 16 octets, most significant first.
#[derive(Drop)]
pub struct SealKey {
    aes: Aes,
}

impl Model for SealKey {
    ghost use Rattle.std.specs.Prelude.{ℕ, List};

    ghost Value = { List ℕ };

    ghost view = { λ k. k.aes };
}

impl SealKey {
    /// Expands a session key of 16 octets, most significant first.
    pub fn new(key: &[u8; 16]) -> SealKey
        ensures { result ≡ key.now }
    {
        SealKey { aes: Aes::new(key) }
    }

    /// Encrypts a payload of 1 to 251 octets and appends its message integrity check of four octets
    /// (Core 5.2, volume 6 part E, section 2; RFC 3610 with M = 4 and L = 2). The counter, of 39
    /// bits, is the number of packets sealed before in this direction; `from_central` is the
    /// direction. The IV is the central's four octets and then the peripheral's, each in the order
    /// on the air. The header is the first octet of the packet; its NESN, SN and MD are not
    /// authenticated.
    pub fn seal(
        &self,
        counter: u64,
        from_central: bool,
        iv: &[u8; 8],
        header: u8,
        body: &[u8],
    ) -> ArrayVec<u8, 255>
        requires counter { counter < 2 ^ 39 }
        requires some { 1 ≤ length body.now }
        requires room { length body.now ≤ 251 }
        ensures sealed { let n = nonce counter from_central iv.now in
            result.items ≡ sealed_payload self.now n (additional_data header) body.now }
        ensures longer { array_vec_len result ≡ length body.now + 4 }
    {
        let nonce = packet::nonce(counter, from_central, iv);
        packet::seal(&self.aes, &nonce, header, body)
    }

    /// Decrypts a payload of at most 255 octets that `seal` made with the same key, counter,
    /// direction, IV and header. The answer is the body, 1 to 251 octets. Any other payload is
    /// `Forged`, and so is one of fewer than five octets (Core 5.2, volume 6 part E, section 2; RFC
    /// 3610, section 2.5).
    pub fn unseal(
        &self,
        counter: u64,
        from_central: bool,
        iv: &[u8; 8],
        header: u8,
        body: &[u8],
    ) -> Result<ArrayVec<u8, 251>, Forged>
        requires counter { counter < 2 ^ 39 }
        requires room { length body.now ≤ 255 }
        // What was sealed for this packet opens.
        ensures of_sealed { let n = nonce counter from_central iv.now in
            (plain : List ℕ) → 1 ≤ length plain
            → body.now ≡ sealed_payload self.now n (additional_data header) plain
            → IsOkAnd result (λ o. o.items ≡ plain) }

        ensures tested { let n = nonce counter from_central iv.now in
            is_ok result ≡ is_genuine self.now n (additional_data header) body.now }
        ensures genuine { let n = nonce counter from_central iv.now in
            IsOk result ↔ IsGenuine self.now n (additional_data header) body.now }
        ensures opened { let n = nonce counter from_central iv.now in
            IfOk result (λ o. o.items ≡ opened_payload self.now n body.now) }

        // Fewer than five octets, or the last four are not the integrity check of those before
        // them.
        ensures forged { let n = nonce counter from_central iv.now in
            let fresh = mic self.now n (additional_data header)
            (opened_payload self.now n body.now) in
            IsErr result ↔ ((length body.now < 5) ⊎ (drop (length body.now - 4) body.now ≢ fresh)) }
    {
        let nonce = packet::nonce(counter, from_central, iv);
        packet::open(&self.aes, &nonce, header, body)
    }
}
