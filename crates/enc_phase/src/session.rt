//! The session of an encrypted link, with the counters of its packets.
ghost use Rattle.std.specs.Prelude.{◌≡◌, ◌+◌, ◌^◌, ◌<◌, ◌≤◌, not, length, is_ok, IfOk, OnOk, OnErr};
ghost use Rattle.ccm_link.specs.Ccm.{opened_payload, sealed_payload};
ghost use Rattle.ccm_link.specs.Payload.{additional_data, is_genuine, nonce};
ghost use Rattle.enc_phase.specs.Phases.{is_central};

use arrayvec::ArrayVec;
use ble_base::Role;
use ccm_link::{Forged, SealKey};
use wire_fields::put_octets;

/// What both ends of a link know once encryption starts (Core 5.2, volume 6 part B, section
/// 5.1.3.1).
#[derive(Clone, Copy, Debug, PartialEq, Eq)]
pub struct Session {
    /// The session key, most significant octet first.
    pub key: [u8; 16],
    /// The initialization vector: the central's four octets and then the peripheral's, each in the
    /// order on the air.
    pub iv: [u8; 8],
}

/// A session at one end: its key, expanded once, and the counters of the next sealed PDU in each
/// direction. A counter is not used where its direction is clear.
#[derive(Drop)]
pub(crate) struct Keyed {
    pub(crate) role: Role,
    pub(crate) key: SealKey,
    pub(crate) iv: [u8; 8],
    pub(crate) sent: u64,
    pub(crate) opened: u64,
}

/// Whether this is the role of the central.
pub(crate) fn is_central(role: Role) -> bool
    ensures { result ≡ is_central role }
{
    matches!(role, Role::Central)
}

impl Keyed {
    /// A session that begins, with both counters at 0.
    pub(crate) fn new(role: Role, session: Session) -> Keyed
        ensures { result ≡ record {
          role = role;
          key = session.key;
          iv = session.iv;
          sent = 0;
          opened = 0;
        } }
    {
        Keyed {
            role,
            key: SealKey::new(&session.key),
            iv: session.iv,
            sent: 0,
            opened: 0,
        }
    }

    /// Seals the body of a new PDU, of 1 to 251 octets, with the next counter.
    pub(crate) fn seal(&mut self, header: u8, body: &[u8]) -> ArrayVec<u8, 255>
        requires counter { self.old.sent < 2 ^ 39 }
        requires some { 1 ≤ length body.now }
        requires room { length body.now ≤ 251 }
        ensures sealed { let n = nonce self.old.sent (is_central self.old.role) self.old.iv in
            result.items ≡ sealed_payload self.old.key n (additional_data header) body.now }
        ensures counted { self.new ≡ record self.old { sent = self.old.sent + 1 } }
    {
        let from_central = is_central(self.role);
        let sealed = self
            .key
            .seal(self.sent, from_central, &self.iv, header, body);
        self.sent += 1;
        sealed
    }

    /// Opens a payload of at most 255 octets that the other end sealed with the next counter.
    pub(crate) fn unseal(&self, header: u8, payload: &[u8]) -> Result<ArrayVec<u8, 251>, Forged>
        requires counter { self.now.opened < 2 ^ 39 }
        requires room { length payload.now ≤ 255 }
        ensures tested { let n = nonce self.now.opened (not (is_central self.now.role)) self.now.iv in
            is_ok result ≡ is_genuine self.now.key n (additional_data header) payload.now }
        ensures opened { let n = nonce self.now.opened (not (is_central self.now.role)) self.now.iv in
            IfOk result (λ body. body.items ≡ opened_payload self.now.key n payload.now) }
    {
        let from_central = !is_central(self.role);
        self.key
            .unseal(self.opened, from_central, &self.iv, header, payload)
    }

    /// As `unseal`; what it opens takes the counter.
    pub(crate) fn open(&mut self, header: u8, payload: &[u8]) -> Result<ArrayVec<u8, 251>, Forged>
        requires counter { self.old.opened < 2 ^ 39 }
        requires room { length payload.now ≤ 255 }
        ensures tested { let n = nonce self.old.opened (not (is_central self.old.role)) self.old.iv in
            is_ok result ≡ is_genuine self.old.key n (additional_data header) payload.now }
        ensures opened { let n = nonce self.old.opened (not (is_central self.old.role)) self.old.iv in
            IfOk result (λ body. body.items ≡ opened_payload self.old.key n payload.now) }
        ensures ok { OnOk result (self.new ≡ record self.old { opened = self.old.opened + 1 }) }
        ensures err { OnErr result (self.new ≡ self.old) }
    {
        let answer = self.unseal(header, payload);
        if answer.is_ok() {
            self.opened += 1;
        }
        answer
    }
}

/// A body of at most 251 octets as it is.
pub(crate) fn copied<const CAP: usize>(body: &[u8]) -> ArrayVec<u8, CAP>
    requires { length body.now ≤ CAP }
    ensures { result.items ≡ body.now }
{
    let mut octets = ArrayVec::new();
    put_octets(&mut octets, body);
    octets
}
