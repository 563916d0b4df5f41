//! Secure: the phase with encryption.
ghost use Rattle.std.specs.Prelude.{◌≡◌, ◌^◌, ◌<◌, ◌≤◌, length, is_ok, IfOk, OnOk, OnErr};
ghost use Rattle.enc_phase.specs.Sealing.{after_opening, after_sending, after_transition};
ghost use Rattle.enc_phase.specs.Sealing.{is_right, keyed_end, longest_payload};
ghost use Rattle.enc_phase.specs.Sealing.{opened_body, sent_payload};
ghost use Rattle.enc_phase.specs.Sealing.{of_pausing, of_secure};

use crate::session::Keyed;
use crate::{Pausing, PhaseFacts, Transition};
use arrayvec::ArrayVec;
use ble_base::Role;
use ccm_link::Forged;

/// An end with encryption, which may send data: both directions are sealed.
#[derive(Drop)]
pub struct Secure {
    keyed: Keyed,
}

impl Secure {
    /// An end whose encryption has started.
    pub(crate) fn new(keyed: Keyed) -> Secure
        ensures { of_secure result ≡ keyed_end PhaseFacts.Secure keyed }
    {
        Secure { keyed }
    }

    /// Encryption is to pause: the central queues LL_PAUSE_ENC_REQ, the peripheral takes it.
    pub fn pause(self) -> Pausing
        ensures { of_pausing result ≡ after_transition Transition.Pause (of_secure self) }
    {
        Pausing::new(self.keyed)
    }

    /// The role of the end.
    pub(crate) fn role(&self) -> Role
        ensures { result ≡ (of_secure self.now).role }
    {
        self.keyed.role
    }

    /// The payload of a new data PDU with this first header octet and a body of 1 to 251 octets.
    pub fn send_data(&mut self, header: u8, body: &[u8]) -> ArrayVec<u8, 255>
        requires counter { (of_secure self.old).sent < 2 ^ 39 }
        requires some { 1 ≤ length body.now }
        requires room { length body.now ≤ 251 }
        ensures payload { result.items ≡ sent_payload (of_secure self.old) header body.now }
        ensures counted { of_secure self.new ≡ after_sending (of_secure self.old) }
    {
        self.send_ctrl(header, body)
    }

    /// The payload of a new control PDU with this first header octet and a body of 1 to 251 octets.
    pub fn send_ctrl(&mut self, header: u8, body: &[u8]) -> ArrayVec<u8, 255>
        requires counter { (of_secure self.old).sent < 2 ^ 39 }
        requires some { 1 ≤ length body.now }
        requires room { length body.now ≤ 251 }
        ensures payload { result.items ≡ sent_payload (of_secure self.old) header body.now }
        ensures counted { of_secure self.new ≡ after_sending (of_secure self.old) }
    {
        self.keyed.seal(header, body)
    }

    /// Opens the payload of a received PDU with this first header octet. Sealed, it has at most 255
    /// octets, else 251.
    pub fn open_pdu(&mut self, header: u8, body: &[u8]) -> Result<ArrayVec<u8, 251>, Forged>
        requires counter { (of_secure self.old).opened < 2 ^ 39 }
        requires room { length body.now ≤ longest_payload (of_secure self.old) }
        ensures right { is_ok result ≡ is_right (of_secure self.old) header body.now }
        ensures opened { IfOk result (λ o. o.items ≡ opened_body (of_secure self.old) body.now) }
        ensures ok { OnOk result (of_secure self.new ≡ after_opening (of_secure self.old)) }
        ensures err { OnErr result (of_secure self.new ≡ of_secure self.old) }
    {
        self.keyed.open(header, body)
    }

    /// Whether `open_pdu` would open this payload.
    pub fn try_pdu(&self, header: u8, body: &[u8]) -> bool
        requires counter { (of_secure self.now).opened < 2 ^ 39 }
        requires room { length body.now ≤ longest_payload (of_secure self.now) }
        ensures { result ≡ is_right (of_secure self.now) header body.now }
    {
        self.keyed.unseal(header, body).is_ok()
    }

    /// The counter of the next sealed PDU that this end sends.
    pub fn sent(&self) -> u64
        ensures { result ≡ (of_secure self.now).sent }
    {
        self.keyed.sent
    }

    /// The counter of the next sealed PDU that this end receives.
    pub fn opened(&self) -> u64
        ensures { result ≡ (of_secure self.now).opened }
    {
        self.keyed.opened
    }
}
