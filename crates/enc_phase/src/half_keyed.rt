//! HalfKeyed: the phase in which encryption starts.
ghost use Rattle.std.specs.Prelude.{◌≡◌, ◌^◌, ◌<◌, ◌≤◌, length, is_ok, IfOk, OnOk, OnErr};
ghost use Rattle.enc_phase.specs.Sealing.{after_opening, after_sending, after_transition};
ghost use Rattle.enc_phase.specs.Sealing.{is_right, keyed_end, longest_payload};
ghost use Rattle.enc_phase.specs.Sealing.{opened_body, sent_payload};
ghost use Rattle.enc_phase.specs.Sealing.{of_half_keyed, of_secure};

use crate::session::{Keyed, copied};
use crate::{PhaseFacts, Secure, Transition};
use arrayvec::ArrayVec;
use ble_base::Role;
use ccm_link::Forged;

/// An end that starts encryption, and sends no data. The central sends and receives sealed PDUs; the
/// peripheral receives sealed PDUs, and sends clear ones.
#[derive(Drop)]
pub struct HalfKeyed {
    keyed: Keyed,
}

impl HalfKeyed {
    /// An end whose session begins.
    pub(crate) fn new(keyed: Keyed) -> HalfKeyed
        ensures { of_half_keyed result ≡ keyed_end PhaseFacts.HalfKeyed keyed }
    {
        HalfKeyed { keyed }
    }

    /// Encryption has started: LL_START_ENC_RSP is taken.
    pub fn confirm(self) -> Secure
        ensures { of_secure result ≡ after_transition Transition.Confirm (of_half_keyed self) }
    {
        let sent = self.sent();
        let mut keyed = self.keyed;
        keyed.sent = sent;
        Secure::new(keyed)
    }

    /// The role of the end.
    pub(crate) fn role(&self) -> Role
        ensures { result ≡ (of_half_keyed self.now).role }
    {
        self.keyed.role
    }

    /// The payload of a new control PDU with this first header octet and a body of 1 to 251 octets.
    pub fn send_ctrl(&mut self, header: u8, body: &[u8]) -> ArrayVec<u8, 255>
        requires counter { (of_half_keyed self.old).sent < 2 ^ 39 }
        requires some { 1 ≤ length body.now }
        requires room { length body.now ≤ 251 }
        ensures payload { result.items ≡ sent_payload (of_half_keyed self.old) header body.now }
        ensures counted { of_half_keyed self.new ≡ after_sending (of_half_keyed self.old) }
    {
        match self.keyed.role {
            Role::Central => self.keyed.seal(header, body),
            Role::Peripheral => copied(body),
        }
    }

    /// Opens the payload of a received PDU with this first header octet. Sealed, it has at most 255
    /// octets, else 251.
    pub fn open_pdu(&mut self, header: u8, body: &[u8]) -> Result<ArrayVec<u8, 251>, Forged>
        requires counter { (of_half_keyed self.old).opened < 2 ^ 39 }
        requires room { length body.now ≤ longest_payload (of_half_keyed self.old) }
        ensures right { is_ok result ≡ is_right (of_half_keyed self.old) header body.now }
        ensures opened { IfOk result (λ o. o.items ≡ opened_body (of_half_keyed self.old) body.now) }
        ensures ok { OnOk result (of_half_keyed self.new ≡ after_opening (of_half_keyed self.old)) }
        ensures err { OnErr result (of_half_keyed self.new ≡ of_half_keyed self.old) }
    {
        self.keyed.open(header, body)
    }

    /// Whether `open_pdu` would open this payload.
    pub fn try_pdu(&self, header: u8, body: &[u8]) -> bool
        requires counter { (of_half_keyed self.now).opened < 2 ^ 39 }
        requires room { length body.now ≤ longest_payload (of_half_keyed self.now) }
        ensures { result ≡ is_right (of_half_keyed self.now) header body.now }
    {
        self.keyed.unseal(header, body).is_ok()
    }

    /// The counter of the next sealed PDU that this end sends, which is 0 at the peripheral.
    pub fn sent(&self) -> u64
        ensures { result ≡ (of_half_keyed self.now).sent }
    {
        match self.keyed.role {
            Role::Central => self.keyed.sent,
            Role::Peripheral => 0,
        }
    }

    /// The counter of the next sealed PDU that this end receives.
    pub fn opened(&self) -> u64
        ensures { result ≡ (of_half_keyed self.now).opened }
    {
        self.keyed.opened
    }
}
