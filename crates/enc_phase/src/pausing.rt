//! Pausing: the phase in which encryption is paused.
ghost use Rattle.std.specs.Prelude.{◌≡◌, ◌^◌, ◌<◌, ◌≤◌, false, length, is_ok, IfOk, OnOk, OnErr};
ghost use Rattle.enc_phase.specs.Sealing.{after_opening, after_sending, after_taking, after_transition};
ghost use Rattle.enc_phase.specs.Sealing.{is_right, keyed_end, longest_payload};
ghost use Rattle.enc_phase.specs.Sealing.{opened_body, sent_payload};
ghost use Rattle.enc_phase.specs.Sealing.{of_half_clear, of_pausing};

use crate::session::{Keyed, copied};
use crate::{HalfClear, PduClass, PhaseFacts, Transition};
use arrayvec::ArrayVec;
use ble_base::Role;
use ccm_link::Forged;

/// An end that pauses encryption, and sends no data. The central sends and receives sealed PDUs; the
/// peripheral sends sealed PDUs, and receives clear ones.
#[derive(Drop)]
pub struct Pausing {
    keyed: Keyed,
    /// The first PDU of a procedure of the peripheral was taken.
    kept: bool,
}

impl Pausing {
    /// An end that has just begun to pause.
    pub(crate) fn new(keyed: Keyed) -> Pausing
        ensures { of_pausing result ≡ keyed_end (PhaseFacts.Pausing false) keyed }
    {
        Pausing { keyed, kept: false }
    }

    /// The session ends: LL_PAUSE_ENC_RSP is taken.
    pub fn unlock(self) -> HalfClear
        ensures { of_half_clear result ≡ after_transition Transition.Unlock (of_pausing self) }
    {
        HalfClear::new(self.keyed.role, self.kept)
    }

    /// Keeps what matters of a PDU of this class that is taken.
    pub(crate) fn take(&mut self, class: PduClass)
        ensures { of_pausing self.new ≡ after_taking class (of_pausing self.old) }
    {
        if matches!(class, PduClass::Request) {
            self.kept = true;
        }
    }

    /// The role of the end.
    pub(crate) fn role(&self) -> Role
        ensures { result ≡ (of_pausing self.now).role }
    {
        self.keyed.role
    }

    /// The phase without its role.
    pub(crate) fn facts(&self) -> PhaseFacts
        ensures { result ≡ (of_pausing self.now).phase }
    {
        PhaseFacts::Pausing { kept: self.kept }
    }

    /// The payload of a new control PDU with this first header octet and a body of 1 to 251 octets.
    pub fn send_ctrl(&mut self, header: u8, body: &[u8]) -> ArrayVec<u8, 255>
        requires counter { (of_pausing self.old).sent < 2 ^ 39 }
        requires some { 1 ≤ length body.now }
        requires room { length body.now ≤ 251 }
        ensures payload { result.items ≡ sent_payload (of_pausing self.old) header body.now }
        ensures counted { of_pausing self.new ≡ after_sending (of_pausing self.old) }
    {
        self.keyed.seal(header, body)
    }

    /// Opens the payload of a received PDU with this first header octet. Sealed, it has at most 255
    /// octets, else 251.
    pub fn open_pdu(&mut self, header: u8, body: &[u8]) -> Result<ArrayVec<u8, 251>, Forged>
        requires counter { (of_pausing self.old).opened < 2 ^ 39 }
        requires room { length body.now ≤ longest_payload (of_pausing self.old) }
        ensures right { is_ok result ≡ is_right (of_pausing self.old) header body.now }
        ensures opened { IfOk result (λ o. o.items ≡ opened_body (of_pausing self.old) body.now) }
        ensures ok { OnOk result (of_pausing self.new ≡ after_opening (of_pausing self.old)) }
        ensures err { OnErr result (of_pausing self.new ≡ of_pausing self.old) }
    {
        match self.keyed.role {
            Role::Central => self.keyed.open(header, body),
            Role::Peripheral => Ok(copied(body)),
        }
    }

    /// Whether `open_pdu` would open this payload.
    pub fn try_pdu(&self, header: u8, body: &[u8]) -> bool
        requires counter { (of_pausing self.now).opened < 2 ^ 39 }
        requires room { length body.now ≤ longest_payload (of_pausing self.now) }
        ensures { result ≡ is_right (of_pausing self.now) header body.now }
    {
        match self.keyed.role {
            Role::Central => self.keyed.unseal(header, body).is_ok(),
            Role::Peripheral => true,
        }
    }

    /// The counter of the next sealed PDU that this end sends.
    pub fn sent(&self) -> u64
        ensures { result ≡ (of_pausing self.now).sent }
    {
        self.keyed.sent
    }

    /// The counter of the next sealed PDU that this end receives, which is 0 at the peripheral.
    pub fn opened(&self) -> u64
        ensures { result ≡ (of_pausing self.now).opened }
    {
        match self.keyed.role {
            Role::Central => self.keyed.opened,
            Role::Peripheral => 0,
        }
    }
}
