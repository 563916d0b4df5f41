//! The phase of an end, as one value: what it lets the end take.
ghost use Rattle.std.specs.Prelude.{◌≡◌, ◌^◌, ◌<◌, ◌≤◌, length, IsTrue, Some, option_copied};
ghost use Rattle.std.specs.Prelude.{is_ok, IfOk, OnOk, OnErr};
ghost use Rattle.enc_phase.specs.Sealing.{after_opening, after_sending, after_taking};
ghost use Rattle.enc_phase.specs.Sealing.{end_of, is_right, longest_payload, opened_body};
ghost use Rattle.enc_phase.specs.Sealing.{sent_payload};
ghost use Rattle.enc_phase.specs.Taking.{allows, class_of, ctrl_class, is_unknown};

use crate::{Asked, Clear, HalfClear, HalfKeyed, Pausing, PduClass, PhaseFacts, Secure};
use arrayvec::ArrayVec;
use ble_base::Role;
use ccm_link::Forged;
use data_pdu::Ctrl;

/// The phase of encryption at one end of a link.
#[derive(Drop)]
pub enum Phase {
    Clear(Clear),
    Asked(Asked),
    HalfKeyed(HalfKeyed),
    Secure(Secure),
    Pausing(Pausing),
    HalfClear(HalfClear),
}

impl Phase {
    /// The role of the end.
    pub fn role(&self) -> Role
        ensures { result ≡ (end_of self.now).role }
    {
        match self {
            Phase::Clear(clear) => clear.role(),
            Phase::Asked(asked) => asked.role(),
            Phase::HalfKeyed(half_keyed) => half_keyed.role(),
            Phase::Secure(secure) => secure.role(),
            Phase::Pausing(pausing) => pausing.role(),
            Phase::HalfClear(half_clear) => half_clear.role(),
        }
    }

    /// The phase without its session.
    pub fn facts(&self) -> PhaseFacts
        ensures { result ≡ (end_of self.now).phase }
    {
        match self {
            Phase::Clear(_) => PhaseFacts::Clear,
            Phase::Asked(asked) => asked.facts(),
            Phase::HalfKeyed(_) => PhaseFacts::HalfKeyed,
            Phase::Secure(_) => PhaseFacts::Secure,
            Phase::Pausing(pausing) => pausing.facts(),
            Phase::HalfClear(half_clear) => half_clear.facts(),
        }
    }

    /// Whether this end may take a PDU with this LLID. `ctrl` is what a control PDU, with LLID 3,
    /// was read as; none where it is not supported. Any other PDU ends the link (our choice). A PDU
    /// without octets counts as empty: each phase lets an end take it, whatever its LLID.
    pub fn allows(&self, llid: u8, ctrl: Option<&Ctrl>) -> bool
        ensures { let e = end_of self.now in
            result ≡ allows e.phase e.role (class_of llid (option_copied ctrl.entry)) }
    {
        let class = PduClass::of(llid, ctrl);
        self.facts().allows(self.role(), class)
    }

    /// Keeps what matters of a PDU that this end takes. It is called before the PDU changes the
    /// phase.
    pub fn saw(&mut self, llid: u8, ctrl: Option<&Ctrl>)
        requires { let e = end_of self.old in
            IsTrue (allows e.phase e.role (class_of llid (option_copied ctrl))) }
        ensures { end_of self.new
            ≡ after_taking (class_of llid (option_copied ctrl.entry)) (end_of self.old) }
    {
        let class = PduClass::of(llid, ctrl);
        match self {
            Phase::Asked(asked) => asked.take(class),
            Phase::Pausing(pausing) => pausing.take(class),
            _ => {}
        }
    }

    /// Whether a control PDU that this phase lets the end take is answered with LL_UNKNOWN_RSP,
    /// since it has no meaning for an end of this role in this phase (our choice): an LL_ENC_REQ or
    /// LL_PAUSE_ENC_REQ at the central, an LL_ENC_RSP or LL_START_ENC_REQ at the peripheral, and at
    /// the peripheral an LL_ENC_REQ in Secure and an LL_PAUSE_ENC_REQ in Clear. Only encryption PDUs
    /// are judged.
    pub fn is_unknown(&self, ctrl: &Ctrl) -> bool
        ensures { let e = end_of self.now in
            result ≡ is_unknown e.phase e.role (ctrl_class ctrl.now) }
    {
        let class = PduClass::of_ctrl(ctrl);
        self.facts().is_unknown(self.role(), class)
    }

    /// The payload of a new control PDU with this first header octet and a body of 1 to 251 octets.
    pub fn send_ctrl(&mut self, header: u8, body: &[u8]) -> ArrayVec<u8, 255>
        requires counter { (end_of self.old).sent < 2 ^ 39 }
        requires some { 1 ≤ length body.now }
        requires room { length body.now ≤ 251 }
        ensures payload { result.items ≡ sent_payload (end_of self.old) header body.now }
        ensures counted { end_of self.new ≡ after_sending (end_of self.old) }
    {
        match self {
            Phase::Clear(clear) => clear.send_ctrl(header, body),
            Phase::Asked(asked) => asked.send_ctrl(header, body),
            Phase::HalfKeyed(half_keyed) => half_keyed.send_ctrl(header, body),
            Phase::Secure(secure) => secure.send_ctrl(header, body),
            Phase::Pausing(pausing) => pausing.send_ctrl(header, body),
            Phase::HalfClear(half_clear) => half_clear.send_ctrl(header, body),
        }
    }

    /// Opens the payload of a received PDU with this first header octet. Sealed, it has at most 255
    /// octets, else 251.
    pub fn open_pdu(&mut self, header: u8, body: &[u8]) -> Result<ArrayVec<u8, 251>, Forged>
        requires counter { (end_of self.old).opened < 2 ^ 39 }
        requires room { length body.now ≤ longest_payload (end_of self.old) }
        ensures right { is_ok result ≡ is_right (end_of self.old) header body.now }
        ensures opened { IfOk result (λ o. o.items ≡ opened_body (end_of self.old) body.now) }
        ensures ok { OnOk result (end_of self.new ≡ after_opening (end_of self.old)) }
        ensures err { OnErr result (end_of self.new ≡ end_of self.old) }
    {
        match self {
            Phase::Clear(clear) => clear.open_pdu(header, body),
            Phase::Asked(asked) => asked.open_pdu(header, body),
            Phase::HalfKeyed(half_keyed) => half_keyed.open_pdu(header, body),
            Phase::Secure(secure) => secure.open_pdu(header, body),
            Phase::Pausing(pausing) => pausing.open_pdu(header, body),
            Phase::HalfClear(half_clear) => half_clear.open_pdu(header, body),
        }
    }

    /// Whether `open_pdu` would open this payload.
    pub fn try_pdu(&self, header: u8, body: &[u8]) -> bool
        requires counter { (end_of self.now).opened < 2 ^ 39 }
        requires room { length body.now ≤ longest_payload (end_of self.now) }
        ensures { result ≡ is_right (end_of self.now) header body.now }
    {
        match self {
            Phase::Clear(clear) => clear.try_pdu(header, body),
            Phase::Asked(asked) => asked.try_pdu(header, body),
            Phase::HalfKeyed(half_keyed) => half_keyed.try_pdu(header, body),
            Phase::Secure(secure) => secure.try_pdu(header, body),
            Phase::Pausing(pausing) => pausing.try_pdu(header, body),
            Phase::HalfClear(half_clear) => half_clear.try_pdu(header, body),
        }
    }

    /// The counter of the next sealed PDU that this end sends, which is 0 where it sends clear.
    pub fn sent(&self) -> u64
        ensures { result ≡ (end_of self.now).sent }
    {
        match self {
            Phase::Clear(_) | Phase::Asked(_) | Phase::HalfClear(_) => 0,
            Phase::HalfKeyed(half_keyed) => half_keyed.sent(),
            Phase::Secure(secure) => secure.sent(),
            Phase::Pausing(pausing) => pausing.sent(),
        }
    }

    /// The counter of the next sealed PDU that this end receives, which is 0 where it receives
    /// clear.
    pub fn opened(&self) -> u64
        ensures { result ≡ (end_of self.now).opened }
    {
        match self {
            Phase::Clear(_) | Phase::Asked(_) | Phase::HalfClear(_) => 0,
            Phase::HalfKeyed(half_keyed) => half_keyed.opened(),
            Phase::Secure(secure) => secure.opened(),
            Phase::Pausing(pausing) => pausing.opened(),
        }
    }
}
