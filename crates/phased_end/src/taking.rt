//! What an end does with a PDU of the peer.
ghost use Rattle.std.specs.Prelude.{◌≡◌, ◌≤◌, ◌<◌, IsTrue};
ghost use Rattle.data_pdu.specs.Ranges.{IsInRange};
ghost use Rattle.data_pdu.specs.Reading.{IfKnown};
ghost use Rattle.procedures.specs.procedure_stages.Queue.{waiting_in};
ghost use Rattle.enc_phase.specs.Sealing.{after_taking, end_of};
ghost use Rattle.enc_phase.specs.Taking.{allows};
ghost use Rattle.keyed_control.specs.phased_control.Taken.{class_of_read, ctrl_in};
ghost use Rattle.data_pdu.specs.declared.ctrl.CtrlRead.{CtrlRead};
ghost use Rattle.keyed_control.specs.KeyedSteps.{KeyedStep};
ghost use Rattle.phased_end.specs.Held.{held_after};
ghost use Rattle.data_pdu.specs.Reading.{opcode_of};
ghost use Rattle.phased_end.specs.Lengths.{HasPayloadLengths};
ghost use Rattle.phased_end.specs.Reached.{IsReached};
ghost use Rattle.phased_end.specs.Taking.{IsNamed, does_keep, drawn, handed, handed_keyed, handing};
ghost use Rattle.phased_end.specs.Taking.{handed_taken, hearing_forged, is_allowed, is_answered_in};
ghost use Rattle.phased_end.specs.Taking.{keeping, kept_if_quiet, kept_taken_if_quiet};
ghost use Rattle.phased_end.specs.Taking.{lacks_room, nothing_keyed, seeing, seen_as};
ghost use Rattle.phased_end.specs.Taking.{taken_keyed, took, took_data, with_rsp};

use crate::answering::is_refused;
use crate::end::PhasedEnd;
use crate::material::KeptPdu;
use ble_base::{ErrCode, Role, SlotNo};
use control_part::{Taken, nothing_taken};
use data_pdu::{Ctrl, CtrlRead};
use enc_phase::{PduClass, Phase, PhaseFacts, Transition};
use keyed_control::{KeyMaterial, Response};

/// The LLID of control PDUs (Core 5.2, volume 6 part B, section 2.4).
const CONTROL_LLID: u8 = 3;

/// What comes of a control PDU of the peer that is taken.
#[derive(Clone, Copy, Debug, PartialEq, Eq)]
pub struct TakenKeyed {
    /// What the procedures gave for it.
    pub taken: Taken,
    /// What they gave for the PDU that was kept, which is answered now.
    pub kept: Taken,
}

/// Nothing is to be done.
fn nothing_keyed() -> TakenKeyed
    ensures { result ≡ nothing_keyed }
{
    TakenKeyed {
        taken: nothing_taken(),
        kept: nothing_taken(),
    }
}

/// What the phase distinguishes of a PDU.
fn class_of_read(read: &CtrlRead) -> PduClass
    ensures { result ≡ class_of_read read.now }
{
    match read {
        CtrlRead::Known(ctrl) => PduClass::of(CONTROL_LLID, Some(ctrl)),
        CtrlRead::Unknown(_) => PduClass::Other,
        CtrlRead::Bare => PduClass::Empty,
    }
}

/// The phase keeps what matters of a PDU.
fn see(phase: &mut Phase, read: &CtrlRead)
    requires { let e = end_of phase.old in
        IsTrue (allows e.phase e.role (class_of_read read.now)) }
    ensures { end_of phase.new ≡ after_taking (class_of_read read.now) (end_of phase.old) }
{
    match read {
        CtrlRead::Known(ctrl) => phase.saw(CONTROL_LLID, Some(ctrl)),
        CtrlRead::Unknown(_) => phase.saw(CONTROL_LLID, None),
        CtrlRead::Bare => {}
    }
}

/// A central takes the LL_ENC_RSP of its request.
fn add_response(material: &mut KeyMaterial, role: Role, read: &CtrlRead, phase: PhaseFacts)
    ensures { material.new ≡ with_rsp role read.now phase material.old }
{
    if let (
        Role::Central,
        CtrlRead::Known(Ctrl::EncRsp { skd_s, iv_s }),
        PhaseFacts::Asked { enc_rsp: false, .. },
    ) = (role, *read, phase)
    {
        material.skd_s = skd_s;
        material.iv_s = iv_s;
    }
}

/// Whether a PDU of the encryption is answered at once.
fn is_answered_in(role: Role, read: &CtrlRead, phase: PhaseFacts) -> bool
    ensures { result ≡ is_answered_in role read.now phase }
{
    let CtrlRead::Known(ctrl) = *read else {
        return false;
    };
    match (role, ctrl) {
        (Role::Central, Ctrl::StartEncReq) => phase.is_asked(),
        (Role::Central, Ctrl::PauseEncRsp) => phase.may_follow(Transition::Unlock),
        (Role::Peripheral, Ctrl::EncReq { .. }) => phase.may_follow(Transition::Ask),
        (Role::Peripheral, Ctrl::PauseEncReq) => phase.may_follow(Transition::Pause),
        (Role::Peripheral, Ctrl::StartEncRsp) => phase.may_follow(Transition::Confirm),
        _ => false,
    }
}

/// What was read, to be kept.
fn kept_in(read: &CtrlRead) -> Option<KeptPdu>
    requires { IfKnown read.now IsInRange }
    ensures { result ≡ ctrl_in read.now }
{
    match *read {
        CtrlRead::Known(ctrl) => Some(KeptPdu::new(ctrl)),
        _ => None,
    }
}

/// The opcode of a PDU of the encryption that may have no meaning at an end (Core 5.2, volume 6 part
/// B, section 2.4.2).
fn unknown_of(ctrl: &Ctrl) -> CtrlRead
    requires { IsNamed ctrl.now }
    ensures value { result ≡ CtrlRead.Unknown (opcode_of ctrl.now) }
    ensures in_range { IfKnown result IsInRange }
{
    match *ctrl {
        Ctrl::EncReq { .. } => CtrlRead::Unknown(0x03),
        Ctrl::EncRsp { .. } => CtrlRead::Unknown(0x04),
        Ctrl::StartEncReq => CtrlRead::Unknown(0x05),
        Ctrl::PauseEncReq => CtrlRead::Unknown(0x0A),
        _ => unreachable!(),
    }
}

impl PhasedEnd {
    /// Whether the phase lets this end take a PDU.
    pub(crate) fn is_allowed(&self, read: &CtrlRead) -> bool
        ensures { result ≡ is_allowed read.now self.now }
    {
        self.phase
            .facts()
            .allows(self.phase.role(), class_of_read(read))
    }

    /// Whether this end keeps a PDU until the phase is Clear or Secure.
    pub(crate) fn does_keep(&self, read: &CtrlRead) -> bool
        ensures { result ≡ does_keep read.now self.now }
    {
        match (class_of_read(read), self.phase.role()) {
            (PduClass::Request, Role::Central) => !self.is_quiet(),
            _ => false,
        }
    }

    /// Whether a PDU is answered at once, and there is no room for the answer.
    pub(crate) fn lacks_room(&self, read: &CtrlRead) -> bool
        ensures { result ≡ lacks_room read.now self.now }
    {
        if self.is_closing() || self.waiting() < 16 {
            return false;
        }
        is_answered_in(self.phase.role(), read, self.phase.facts())
    }

    /// What the procedures see of a PDU: one that has no meaning here is not supported.
    #[tactic(auto, using(crate::proofs::Unknown::named))]
    fn seen_as(&self, read: &CtrlRead) -> CtrlRead
        requires { IfKnown read.now IsInRange }
        ensures value { result ≡ seen_as read.now self.now }
        ensures in_range { IfKnown result IsInRange }
    {
        let CtrlRead::Known(ctrl) = *read else {
            return *read;
        };
        if self.phase.is_unknown(&ctrl) {
            unknown_of(&ctrl)
        } else {
            *read
        }
    }

    /// The phase and what the keys are made of see a PDU.
    fn see(&mut self, read: &CtrlRead)
        requires { IsTrue (is_allowed read.now self.old) }
        ensures { self.new ≡ seeing read.now self.old }
    {
        let role = self.phase.role();
        add_response(&mut self.material, role, read, self.phase.facts());
        see(&mut self.phase, read);
    }

    /// Keeps a PDU.
    fn keep(&mut self, read: &CtrlRead)
        requires allowed { IsTrue (is_allowed read.now self.old) }
        requires in_range { IfKnown read.now IsInRange }
        ensures { self.new ≡ keeping read.now self.old }
    {
        self.see(read);
        self.kept = kept_in(read);
    }

    /// The procedures see a PDU, and then the phase.
    fn hand_on(&mut self, read: &CtrlRead, slot: SlotNo) -> Taken
        requires entered { 1 ≤ self.old.control.track.entered }
        requires allowed { IsTrue (is_allowed read.now self.old) }
        requires in_range { IfKnown read.now IsInRange }
        ensures step { self.new ≡ handing slot.0 read.now self.old }
        ensures taken { result ≡ handed_taken slot.0 read.now self.old }
    {
        let seen = self.seen_as(read);
        let quiet = self.is_quiet();
        let taken = self.control.take(&seen, slot, quiet);
        self.see(read);
        taken
    }

    /// What was kept is answered, once the phase is Clear or Secure again.
    fn take_kept(&mut self, slot: SlotNo) -> Taken
        requires { 1 ≤ self.old.control.track.entered }
        ensures step { self.new ≡ kept_if_quiet slot.0 self.old }
        ensures taken { result ≡ kept_taken_if_quiet slot.0 self.old }
    {
        if !self.is_quiet() {
            return nothing_taken();
        }
        match self.kept.take() {
            Some(kept) => self.control.take(&CtrlRead::Known(kept.ctrl()), slot, true),
            None => nothing_taken(),
        }
    }

    /// A PDU that the procedures see is answered, and then what was kept.
    #[tactic(auto, using(crate::proofs::Rooms::room_handing, crate::proofs::Rooms::entered_handed))]
    fn hand(&mut self, read: &CtrlRead, slot: SlotNo, response: Response) -> TakenKeyed
        requires entered { 1 ≤ self.old.control.track.entered }
        requires allowed { IsTrue (is_allowed read.now self.old) }
        requires in_range { IfKnown read.now IsInRange }
        requires room { waiting_in self.old.control.table.queue < 24 }
        ensures step { self.new ≡ handed slot.0 response read.now self.old }
        ensures taken { result ≡ handed_keyed slot.0 response read.now self.old }
    {
        let taken = self.hand_on(read, slot);
        if !self.goes_on() {
            return TakenKeyed {
                taken,
                kept: nothing_taken(),
            };
        }
        self.answer_read(read, is_refused(taken.refused), response);
        let kept = self.take_kept(slot);
        TakenKeyed { taken, kept }
    }

    /// Takes a control PDU as the phase lets this end.
    fn take_by(&mut self, read: &CtrlRead, slot: SlotNo, response: Response) -> TakenKeyed
        requires entered { 1 ≤ self.old.control.track.entered }
        requires in_range { IfKnown read.now IsInRange }
        requires room { waiting_in self.old.control.table.queue < 24 }
        ensures step { self.new ≡ took slot.0 response read.now self.old }
        ensures taken { result ≡ taken_keyed slot.0 response read.now self.old }
    {
        if !self.goes_on() {
            return nothing_keyed();
        }
        if !self.is_allowed(read) {
            self.control.end_with(ErrCode::MIC_FAILURE);
            return nothing_keyed();
        }
        if self.does_keep(read) {
            self.keep(read);
            return nothing_keyed();
        }
        if self.lacks_room(read) {
            self.control.end_with(ErrCode::MEMORY_CAPACITY_EXCEEDED);
            return nothing_keyed();
        }
        self.hand(read, slot, response)
    }

    /// Takes a control PDU of the peer in a slot of the event entered last, with what a peripheral
    /// draws to answer LL_ENC_REQ (Core 5.2, volume 6 part B, section 5.1).
    ///
    /// A PDU that the phase forbids ends the link with error 3D. Outside Clear and Secure a central
    /// keeps the first PDU of a procedure of the peripheral, which is answered once the phase is
    /// Clear or Secure. Where sixteen control PDUs wait, one of the encryption that would be answered
    /// ends the link with error 07 (section 5.1.3, and our choice).
    #[tactic(auto, using(crate::proofs::Reached::reached_room))]
    pub fn take(&mut self, read: &CtrlRead, slot: SlotNo, response: Response) -> TakenKeyed
        requires reached { IsReached self.old }
        requires entered { 1 ≤ self.old.control.track.entered }
        requires in_range { IfKnown read.now IsInRange }
        ensures step { self.new
            ≡ held_after (KeyedStep.Takes read.now slot.0 (drawn response)) self.old }
        ensures taken { result ≡ taken_keyed slot.0 response read.now self.old }
        ensures payloads { HasPayloadLengths result.taken.effect }
        ensures kept_payloads { HasPayloadLengths result.kept.effect }
        ensures reached { IsReached self.new }
        ensures entered { 1 ≤ self.new.control.track.entered }
    {
        self.take_by(read, slot, response)
    }

    /// Data that the phase forbids ends the link.
    fn take_data_by(&mut self)
        ensures { self.new ≡ took_data self.old }
    {
        if !self.phase.facts().allows(self.phase.role(), PduClass::Data) {
            self.control.end_with(ErrCode::MIC_FAILURE);
        }
    }

    /// Takes data of the peer: where the phase forbids it, the link ends with error 3D (Core 5.2,
    /// volume 6 part B, section 5.1.3, and our choice).
    pub fn take_data(&mut self)
        requires reached { IsReached self.old }
        ensures step { self.new ≡ held_after KeyedStep.TakesData self.old }
        ensures reached { IsReached self.new }
        ensures entered { 1 ≤ self.old.control.track.entered
            → 1 ≤ self.new.control.track.entered }
    {
        self.take_data_by();
    }

    /// Hears a packet whose integrity code is wrong: the link ends with error 3D (Core 5.2, volume 6
    /// part B, section 5.1.3.1). Nothing happens where this end ended the link before.
    pub fn hear_forged(&mut self)
        requires reached { IsReached self.old }
        ensures step { self.new ≡ hearing_forged self.old }
        ensures reached { IsReached self.new }
    {
        if self.goes_on() {
            self.control.end_with(ErrCode::MIC_FAILURE);
        }
    }
}
