//! Which PDU of the encryption answers one of the peer.
ghost use Rattle.std.specs.Prelude.{◌≡◌, ◌<◌};
ghost use Rattle.data_pdu.specs.declared.ctrl.Ctrl.{Ctrl};
ghost use Rattle.enc_phase.specs.declared.facts.Transition.{Transition};
ghost use Rattle.procedures.specs.procedure_stages.Queue.{waiting_in};
ghost use Rattle.phased_end.specs.Taking.{answered, answering, answering_at_central};
ghost use Rattle.phased_end.specs.Taking.{answering_at_peripheral, asking, is_refused, refusing};
ghost use Rattle.phased_end.specs.Taking.{starting};

use crate::changes::{ask, confirm, pause, refuse, start, unlock};
use crate::end::PhasedEnd;
use crate::material::session_of;
use ble_base::{ErrCode, Kind, Role};
use data_pdu::{Ctrl, CtrlRead};
use enc_phase::{PduClass, Transition};
use keyed_control::Response;

/// Whether the procedures read a PDU as the refusal of the own encryption.
pub(crate) fn is_refused(refused: Option<(Kind, ErrCode)>) -> bool
    ensures { result ≡ is_refused refused }
{
    matches!(refused, Some((Kind::Encrypt, _)))
}

impl PhasedEnd {
    /// A central starts its session, and LL_START_ENC_RSP is queued.
    fn start_at_central(&mut self)
        requires { waiting_in self.old.control.table.queue < 24 }
        ensures { self.new ≡ starting self.old }
    {
        if self.phase.facts().is_asked() {
            start(&mut self.phase, session_of(self.material));
            self.control.owe(Ctrl::StartEncRsp);
        }
    }

    /// The session ends, and LL_PAUSE_ENC_RSP is queued.
    fn unlock_at_central(&mut self)
        requires { waiting_in self.old.control.table.queue < 24 }
        ensures { self.new ≡ answering Transition.Unlock Ctrl.PauseEncRsp self.old }
    {
        if self.phase.facts().may_follow(Transition::Unlock) {
            unlock(&mut self.phase);
            self.control.owe(Ctrl::PauseEncRsp);
        }
    }

    /// A start is refused where the procedures read it so.
    fn refuse_at_central(&mut self, class: PduClass, refused: bool)
        ensures { self.new ≡ refusing class refused self.old }
    {
        if refused && matches!(class, PduClass::Refusal) {
            refuse(&mut self.phase);
        }
    }

    /// A central answers a PDU of the encryption.
    fn answer_at_central(&mut self, ctrl: &Ctrl, refused: bool)
        requires { waiting_in self.old.control.table.queue < 24 }
        ensures { self.new ≡ answering_at_central refused ctrl.now self.old }
    {
        match *ctrl {
            Ctrl::StartEncReq => self.start_at_central(),
            Ctrl::StartEncRsp => confirm(&mut self.phase),
            Ctrl::PauseEncRsp => self.unlock_at_central(),
            _ => self.refuse_at_central(PduClass::of(3, Some(ctrl)), refused),
        }
    }

    /// A peripheral answers LL_ENC_REQ, and asks its host for the key.
    fn ask_at_peripheral(&mut self, skd_m: u64, iv_m: u32, response: Response)
        requires { waiting_in self.old.control.table.queue < 24 }
        ensures { self.new ≡ asking skd_m iv_m response self.old }
    {
        if self.phase.facts().may_follow(Transition::Ask) {
            self.asks_key = !self.is_closing();
            self.material.skd_m = skd_m;
            self.material.iv_m = iv_m;
            self.material.skd_s = response.skd_s;
            self.material.iv_s = response.iv_s;
            ask(&mut self.phase);
            self.control.owe(Ctrl::EncRsp {
                skd_s: response.skd_s,
                iv_s: response.iv_s,
            });
        }
    }

    /// A peripheral is to pause, and LL_PAUSE_ENC_RSP is queued.
    fn pause_at_peripheral(&mut self)
        requires { waiting_in self.old.control.table.queue < 24 }
        ensures { self.new ≡ answering Transition.Pause Ctrl.PauseEncRsp self.old }
    {
        if self.phase.facts().may_follow(Transition::Pause) {
            pause(&mut self.phase);
            self.control.owe(Ctrl::PauseEncRsp);
        }
    }

    /// Encryption has started at a peripheral, and LL_START_ENC_RSP is queued.
    fn confirm_at_peripheral(&mut self)
        requires { waiting_in self.old.control.table.queue < 24 }
        ensures { self.new ≡ answering Transition.Confirm Ctrl.StartEncRsp self.old }
    {
        if self.phase.facts().may_follow(Transition::Confirm) {
            confirm(&mut self.phase);
            self.control.owe(Ctrl::StartEncRsp);
        }
    }

    /// A peripheral answers a PDU of the encryption.
    fn answer_at_peripheral(&mut self, ctrl: &Ctrl, response: Response)
        requires { waiting_in self.old.control.table.queue < 24 }
        ensures { self.new ≡ answering_at_peripheral response ctrl.now self.old }
    {
        match *ctrl {
            Ctrl::EncReq { skd_m, iv_m, .. } => self.ask_at_peripheral(skd_m, iv_m, response),
            Ctrl::PauseEncReq => self.pause_at_peripheral(),
            Ctrl::StartEncRsp => self.confirm_at_peripheral(),
            Ctrl::PauseEncRsp => unlock(&mut self.phase),
            _ => {}
        }
    }

    /// A PDU of the encryption is answered.
    pub(crate) fn answer_read(&mut self, read: &CtrlRead, refused: bool, response: Response)
        requires { waiting_in self.old.control.table.queue < 24 }
        ensures { self.new ≡ answered refused response read.now self.old }
    {
        let CtrlRead::Known(ctrl) = read else {
            return;
        };
        match self.phase.role() {
            Role::Central => self.answer_at_central(ctrl, refused),
            Role::Peripheral => self.answer_at_peripheral(ctrl, response),
        }
    }
}
