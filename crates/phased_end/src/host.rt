//! What the host of an end asks, answers and ends, and the key that it gives.
ghost use Rattle.std.specs.Prelude.{◌≡◌, ◌<◌, ◌≤◌};
ghost use Rattle.std.specs.Result.{ForOk};
ghost use Rattle.procedures.specs.procedure_values.Wants.{IsAsk};
ghost use Rattle.procedures.specs.procedure_stages.Queue.{waiting_in};
ghost use Rattle.control_part.specs.control_end.Answers.{awaits_host, may_ask};
ghost use Rattle.enc_phase.specs.declared.facts.Transition.{Transition};
ghost use Rattle.enc_phase.specs.Phases.{may_follow};
ghost use Rattle.keyed_control.specs.KeyedSteps.{KeyedStep};
ghost use Rattle.phased_end.specs.Held.{held_after};
ghost use Rattle.phased_end.specs.Moves.{awaits_key, with_key_given, with_key_refused};
ghost use Rattle.phased_end.specs.Reached.{IsReached};

use crate::changes::{refuse, start};
use crate::end::PhasedEnd;
use crate::material::session_of;
use ble_base::{ErrCode, Kind};
use data_pdu::Ctrl;
use enc_phase::Transition;
use procedures::Ask;

/// The opcode of LL_ENC_REQ (Core 5.2, volume 6 part B, section 2.4.2).
const ENC_REQ_OPCODE: u8 = 0x03;

impl PhasedEnd {
    /// Whether the host may ask for a procedure of this kind: it is neither wanted nor running
    /// here, and this end has not ended the link.
    pub fn may_ask(&self, kind: Kind) -> bool
        ensures { result ≡ may_ask kind self.now.control }
    {
        self.control.may_ask(kind)
    }

    /// The host asks for a procedure, with values in their ranges (Core 5.2, volume 6 part B,
    /// section 5.1). It begins as an event is entered.
    pub fn ask(&mut self, ask: Ask)
        requires reached { IsReached self.old }
        requires in_range { IsAsk ask }
        ensures step { self.new ≡ held_after (KeyedStep.Asks ask) self.old }
        ensures reached { IsReached self.new }
        ensures entered { 1 ≤ self.old.control.track.entered
            → 1 ≤ self.new.control.track.entered }
    {
        self.control.ask(ask);
    }

    /// Whether a request of the peripheral waits for the host's answer (Core 5.2, volume 6 part B,
    /// section 5.1.7).
    pub fn awaits_host(&self) -> bool
        ensures { result ≡ awaits_host self.now.control }
    {
        self.control.awaits_host()
    }

    /// The host answers a request of the peripheral: it grants it with the values of an update, or
    /// refuses it with an error (Core 5.2, volume 6 part B, section 5.1.7). Nothing happens where
    /// no request waits, or the answer grants it by something else.
    pub fn answer(&mut self, answer: Result<Ask, ErrCode>)
        requires reached { IsReached self.old }
        requires in_range { ForOk answer IsAsk }
        ensures step { self.new ≡ held_after (KeyedStep.Answers answer) self.old }
        ensures reached { IsReached self.new }
        ensures entered { 1 ≤ self.old.control.track.entered
            → 1 ≤ self.new.control.track.entered }
    {
        self.control.answer(answer);
    }

    /// The host ends the link, for this reason: LL_TERMINATE_IND is queued, unless the link is to
    /// end already (Core 5.2, volume 6 part B, section 5.1.6).
    pub fn disconnect(&mut self, reason: ErrCode)
        requires reached { IsReached self.old }
        ensures step { self.new ≡ held_after (KeyedStep.Disconnects reason) self.old }
        ensures reached { IsReached self.new }
        ensures entered { 1 ≤ self.old.control.track.entered
            → 1 ≤ self.new.control.track.entered }
    {
        self.control.disconnect(reason);
    }

    /// Whether the host of a peripheral was asked for a key and has not answered, and the link is
    /// not to end (Core 5.2, volume 6 part B, section 5.1.3.1).
    pub fn awaits_key(&self) -> bool
        ensures { result ≡ awaits_key self.now }
    {
        self.goes_on() && self.asks_key && !self.is_closing()
    }

    /// The host gives the long term key that it was asked for, most significant octet first: the
    /// session begins, and LL_START_ENC_REQ is queued (Core 5.2, volume 6 part B, section 5.1.3.1).
    /// Nothing happens where no key is asked for.
    #[tactic(auto, using(crate::proofs::Reached::reached_room))]
    pub fn give_key(&mut self, ltk: [u8; 16])
        requires reached { IsReached self.old }
        ensures step { self.new ≡ held_after (KeyedStep.GivesKey ltk) self.old }
        ensures reached { IsReached self.new }
        ensures entered { 1 ≤ self.old.control.track.entered
            → 1 ≤ self.new.control.track.entered }
    {
        if self.awaits_key() {
            self.begin_session(ltk);
        }
    }

    /// The session begins with this key.
    fn begin_session(&mut self, ltk: [u8; 16])
        requires room { waiting_in self.old.control.table.queue < 24 }
        ensures { self.new ≡ with_key_given ltk self.old }
    {
        self.asks_key = false;
        self.material.ltk = ltk;
        start(&mut self.phase, session_of(self.material));
        self.control.owe(Ctrl::StartEncReq);
    }

    /// The host has no key: the start is refused, or after a pause the link ends (Core 5.2, volume
    /// 6 part B, sections 5.1.3.1 and 5.1.3.2). Nothing happens where no key is asked for.
    #[tactic(auto, using(crate::proofs::Reached::reached_room))]
    pub fn lack_key(&mut self)
        requires reached { IsReached self.old }
        ensures step { self.new ≡ held_after KeyedStep.LacksKey self.old }
        ensures reached { IsReached self.new }
        ensures entered { 1 ≤ self.old.control.track.entered
            → 1 ≤ self.new.control.track.entered }
    {
        if self.awaits_key() {
            self.refuse_start();
        }
    }

    /// The start is refused, or the link is to end.
    fn refuse_start(&mut self)
        requires room { waiting_in self.old.control.table.queue < 24 }
        ensures { self.new
            ≡ with_key_refused (may_follow Transition.Refuse self.old.end.phase) self.old }
    {
        self.asks_key = false;
        if self.phase.facts().may_follow(Transition::Refuse) {
            refuse(&mut self.phase);
            self.control.owe(Ctrl::RejectExtInd {
                opcode: ENC_REQ_OPCODE,
                code: ErrCode::PIN_OR_KEY_MISSING.0,
            });
        } else {
            self.control.owe(Ctrl::TerminateInd {
                code: ErrCode::PIN_OR_KEY_MISSING.0,
            });
        }
    }
}
