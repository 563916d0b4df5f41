//! What the host of an end asks, answers and ends.
ghost use Rattle.std.specs.Prelude.{◌≡◌, ◌<◌};
ghost use Rattle.std.specs.Result.{ForOk};
ghost use Rattle.control_model.specs.procedures.procedure_values.Wants.{IsAsk};
ghost use Rattle.control_model.specs.procedures.procedure_stages.Queue.{waiting_in};
ghost use Rattle.control_model.specs.procedures.Going.{is_answer};
ghost use Rattle.control_model.specs.Control.{Step};
ghost use Rattle.control_end.specs.Answers.{awaits_host, may_ask};
ghost use Rattle.control_end.specs.Held.{held_after};

use crate::end::ControlEnd;
use ble_base::{ErrCode, Kind};
use control_model::Ask;

/// Whether an answer of the host is one to a request: it grants it by an update, or refuses it.
fn is_answer(answer: &Result<Ask, ErrCode>) -> bool
    ensures { result ≡ is_answer answer.now }
{
    match answer {
        Ok(ask) => matches!(ask, Ask::Update { .. }),
        Err(_) => true,
    }
}

impl ControlEnd {
    /// Whether the host may ask for a procedure of this kind: it is neither wanted nor running
    /// here, and this end has not ended the link.
    pub fn may_ask(&self, kind: Kind) -> bool
        ensures { result ≡ may_ask kind self.now }
    {
        self.goes_on() && self.table.may_ask(kind)
    }

    /// The host asks for a procedure, with values in their ranges (Core 5.2, volume 6 part B,
    /// section 5.1). It begins as an event is entered.
    pub fn ask(&mut self, ask: Ask)
        requires { IsAsk ask }
        ensures { self.new ≡ held_after (Step.Asks ask) self.old }
    {
        if self.goes_on() {
            self.table.ask(ask);
        }
    }

    /// Whether a request of the peripheral waits for the host's answer (Core 5.2, volume 6 part B,
    /// section 5.1.7).
    pub fn awaits_host(&self) -> bool
        ensures { result ≡ awaits_host self.now }
    {
        self.goes_on() && self.table.awaits_host()
    }

    /// The host answers a request of the peripheral: it grants it with the values of an update, or
    /// refuses it with an error (Core 5.2, volume 6 part B, section 5.1.7). Nothing happens where
    /// no request waits, or the answer grants it by something else.
    pub fn answer(&mut self, answer: Result<Ask, ErrCode>)
        requires in_range { ForOk answer IsAsk }
        requires room { waiting_in self.old.table.queue < 24 }
        ensures { self.new ≡ held_after (Step.Answers answer) self.old }
    {
        if self.awaits_host() && is_answer(&answer) {
            self.table.host_answer(answer);
        }
    }

    /// The host ends the link, for this reason: LL_TERMINATE_IND is queued, unless the link is to
    /// end already (Core 5.2, volume 6 part B, section 5.1.6).
    pub fn disconnect(&mut self, reason: ErrCode)
        ensures { self.new ≡ held_after (Step.Disconnects reason) self.old }
    {
        if self.goes_on() && !self.is_closing() {
            self.table.terminate(reason);
        }
    }
}
