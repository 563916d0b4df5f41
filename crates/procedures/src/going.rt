//! How procedures go on as an event is entered, as the host answers or ends the link, and as time
//! passes.
ghost use Rattle.std.specs.Prelude.{◌≡◌, ◌<◌, false, IsTrue};
ghost use Rattle.std.specs.Result.{ForOk};
ghost use Rattle.data_pdu.specs.Ranges.{IsInRange};
ghost use Rattle.procedure_stages.specs.InProgress.{is_host_asked};
ghost use Rattle.procedure_stages.specs.procedure_values.Wants.{IsAsk};
ghost use Rattle.procedures.specs.Going.{closing_given, is_over, entered_step, request_granted};
ghost use Rattle.procedures.specs.Going.{request_refused, granted_by, host_answer_step, is_answer};
ghost use Rattle.procedures.specs.Going.{terminate_step, owe_step, tick_of};
ghost use Rattle.procedure_stages.specs.Closing.{is_disconnecting};
ghost use Rattle.procedure_stages.specs.Queue.{waiting_in};

use crate::encryption::progress_given;
use crate::table::ProcTable;
use ble_base::{ErrCode, Kind, SlotNo};
use data_pdu::Ctrl;
use exclusive_stages::PeerAtCentral;
use procedure_stages::kinds::is_timed;
use procedure_stages::opcodes::CONNECTION_PARAM_REQ;
use procedure_stages::{Ask, CipherPdu, Closing, Draft, NewParams, Rejection};

/// The time in which the peer has to answer, 40 s (Core 5.2, volume 6 part B, section 5.2), in
/// slots.
const RESPONSE_SLOTS: u64 = 32000;

/// Whether the link is to end, after the layer above queued a PDU.
fn closing_given(ctrl: &Ctrl, closing: Closing) -> Closing
    ensures { result ≡ closing_given ctrl.now closing }
{
    match ctrl {
        Ctrl::TerminateInd { .. } => closing.closed(),
        _ => closing,
    }
}

/// Whether the time in which the peer has to answer is over.
fn is_over(since: Option<SlotNo>, slot: SlotNo) -> bool
    ensures { result ≡ is_over since slot.0 }
{
    match since {
        Some(since) => slot.0.saturating_sub(since.0) >= RESPONSE_SLOTS,
        None => false,
    }
}

impl ProcTable {
    /// An event is entered, `applied` being that an indication holds from it. The answer is the
    /// procedure of this end that this completes.
    pub fn entered(&mut self, applied: bool) -> Option<Kind>
        ensures { (self.new, result) ≡ entered_step self.old applied }
    {
        if !applied {
            return None;
        }
        let done = self.progress.done();
        self.progress = self.progress.held();
        done
    }

    /// The host grants the request of the peripheral, with these parameters.
    fn grant(&mut self, interval: u16, latency: u16, timeout: u16)
        requires room { waiting_in self.old.queue < 24 }
        requires in_range { IsAsk (Ask.Update interval latency timeout) }
        ensures { self.new ≡ request_granted self.old interval latency timeout }
    {
        let params = NewParams::new(interval, latency, timeout);
        self.queue.push_draft(self.closing, Draft::Grant(params));
        self.progress = self.progress.with_peer(PeerAtCentral::GrantUnsent);
    }

    /// The host grants the request of the peripheral, with the values of an update.
    fn grant_by(&mut self, ask: Ask)
        requires room { waiting_in self.old.queue < 24 }
        requires in_range { IsAsk ask }
        ensures { self.new ≡ granted_by self.old ask }
    {
        if let Ask::Update {
            interval,
            latency,
            timeout,
        } = ask
        {
            self.grant(interval, latency, timeout);
        }
    }

    /// The host refuses the request of the peripheral.
    fn refuse(&mut self, code: ErrCode)
        requires { waiting_in self.old.queue < 24 }
        ensures { self.new ≡ request_refused self.old code }
    {
        let opcode = CONNECTION_PARAM_REQ;
        self.queue
            .push_rejection(self.closing, Rejection { opcode, code });
        self.progress = self.progress.with_peer(PeerAtCentral::Absent);
    }

    /// Whether a request of the peripheral waits for the host's answer.
    pub fn awaits_host(&self) -> bool
        ensures { result ≡ is_host_asked self.now.progress }
    {
        self.progress.is_host_asked()
    }

    /// The host answers the request of the peripheral: it grants it with the values of an update, or
    /// refuses it.
    pub fn host_answer(&mut self, answer: Result<Ask, ErrCode>)
        requires asked { IsTrue (is_host_asked self.old.progress) }
        requires answer { IsTrue (is_answer answer) }
        requires in_range { ForOk answer IsAsk }
        requires room { waiting_in self.old.queue < 24 }
        ensures { self.new ≡ host_answer_step self.old answer }
    {
        match answer {
            Ok(ask) => self.grant_by(ask),
            Err(code) => self.refuse(code),
        }
    }

    /// Whether a Disconnect of the host was accepted.
    pub fn is_disconnecting(&self) -> bool
        ensures { result ≡ is_disconnecting self.now.closing }
    {
        self.closing.is_disconnecting()
    }

    /// Queues LL_TERMINATE_IND of a Disconnect that was accepted, with its reason. It was not called
    /// before.
    pub fn terminate(&mut self, reason: ErrCode)
        requires { is_disconnecting self.old.closing ≡ false }
        ensures { self.new ≡ terminate_step self.old reason }
    {
        self.queue.set_disconnect(self.closing, reason);
        self.closing = Closing::Disconnecting;
    }

    /// Queues a PDU of the encryption procedures, the refusal of an encryption start, or
    /// LL_TERMINATE_IND where a key is missing.
    pub fn owe(&mut self, ctrl: Ctrl)
        requires in_range { IsInRange ctrl }
        requires room { waiting_in self.old.queue < 24 }
        ensures { self.new ≡ owe_step self.old ctrl }
    {
        let pdu = CipherPdu::new(ctrl);
        self.queue.push_draft(self.closing, Draft::Cipher(pdu));
        self.progress = progress_given(self.progress, &ctrl);
        self.closing = closing_given(&ctrl, self.closing);
    }

    /// LL Response Timeout, if the peer's time to answer is over in this slot.
    pub fn tick(&self, slot: SlotNo) -> Option<ErrCode>
        ensures { result ≡ tick_of self.now slot.0 }
    {
        if is_timed(self.progress.own_kind()) && is_over(self.since, slot) {
            Some(ErrCode::LL_RESPONSE_TIMEOUT)
        } else {
            None
        }
    }
}
