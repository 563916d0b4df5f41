//! The control PDUs that wait to be sent, and which of them goes next.
ghost use Rattle.std.specs.Prelude.{◌≡◌, ◌<◌, true};
ghost use Rattle.procedure_stages.specs.Closing.{is_open};
ghost use Rattle.procedure_stages.specs.Queue.{empty_queue, waiting_in, with_draft, with_rejection};
ghost use Rattle.procedure_stages.specs.Queue.{with_reply, with_disconnect, has_reply};
ghost use Rattle.procedure_stages.specs.Queue.{is_past_instant, next_draft, next_disconnect};
ghost use Rattle.procedure_stages.specs.Queue.{next_after_rejections, next_in, without_next};

use crate::closing::Closing;
use crate::reply::Reply;
use crate::stages::Progress;
use arrayvec::ArrayVec;
use ble_base::{ErrCode, EventNo};
use procedure_values::{Draft, Outgoing, Rejection};
use std::marker::Model;

/// The control PDUs of an end that wait to be sent (Core 5.2, volume 6 part B, section 5.3).
#[derive(Drop)]
pub struct Queue {
    /// The rejections of procedures of the peer, in order.
    rejections: ArrayVec<Rejection, 24>,
    /// The reason of a Disconnect that was accepted and whose LL_TERMINATE_IND waits.
    disconnect: Option<ErrCode>,
    /// The others, in order.
    drafts: ArrayVec<Draft, 24>,
}

impl Model for Queue {
    ghost use Rattle.procedure_stages.specs.Queue.{QueueFacts};

    ghost Value = { QueueFacts };

    ghost view = { λ q. record {
      rejections = q.rejections.items;
      disconnect = q.disconnect;
      drafts = q.drafts.items;
    } };

    ghost inverse = { λ f. record {
      rejections = record { items = f.rejections };
      disconnect = f.disconnect;
      drafts = record { items = f.drafts };
    } };
}

impl Queue {
    /// Nothing waits.
    pub fn new() -> Self
        ensures { result ≡ empty_queue }
    {
        Queue {
            rejections: ArrayVec::new(),
            disconnect: None,
            drafts: ArrayVec::new(),
        }
    }

    /// How many control PDUs wait.
    pub fn waiting(&self) -> usize
        ensures { result ≡ waiting_in self.now }
    {
        self.rejections.len() + usize::from(self.disconnect.is_some()) + self.drafts.len()
    }

    /// The control PDUs that wait, in order, without rejections and LL_TERMINATE_IND of a
    /// Disconnect.
    pub fn drafts(&self) -> &[Draft]
        ensures { result.now ≡ self.now.drafts }
    {
        self.drafts.as_slice()
    }

    /// Queues a control PDU, unless the link is to end.
    pub fn push_draft(&mut self, closing: Closing, draft: Draft)
        requires { is_open closing ≡ true → waiting_in self.old < 24 }
        ensures { self.new ≡ with_draft closing draft self.old }
    {
        if closing.is_open() {
            self.drafts.push(draft);
        }
    }

    /// Queues the rejection of a procedure of the peer, unless the link is to end.
    pub fn push_rejection(&mut self, closing: Closing, rejection: Rejection)
        requires { is_open closing ≡ true → waiting_in self.old < 24 }
        ensures { self.new ≡ with_rejection closing rejection self.old }
    {
        if closing.is_open() {
            self.rejections.push(rejection);
        }
    }

    /// Queues what a PDU of the peer asks for, unless the link is to end.
    pub fn push_reply(&mut self, closing: Closing, reply: Reply)
        requires { is_open closing ≡ true → has_reply reply ≡ true → waiting_in self.old < 24 }
        ensures { self.new ≡ with_reply closing reply self.old }
    {
        match reply {
            Reply::Nothing => {}
            Reply::Reject(rejection) => self.push_rejection(closing, rejection),
            Reply::Answer(draft) => self.push_draft(closing, draft),
        }
    }

    /// Queues LL_TERMINATE_IND of a Disconnect, unless the link is to end.
    pub fn set_disconnect(&mut self, closing: Closing, code: ErrCode)
        ensures { self.new ≡ with_disconnect closing code self.old }
    {
        if closing.is_open() {
            self.disconnect = Some(code);
        }
    }

    /// What is sent next in an event. `ends` says that after the rejections only LL_TERMINATE_IND
    /// of a Disconnect may go.
    pub fn next(&self, ends: bool, progress: Progress, event: EventNo) -> Outgoing
        ensures { result ≡ next_in ends progress event.0 self.now }
    {
        match self.rejections.as_slice() {
            [rejection, ..] => Outgoing::Rejection(*rejection),
            [] => self.next_after_rejections(ends, progress, event),
        }
    }

    /// What is sent next if no rejection waits.
    fn next_after_rejections(&self, ends: bool, progress: Progress, event: EventNo) -> Outgoing
        ensures { result ≡ next_after_rejections ends progress event.0 self.now }
    {
        if ends {
            next_disconnect(self.disconnect)
        } else {
            next_draft(progress, event, self.drafts.as_slice())
        }
    }

    /// Takes out what is sent next.
    pub fn take_next(&mut self, ends: bool, progress: Progress, event: EventNo) -> Outgoing
        ensures next { result ≡ next_in ends progress event.0 self.old }
        ensures rest { self.new ≡ without_next result self.old }
    {
        let next = self.next(ends, progress, event);
        self.remove(&next, ends, progress, event);
        next
    }

    /// Removes what is sent next.
    fn remove(&mut self, next: &Outgoing, ends: bool, progress: Progress, event: EventNo)
        requires { next.now ≡ next_in ends progress event.0 self.old }
        ensures { self.new ≡ without_next next.now self.old }
    {
        match next {
            Outgoing::Nothing => {}
            Outgoing::Rejection(_) => {
                self.rejections.remove(0);
            }
            Outgoing::Disconnect(_) => self.disconnect = None,
            Outgoing::Other(_) => {
                self.drafts.remove(0);
            }
        }
    }
}

/// LL_TERMINATE_IND of a Disconnect, if it waits.
fn next_disconnect(disconnect: Option<ErrCode>) -> Outgoing
    ensures { result ≡ next_disconnect disconnect }
{
    match disconnect {
        Some(code) => Outgoing::Disconnect(code),
        None => Outgoing::Nothing,
    }
}

/// The first of these, unless it waits for an Instant.
fn next_draft(progress: Progress, event: EventNo, drafts: &[Draft]) -> Outgoing
    ensures { result ≡ next_draft progress event.0 drafts.now }
{
    match drafts {
        [] => Outgoing::Nothing,
        [draft, ..] if draft.waits_for_instant() && !is_past_instant(progress, event) => {
            Outgoing::Nothing
        }
        [draft, ..] => Outgoing::Other(*draft),
    }
}

/// Whether the event is after the Instant of the last indication that this end sent.
fn is_past_instant(progress: Progress, event: EventNo) -> bool
    ensures { result ≡ is_past_instant progress event.0 }
{
    match progress {
        Progress::Central(c) => match c.last_instant {
            Some(instant) => instant < event,
            None => true,
        },
        Progress::Peripheral(_) => true,
    }
}
