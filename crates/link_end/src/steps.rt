//! What one end of a link does as time passes, on what it holds.
ghost use Rattle.std.specs.Prelude.{◌≡◌, ◌+◌, ◌<◌, ◌≤◌, ◌^◌, ◌==◌, ◌&&◌, ◌||◌, [], ◌∷◌, ◌++◌};
ghost use Rattle.std.specs.Prelude.{IfSome, length, not, if◌then◌else◌};
ghost use Rattle.std.specs.Option.{option_map};
ghost use Rattle.acl_banks.specs.Banks.{unsent_of};
ghost use Rattle.instants.specs.Track.{is_free};
ghost use Rattle.procedures.specs.procedure_stages.InProgress.{is_busy};
ghost use Rattle.procedures.specs.procedure_stages.Queue.{waiting_in};
ghost use Rattle.link_model.specs.Data.{is_empty};
ghost use Rattle.link_model.specs.Lost.{is_recent, reason_due, skips_by};
ghost use Rattle.link_model.specs.Times.{ended_by_peer, ended_by_procedures, termination_due};
ghost use Rattle.link_end.specs.Times.{due_by, ending_by, is_idle_with};

use crate::ends::LinkEnd;
use crate::packets::Place;
use acl_banks::TxBank;
use ble_base::{ErrCode, Role, SlotNo};
use instants::Params;
use link_model::{ConnectionEvent, KnownLengths, Leaving, Reception};

/// The intervals after which a link on which nothing good was received ends (Core 5.2, volume 6
/// part B, section 4.5.2).
const FAILED_INTERVALS: u64 = 6;

/// The slots in 10 ms, which is the unit of the supervision timeout.
const TIMEOUT_SLOTS: u64 = 8;

/// Octets of a piece, any number of them, by which it is known whether one waits.
const ANY_OCTETS: u16 = 1;

/// The reason for which a link ends at the start of a turn since nothing good was received.
fn reason(opened: u64, params: &Params, last_good: Option<Reception>, slot: u64) -> Option<ErrCode>
    requires opened { opened < 2 ^ 32 }
    requires good { IfSome last_good (λ good. good.slot < 2 ^ 32) }
    ensures { option_map (λ code. code.0) result ≡ reason_due opened params.now last_good slot }
{
    match last_good {
        None if opened + FAILED_INTERVALS * u64::from(params.interval) <= slot => {
            Some(ErrCode::CONNECTION_NOT_ESTABLISHED)
        }
        Some(good) if good.slot + TIMEOUT_SLOTS * u64::from(params.timeout) <= slot => {
            Some(ErrCode::CONNECTION_TIMEOUT)
        }
        _ => None,
    }
}

/// The reason for which a link ends at the start of a turn since this end was to end it, and that
/// was not acknowledged.
fn termination(disconnected: Option<u64>, params: &Params, slot: u64) -> Option<ErrCode>
    requires { IfSome disconnected (λ since. since ≤ 2 ^ 32) }
    ensures { option_map (λ code. code.0) result ≡ termination_due disconnected params.now slot }
{
    match disconnected {
        Some(since) if since + TIMEOUT_SLOTS * u64::from(params.timeout) <= slot => {
            Some(ErrCode::TERMINATED_BY_LOCAL_HOST)
        }
        _ => None,
    }
}

/// Whether a good packet was received in an earlier event, not more than this many events before.
fn is_recent(last_good: Option<Reception>, event: u64, latency: u16) -> bool
    requires { IfSome last_good (λ good. good.event < 2 ^ 32) }
    ensures { result ≡ is_recent last_good event latency }
{
    match last_good {
        None => false,
        Some(good) => good.event < event && event <= good.event + u64::from(latency),
    }
}

/// Whether an event has a second exchange.
pub(crate) fn continues(event: ConnectionEvent, lengths: KnownLengths) -> bool
    ensures { result ≡ (event.heard && event.more && (not lengths.long && not lengths.changed)) }
{
    event.heard && event.more && (!lengths.long && !lengths.changed)
}

/// The slots for which an event holds the radio.
pub(crate) fn span(long: bool) -> u8
    ensures { result ≡ (if long then 4 else 2) }
{
    if long { 4 } else { 2 }
}

/// The reason for which the peer ends the link.
fn ended_by_peer(leaving: Leaving) -> Option<ErrCode>
    ensures { result ≡ ended_by_peer leaving }
{
    if leaving.answered {
        leaving.ended_by_peer
    } else {
        None
    }
}

/// The reason for which a procedure ends the link, or else the peer does.
fn ended_by_procedures(ends: Option<ErrCode>, leaving: Leaving) -> Option<ErrCode>
    ensures { result ≡ ended_by_procedures ends leaving }
{
    match ends {
        Some(code) => Some(code),
        None => ended_by_peer(leaving),
    }
}

impl LinkEnd {
    /// Where it sends and listens in the event entered last.
    pub(crate) fn place(&self) -> Place
        ensures channel { result.channel ≡ self.now.event.channel }
        ensures access { result.access ≡ self.now.setup.link.fields.access }
        ensures crc_init { result.crc_init ≡ self.now.setup.link.fields.crc_init }
        ensures data { result.channel < 37 }
        ensures init { result.crc_init < 2 ^ 24 }
    {
        Place {
            channel: self.event.channel,
            access: self.setup.fields.access,
            crc_init: self.setup.fields.crc_init,
        }
    }

    /// The reason for which it ends at the start of a turn in this slot.
    pub(crate) fn reason(&self, slot: u64) -> Option<ErrCode>
        ensures { option_map (λ code. code.0) result ≡ due_by self.now slot }
    {
        let params = self.control.params();
        if let Some(code) = reason(self.opened, &params, self.last_good, slot) {
            return Some(code);
        }
        if let Some(code) = self.control.tick(SlotNo(slot)) {
            return Some(code);
        }
        termination(self.leaving.disconnected, &params, slot)
    }

    /// The reason for which it ends at the end of a turn.
    pub(crate) fn ending(&self) -> Option<ErrCode>
        ensures { result ≡ ending_by self.now }
    {
        if self.leaving.acknowledged {
            return Some(ErrCode::TERMINATED_BY_LOCAL_HOST);
        }
        ended_by_procedures(self.control.ends(), self.leaving)
    }

    /// Whether it has nothing to send: the PDU that it sent last is acknowledged or empty, and no
    /// control PDU waits, nor data in the bank.
    fn has_nothing_to_send<const T: usize>(&self, tx: &TxBank<T>) -> bool
        ensures { result ≡ ((self.now.is_acked || is_empty self.now.last)
            && (waiting_in self.now.control.control.table.queue == 0)
            && (length (unsent_of tx.now self.now.setup.link.handle) == 0)) }
    {
        (self.is_acked || self.last.is_empty())
            && self.control.waiting() == 0
            && nothing_waits(self.setup.handle, tx)
    }

    /// Whether no procedure is in progress, and no indication waits.
    fn is_settled(&self) -> bool
        ensures { result ≡ (not (is_busy self.now.control.control.table.progress)
            && is_free self.now.control.control.track) }
    {
        !self.control.is_busy() && self.control.is_free()
    }

    /// Whether it skips the event entered last.
    pub(crate) fn skips<const T: usize>(&self, tx: &TxBank<T>) -> bool
        ensures { result ≡ skips_by self.now.setup.link.role self.now.event self.now.last_good
            (is_idle_with (length (unsent_of tx.now self.now.setup.link.handle) == 0) self.now) }
    {
        match self.setup.role {
            Role::Central => false,
            Role::Peripheral => {
                is_recent(self.last_good, self.event.number, self.event.latency)
                    && (self.has_nothing_to_send(tx) && self.is_settled())
            }
        }
    }
}

/// Whether no octet of the link waits to be sent.
fn nothing_waits<const T: usize>(handle: u16, tx: &TxBank<T>) -> bool
    ensures { result ≡ (length (unsent_of tx.now handle) == 0) }
{
    tx.peek(handle, ANY_OCTETS).is_none()
}
