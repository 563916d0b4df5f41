//! The conditions under which a command is refused: the first that holds gives the status.
ghost use Rattle.std.specs.Prelude.{◌≡◌, ◌≤◌, ℕ, List, count_by, is_some};
ghost use Rattle.host_view.specs.Refusals.{first_refusal, refusals_of, are_parameters, is_generated, is_connectable, is_full, are_scan_times, both_phys_rows, link_rows, own_rows, uses_list};

use crate::links::Link;
use crate::view::HostView;
use ble_base::{ErrCode, has_bit};

/// A condition, and the status where it holds.
pub(crate) type Refusal = (bool, ErrCode);

/// The status of the first refusal whose condition holds, and success where none does.
pub(crate) fn first_refusal(refusals: &[Refusal]) -> ErrCode
    ensures { result.0 ≡ first_refusal (refusals_of refusals.now) }
{
    for (holds, code) in refusals {
        if *holds {
            return *code;
        }
    }
    ErrCode::SUCCESS
}

/// Whether these are parameters of a connection: intervals in units of 1.25 ms, the latency in
/// events, the timeout in units of 10 ms, more than twice (1 + latency) intervals.
pub(crate) fn are_parameters(min: u16, max: u16, latency: u16, timeout: u16) -> bool
    ensures { result ≡ are_parameters min max latency timeout }
{
    6 <= min
        && max <= 3200
        && min <= max
        && latency <= 499
        && 10 <= timeout
        && timeout <= 3200
        && (1 + u32::from(latency)) * u32::from(max) < u32::from(timeout) * 4
}

/// Own and peer addresses that the controller would make or resolve, which are not supported.
pub(crate) fn is_generated(kind: u8) -> bool
    ensures { result ≡ is_generated kind }
{
    kind == 2 || kind == 3
}

/// Whether an Advertising_Type is connectable.
pub(crate) fn is_connectable(kind: u8) -> bool
    ensures { result ≡ is_connectable kind }
{
    kind == 0 || kind == 4
}

/// Whether these are a scan interval and a window that fits it, in units of 0.625 ms.
pub(crate) fn are_scan_times(interval: u16, window: u16) -> bool
    ensures { result ≡ are_scan_times interval window }
{
    0x0004 <= interval
        && interval <= 0x4000
        && 0x0004 <= window
        && window <= 0x4000
        && window <= interval
}

/// Refuses a choice of PHYs: transmitting first, then receiving. Bits 0 and 1 of `all` say that
/// there is no preference. Then come further refusals.
#[derive(Clone, Copy)]
pub(crate) struct Phys {
    pub all: u8,
    pub transmit: u8,
    pub receive: u8,
}

impl Phys {
    pub(crate) fn status(self, others: &[Refusal]) -> ErrCode
        ensures { result.0
            ≡ first_refusal (both_phys_rows self.all self.transmit self.receive
            (refusals_of others.now)) }
    {
        let any_transmit = has_bit(u64::from(self.all), 0);
        let any_receive = has_bit(u64::from(self.all), 1);
        if !any_transmit && self.transmit > 1 {
            return ErrCode::UNSUPPORTED_FEATURE_OR_VALUE;
        }
        if !any_transmit && self.transmit == 0 {
            return ErrCode::INVALID_HCI_PARAMETERS;
        }
        if !any_receive && self.receive > 1 {
            return ErrCode::UNSUPPORTED_FEATURE_OR_VALUE;
        }
        if !any_receive && self.receive == 0 {
            return ErrCode::INVALID_HCI_PARAMETERS;
        }
        first_refusal(others)
    }
}

/// The status of a command on a link: no such link is open; it is to be disconnected; then further
/// refusals.
pub(crate) fn link_status(link: Option<Link>, others: &[Refusal]) -> ErrCode
    ensures { result.0 ≡ first_refusal (link_rows link (refusals_of others.now)) }
{
    match link {
        None => ErrCode::UNKNOWN_CONNECTION_IDENTIFIER,
        Some(link) if link.disconnecting => ErrCode::COMMAND_DISALLOWED,
        Some(_) => first_refusal(others),
    }
}

impl HostView {
    /// The status of something that is done under an own address of this type, then further
    /// refusals.
    pub(crate) fn own_status(&self, own: u8, others: &[Refusal]) -> ErrCode
        ensures { result.0 ≡ first_refusal (own_rows self.now own (refusals_of others.now)) }
    {
        if is_generated(own) {
            return ErrCode::UNSUPPORTED_FEATURE_OR_VALUE;
        }
        if own > 3 || own == 1 && self.random.is_none() {
            return ErrCode::INVALID_HCI_PARAMETERS;
        }
        first_refusal(others)
    }

    /// How many links are open.
    fn count_links(&self) -> usize
        ensures count { result ≡ count_by is_some self.now.links }
        ensures few { result ≤ 6 }
    {
        self.links.iter().filter(|link| link.is_some()).count()
    }

    /// Whether the links that are open, and those that advertising and initiating may open, are all
    /// that the controller can hold.
    pub(crate) fn is_full(&self) -> bool
        ensures { result ≡ is_full self.now }
    {
        let advertises = self.advertising.on && is_connectable(self.advertising.kind);
        let taken = self.count_links()
            + usize::from(advertises)
            + usize::from(self.initiating.is_some());
        usize::from(self.limit) <= taken
    }

    /// Whether the accept list is in use, so that it may not be changed.
    pub(crate) fn uses_list(&self) -> bool
        ensures { result ≡ uses_list self.now }
    {
        self.advertising.on && self.advertising.policy != 0
            || self.scanning.on && self.scanning.policy == 1
            || self.initiating == Some(1)
    }
}
