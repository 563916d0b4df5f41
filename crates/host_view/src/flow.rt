//! The statuses of the commands of flow control towards the host.
ghost use Rattle.std.specs.Prelude.{◌≡◌, ◌<◌, ◌≤◌, ◌+◌, ◌*◌, ◌^◌, length};
ghost use Rattle.std.specs.List.{list_all};
ghost use Rattle.host_view.specs.Flow.{most_handed, most_received, outstanding, outstanding_in};
ghost use Rattle.host_view.specs.Refusals.{first_refusal};
ghost use Rattle.host_view.specs.Status.{has_link, set_host_flow_rows, host_buffer_size_rows, host_completed_rows, count_for, may_complete};

use crate::links::{Link, find_link};
use crate::refusals::first_refusal;
use crate::view::HostView;
use ble_base::{ErrCode, PAYLOAD_OCTETS};
use hci_cmd::HandleCount;

/// The packets that the host says it has taken of this handle.
pub(crate) fn count_for(handle: u16, counts: &[HandleCount]) -> u64
    requires { length counts.now < 64 }
    ensures { result ≡ count_for handle counts.now }
{
    let mut total: u64 = 0;
    for pair in counts {
        if pair.handle == handle {
            total += u64::from(pair.count);
        }
    }
    total
}

/// Whether the host holds this number of packets of the link.
fn may_complete(links: &[Option<Link>; 6], counts: &[HandleCount], pair: HandleCount) -> bool
    requires { length counts.now < 64 }
    ensures { result ≡ may_complete links.now counts.now pair }
{
    match find_link(links, pair.handle) {
        Some(link) => count_for(pair.handle, counts) <= u64::from(link.outstanding),
        None => false,
    }
}

/// Whether the host holds of each link the number of packets that it says it has taken.
fn may_complete_all(links: &[Option<Link>; 6], counts: &[HandleCount]) -> bool
    requires { length counts.now < 64 }
    ensures { result ≡ list_all (may_complete links.now counts.now) counts.now }
{
    counts.iter().all(|pair| may_complete(links, counts, *pair))
}

/// How many packets of a link the host received and has not taken.
fn outstanding_in(link: &Option<Link>) -> u64
    ensures value { result ≡ outstanding_in link.now }
    ensures few { result < 2 ^ 16 }
{
    match link {
        Some(link) => u64::from(link.outstanding),
        None => 0,
    }
}

/// How many packets of these links the host received and has not taken.
fn outstanding(links: &[Option<Link>]) -> u64
    requires { length links.now ≤ 6 }
    ensures value { result ≡ outstanding links.now }
    ensures few { result ≤ 2 ^ 16 * length links.now }
{
    match links.split_first() {
        None => 0,
        Some((first, rest)) => outstanding_in(first) + outstanding(rest),
    }
}

impl HostView {
    /// How many of this number of ACL packets the host may be sent now: all of them while flow
    /// control towards it is off (Core 5.2, volume 4 part E, section 4.2).
    pub fn most_handed(&self, count: usize) -> usize
        ensures value { result ≡ most_handed self.now count }
        ensures few { result ≤ count }
    {
        if !self.flow.on {
            return count;
        }
        let held = outstanding(&self.links);
        let more = u64::from(self.flow.acl_count).saturating_sub(held);
        count.min(more as usize)
    }

    /// The most octets of a payload that a link may receive which is opened now: a packet to the
    /// host has no more (Core 5.2, volume 4 part E, section 7.3.39).
    pub fn most_received(&self) -> u16
        ensures value { result ≡ most_received self.now }
        ensures range { (27 ≤ result) × (result ≤ 251) }
    {
        self.flow.acl_length.min(PAYLOAD_OCTETS as u16)
    }

    fn has_link(&self) -> bool
        ensures { result ≡ has_link self.now }
    {
        self.links.iter().any(|link| link.is_some())
    }

    pub(crate) fn set_host_flow_status(&self, value: u8) -> ErrCode
        ensures { result.0 ≡ first_refusal (set_host_flow_rows self.now value) }
    {
        first_refusal(&[
            (self.has_link(), ErrCode::COMMAND_DISALLOWED),
            (
                value == 2 || value == 3,
                ErrCode::UNSUPPORTED_FEATURE_OR_VALUE,
            ),
            (value > 3, ErrCode::INVALID_HCI_PARAMETERS),
        ])
    }

    pub(crate) fn host_buffer_size_status(&self, acl_length: u16, acl_count: u16) -> ErrCode
        ensures { result.0 ≡ first_refusal (host_buffer_size_rows self.now acl_length acl_count) }
    {
        first_refusal(&[
            (self.has_link(), ErrCode::COMMAND_DISALLOWED),
            (
                acl_length < 27 || acl_count == 0,
                ErrCode::INVALID_HCI_PARAMETERS,
            ),
        ])
    }

    pub(crate) fn host_completed_status(&self, counts: &[HandleCount]) -> ErrCode
        requires { length counts.now < 64 }
        ensures { result.0 ≡ first_refusal (host_completed_rows self.now counts.now) }
    {
        if self.flow.on && !may_complete_all(&self.links, counts) {
            return ErrCode::INVALID_HCI_PARAMETERS;
        }
        ErrCode::SUCCESS
    }
}
