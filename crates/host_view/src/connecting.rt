//! The statuses of LE Create Connection and of the commands of the accept list.
ghost use Rattle.std.specs.Prelude.{◌≡◌};
ghost use Rattle.host_view.specs.Links.{link_has};
ghost use Rattle.host_view.specs.Refusals.{first_refusal};
ghost use Rattle.host_view.specs.Status.{create_connection_rows, has_addresses, is_connected, has_own, named_address, add_to_list_rows, remove_from_list_rows};

use crate::link_commands::Proposal;
use crate::links::Link;
use crate::refusals::{are_scan_times, first_refusal, is_generated};
use crate::view::HostView;
use ble_base::{Address, ErrCode};
use scan_init::is_same_address;

/// What LE Create Connection asks for, in the units of the command.
#[derive(Clone, Copy)]
pub(crate) struct ConnectionRequest {
    pub interval: u16,
    pub window: u16,
    /// 0 where a peer is named, 1 where the accept list names it.
    pub policy: u8,
    pub peer_kind: u8,
    pub peer: [u8; 6],
    pub own: u8,
    pub proposal: Proposal,
}

/// The address that a command names, by its type, 1 for a random one, and its octets.
pub(crate) fn named_address(kind: u8, octets: &[u8; 6]) -> Address
    ensures { result ≡ named_address kind octets.now }
{
    Address {
        random: kind == 1,
        octets: *octets,
    }
}

impl HostView {
    /// Whether the link has the own address of this type.
    fn has_own(&self, own: u8, link: &Link) -> bool
        ensures { result ≡ has_own self.now own link.now }
    {
        if own != 1 {
            return !link.own.random;
        }
        match &self.random {
            Some(random) => link.own.random && link.own.octets == *random,
            None => false,
        }
    }

    /// Whether there is a link, with the own address of this type and this peer.
    fn has_addresses(&self, own: u8, peer_kind: u8, peer: &[u8; 6], link: &Option<Link>) -> bool
        ensures { result ≡ link_has link.now (has_addresses self.now own peer_kind peer.now) }
    {
        match link {
            Some(link) => {
                self.has_own(own, link)
                    && is_same_address(&link.peer, &named_address(peer_kind, peer))
            }
            None => false,
        }
    }

    /// Whether a link with these addresses is open.
    fn is_connected(&self, own: u8, peer_kind: u8, peer: &[u8; 6]) -> bool
        ensures { result ≡ is_connected self.now own peer_kind peer.now }
    {
        self.links
            .iter()
            .any(|link| self.has_addresses(own, peer_kind, peer, link))
    }

    pub(crate) fn create_connection_status(&self, asked: ConnectionRequest) -> ErrCode
        ensures { result.0 ≡ first_refusal (create_connection_rows self.now asked.interval
            asked.window asked.policy asked.peer_kind asked.peer asked.own asked.proposal.min
            asked.proposal.max asked.proposal.latency asked.proposal.timeout) }
    {
        let invalid = ErrCode::INVALID_HCI_PARAMETERS;
        let named = asked.policy == 0;
        if self.initiating.is_some() || self.scanning.on {
            return ErrCode::COMMAND_DISALLOWED;
        }
        if !are_scan_times(asked.interval, asked.window) || asked.policy > 1 {
            return invalid;
        }
        if named && is_generated(asked.peer_kind) {
            return ErrCode::UNSUPPORTED_FEATURE_OR_VALUE;
        }
        if named && asked.peer_kind > 3 {
            return invalid;
        }
        let connected = self.is_connected(asked.own, asked.peer_kind, &asked.peer);
        self.own_status(
            asked.own,
            &[
                (!asked.proposal.is_valid(), invalid),
                (named && connected, ErrCode::CONNECTION_ALREADY_EXISTS),
                (self.is_full(), ErrCode::CONNECTION_LIMIT_EXCEEDED),
                (!self.has_address, ErrCode::LIMITED_RESOURCES),
            ],
        )
    }

    pub(crate) fn add_to_list_status(&self, kind: u8, octets: &[u8; 6]) -> ErrCode
        ensures { result.0 ≡ first_refusal (add_to_list_rows self.now kind octets.now) }
    {
        let full = self.accepted.is_full_for(named_address(kind, octets));
        first_refusal(&[
            (self.uses_list(), ErrCode::COMMAND_DISALLOWED),
            (kind > 1, ErrCode::INVALID_HCI_PARAMETERS),
            (full, ErrCode::MEMORY_CAPACITY_EXCEEDED),
        ])
    }

    pub(crate) fn remove_from_list_status(&self, kind: u8) -> ErrCode
        ensures { result.0 ≡ first_refusal (remove_from_list_rows self.now kind) }
    {
        first_refusal(&[
            (self.uses_list(), ErrCode::COMMAND_DISALLOWED),
            (kind > 1, ErrCode::INVALID_HCI_PARAMETERS),
        ])
    }
}
