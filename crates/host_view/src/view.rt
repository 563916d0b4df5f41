//! The view: the settings of the host, and the links that are open.
ghost use Rattle.std.specs.Prelude.{◌≡◌, ◌≤◌, true};
ghost use Rattle.host_view.specs.Links.{was_encrypted};
ghost use Rattle.host_view.specs.View.{first_view};

use crate::links::{Link, was_encrypted};
use ble_base::ChannelMap;
use scan_init::AcceptList;
use std::marker::Model;

/// The most links of a controller.
pub const MOST_LINKS: usize = 6;

/// Advertising: whether it is on, and what LE Set Advertising Parameters set last, by the codes of
/// the standard (Core 5.2, volume 4 part E, section 7.8.5).
#[derive(Clone, Copy, Debug, PartialEq, Eq)]
pub struct Advertising {
    pub on: bool,
    /// Advertising_Type.
    pub kind: u8,
    /// Own_Address_Type: 0 for the public address, 1 for the random one.
    pub own: u8,
    /// Advertising_Filter_Policy.
    pub policy: u8,
}

/// Scanning: whether it is on, and what LE Set Scan Parameters set last (Core 5.2, volume 4 part E,
/// section 7.8.10).
#[derive(Clone, Copy, Debug, PartialEq, Eq)]
pub struct Scanning {
    pub on: bool,
    /// Own_Address_Type: 0 for the public address, 1 for the random one.
    pub own: u8,
    /// Scanning_Filter_Policy.
    pub policy: u8,
}

/// Flow control towards the host (Core 5.2, volume 4 part E, sections 7.3.38 and 7.3.39).
#[derive(Clone, Copy, Debug, PartialEq, Eq)]
pub struct HostFlow {
    /// Whether it is on for ACL data.
    pub on: bool,
    /// The most octets of data in an ACL packet to the host.
    pub acl_length: u16,
    /// The most ACL packets that the host holds.
    pub acl_count: u16,
}

/// What the status of a command depends on: the settings that the host has made, and the links.
#[derive(Debug, Drop)]
pub struct HostView {
    pub(crate) limit: u16,
    pub(crate) mask: u64,
    pub(crate) le_mask: u64,
    pub(crate) random: Option<[u8; 6]>,
    pub(crate) advertising: Advertising,
    pub(crate) scanning: Scanning,
    pub(crate) initiating: Option<u8>,
    pub(crate) accepted: AcceptList,
    pub(crate) map: ChannelMap,
    pub(crate) flow: HostFlow,
    pub(crate) links: [Option<Link>; 6],
    pub(crate) has_address: bool,
}

impl Model for HostView {
    ghost use Rattle.std.specs.Prelude.{◌≤◌};
    ghost use Rattle.host_view.specs.View.{View};

    ghost Value = { View };

    ghost invariant = { λ v. (v.limit ≤ 6) × (27 ≤ v.flow.acl_length) };

    ghost view = { λ v. record {
      limit = v.limit;
      mask = v.mask;
      le_mask = v.le_mask;
      random = v.random;
      advertising = v.advertising;
      scanning = v.scanning;
      initiating = v.initiating;
      accepted = v.accepted;
      map = v.map;
      flow = v.flow;
      links = v.links;
      has_address = v.has_address;
    } };
}

impl HostView {
    /// The view of a controller that can hold this number of links, with all defaults and no link.
    pub(crate) fn initial(limit: u16, has_address: bool) -> HostView
        requires { limit ≤ 6 }
        ensures { result ≡ first_view limit has_address }
    {
        HostView {
            limit,
            mask: 0x0000_1FFF_FFFF_FFFF,
            le_mask: 0x1F,
            random: None,
            advertising: Advertising {
                on: false,
                kind: 0,
                own: 0,
                policy: 0,
            },
            scanning: Scanning {
                on: false,
                own: 0,
                policy: 0,
            },
            initiating: None,
            accepted: AcceptList::new(),
            map: ChannelMap::default(),
            flow: HostFlow {
                on: false,
                acl_length: 251,
                acl_count: u16::MAX,
            },
            links: [None; 6],
            has_address,
        }
    }

    /// The view of a controller that starts and can hold this number of links.
    pub fn new(links: u16) -> HostView
        requires { (1 ≤ links) × (links ≤ 6) }
        ensures { result ≡ first_view links true }
    {
        HostView::initial(links, true)
    }

    /// The mask of events: each bit lets some through (Core 5.2, volume 4 part E, section 7.3.1).
    pub fn mask(&self) -> u64
        ensures { result ≡ self.now.mask }
    {
        self.mask
    }

    /// The mask of LE events (Core 5.2, volume 4 part E, section 7.8.1).
    pub fn le_mask(&self) -> u64
        ensures { result ≡ self.now.le_mask }
    {
        self.le_mask
    }

    /// The random address, least significant octet first, once the host set one (Core 5.2, volume 4
    /// part E, section 7.8.4).
    pub fn random(&self) -> Option<[u8; 6]>
        ensures { result ≡ self.now.random }
    {
        self.random
    }

    /// Whether advertising is on, and how it is set.
    pub fn advertising(&self) -> Advertising
        ensures { result ≡ self.now.advertising }
    {
        self.advertising
    }

    /// Whether scanning is on, and how it is set.
    pub fn scanning(&self) -> Scanning
        ensures { result ≡ self.now.scanning }
    {
        self.scanning
    }

    /// The accept list (Core 5.2, volume 4 part E, section 7.8.16).
    pub fn accept_list(&self) -> &AcceptList
        ensures { result.now ≡ self.now.accepted }
    {
        &self.accepted
    }

    /// The data channels that the host lets be used (Core 5.2, volume 4 part E, section 7.8.19).
    pub fn map(&self) -> ChannelMap
        ensures { result ≡ self.now.map }
    {
        self.map
    }

    /// Whether there is an access address for another link.
    pub fn address_left(&mut self, left: bool)
        ensures { self.new ≡ record self.old { has_address = left } }
    {
        self.has_address = left;
    }

    /// Whether encryption started on the link under this handle before.
    pub fn was_encrypted(&self, handle: u16) -> bool
        ensures { result ≡ was_encrypted handle self.now.links }
    {
        was_encrypted(&self.links, handle)
    }
}
