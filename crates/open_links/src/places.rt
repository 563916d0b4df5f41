//! One open link of a controller, and what is in the places of a table of links.
ghost use Rattle.std.specs.Prelude.{◌≡◌, ◌<◌, ◌≤◌, ◌^◌, IfSome, Option, Some, None, drop};
ghost use Rattle.std.specs.Prelude.{is_some, slice_index_or};
ghost use Rattle.adv_pdu.specs.Ranges.{IsInRange};
ghost use Rattle.open_links.specs.OpenLinks.{Links, OpenLink, free_from};
ghost use Rattle.open_links.specs.OpenLinks.{has_link_between, is_between, new_link};
ghost use Rattle.open_links.specs.Turns.{ending_in, reason_at, some_ends};
ghost use Rattle.open_links.specs.Knowing.{KnowsLink, KnowsPlace, KnowsPlaces};

use ble_base::{Address, SlotNo};
use cell_table::CellTable;
use link_end::{LinkEnd, LinkSetup};
use scan_init::is_same_address;
use std::marker::Model;

/// An open link: its end, and the slot in which it had the radio last.
#[derive(Drop)]
pub struct OpenEnd {
    pub(crate) end: LinkEnd,
    pub(crate) last_served: u64,
}

impl Model for OpenEnd {
    ghost use Rattle.open_links.specs.Knowing.{HeldLink};

    ghost Value = { HeldLink };

    ghost view = { λ l. record { end = l.end; last_served = l.last_served } };
}

impl OpenEnd {
    /// A link that a CONNECT_IND in this slot opens.
    pub(crate) fn new(setup: LinkSetup, slot: SlotNo) -> Self
        requires fields { IsInRange setup.fields }
        requires crc_init { setup.fields.crc_init < 2 ^ 24 }
        requires max_rx { (27 ≤ setup.max_rx) × (setup.max_rx ≤ 251) }
        requires slot { slot.0 < 2 ^ 32 }
        ensures { KnowsLink result (new_link (record { link = setup; opened = slot.0 })) }
    {
        OpenEnd {
            end: LinkEnd::new(setup, slot),
            last_served: slot.0,
        }
    }

    /// Whether it is between these two addresses.
    pub(crate) fn is_between(&self, own: &Address, peer: &Address) -> bool
        ensures { (link : OpenLink) → KnowsLink self.now link
            → result ≡ is_between own.now peer.now (Some link) }
    {
        let setup = self.end.setup();
        is_same_address(own, &setup.own) && is_same_address(peer, &setup.peer)
    }
}

/// The handle of the first place, from this handle on, with no link.
pub(crate) fn free_from<const L: usize>(places: &CellTable<OpenEnd, L>, handle: u16) -> Option<u16>
    requires { L ≤ 6 }
    ensures known { (links : Links) → KnowsPlaces (drop handle places.now) links
        → result ≡ free_from handle links }
    ensures within { IfSome result (λ free. free < L) }
{
    let place = handle as usize;
    if place >= places.places() {
        None
    } else if places.holds(place) {
        free_from(places, handle + 1)
    } else {
        Some(handle)
    }
}

/// Whether the link in a place, if there is one, is between these two addresses.
fn is_between_at<const L: usize>(
    places: &CellTable<OpenEnd, L>,
    place: usize,
    own: &Address,
    peer: &Address,
) -> bool
    ensures { (link : Option OpenLink) → KnowsPlace (slice_index_or places.now place None) link
        → result ≡ is_between own.now peer.now link }
{
    places.holds(place) && places.get(place).is_between(own, peer)
}

/// Whether a link between these two addresses is in one of the places from this handle on.
pub(crate) fn is_any_between<const L: usize>(
    places: &CellTable<OpenEnd, L>,
    handle: u16,
    own: &Address,
    peer: &Address,
) -> bool
    requires { L ≤ 6 }
    ensures { (links : Links) → KnowsPlaces (drop handle places.now) links
        → result ≡ has_link_between own.now peer.now links }
{
    let place = handle as usize;
    place < places.places()
        && (is_between_at(places, place, own, peer)
            || is_any_between(places, handle + 1, own, peer))
}

/// Whether the link in a place, if there is one, ends at the end of a turn.
fn is_ending_at<const L: usize>(places: &CellTable<OpenEnd, L>, place: usize) -> bool
    ensures { (link : Option OpenLink) → KnowsPlace (slice_index_or places.now place None) link
        → result ≡ is_some (reason_at ending_in link) }
{
    places.holds(place) && places.get(place).end.is_ending()
}

/// Whether a link in one of the places from this handle on ends at the end of a turn.
pub(crate) fn has_any_ending<const L: usize>(places: &CellTable<OpenEnd, L>, handle: u16) -> bool
    requires { L ≤ 6 }
    ensures { (links : Links) → KnowsPlaces (drop handle places.now) links
        → result ≡ some_ends ending_in links }
{
    let place = handle as usize;
    place < places.places() && (is_ending_at(places, place) || has_any_ending(places, handle + 1))
}
