//! Links that end, and their data.
ghost use Rattle.std.specs.Prelude.{◌≡◌, ◌<◌, ◌≤◌, ◌+◌, ◌++◌, ◌∷◌, fold, map, Option, [], length};
ghost use Rattle.std.specs.Prelude.{None, drop, if◌then◌else◌, is_some, slice_index_or, slice_set, ℕ};
ghost use Rattle.std.specs.Option.{option_map};
ghost use Rattle.acl_banks.specs.Banks.{bank_after_drop};
ghost use Rattle.open_links.specs.Ended.{received_ended, received_without};
ghost use Rattle.open_links.specs.Ended.{end_by};
ghost use Rattle.open_links.specs.OpenLinks.{Links, OpenLink, handles_from, without_links};
ghost use Rattle.open_links.specs.Turns.{due_in, ending_in, ends_by, links_without};
ghost use Rattle.open_links.specs.Turns.{reason_at};
ghost use Rattle.open_links.specs.Knowing.{KnowsLink, KnowsPlace, KnowsPlaces};

use crate::LinkEnded;
use crate::places::OpenEnd;
use crate::using::take_at;
use acl_banks::{RxBank, TxBank};
use arrayvec::ArrayVec;
use ble_base::{ErrCode, SlotNo};
use cell_table::CellTable;

/// The most links that a controller holds.
pub const MOST_LINKS: usize = 6;

/// The reason for which the link in a place, if there is one, ends at the start of a turn in this
/// slot.
fn due_at<const L: usize>(
    places: &CellTable<OpenEnd, L>,
    place: usize,
    slot: SlotNo,
) -> Option<ErrCode>
    ensures { (link : Option OpenLink) → KnowsPlace (slice_index_or places.now place None) link
        → option_map (λ code. code.0) result ≡ reason_at (due_in slot.0) link }
{
    if !places.holds(place) {
        return None;
    }
    places.get(place).due(slot)
}

/// The reason for which the link in a place, if there is one, ends at the end of a turn. It changes
/// nothing.
fn ending_at<const L: usize>(places: &mut CellTable<OpenEnd, L>, place: usize) -> Option<ErrCode>
    ensures reason { (link : Option OpenLink)
        → KnowsPlace (slice_index_or places.old place None) link
        → option_map (λ code. code.0) result ≡ reason_at ending_in link }
    ensures same { places.new ≡ places.old }
{
    if !places.holds(place) {
        return None;
    }
    places.get_mut(place).ending()
}

/// The link under a handle is removed, or is not.
fn shut_if<const L: usize>(shuts: bool, handle: u16, places: &mut CellTable<OpenEnd, L>)
    ensures { places.new
        ≡ (if shuts then slice_set places.old handle None else places.old) }
{
    if shuts {
        take_at(places, handle);
    }
}

/// The links from this handle on that end at the start of a turn in this slot are removed, and
/// added to those that ended.
pub(crate) fn shut_due_from<const L: usize>(
    places: &mut CellTable<OpenEnd, L>,
    handle: u16,
    slot: SlotNo,
    ended: &mut ArrayVec<LinkEnded, MOST_LINKS>,
)
    requires links { L ≤ 6 }
    requires handle { handle ≤ L }
    requires room { length ended.old.items ≤ handle }
    ensures knows { (links : Links) → KnowsPlaces (drop handle places.old) links
        → KnowsPlaces (drop handle places.new) (links_without (due_in slot.0) links) }
    ensures ends { (links : Links) → KnowsPlaces (drop handle places.old) links
        → ended.new.items ≡ ended.old.items ++ ends_by (due_in slot.0) handle links }
    ensures few { length ended.new.items ≤ L }
    ensures before { (i : ℕ) → i < handle
        → slice_index_or places.new i None ≡ slice_index_or places.old i None }
    ensures places { length places.new ≡ length places.old }
{
    let place = handle as usize;
    if place >= places.places() {
        return;
    }
    let reason = due_at(places, place, slot);
    shut_if(reason.is_some(), handle, places);
    add_ended(handle, reason, ended);
    shut_due_from(places, handle + 1, slot, ended);
}

impl OpenEnd {
    /// The reason for which it ends at the start of a turn in this slot.
    fn due(&self, slot: SlotNo) -> Option<ErrCode>
        ensures { (link : OpenLink) → KnowsLink self.now link
            → option_map (λ code. code.0) result ≡ due_in slot.0 link }
    {
        self.end.due(slot)
    }

    /// The reason for which it ends at the end of a turn. It changes nothing.
    fn ending(&mut self) -> Option<ErrCode>
        ensures reason { (link : OpenLink) → KnowsLink self.old link
            → option_map (λ code. code.0) result ≡ ending_in link }
        ensures same { self.new ≡ self.old }
    {
        self.end.end_turn()
    }
}

/// The links from this handle on that end at the end of a turn are removed, and added to those that
/// ended.
pub(crate) fn shut_ended_from<const L: usize>(
    places: &mut CellTable<OpenEnd, L>,
    handle: u16,
    ended: &mut ArrayVec<LinkEnded, MOST_LINKS>,
)
    requires links { L ≤ 6 }
    requires handle { handle ≤ L }
    requires room { length ended.old.items ≤ handle }
    ensures knows { (links : Links) → KnowsPlaces (drop handle places.old) links
        → KnowsPlaces (drop handle places.new) (links_without ending_in links) }
    ensures ends { (links : Links) → KnowsPlaces (drop handle places.old) links
        → ended.new.items ≡ ended.old.items ++ ends_by ending_in handle links }
    ensures few { length ended.new.items ≤ L }
    ensures before { (i : ℕ) → i < handle
        → slice_index_or places.new i None ≡ slice_index_or places.old i None }
    ensures places { length places.new ≡ length places.old }
{
    let place = handle as usize;
    if place >= places.places() {
        return;
    }
    let reason = ending_at(places, place);
    shut_if(reason.is_some(), handle, places);
    add_ended(handle, reason, ended);
    shut_ended_from(places, handle + 1, ended);
}

/// A link that ends is added to those that ended, if there is a reason.
fn add_ended(handle: u16, reason: Option<ErrCode>, ended: &mut ArrayVec<LinkEnded, MOST_LINKS>)
    requires { length ended.old.items < 6 }
    ensures items { ended.new.items
        ≡ ended.old.items ++ end_by handle (option_map (λ code. code.0) reason) }
    ensures few { length ended.new.items ≤ length ended.old.items + 1 }
{
    if let Some(reason) = reason {
        ended.push(LinkEnded { handle, reason });
    }
}

/// The links from this handle on are removed, and their handles are added.
pub(crate) fn shut_from<const L: usize>(
    places: &mut CellTable<OpenEnd, L>,
    handle: u16,
    handles: &mut ArrayVec<u16, MOST_LINKS>,
)
    requires links { L ≤ 6 }
    requires room { length handles.old.items ≤ handle }
    ensures knows { (links : Links) → KnowsPlaces (drop handle places.old) links
        → KnowsPlaces (drop handle places.new) (without_links links) }
    ensures handles { (links : Links) → KnowsPlaces (drop handle places.old) links
        → handles.new.items ≡ handles.old.items ++ handles_from handle links }
    ensures before { (i : ℕ) → i < handle
        → slice_index_or places.new i None ≡ slice_index_or places.old i None }
    ensures places { length places.new ≡ length places.old }
{
    if handle as usize >= places.places() {
        return;
    }
    let is_open = take_at(places, handle);
    add_handle(is_open, handle, handles);
    shut_from(places, handle + 1, handles);
}

/// A handle is added, or is not.
fn add_handle(adds: bool, handle: u16, handles: &mut ArrayVec<u16, MOST_LINKS>)
    requires { length handles.old.items < 6 }
    ensures items { handles.new.items ≡ (if adds
        then handles.old.items ++ handle ∷ [] else handles.old.items) }
    ensures few { length handles.new.items ≤ length handles.old.items + 1 }
{
    if adds {
        handles.push(handle);
    }
}

/// The data of the links that ended is dropped. In most turns none ended.
#[inline]
pub(crate) fn drop_ended<const T: usize, const R: usize>(
    ended: &[LinkEnded],
    tx: &mut TxBank<T>,
    rx: &mut RxBank<R>,
)
    ensures tx { tx.new ≡ fold bank_after_drop tx.old (map (λ one. one.handle) ended.now) }
    ensures rx { rx.new ≡ received_ended ended.now rx.old }
{
    if !ended.is_empty() {
        drop_each(ended, tx, rx);
    }
}

/// The data of these links is dropped. Links end seldom, so this is kept out of the code of all
/// turns.
#[inline(never)]
fn drop_each<const T: usize, const R: usize>(
    ended: &[LinkEnded],
    tx: &mut TxBank<T>,
    rx: &mut RxBank<R>,
)
    ensures tx { tx.new ≡ fold bank_after_drop tx.old (map (λ one. one.handle) ended.now) }
    ensures rx { rx.new ≡ received_ended ended.now rx.old }
{
    let Some((one, rest)) = ended.split_first() else {
        return;
    };
    tx.drop_link(one.handle);
    rx.drop_link(one.handle);
    drop_each(rest, tx, rx);
}

/// What waits to be sent on the links under these handles is dropped.
pub(crate) fn drop_unsent<const T: usize>(handles: &[u16], tx: &mut TxBank<T>)
    ensures { tx.new ≡ fold bank_after_drop tx.old handles.now }
{
    let Some((handle, rest)) = handles.split_first() else {
        return;
    };
    tx.drop_link(*handle);
    drop_unsent(rest, tx);
}

/// All that was received is dropped.
pub(crate) fn drop_received<const R: usize>(rx: &mut RxBank<R>)
    ensures { rx.new ≡ [] }
{
    if rx.hand_up().is_some() {
        drop_received(rx);
    }
}

/// What was received on a link is dropped, or is not.
pub(crate) fn drop_received_if<const R: usize>(drops: bool, handle: u16, rx: &mut RxBank<R>)
    ensures { rx.new ≡ (if drops then received_without handle rx.old else rx.old) }
{
    if drops {
        rx.drop_link(handle);
    }
}
