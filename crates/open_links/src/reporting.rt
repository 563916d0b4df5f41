//! Complete packets that are reported, and packets of the host.
ghost use Rattle.std.specs.Prelude.{◌≡◌, ◌<◌, ◌≤◌, ◌==◌, ◌+◌, ◌++◌, Option, drop, is_some};
ghost use Rattle.std.specs.Prelude.{fold, if◌then◌else◌, map, length};
ghost use Rattle.acl_banks.specs.Banks.{bank_after_credited, taken_buffers};
ghost use Rattle.open_links.specs.declared.offers.Offer.TheVariants.{Kept};
ghost use Rattle.open_links.specs.Offered.{completed_by};
ghost use Rattle.open_links.specs.Offered.{bank_offered};
ghost use Rattle.open_links.specs.Data.{completed_from, offer_by};
ghost use Rattle.open_links.specs.OpenLinks.{HaveHandles, Links, OpenLink};
ghost use Rattle.open_links.specs.Knowing.{HoldsPlaces, KnowsPlaces};

use crate::places::OpenEnd;
use crate::{Completed, MOST_LINKS, Offer};
use acl_banks::{Overflow, TxBank};
use arrayvec::ArrayVec;
use cell_table::CellTable;

/// The links from this handle on with complete packets are added to those.
pub(crate) fn completed_from<const L: usize, const T: usize>(
    places: &CellTable<OpenEnd, L>,
    handle: u16,
    tx: &TxBank<T>,
    completed: &mut ArrayVec<Completed, MOST_LINKS>,
)
    requires links { L ≤ 6 }
    requires handle { handle ≤ L }
    requires room { length completed.old.items ≤ handle }
    ensures items { (links : Links) → KnowsPlaces (drop handle places.now) links
        → HaveHandles handle links → HoldsPlaces tx.now links
        → completed.new.items ≡ completed.old.items ++ completed_from handle links }
    ensures few { length completed.new.items ≤ L }
{
    let place = handle as usize;
    if place >= places.places() {
        return;
    }
    add_completed(places.holds(place), handle, tx.credits(handle), completed);
    completed_from(places, handle + 1, tx, completed);
}

/// A link with complete packets is added, if it is open.
fn add_completed(
    is_open: bool,
    handle: u16,
    count: u16,
    completed: &mut ArrayVec<Completed, MOST_LINKS>,
)
    requires { length completed.old.items < 6 }
    ensures items { completed.new.items ≡ (if is_open
        then completed.old.items ++ completed_by handle count else completed.old.items) }
    ensures few { length completed.new.items ≤ length completed.old.items + 1 }
{
    if is_open && count > 0 {
        completed.push(Completed { handle, count });
    }
}

/// The complete packets of these links were reported.
pub(crate) fn report_all<const T: usize>(completed: &[Completed], tx: &mut TxBank<T>)
    ensures { tx.new ≡ fold bank_after_credited tx.old (map (λ one. one.handle) completed.now) }
{
    let Some((one, rest)) = completed.split_first() else {
        return;
    };
    tx.credited(one.handle);
    report_all(rest, tx);
}

/// A packet of the host is kept in the bank, if the link under its handle is open and there is room
/// for it. It gives what becomes of it.
pub(crate) fn offer<const T: usize>(
    is_open: bool,
    handle: u16,
    start: bool,
    body: &[u8],
    tx: &mut TxBank<T>,
) -> Offer
    ensures offer { (place : Option OpenLink) → is_open ≡ is_some place
        → result ≡ offer_by place (length body.now) (taken_buffers tx.old == T) }
    ensures some { result ≡ Kept → 1 ≤ length body.now }
    ensures bank { tx.new ≡ bank_offered result handle start body.now tx.old }
{
    if !is_open {
        return Offer::NoLink;
    }
    if body.is_empty() {
        return Offer::Empty;
    }
    match tx.offer(handle, start, body) {
        Ok(()) => Offer::Kept,
        Err(Overflow) => Offer::Overflow,
    }
}
