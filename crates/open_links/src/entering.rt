//! A link that enters its event.
ghost use Rattle.std.specs.Prelude.{◌≡◌, ◌<◌, ◌≤◌, ◌+◌, ◌^◌, ◌++◌, Some, length};
ghost use Rattle.arrayvec.specs.ArrayVec.{array_vec_len};
ghost use Rattle.slot_plan.specs.declared.Want.{Want};
ghost use Rattle.open_links.specs.Wants.{want_if};
ghost use Rattle.open_links.specs.OpenLinks.{Links, OpenLink, link_at, with_change};
ghost use Rattle.open_links.specs.Turns.{entry_at, link_entered, notes_entering};
ghost use Rattle.open_links.specs.Turns.{want_entering};
ghost use Rattle.open_links.specs.Knowing.{Enters, EntersPlace, HoldsPlace};
ghost use Rattle.open_links.specs.Knowing.{KnowsLink, KnowsPlaces};

use crate::places::OpenEnd;
use acl_banks::TxBank;
use ble_base::{Outbox, SlotNo};
use cell_table::CellTable;
use link_end::Entry;
use slot_plan::{Activity, Plan};

impl OpenEnd {
    /// Enters its event, if it goes on and its next anchor is in this slot, and notes it. It gives
    /// what comes of the event, and says whether it wants the radio for it.
    fn enter<const T: usize>(
        &mut self,
        slot: SlotNo,
        tx: &TxBank<T>,
        out: &mut Outbox,
    ) -> (Option<Entry>, bool)
        requires slot { slot.0 < 2 ^ 32 }
        requires room { array_vec_len out.old ≤ 59 }
        ensures enters { (link : OpenLink) → KnowsLink self.old link
            → HoldsPlace tx.now (Some link)
            → Enters self.new link slot.0 out.old.items out.new.items result.0 result.1 }
        ensures few { array_vec_len out.new ≤ array_vec_len out.old + 5 }
    {
        if !self.end.goes_on() || self.end.next_anchor() != slot {
            return (None, false);
        }
        let entry = self.end.enter(slot, out);
        (Some(entry), self.end.wants(tx))
    }
}

impl OpenEnd {
    /// Enters its event, under this handle, in this slot, and is added to the plan where it wants
    /// the radio.
    fn enter_with<const T: usize>(
        &mut self,
        handle: u16,
        slot: SlotNo,
        tx: &TxBank<T>,
        plan: &mut Plan,
        out: &mut Outbox,
    ) -> Option<Entry>
        requires slot { slot.0 < 2 ^ 32 }
        requires room { array_vec_len out.old ≤ 59 }
        requires wants { length plan.old.wants < 16 }
        ensures enters { (link : OpenLink) → KnowsLink self.old link
            → HoldsPlace tx.now (Some link)
            → EntersPlace (Some self.new) (Some link) slot.0 handle out.old.items out.new.items
            result plan.old.wants plan.new.wants }
        ensures hold { plan.new.hold ≡ plan.old.hold }
        ensures few { array_vec_len out.new ≤ array_vec_len out.old + 5 }
        ensures few_wants { length plan.new.wants ≤ length plan.old.wants + 1 }
    {
        let (entry, wants) = self.enter(slot, tx, out);
        add_want(wants, handle, self.last_served, plan);
        entry
    }
}

/// The link under this handle is added to the plan, or is not.
fn add_want(wants: bool, handle: u16, last_served: u64, plan: &mut Plan)
    requires { length plan.old.wants < 16 }
    ensures wants { plan.new.wants ≡ plan.old.wants ++ want_if wants handle last_served }
    ensures hold { plan.new.hold ≡ plan.old.hold }
    ensures few { length plan.new.wants ≤ length plan.old.wants + 1 }
{
    if wants {
        plan.want(Activity::Link(handle), SlotNo(last_served));
    }
}

/// The link under a handle enters its event in this slot, and is added to the plan where it wants
/// the radio.
pub(crate) fn enter_at<const L: usize, const T: usize>(
    places: &mut CellTable<OpenEnd, L>,
    handle: u16,
    slot: SlotNo,
    tx: &TxBank<T>,
    plan: &mut Plan,
    out: &mut Outbox,
) -> Option<Entry>
    requires slot { slot.0 < 2 ^ 32 }
    requires room { array_vec_len out.old ≤ 59 }
    requires wants { length plan.old.wants < 16 }
    ensures knows { (links : Links) → KnowsPlaces places.old links
        → HoldsPlace tx.now (link_at handle links)
        → KnowsPlaces places.new (with_change handle (link_entered slot.0) links) }
    ensures notes { (links : Links) → KnowsPlaces places.old links
        → HoldsPlace tx.now (link_at handle links) → out.new.items
        ≡ out.old.items ++ notes_entering slot.0 (link_at handle links) }
    ensures entry { (links : Links) → KnowsPlaces places.old links
        → HoldsPlace tx.now (link_at handle links)
        → result ≡ entry_at slot.0 (link_at handle links) }
    ensures wants { (links : Links) → KnowsPlaces places.old links
        → HoldsPlace tx.now (link_at handle links) → plan.new.wants
        ≡ plan.old.wants ++ want_entering slot.0 handle (link_at handle links) }
    ensures hold { plan.new.hold ≡ plan.old.hold }
    ensures few { array_vec_len out.new ≤ array_vec_len out.old + 5 }
    ensures few_wants { length plan.new.wants ≤ length plan.old.wants + 1 }
{
    let place = handle as usize;
    if !places.holds(place) {
        return None;
    }
    places
        .get_mut(place)
        .enter_with(handle, slot, tx, plan, out)
}
