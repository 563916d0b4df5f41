//! Links that enter their events as a turn begins, and what the host receives of that (Core 5.2,
//! volume 6 part B, section 4.5.1, and volume 4 part E, section 7.7.65.3).
ghost use Rattle.std.specs.Prelude.{◌≡◌, ◌≤◌, ◌<◌, ◌+◌, ◌-◌, ◌*◌, ◌^◌, ◌++◌, ℕ, List, length};
ghost use Rattle.std.specs.Prelude.{Some};
ghost use Rattle.arrayvec.specs.ArrayVec.{array_vec_len};
ghost use Rattle.acl_banks.specs.declared.pieces.Piece.{Piece};
ghost use Rattle.open_links.specs.Knowing.{Knows as KnowsLinks};
ghost use Rattle.open_links.specs.OpenLinks.{Links, link_at};
ghost use Rattle.open_links.specs.Turns.{links_entered, notes_entering, want_entering};
ghost use Rattle.controller_model.specs.Entering.{all_entered, events_entering};
ghost use Rattle.controller_model.specs.Entering.{notes_all_entering, wants_from};
ghost use Rattle.controller_model.specs.Events.{notes_of_events};
ghost use Rattle.host_notes.specs.Entering.{EntersRest, events_told, params_at};

use crate::masks::tell_if;
use ble_base::{Outbox, SlotNo};
use host_view::HostView;
use open_links::{Entry, OpenLinks};
use procedure_events::event_of_entry;
use slot_plan::Plan;

/// Sends the host the event for an update of the parameters that holds from the event on that the
/// link under a handle entered. Updates are rare, so this is kept out of the code of other events.
#[inline(never)]
fn tell_update<const L: usize, const T: usize, const R: usize>(
    view: &HostView,
    links: &OpenLinks<L, T, R>,
    handle: u16,
    entry: Entry,
    out: &mut Outbox,
)
    requires room { array_vec_len out.old < 64 }
    ensures notes { (known : Links) (received : List (ℕ × Piece))
        → KnowsLinks links.now known received → out.new.items ≡ out.old.items
        ++ notes_of_events view.now (events_told handle (Some entry) (params_at handle known)) }
    ensures few { array_vec_len out.new ≤ array_vec_len out.old + 1 }
{
    let Some(params) = links.params(handle) else {
        return;
    };
    tell_if(view, &event_of_entry(handle, entry.updated, &params), out);
}

/// Sends the host the event for what came of an event of the link under a handle, with the
/// parameters in it, if the link entered one.
fn tell_entry<const L: usize, const T: usize, const R: usize>(
    view: &HostView,
    links: &OpenLinks<L, T, R>,
    handle: u16,
    entry: Option<Entry>,
    out: &mut Outbox,
)
    requires room { array_vec_len out.old < 64 }
    ensures notes { (known : Links) (received : List (ℕ × Piece))
        → KnowsLinks links.now known received → out.new.items ≡ out.old.items
        ++ notes_of_events view.now (events_told handle entry (params_at handle known)) }
    ensures few { array_vec_len out.new ≤ array_vec_len out.old + 1 }
{
    let Some(entry) = entry else {
        return;
    };
    if entry.updated {
        tell_update(view, links, handle, entry, out);
    }
}

/// The link under a handle enters its event, if its anchor is in this slot, and the host hears of
/// that. A link that wants the radio is added to the plan.
fn enter_link<const L: usize, const T: usize, const R: usize>(
    view: &HostView,
    links: &mut OpenLinks<L, T, R>,
    handle: u16,
    slot: SlotNo,
    plan: &mut Plan,
    out: &mut Outbox,
)
    requires slot { slot.0 < 2 ^ 32 }
    requires room { array_vec_len out.old ≤ 58 }
    requires wants { length plan.old.wants < 16 }
    ensures knows { (known : Links) (received : List (ℕ × Piece))
        → KnowsLinks links.old known received
        → KnowsLinks links.new (links_entered slot.0 handle known) received }
    ensures notes { (known : Links) (received : List (ℕ × Piece))
        → KnowsLinks links.old known received
        → out.new.items ≡ out.old.items ++ notes_entering slot.0 (link_at handle known)
        ++ notes_of_events view.now (events_entering slot.0 handle (link_at handle known)) }
    ensures wants { (known : Links) (received : List (ℕ × Piece))
        → KnowsLinks links.old known received → plan.new.wants
        ≡ plan.old.wants ++ want_entering slot.0 handle (link_at handle known) }
    ensures hold { plan.new.hold ≡ plan.old.hold }
    ensures few { array_vec_len out.new ≤ array_vec_len out.old + 6 }
    ensures few_wants { length plan.new.wants ≤ length plan.old.wants + 1 }
    ensures counts { (links.new.heard_to ≡ links.old.heard_to)
        × (links.new.unreported ≡ links.old.unreported) }
{
    let entry = links.enter(handle, slot, plan, out);
    tell_entry(view, links, handle, entry, out);
}

/// The links from this handle on enter their events, one after another.
fn enter_from<const L: usize, const T: usize, const R: usize>(
    view: &HostView,
    links: &mut OpenLinks<L, T, R>,
    handle: u16,
    slot: SlotNo,
    plan: &mut Plan,
    out: &mut Outbox,
)
    requires handle { (handle ≤ L) × (L ≤ 6) }
    requires slot { slot.0 < 2 ^ 32 }
    requires room { array_vec_len out.old + 6 * (L - handle) ≤ 64 }
    requires wants { length plan.old.wants + (L - handle) ≤ 16 }
    ensures enters { (done rest : Links) (received : List (ℕ × Piece)) → length done ≡ handle
        → KnowsLinks links.old (done ++ rest) received
        → EntersRest links.new done rest received view.now slot.0 handle out.old.items
        out.new.items plan.old.wants plan.new.wants }
    ensures hold { plan.new.hold ≡ plan.old.hold }
    ensures few { array_vec_len out.new ≤ array_vec_len out.old + 6 * (L - handle) }
    ensures few_wants { length plan.new.wants ≤ length plan.old.wants + (L - handle) }
    ensures counts { (links.new.heard_to ≡ links.old.heard_to)
        × (links.new.unreported ≡ links.old.unreported) }
{
    if handle == links.places() {
        return;
    }
    enter_link(view, links, handle, slot, plan, out);
    enter_from(view, links, handle + 1, slot, plan, out);
}

/// The links that have an anchor in this slot enter their events, by ascending handle, and the host
/// hears of each before the next one enters. Links that want the radio are added to the plan.
pub fn enter_links<const L: usize, const T: usize, const R: usize>(
    view: &HostView,
    links: &mut OpenLinks<L, T, R>,
    slot: SlotNo,
    plan: &mut Plan,
    out: &mut Outbox,
)
    requires size { L ≤ 6 }
    requires slot { slot.0 < 2 ^ 32 }
    requires room { array_vec_len out.old + 6 * L ≤ 64 }
    requires wants { length plan.old.wants + L ≤ 16 }
    ensures knows { (known : Links) (received : List (ℕ × Piece))
        → KnowsLinks links.old known received
        → KnowsLinks links.new (all_entered slot.0 known) received }
    ensures notes { (known : Links) (received : List (ℕ × Piece))
        → KnowsLinks links.old known received
        → out.new.items ≡ out.old.items ++ notes_all_entering view.now slot.0 0 known }
    ensures wants { (known : Links) (received : List (ℕ × Piece))
        → KnowsLinks links.old known received
        → plan.new.wants ≡ plan.old.wants ++ wants_from slot.0 0 known }
    ensures hold { plan.new.hold ≡ plan.old.hold }
    ensures few { array_vec_len out.new ≤ array_vec_len out.old + 6 * L }
    ensures few_wants { length plan.new.wants ≤ length plan.old.wants + L }
    ensures counts { (links.new.heard_to ≡ links.old.heard_to)
        × (links.new.unreported ≡ links.old.unreported) }
{
    enter_from(view, links, 0, slot, plan, out);
}
