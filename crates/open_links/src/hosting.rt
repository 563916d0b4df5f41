//! What the host asks for on the link under one handle, answers there and ends, and the map that it
//! gives to all links.
ghost use Rattle.std.specs.Prelude.{◌≡◌, ◌<◌, ◌≤◌, ◌^◌, Option, None, drop, length, ℕ};
ghost use Rattle.std.specs.Prelude.{slice_index_or, slice_set};
ghost use Rattle.std.specs.Option.{option_map};
ghost use Rattle.std.specs.Result.{ForOk};
ghost use Rattle.procedures.specs.procedure_values.Wants.{IsAsk};
ghost use Rattle.link_end.specs.link_model.Step.{Disconnected, ProcedureAsked, RequestAnswered};
ghost use Rattle.open_links.specs.Hosts.{link_asked_map, links_asked_map};
ghost use Rattle.open_links.specs.OpenLinks.{Links, OpenLink, link_after, with_change};
ghost use Rattle.open_links.specs.Knowing.{KnowsLink, KnowsPlace, KnowsPlaces};

use crate::places::OpenEnd;
use ble_base::{ChannelMap, ErrCode, Role, SlotNo};
use cell_table::CellTable;
use procedures::Ask;

/// The host asks for a procedure on the link under a handle.
pub(crate) fn ask_at<const L: usize>(places: &mut CellTable<OpenEnd, L>, handle: u16, ask: Ask)
    requires { IsAsk ask }
    ensures { (links : Links) → KnowsPlaces places.old links
        → KnowsPlaces places.new (with_change handle (link_after (ProcedureAsked ask)) links) }
{
    let place = handle as usize;
    if places.holds(place) {
        places.get_mut(place).ask(ask);
    }
}

/// The host answers a request of the peer on the link under a handle.
pub(crate) fn answer_at<const L: usize>(
    places: &mut CellTable<OpenEnd, L>,
    handle: u16,
    answer: Result<Ask, ErrCode>,
)
    requires { ForOk answer IsAsk }
    ensures { (links : Links) → KnowsPlaces places.old links
        → KnowsPlaces places.new (with_change handle (link_after (RequestAnswered answer)) links) }
{
    let place = handle as usize;
    if places.holds(place) {
        places.get_mut(place).answer(answer);
    }
}

/// The host ends the link under a handle in this slot.
pub(crate) fn end_at<const L: usize>(
    places: &mut CellTable<OpenEnd, L>,
    handle: u16,
    reason: ErrCode,
    slot: SlotNo,
)
    requires { slot.0 ≤ 2 ^ 32 }
    ensures { (links : Links) → KnowsPlaces places.old links → KnowsPlaces places.new
        (with_change handle (link_after (Disconnected reason slot.0)) links) }
{
    let place = handle as usize;
    if places.holds(place) {
        places.get_mut(place).disconnect(reason, slot);
    }
}

/// The host asks for a channel map on the link in a place, if there is one and this end is its
/// central.
fn ask_map_at<const L: usize>(places: &mut CellTable<OpenEnd, L>, place: usize, map: ChannelMap)
    ensures knows { (link : Option OpenLink)
        → KnowsPlace (slice_index_or places.old place None) link
        → KnowsPlace (slice_index_or places.new place None) (option_map (link_asked_map map) link) }
    ensures others { places.new
        ≡ slice_set places.old place (slice_index_or places.new place None) }
{
    if places.holds(place) {
        places.get_mut(place).ask_map(map);
    }
}

/// The host asks for a channel map on each link, from this handle on, of which this end is the
/// central.
pub(crate) fn ask_map_all<const L: usize>(
    places: &mut CellTable<OpenEnd, L>,
    handle: u16,
    map: ChannelMap,
)
    requires { L ≤ 6 }
    ensures knows { (links : Links) → KnowsPlaces (drop handle places.old) links
        → KnowsPlaces (drop handle places.new) (links_asked_map map links) }
    ensures before { (i : ℕ) → i < handle
        → slice_index_or places.new i None ≡ slice_index_or places.old i None }
    ensures places { length places.new ≡ length places.old }
{
    let place = handle as usize;
    if place >= places.places() {
        return;
    }
    ask_map_at(places, place, map);
    ask_map_all(places, handle + 1, map);
}

impl OpenEnd {
    /// The host asks for a procedure.
    fn ask(&mut self, ask: Ask)
        requires { IsAsk ask }
        ensures { (link : OpenLink) → KnowsLink self.old link
            → KnowsLink self.new (link_after (ProcedureAsked ask) link) }
    {
        self.end.ask(ask);
    }

    /// The host answers a request of the peer.
    fn answer(&mut self, answer: Result<Ask, ErrCode>)
        requires { ForOk answer IsAsk }
        ensures { (link : OpenLink) → KnowsLink self.old link
            → KnowsLink self.new (link_after (RequestAnswered answer) link) }
    {
        self.end.host_answer(answer);
    }

    /// The host ends it in this slot.
    fn disconnect(&mut self, reason: ErrCode, slot: SlotNo)
        requires { slot.0 ≤ 2 ^ 32 }
        ensures { (link : OpenLink) → KnowsLink self.old link
            → KnowsLink self.new (link_after (Disconnected reason slot.0) link) }
    {
        self.end.end(reason, slot);
    }

    /// A central is asked for a channel map.
    fn ask_map(&mut self, map: ChannelMap)
        ensures { (link : OpenLink) → KnowsLink self.old link
            → KnowsLink self.new (link_asked_map map link) }
    {
        match self.end.setup().role {
            Role::Central => self.end.ask(Ask::Map(map)),
            Role::Peripheral => {}
        }
    }
}
