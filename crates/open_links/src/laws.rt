//! Laws of the open links. The bodies do nothing: the contracts are the laws.
ghost use Rattle.std.specs.Prelude.{◌≡◌, ◌≢◌, ◌<◌, ◌≤◌, ◌+◌, ℕ, Bool, true, List, Option, Result};
ghost use Rattle.std.specs.Prelude.{Some, None, length, replicate};
ghost use Rattle.std.specs.Option.{option_map};
ghost use Rattle.ble_base.specs.declared.channel_map.ChannelMap.{ChannelMap};
ghost use Rattle.ble_base.specs.declared.error_codes.ErrCode.{ErrCode};
ghost use Rattle.acl_banks.specs.declared.pieces.Piece.{Piece};
ghost use Rattle.acl_banks.specs.Banks.{taken_buffers};
ghost use Rattle.adv_pdu.specs.Ranges.{IsInRange};
ghost use Rattle.procedures.specs.procedure_values.declared.asks.Ask.{Ask};
ghost use Rattle.link_end.specs.link_model.Setup.{Setup};
ghost use Rattle.open_links.specs.Ended.{HandlesAscend, IsAmong};
ghost use Rattle.link_end.specs.link_model.AskRanges.{AreAsksInRange};
ghost use Rattle.link_end.specs.link_model.Step.{DataGiven, Disconnected, PduFixed, ProcedureAsked};
ghost use Rattle.link_end.specs.link_model.Step.{RequestAnswered, Step};
ghost use Rattle.open_links.specs.Data.{buffers_taken, link_reported, links_fixed};
ghost use Rattle.open_links.specs.Data.{links_given, links_reported};
ghost use Rattle.open_links.specs.Hosts.{link_asked_map, links_answered, links_asked};
ghost use Rattle.open_links.specs.Hosts.{links_asked_map, links_disconnected};
ghost use Rattle.open_links.specs.Knowing.{HeldLinks, Knows};
ghost use Rattle.open_links.specs.OpenLinks.{Links, OpenLink, HaveHandles, IsFreeHandle};
ghost use Rattle.open_links.specs.OpenLinks.{free_from, has_entered, link_after};
ghost use Rattle.open_links.specs.OpenLinks.{link_after_in_event, link_at, new_link};
ghost use Rattle.open_links.specs.OpenLinks.{with_change, with_link, without_link};
ghost use Rattle.open_links.specs.OpenLinks.{without_links};
ghost use Rattle.open_links.specs.Slots.{Exchange, IsOnTime, MayGoThrough, link_through};
ghost use Rattle.open_links.specs.Turns.{ends_by, enters_in, link_entered, links_entered};
ghost use Rattle.open_links.specs.Turns.{links_without, place_without, reason_at};

/// The handle of a new link is free and the least free one. There is none exactly where each handle
/// has a link.
#[tactic(auto, using(crate::proofs::Handles::free_is))]
pub fn new_handle_is_free_and_least()
    ensures { (links : Links) → IsFreeHandle 0 links (free_from 0 links) }
{}

/// A link that is opened is under its handle, one that is shut is not, and all other links are as
/// they were.
#[tactic(auto, using(crate::proofs::Handles::changes))]
pub fn a_change_leaves_other_links()
    ensures opened { (setup : Setup) (links : Links) → setup.link.handle < length links
        → link_at setup.link.handle (with_link setup links) ≡ Some (new_link setup) }
    ensures shut { (handle : ℕ) (links : Links)
        → link_at handle (without_link handle links) ≡ None }
    ensures changed { (handle : ℕ) (change : OpenLink → OpenLink) (links : Links)
        → link_at handle (with_change handle change links)
        ≡ option_map change (link_at handle links) }
    ensures others_opening { (setup : Setup) (other : ℕ) (links : Links)
        → other ≢ setup.link.handle
        → link_at other (with_link setup links) ≡ link_at other links }
    ensures others_shutting { (handle other : ℕ) (links : Links) → other ≢ handle
        → link_at other (without_link handle links) ≡ link_at other links }
    ensures others_changing { (handle other : ℕ) (change : OpenLink → OpenLink) (links : Links)
        → other ≢ handle
        → link_at other (with_change handle change links) ≡ link_at other links }
{}

/// A packet of the host, a PDU that is fixed, an event that is entered, and what the host asks for,
/// answers and ends change the link under their handle and no other. Complete packets that are
/// reported, and a map that the host gives, change each link by itself.
#[tactic(auto, using(crate::proofs::Handles::changes))]
pub fn what_is_done_under_a_handle_leaves_others()
    ensures given { (handle : ℕ) (start : Bool) (body : List ℕ) (links : Links)
        → link_at handle (links_given handle start body links)
        ≡ option_map (link_after (DataGiven start body)) (link_at handle links) }
    ensures fixed { (handle : ℕ) (links : Links) → link_at handle (links_fixed handle links)
        ≡ option_map (link_after_in_event PduFixed) (link_at handle links) }
    ensures entered { (slot handle : ℕ) (links : Links)
        → link_at handle (links_entered slot handle links)
        ≡ option_map (link_entered slot) (link_at handle links) }
    ensures asked { (handle : ℕ) (ask : Ask) (links : Links)
        → link_at handle (links_asked handle ask links)
        ≡ option_map (link_after (ProcedureAsked ask)) (link_at handle links) }
    ensures answered { (handle : ℕ) (answer : Result Ask ErrCode) (links : Links)
        → link_at handle (links_answered handle answer links)
        ≡ option_map (link_after (RequestAnswered answer)) (link_at handle links) }
    ensures ended { (handle slot : ℕ) (reason : ErrCode) (links : Links)
        → link_at handle (links_disconnected handle reason slot links)
        ≡ option_map (link_after (Disconnected reason slot)) (link_at handle links) }
    ensures reported { (handle : ℕ) (links : Links)
        → link_at handle (links_reported links)
        ≡ option_map link_reported (link_at handle links) }
    ensures asked_map { (handle : ℕ) (map : ChannelMap) (links : Links)
        → link_at handle (links_asked_map map links)
        ≡ option_map (link_asked_map map) (link_at handle links) }
    ensures others_giving { (handle other : ℕ) (start : Bool) (body : List ℕ) (links : Links)
        → other ≢ handle
        → link_at other (links_given handle start body links) ≡ link_at other links }
    ensures others_fixing { (handle other : ℕ) (links : Links) → other ≢ handle
        → link_at other (links_fixed handle links) ≡ link_at other links }
    ensures others_entering { (slot handle other : ℕ) (links : Links) → other ≢ handle
        → link_at other (links_entered slot handle links) ≡ link_at other links }
    ensures others_asking { (handle other : ℕ) (ask : Ask) (links : Links) → other ≢ handle
        → link_at other (links_asked handle ask links) ≡ link_at other links }
    ensures others_answering { (handle other : ℕ) (answer : Result Ask ErrCode) (links : Links)
        → other ≢ handle
        → link_at other (links_answered handle answer links) ≡ link_at other links }
    ensures others_ending { (handle other slot : ℕ) (reason : ErrCode) (links : Links)
        → other ≢ handle
        → link_at other (links_disconnected handle reason slot links) ≡ link_at other links }
{}

/// The links that end for a reason, at the start of a turn or at its end, are given by ascending
/// handle. Each link that has a reason is given with it and is no longer open, and each other one
/// stays as it is.
#[tactic(auto, using(crate::proofs::Ends::ends))]
pub fn links_end_where_they_have_a_reason()
    ensures ascend { (reason : OpenLink → Option ℕ) (links : Links)
        → HandlesAscend 0 (ends_by reason 0 links) }
    ensures given { (reason : OpenLink → Option ℕ) (handle : ℕ) (links : Links)
        → IsAmong handle (reason_at reason (link_at handle links)) (ends_by reason 0 links) }
    ensures staying { (reason : OpenLink → Option ℕ) (handle : ℕ) (links : Links)
        → link_at handle (links_without reason links)
        ≡ place_without reason (link_at handle links) }
{}

/// No two links have one handle: each is under the handle of its setup, and every call keeps that.
#[tactic(auto, using(crate::proofs::Handles::own_handles))]
pub fn each_link_has_its_own_handle()
    ensures two { (links : Links) (one other : ℕ) (a b : OpenLink) → HaveHandles 0 links
        → link_at one links ≡ Some a → link_at other links ≡ Some b
        → a.setup.link.handle ≡ b.setup.link.handle → one ≡ other }
    ensures at_first { (n : ℕ) → HaveHandles 0 (replicate n None) }
    ensures opening { (setup : Setup) (links : Links) → HaveHandles 0 links
        → HaveHandles 0 (with_link setup links) }
    ensures shutting { (handle : ℕ) (links : Links) → HaveHandles 0 links
        → HaveHandles 0 (without_link handle links) }
    ensures changing { (handle : ℕ) (change : OpenLink → OpenLink) (links : Links)
        → ((link : OpenLink) → (change link).setup ≡ link.setup) → HaveHandles 0 links
        → HaveHandles 0 (with_change handle change links) }
    ensures exchanging { (handle : ℕ) (step : Step) (links : Links) → HaveHandles 0 links
        → HaveHandles 0 (with_change handle (link_after_in_event step) links) }
    ensures entering { (slot handle : ℕ) (links : Links) → HaveHandles 0 links
        → HaveHandles 0 (links_entered slot handle links) }
    ensures ending { (reason : OpenLink → Option ℕ) (links : Links) → HaveHandles 0 links
        → HaveHandles 0 (links_without reason links) }
    ensures asking { (map : ChannelMap) (links : Links) → HaveHandles 0 links
        → HaveHandles 0 (links_asked_map map links) }
    ensures reporting { (links : Links) → HaveHandles 0 links
        → HaveHandles 0 (links_reported links) }
{}

/// There are as many places as at first: each call keeps their number.
#[tactic(auto, using(crate::proofs::Counts::counts))]
pub fn each_call_keeps_the_places()
    ensures at_first { (n : ℕ) (place : Option OpenLink) → length (replicate n place) ≡ n }
    ensures opening { (setup : Setup) (links : Links)
        → length (with_link setup links) ≡ length links }
    ensures shutting { (handle : ℕ) (links : Links)
        → length (without_link handle links) ≡ length links }
    ensures changing { (handle : ℕ) (change : OpenLink → OpenLink) (links : Links)
        → length (with_change handle change links) ≡ length links }
    ensures ending { (reason : OpenLink → Option ℕ) (links : Links)
        → length (links_without reason links) ≡ length links }
    ensures asking { (map : ChannelMap) (links : Links)
        → length (links_asked_map map links) ≡ length links }
    ensures resetting { (links : Links) → length (without_links links) ≡ length links }
    ensures reporting { (links : Links) → length (links_reported links) ≡ length links }
{}

/// A buffer is taken for each packet of an open link that is not complete, and for nothing else
/// (Core 5.2, volume 4 part E, section 4.1).
pub fn buffers_are_those_of_open_links()
    ensures { (held : HeldLinks) (links : Links) (received : List (ℕ × Piece))
        → Knows held links received → taken_buffers held.bank ≡ buffers_taken links }
{}

/// A link that enters its event in each slot of its anchor misses none: at the start of each slot
/// the next anchor of a link that goes on is in this slot or later, whatever it sent and received
/// and whatever its host asked for (Core 5.2, volume 6 part B, section 4.5.1).
///
/// The CONNECT_IND of the link has fields in range, and so are the values that its host asks for
/// and answers with. Octets reach it only in the two exchanges of its event.
pub fn no_anchor_is_missed()
    ensures opened { (setup : Setup) → IsOnTime (setup.opened + 1) (new_link setup) }
    ensures slot_after_slot { (slot : ℕ) (slots : List (List Exchange)) (link : OpenLink)
        → IsInRange link.setup.link.fields → AreAsksInRange link.past
        → MayGoThrough slot slots link → IsOnTime slot link
        → IsOnTime (slot + length slots) (link_through slot slots link) }
{}

/// A link that enters its event has entered an event, and whatever happens to it later leaves that
/// so. From then on it sends and receives.
#[tactic(auto, using(crate::proofs::OnTime::enters_an_event, crate::proofs::OnTime::stays_entered))]
pub fn a_link_exchanges_from_its_first_event_on()
    ensures enters { (slot : ℕ) (link : OpenLink) → enters_in slot link ≡ true
        → has_entered (link_entered slot link) ≡ true }
    ensures stays { (step : Step) (link : OpenLink) → has_entered link ≡ true
        → has_entered (link_after step link) ≡ true }
{}
