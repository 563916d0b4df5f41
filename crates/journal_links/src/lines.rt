//! Laws of the journal of each run of a pair about its lines of links. The bodies only call the
//! laws that they rest on: the contracts are the laws.
ghost use Rattle.std.specs.Prelude.{◌≡◌, ℕ, ◌+◌, ◌*◌, if◌then◌else◌, true, false, Some, List, [], ◌∷◌, ◌++◌, length};
ghost use Rattle.std.specs.List.{Contains};
ghost use Rattle.ble_base.specs.declared.roles.Role.{Role};
ghost use Rattle.ble_base.specs.declared.roles.Side.{Side};
ghost use Rattle.chan_select.specs.Channel.{channel_of};
ghost use Rattle.chan_select.specs.declared.selection.Algorithm.TheVariants.{One, Two};
ghost use Rattle.run_laws.specs.controller_model.Since.{notes_opened_on, was_opened};
ghost use Rattle.journal.specs.declared.entries.Entry.{Entry};
ghost use Rattle.journal.specs.declared.entries.Entry.TheVariants.{Enter, Opened};
ghost use Rattle.journal_links.specs.Begun.{LinkBegun, link_numbered};
ghost use Rattle.journal_links.specs.Changes.{changes_of};
ghost use Rattle.journal_links.specs.Entered.{IsEnteredInTime, anchor_in, channel_in};
ghost use Rattle.journal_links.specs.LinkLines.{AreLinesOf, IsOfItsNotes};
ghost use Rattle.journal_links.specs.Opened.{IsOpenedInTime};
ghost use Rattle.run_laws.specs.open_links.OpenLinks.{OpenLink, link_at};
ghost use Rattle.radio_replay.specs.Script.{Script};
ghost use Rattle.run_laws.specs.run_model.Feeding.{is_note};
ghost use Rattle.run_laws.specs.run_model.History.{Event, noted_by};
ghost use Rattle.run_laws.specs.run_model.Journal.{journal_of};
ghost use Rattle.run_laws.specs.run_model.LinkEnds.{HaveAddresses};
ghost use Rattle.run_laws.specs.run_model.Links.{links_of};
ghost use Rattle.run_laws.specs.run_model.Pair.{given_of};
ghost use Rattle.run_laws.specs.run_model.Readers.{turns_of};
ghost use Rattle.run_laws.specs.run_model.Run.{Given, facts_at, history_of, run_of};

/// Each line of an end that enters an event of a link is in the turn of the anchor of that
/// event, and its channel is that of the event: both follow from the CONNECT_IND of the link, the
/// advertisement that it answers and the changes of its parameters in force at that end, by the
/// lines of the end before this one (Core 5.2, volume 6 part B, sections 4.5.1, 4.5.3, 4.5.8,
/// 5.1.1, 5.1.2 and 5.5).
pub fn each_enter_line_is_at_its_anchor()
    ensures { (a b : List ℕ) (script : Script) (front rest : List Entry) (side : Side)
        (number event channel : ℕ)
        → length script.a.public ≡ 6 → length script.b.public ≡ 6
        → journal_of (history_of (run_of (given_of a b script)))
        ≡ front ++ Enter side number event channel ∷ rest
        → IsEnteredInTime front side number event channel }
{
    run_laws::a_pdu_is_understood();
    advertise::laws::connections_are_taken();
}

/// Where no change of its parameters is in force, the events of a link are those of its
/// CONNECT_IND: each next anchor comes an interval later, and the map is the one that it has (Core
/// 5.2, volume 6 part B, sections 4.5.1, 4.5.3 and 4.5.8).
pub fn without_changes_events_follow_the_connect_ind()
    ensures anchor { (link : LinkBegun) (event : ℕ)
        → anchor_in link [] event
        ≡ link.slot + 2 + link.fields.win_offset + event * link.fields.interval }
    ensures channel { (link : LinkBegun) (event : ℕ)
        → channel_in link [] event
        ≡ channel_of (if link.two then Two link.fields.access else One link.fields.hop) event
        link.fields.map }
{}

/// Where two lines say that an event of one link is entered, and the same changes of its parameters
/// are in force at both, they are in one turn and name one channel: so it is where both ends of the
/// link enter it (Core 5.2, volume 6 part B, sections 4.5.1, 4.5.8 and 5.5).
pub fn both_ends_enter_an_event_in_one_turn()
    ensures turn { (a b : List ℕ) (script : Script) (front rest later last : List Entry)
        (side other : Side) (number event channel too : ℕ)
        → length script.a.public ≡ 6 → length script.b.public ≡ 6
        → journal_of (history_of (run_of (given_of a b script)))
        ≡ front ++ Enter side number event channel ∷ rest
        → journal_of (history_of (run_of (given_of a b script)))
        ≡ later ++ Enter other number event too ∷ last
        → ((link : LinkBegun) → link_numbered number front ≡ Some link
        → changes_of number link side front ≡ changes_of number link other later)
        → length (turns_of front) ≡ length (turns_of later) }
    ensures channel { (a b : List ℕ) (script : Script) (front rest later last : List Entry)
        (side other : Side) (number event channel too : ℕ)
        → length script.a.public ≡ 6 → length script.b.public ≡ 6
        → journal_of (history_of (run_of (given_of a b script)))
        ≡ front ++ Enter side number event channel ∷ rest
        → journal_of (history_of (run_of (given_of a b script)))
        ≡ later ++ Enter other number event too ∷ last
        → ((link : LinkBegun) → link_numbered number front ≡ Some link
        → changes_of number link side front ≡ changes_of number link other later)
        → channel ≡ too }
{
    run_laws::a_pdu_is_understood();
    advertise::laws::connections_are_taken();
}

/// Each line of a link that a side holds from there on names a link of the journal, and is in
/// the turn of its CONNECT_IND: the central sent that, and the peripheral is the other side (Core
/// 5.2, volume 6 part B, section 4.5).
pub fn each_opened_line_names_its_link()
    ensures { (a b : List ℕ) (script : Script) (front rest : List Entry) (side : Side)
        (number handle : ℕ) (role : Role)
        → length script.a.public ≡ 6 → length script.b.public ≡ 6
        → journal_of (history_of (run_of (given_of a b script)))
        ≡ front ++ Opened side number handle role ∷ rest
        → IsOpenedInTime front side number role }
{
    run_laws::a_pdu_is_understood();
    advertise::laws::connections_are_taken();
}

/// The lines of a side on one link are the notes of that link, in order, from the one that says
/// that it was opened: those of its events, its PDUs, its indications and its procedures, and that
/// it was shut. This is so at each place of a run of two stations, also in the middle of a call,
/// for each handle under which a link was opened, and for any number of links. Where the link is
/// open, they are what its end noted over all that happened to it.
pub fn lines_of_a_link_are_its_notes()
    ensures at_any_time { (given : Given) (before rest : List Event) (station handle : ℕ)
        → given.stations ≡ 0 ∷ 1 ∷ [] → HaveAddresses given → Contains given.stations station
        → history_of (run_of given) ≡ before ++ rest
        → was_opened handle (noted_by station before) ≡ true
        → IsOfItsNotes before station handle }
    ensures where_open { (given : Given) (before rest : List Event) (event : Event)
        (station handle : ℕ) (link : OpenLink)
        → given.stations ≡ 0 ∷ 1 ∷ [] → HaveAddresses given → Contains given.stations station
        → history_of (run_of given) ≡ before ++ event ∷ rest → is_note event ≡ false
        → link_at handle (facts_at given station before).links ≡ Some link
        → was_opened handle (noted_by station before) ≡ true }
    ensures of_its_end { (given : Given) (before rest : List Event) (event : Event)
        (station handle : ℕ) (link : OpenLink)
        → given.stations ≡ 0 ∷ 1 ∷ [] → HaveAddresses given → Contains given.stations station
        → history_of (run_of given) ≡ before ++ event ∷ rest → is_note event ≡ false
        → link_at handle (facts_at given station before).links ≡ Some link
        → AreLinesOf (journal_of before) station ((links_of before).link_of station handle)
        (notes_opened_on link.setup link.past) }
    ensures open_at_the_end { (given : Given) (station handle : ℕ) (link : OpenLink)
        → given.stations ≡ 0 ∷ 1 ∷ [] → HaveAddresses given → Contains given.stations station
        → link_at handle (facts_at given station (history_of (run_of given))).links ≡ Some link
        → was_opened handle (noted_by station (history_of (run_of given))) ≡ true }
    ensures of_its_end_at_the_end { (given : Given) (station handle : ℕ) (link : OpenLink)
        → given.stations ≡ 0 ∷ 1 ∷ [] → HaveAddresses given → Contains given.stations station
        → link_at handle (facts_at given station (history_of (run_of given))).links ≡ Some link
        → AreLinesOf (journal_of (history_of (run_of given))) station
        ((links_of (history_of (run_of given))).link_of station handle)
        (notes_opened_on link.setup link.past) }
{
    run_laws::a_pdu_is_understood();
    advertise::laws::connections_are_taken();
}
