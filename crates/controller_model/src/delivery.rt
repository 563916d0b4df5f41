//! Laws of the data of one controller: what waits in it, and for how long. The bodies are empty:
//! the contracts are the laws.
ghost use Rattle.std.specs.Prelude.{◌≡◌, ◌≤◌, ◌+◌, ◌++◌, ◌⊎◌, ℕ, true, false, List, [], Some, None};
ghost use Rattle.std.specs.Prelude.{IsSome};
ghost use Rattle.std.specs.Prelude.{filter, flat_map, length};
ghost use Rattle.std.specs.List.{Contains};
ghost use Rattle.ack_bit.specs.Nonempty.{nonempty};
ghost use Rattle.ble_base.specs.declared.notes.Note.{Note};
ghost use Rattle.host_view.specs.Flow.{outstanding};
ghost use Rattle.host_view.specs.declared.view.TheConstants.{MOST_LINKS};
ghost use Rattle.link_commands.specs.open_links.link_model.Data.{data_of, is_empty};
ghost use Rattle.link_commands.specs.open_links.link_model.Numbers.{numbered_notes, sent_note, took_note};
ghost use Rattle.link_commands.specs.open_links.Data.{buffers_taken, complete_in};
ghost use Rattle.link_commands.specs.open_links.OpenLinks.{OpenLink, facts_in, link_at};
ghost use Rattle.controller_model.specs.Between.{is_between_turns};
ghost use Rattle.controller_model.specs.Data.{facts_handed, pieces_handed};
ghost use Rattle.controller_model.specs.Facts.{Setup, Facts};
ghost use Rattle.controller_model.specs.Shutting.{StaysIn};
ghost use Rattle.controller_model.specs.Side.{facts_after, facts_of, notes_after, notes_of};
ghost use Rattle.controller_model.specs.Since.{AreOfShutLink, ReportsInAll, data_up, data_waiting};
ghost use Rattle.controller_model.specs.Since.{empties_of, notes_opened_on, notes_under, was_opened};
ghost use Rattle.controller_model.specs.Since.{is_data_note, is_sent_on, is_took_on, since_opened};
ghost use Rattle.controller_model.specs.Step.{Step};

/// The packets of its host that wait on all links are never more than the buffers that a controller
/// tells its host, and the pieces of data that its host has not received are never more than those
/// that it has for them (Core 5.2, volume 4 part E, section 4.1).
pub fn no_more_than_its_buffers()
    ensures host { (setup : Setup) (past : List Step)
        → buffers_taken (facts_of setup past).links ≤ setup.host_buffers }
    ensures air { (setup : Setup) (past : List Step)
        → length (facts_of setup past).received ≤ setup.air_buffers }
{}

/// Between turns no complete packet waits to be reported, and no piece of data waits for a host whose
/// flow control is off.
pub fn nothing_waits_between_turns()
    ensures received { (setup : Setup) (past : List Step) → setup.links ≤ MOST_LINKS
        → is_between_turns past ≡ true → (facts_of setup past).view.flow.on ≡ false
        → (facts_of setup past).received ≡ [] }
    ensures complete { (setup : Setup) (past : List Step) (handle : ℕ) (link : OpenLink)
        → is_between_turns past ≡ true → link_at handle (facts_of setup past).links ≡ Some link
        → complete_in link ≡ 0 }
{}

/// A host takes packets of data of the least length at least (Core 5.2, volume 4 part E, section
/// 7.3.39; that a lesser size is refused is our choice).
pub fn a_host_takes_the_least_payload()
    ensures { (setup : Setup) (past : List Step)
        → 27 ≤ (facts_of setup past).view.flow.acl_length }
{}

/// As a turn ends the host receives pieces of data, in order, until none waits or, with its flow
/// control on, until it holds as many packets of all links as it has buffers. What it does not
/// receive waits, in order (Core 5.2, volume 4 part E, section 4.2).
pub fn the_host_receives_what_it_can_take()
    ensures in_order { (facts : Facts)
        → pieces_handed facts ++ (facts_handed facts).received ≡ facts.received }
    ensures all_or_full { (facts : Facts) → outstanding facts.view.links ≤ facts.view.flow.acl_count
        → ((facts_handed facts).received ≡ []) ⊎ ((facts.view.flow.on ≡ true)
        × (outstanding facts.view.links + length (pieces_handed facts)
        ≡ facts.view.flow.acl_count)) }
    ensures no_more { (facts : Facts) → facts.view.flow.on ≡ true
        → outstanding facts.view.links ≤ facts.view.flow.acl_count
        → outstanding facts.view.links + length (pieces_handed facts) ≤ facts.view.flow.acl_count }
    ensures at_any_time { (setup : Setup) (past : List Step)
        → outstanding (facts_of setup past).view.links
        ≤ (facts_of setup past).view.flow.acl_count }
{}

/// Since the link under a handle was opened, the notes of what was sent on it are those of the PDUs
/// that its end sent and that are not empty, each once and in order, with the numbers 1, 2 and so
/// on; and the notes of what was taken are those of the PDUs that its end accepted.
pub fn a_link_notes_its_pdus()
    ensures sent { (setup : Setup) (past : List Step) (handle : ℕ) (link : OpenLink)
        → link_at handle (facts_of setup past).links ≡ Some link
        → filter (is_sent_on handle) (since_opened handle (notes_of setup past))
        ≡ numbered_notes (sent_note handle) 1
        (nonempty is_empty (facts_in link).acknowledgement.sent) }
    ensures took { (setup : Setup) (past : List Step) (handle : ℕ) (link : OpenLink)
        → link_at handle (facts_of setup past).links ≡ Some link
        → filter (is_took_on handle) (since_opened handle (notes_of setup past))
        ≡ numbered_notes (took_note handle) 1
        (nonempty is_empty (facts_in link).acknowledgement.accepted) }
{}

/// The notes under a handle, from the last one on that says that a link was opened under it, are
/// that one and what the end of the link notes over all that happened to it, in order: its events,
/// its indications and its PDUs. Where the link is shut, that it is comes last.
pub fn a_link_notes_what_its_end_notes()
    ensures open_link { (setup : Setup) (past : List Step) (handle : ℕ) (link : OpenLink)
        → link_at handle (facts_of setup past).links ≡ Some link
        → notes_under handle (notes_of setup past) ≡ notes_opened_on link.setup link.past }
    ensures shut_link { (setup : Setup) (past : List Step) (handle : ℕ)
        → link_at handle (facts_of setup past).links ≡ None
        → was_opened handle (notes_of setup past) ≡ true
        → AreOfShutLink handle (notes_under handle (notes_of setup past)) }
{}

/// The data that the host received in ACL packets of a handle since its link was opened, and then
/// that of the pieces that wait for the host, is the data of the PDUs that the end of the link
/// accepted, in order. Between turns nothing waits for a host whose flow control is off, so that it
/// has all of it. A handle in ACL data has 12 bits (Core 5.2, volume 4 part E, section 5.4.2).
pub fn data_is_handed_up_in_order()
    ensures at_any_time { (setup : Setup) (past : List Step) (handle : ℕ) (link : OpenLink)
        → setup.links ≤ 4096 → link_at handle (facts_of setup past).links ≡ Some link
        → flat_map (data_up handle) (since_opened handle (notes_of setup past))
        ++ data_waiting handle (facts_of setup past).received
        ≡ data_of (facts_in link).acknowledgement.accepted }
    ensures between_turns { (setup : Setup) (past : List Step) (handle : ℕ) (link : OpenLink)
        → setup.links ≤ MOST_LINKS → is_between_turns past ≡ true
        → (facts_of setup past).view.flow.on ≡ false
        → link_at handle (facts_of setup past).links ≡ Some link
        → flat_map (data_up handle) (since_opened handle (notes_of setup past))
        ≡ data_of (facts_in link).acknowledgement.accepted }
{}

/// The counts in the Number Of Completed Packets events of a handle since its link was opened add
/// up to the packets that were reported of it and the packets of no octet that its host gave it.
/// Each of these events is for this handle alone (Core 5.2, volume 4 part E, section 7.7.19).
pub fn complete_packets_are_reported()
    ensures { (setup : Setup) (past : List Step) (handle : ℕ) (link : OpenLink)
        → setup.links ≤ 4096 → link_at handle (facts_of setup past).links ≡ Some link
        → ReportsInAll handle (since_opened handle (notes_of setup past))
        ((facts_in link).outgoing.reported + empties_of setup handle past) }
{}

/// What was sent or taken on a link is noted only where the link under that handle is open before
/// the step and after it, and so are its data and its complete packets given to the host. As a turn
/// ends the host is given these first, and then links end: so after such a step the link is open
/// where it is not to end then.
pub fn only_open_links_have_notes()
    ensures before { (setup : Setup) (past : List Step) (step : Step) (note : Note) (handle : ℕ)
        → setup.links ≤ 4096 → Contains (notes_after setup (facts_of setup past) step) note
        → is_data_note handle note ≡ true → IsSome (link_at handle (facts_of setup past).links) }
    ensures after { (setup : Setup) (past : List Step) (step : Step) (note : Note) (handle : ℕ)
        → setup.links ≤ 4096 → Contains (notes_after setup (facts_of setup past) step) note
        → is_data_note handle note ≡ true → StaysIn (facts_of setup past) step handle
        → IsSome (link_at handle (facts_after setup (facts_of setup past) step).links) }
{}
