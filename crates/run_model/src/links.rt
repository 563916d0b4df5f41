//! What the ends of links come from, and the calls that notes come from. The bodies only call the
//! laws that they rest on: the contracts are the laws.
ghost use Rattle.std.specs.Prelude.{◌≡◌, ℕ, true, false, List, ◌∷◌, ◌++◌, Some, length};
ghost use Rattle.ble_base.specs.declared.notes.Note.{Note};
ghost use Rattle.ble_base.specs.declared.roles.Side.{Side};
ghost use Rattle.journal.specs.declared.entries.Entry.{Entry};
ghost use Rattle.controller_model.specs.open_links.OpenLinks.{OpenLink, link_at};
ghost use Rattle.radio_replay.specs.Script.{Script};
ghost use Rattle.run_model.specs.Feeding.{AreDistinct, is_note};
ghost use Rattle.run_model.specs.History.{Event, Noted};
ghost use Rattle.run_model.specs.Journal.{journal_of};
ghost use Rattle.run_model.specs.LinkEnds.{HasConnectInd, HaveAddresses};
ghost use Rattle.run_model.specs.NotedCalls.{IsNotedInCall};
ghost use Rattle.run_model.specs.NoteLines.{IsLineInCall, IsNoteLine, LinkLine};
ghost use Rattle.run_model.specs.NoteLines.{is_note_line, link_line};
ghost use Rattle.run_model.specs.Numbers.{AreNumbered};
ghost use Rattle.run_model.specs.Pair.{given_of};
ghost use Rattle.run_model.specs.Readers.{station_of};
ghost use Rattle.run_model.specs.Run.{Given, facts_at, history_of, run_of};

/// Each end of a link that is open at a station comes from a CONNECT_IND that was on the air in the
/// turn in which it was opened, on an advertising channel, with just the fields that the end was
/// set up with. A central sent it, from its own address to that of its peer; a peripheral received
/// it from another station, from the address of its peer to its own. This is so at any time of a
/// run, where each public address has six octets.
pub fn each_link_has_its_connect_ind()
    ensures each { (given : Given) (before rest : List Event) (station handle : ℕ) (link : OpenLink)
        → AreDistinct given.stations → HaveAddresses given
        → history_of (run_of given) ≡ before ++ rest
        → link_at handle (facts_at given station before).links ≡ Some link
        → HasConnectInd before station link.setup }
    ensures pair { (a b : List ℕ) (script : Script) (before rest : List Event) (side : Side)
        (handle : ℕ) (link : OpenLink)
        → length script.a.public ≡ 6 → length script.b.public ≡ 6
        → history_of (run_of (given_of a b script)) ≡ before ++ rest
        → link_at handle (facts_at (given_of a b script) (station_of side) before).links ≡ Some link
        → HasConnectInd before (station_of side) link.setup }
{
    controller_model::a_pdu_is_understood();
    advertise::laws::connections_are_taken();
}

/// Each open link has, under its handle, the number of the CONNECT_IND that it comes from: the n-th
/// CONNECT_IND on the air begins link n. This is so before each event that is no note, and at the
/// end of a run or at its stop, where each public address has six octets.
pub fn each_open_link_has_its_number()
    ensures place { (given : Given) (before rest : List Event) (event : Event)
        → AreDistinct given.stations → HaveAddresses given
        → history_of (run_of given) ≡ before ++ event ∷ rest → is_note event ≡ false
        → AreNumbered given before }
    ensures last { (given : Given) → AreDistinct given.stations → HaveAddresses given
        → AreNumbered given (history_of (run_of given)) }
{
    controller_model::a_pdu_is_understood();
    advertise::laws::connections_are_taken();
}

/// Each note in a run is one of those that a call on its controller gives: it comes after that
/// call and the notes that the call gives before it.
pub fn each_note_is_of_a_call()
    ensures { (given : Given) (before rest : List Event) (station : ℕ) (note : Note)
        → history_of (run_of given) ≡ before ++ Noted station note ∷ rest
        → IsNotedInCall given before station note }
{}

/// Each line of a note is that of a note which a call on its controller gives. A line of a link,
/// but for that of a link that is opened, names the link that the station has under the handle of
/// the note, and says what the note says.
pub fn each_line_of_a_note_is_of_a_call()
    ensures note { (given : Given) (front rest : List Entry) (entry : Entry)
        → journal_of (history_of (run_of given)) ≡ front ++ entry ∷ rest
        → is_note_line entry ≡ true → IsNoteLine given front entry }
    ensures link { (given : Given) (front rest : List Entry) (entry : Entry) (line : LinkLine)
        → journal_of (history_of (run_of given)) ≡ front ++ entry ∷ rest
        → link_line entry ≡ Some line → IsLineInCall given front line }
{}
