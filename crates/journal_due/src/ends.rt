//! Laws of the lines that one end of a link says: those of procedures are the ones that are due, in
//! their order, and none is left. The bodies are empty: the contracts are the laws.
ghost use Rattle.std.specs.Prelude.{◌≡◌, ◌++◌, ℕ, Bool, List, Some, false, map};
ghost use Rattle.ble_base.specs.declared.roles.Side.{Side};
ghost use Rattle.data_pdu.specs.Header.{header_in};
ghost use Rattle.journal.specs.declared.entries.Entry.{Entry};
ghost use Rattle.journal_controls.specs.LineSteps.{keyed_on, turn_now};
ghost use Rattle.journal_controls.specs.LinesDue.{due_hearing};
ghost use Rattle.journal_controls.specs.journal_links.LinkLines.{line_of};
ghost use Rattle.journal_controls.specs.link_model.End.{facts_of, notes_after};
ghost use Rattle.journal_controls.specs.link_model.Facts.{Facts, keyed_of};
ghost use Rattle.journal_controls.specs.link_model.Packets.{good_pdu};
ghost use Rattle.journal_controls.specs.link_model.Receiving.{acks_control, facts_before_taking};
ghost use Rattle.journal_controls.specs.link_model.Receiving.{has_acknowledged};
ghost use Rattle.journal_controls.specs.link_model.Setup.{Setup};
ghost use Rattle.journal_controls.specs.link_model.Step.{Step, EventEntered, PacketReceived};
ghost use Rattle.journal_due.specs.EachLine.{AreDueLines, IsDueOn, is_of_procedures};
ghost use Rattle.journal_due.specs.ProcedureLines.{RestsAt};
ghost use Rattle.journal_controls.specs.journal_ends.Asked.{Words};

/// After any journal that has the control part, the phase and the keys of an end, and by which
/// nothing is due to its side, the lines of the end that enters an event are due: that of an indication just before the line of
/// the event, and those of the procedure that is done, and of the one that begins, just after it.
/// Then nothing is due again (Core 5.2, volume 6 part B, sections 4.5.1, 5.1 and 5.5).
pub fn an_end_that_enters_an_event_says_what_is_due()
    ensures each { (words : Words) (side : Side) (number : ℕ) (setup : Setup) (past : List Step)
        (journal : List Entry) → let facts = facts_of setup past in
        keyed_on words side number journal ≡ Some (keyed_of facts) → RestsAt words side journal
        → let notes = notes_after setup facts (EventEntered (turn_now journal)) in
        AreDueLines words side journal (map (line_of side number) notes) }
    ensures left { (words : Words) (side : Side) (number : ℕ) (setup : Setup) (past : List Step)
        (journal : List Entry) → let facts = facts_of setup past in
        keyed_on words side number journal ≡ Some (keyed_of facts) → RestsAt words side journal
        → let notes = notes_after setup facts (EventEntered (turn_now journal)) in
        RestsAt words side (journal ++ map (line_of side number) notes) }
{}

/// After any journal that has the control part, the phase and the keys of an end as it looks at the
/// PDU of a good packet, and by which to its side just the line is due of a procedure that the packet
/// completes by an acknowledgement, the lines of the end that takes the packet are due: that line
/// first; and just after the line of a PDU that is taken those of the procedure that it refuses and
/// of the one that it completes, and those of a PDU that was kept until then. Then nothing is due
/// (Core 5.2, volume 6 part B, sections 4.5.9 and 5.1).
pub fn an_end_that_takes_a_packet_says_what_is_due()
    ensures each { (words : Words) (side : Side) (number : ℕ) (setup : Setup) (past : List Step)
        (octets pdu : List ℕ) (room : Bool) (journal : List Entry)
        → let facts = facts_of setup past in let slot = turn_now journal in
        good_pdu setup facts octets ≡ Some pdu
        → keyed_on words side number journal
        ≡ Some (keyed_of (facts_before_taking setup.link.role slot (header_in pdu) facts))
        → IsDueOn words side number (due_hearing side number
        (acks_control (has_acknowledged facts (header_in pdu)) facts) facts.control) journal
        → let notes = notes_after setup facts (PacketReceived slot octets room) in
        AreDueLines words side journal (map (line_of side number) notes) }
    ensures left { (words : Words) (side : Side) (number : ℕ) (setup : Setup) (past : List Step)
        (octets pdu : List ℕ) (room : Bool) (journal : List Entry)
        → let facts = facts_of setup past in let slot = turn_now journal in
        good_pdu setup facts octets ≡ Some pdu
        → keyed_on words side number journal
        ≡ Some (keyed_of (facts_before_taking setup.link.role slot (header_in pdu) facts))
        → IsDueOn words side number (due_hearing side number
        (acks_control (has_acknowledged facts (header_in pdu)) facts) facts.control) journal
        → let notes = notes_after setup facts (PacketReceived slot octets room) in
        RestsAt words side (journal ++ map (line_of side number) notes) }
{}

/// In any other step an end says no line of a procedure and none of an indication, and nothing is
/// due after it where nothing was due before.
pub fn an_end_says_nothing_of_procedures_in_other_steps()
    ensures each { (words : Words) (side : Side) (number : ℕ) (setup : Setup) (facts : Facts) (step : Step)
        (journal : List Entry) → is_of_procedures step ≡ false → RestsAt words side journal
        → AreDueLines words side journal (map (line_of side number) (notes_after setup facts step)) }
    ensures left { (words : Words) (side : Side) (number : ℕ) (setup : Setup) (facts : Facts) (step : Step)
        (journal : List Entry) → is_of_procedures step ≡ false → RestsAt words side journal
        → RestsAt words side (journal ++ map (line_of side number) (notes_after setup facts step)) }
{}
