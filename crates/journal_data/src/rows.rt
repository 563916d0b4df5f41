//! Worked examples, which the definitions compute.
#![tactic(auto, unfolding(crate::specs::Lines::lines_of, h4_frames::specs::Frames::frames))]

ghost use Rattle.std.specs.Prelude.{◌≡◌, ◌++◌, [], ◌∷◌, None, Some, true, false, replicate};
ghost use Rattle.ble_base.specs.declared.roles.Role.TheVariants.{Central, Peripheral};
ghost use Rattle.ble_base.specs.declared.roles.Side.TheVariants.{A, B};
ghost use Rattle.journal.specs.declared.entries.Entry.TheVariants.{Fed, Up, Opened, Shut};
ghost use Rattle.journal.specs.declared.entries.Entry.TheVariants.{Sent, Took};
ghost use Rattle.journal_data.specs.Held.{is_open_link, links_open};
ghost use Rattle.journal_data.specs.HostLines.{link_under};
ghost use Rattle.journal_data.specs.Lines.{accepted_on, credited_on, data_on, empties_on};
ghost use Rattle.journal_data.specs.Lines.{lines_of, pdus_on, received_on, submitted_on};

/// A packet of 28 octets goes to the other side in two PDUs: 27 octets that start a message, LLID
/// 2, and one that continues it, LLID 1. The other host receives an ACL packet of each, the first
/// with the packet boundary flag 10, the second with 01. One Number Of Completed Packets event
/// comes back.
pub fn worked_delivery()
    ensures both_sides { let first = 0xA0 ∷ replicate 26 0xA1 in
        let journal = Opened A 1 0 Central ∷ Opened B 1 0 Peripheral
        ∷ Fed A (0x02 ∷ 0x00 ∷ 0x00 ∷ 0x1C ∷ 0x00 ∷ first ++ 0xA2 ∷ [])
        ∷ Sent A 1 1 2 first ∷ Took B 1 1 2 first
        ∷ Up B (0x02 ∷ 0x00 ∷ 0x20 ∷ 0x1B ∷ 0x00 ∷ first)
        ∷ Sent A 1 2 1 (0xA2 ∷ []) ∷ Took B 1 2 1 (0xA2 ∷ [])
        ∷ Up A (0x04 ∷ 0x13 ∷ 0x05 ∷ 0x01 ∷ 0x00 ∷ 0x00 ∷ 0x01 ∷ 0x00 ∷ [])
        ∷ Up B (0x02 ∷ 0x00 ∷ 0x10 ∷ 0x01 ∷ 0x00 ∷ 0xA2 ∷ []) ∷ [] in
        let a = lines_of 8 A journal in
        let b = lines_of 8 B journal in
        (data_on 1 a ≡ record { start = true; body = first ++ 0xA2 ∷ [] } ∷ [])
        × (empties_on 1 a ≡ 0)
        × (pdus_on 1 a.sent
        ≡ record { link = 1; number = 1; pdu = record { llid = 2; body = first } }
        ∷ record { link = 1; number = 2; pdu = record { llid = 1; body = 0xA2 ∷ [] } } ∷ [])
        × (pdus_on 1 b.taken ≡ pdus_on 1 a.sent)
        × (accepted_on 1 b
        ≡ (true, 0xA0) ∷ replicate 26 (false, 0xA1) ++ (false, 0xA2) ∷ [])
        × (received_on 1 b ≡ accepted_on 1 b)
        × (credited_on 1 a ≡ 1)
        × (data_on 1 b ≡ []) × (pdus_on 1 b.sent ≡ []) × (credited_on 1 b ≡ 0)
        × (pdus_on 1 a.taken ≡ []) × (received_on 1 a ≡ []) }
{}

/// What a host submits: a start or a continuation, by the packet boundary flag; a packet whose
/// octets come in two lines, once; one for the link under its handle, and not for another. A packet
/// of no octet is counted apart from data. What the other host is fed is not of this side.
pub fn worked_submitted()
    ensures start { data_on 1 (lines_of 8 A (Opened A 1 0 Central
        ∷ Fed A (0x02 ∷ 0x00 ∷ 0x00 ∷ 0x02 ∷ 0x00 ∷ 0xA1 ∷ 0xA2 ∷ []) ∷ []))
        ≡ record { start = true; body = 0xA1 ∷ 0xA2 ∷ [] } ∷ [] }
    ensures continuation { data_on 1 (lines_of 8 A (Opened A 1 0 Central
        ∷ Fed A (0x02 ∷ 0x00 ∷ 0x10 ∷ 0x01 ∷ 0x00 ∷ 0xA1 ∷ []) ∷ []))
        ≡ record { start = false; body = 0xA1 ∷ [] } ∷ [] }
    ensures in_two_lines { data_on 1 (lines_of 8 A (Opened A 1 0 Central
        ∷ Fed A (0x02 ∷ 0x00 ∷ 0x00 ∷ 0x02 ∷ []) ∷ Fed A (0x00 ∷ 0xA1 ∷ 0xA2 ∷ []) ∷ []))
        ≡ record { start = true; body = 0xA1 ∷ 0xA2 ∷ [] } ∷ [] }
    ensures first_line_alone { data_on 1 (lines_of 8 A (Opened A 1 0 Central
        ∷ Fed A (0x02 ∷ 0x00 ∷ 0x00 ∷ 0x02 ∷ []) ∷ [])) ≡ [] }
    ensures second_link { data_on 2 (lines_of 8 A (Opened A 1 0 Central ∷ Opened A 2 1 Central
        ∷ Fed A (0x02 ∷ 0x01 ∷ 0x00 ∷ 0x01 ∷ 0x00 ∷ 0xA1 ∷ []) ∷ []))
        ≡ record { start = true; body = 0xA1 ∷ [] } ∷ [] }
    ensures first_link { data_on 1 (lines_of 8 A (Opened A 1 0 Central ∷ Opened A 2 1 Central
        ∷ Fed A (0x02 ∷ 0x01 ∷ 0x00 ∷ 0x01 ∷ 0x00 ∷ 0xA1 ∷ []) ∷ [])) ≡ [] }
    ensures empty { empties_on 1 (lines_of 8 A (Opened A 1 0 Central
        ∷ Fed A (0x02 ∷ 0x00 ∷ 0x00 ∷ 0x00 ∷ 0x00 ∷ []) ∷ [])) ≡ 1 }
    ensures no_data { data_on 1 (lines_of 8 A (Opened A 1 0 Central
        ∷ Fed A (0x02 ∷ 0x00 ∷ 0x00 ∷ 0x00 ∷ 0x00 ∷ []) ∷ [])) ≡ [] }
    ensures other_side { submitted_on 1 (lines_of 8 B (Opened A 1 0 Central
        ∷ Opened B 1 0 Peripheral
        ∷ Fed A (0x02 ∷ 0x00 ∷ 0x00 ∷ 0x01 ∷ 0x00 ∷ 0xA1 ∷ []) ∷ [])) ≡ [] }
{}

/// What is dropped: a packet for a handle without a link, and one of 252 octets, while one of 251
/// is kept. After an HCI_Reset nothing more of its line is kept; a command of that opcode with a
/// parameter is no HCI_Reset.
pub fn worked_dropped()
    ensures no_link { (lines_of 8 A (Opened A 1 0 Central
        ∷ Fed A (0x02 ∷ 0x01 ∷ 0x00 ∷ 0x01 ∷ 0x00 ∷ 0xA1 ∷ []) ∷ [])).submitted ≡ [] }
    ensures too_long { submitted_on 1 (lines_of 8 A (Opened A 1 0 Central
        ∷ Fed A (0x02 ∷ 0x00 ∷ 0x00 ∷ 0xFC ∷ 0x00 ∷ replicate 252 0xA1) ∷ [])) ≡ [] }
    ensures longest { submitted_on 1 (lines_of 8 A (Opened A 1 0 Central
        ∷ Fed A (0x02 ∷ 0x00 ∷ 0x00 ∷ 0xFB ∷ 0x00 ∷ replicate 251 0xA1) ∷ []))
        ≡ record { start = true; body = replicate 251 0xA1 } ∷ [] }
    ensures after_reset { submitted_on 1 (lines_of 8 A (Opened A 1 0 Central
        ∷ Fed A (0x02 ∷ 0x00 ∷ 0x00 ∷ 0x01 ∷ 0x00 ∷ 0xA1 ∷ 0x01 ∷ 0x03 ∷ 0x0C ∷ 0x00
        ∷ 0x02 ∷ 0x00 ∷ 0x00 ∷ 0x01 ∷ 0x00 ∷ 0xA2 ∷ []) ∷ []))
        ≡ record { start = true; body = 0xA1 ∷ [] } ∷ [] }
    ensures no_reset { submitted_on 1 (lines_of 8 A (Opened A 1 0 Central
        ∷ Fed A (0x01 ∷ 0x03 ∷ 0x0C ∷ 0x01 ∷ 0x00
        ∷ 0x02 ∷ 0x00 ∷ 0x00 ∷ 0x01 ∷ 0x00 ∷ 0xA2 ∷ []) ∷ []))
        ≡ record { start = true; body = 0xA2 ∷ [] } ∷ [] }
{}

/// One buffer: while a packet has it, a second packet is dropped, in the same line or in a later
/// one. It is free again after the credit, and as the link ends. A packet of no octet takes none.
pub fn worked_buffers()
    ensures same_line { data_on 1 (lines_of 1 A (Opened A 1 0 Central
        ∷ Fed A (0x02 ∷ 0x00 ∷ 0x00 ∷ 0x01 ∷ 0x00 ∷ 0xA1
        ∷ 0x02 ∷ 0x00 ∷ 0x00 ∷ 0x01 ∷ 0x00 ∷ 0xA2 ∷ []) ∷ []))
        ≡ record { start = true; body = 0xA1 ∷ [] } ∷ [] }
    ensures two_buffers { data_on 1 (lines_of 2 A (Opened A 1 0 Central
        ∷ Fed A (0x02 ∷ 0x00 ∷ 0x00 ∷ 0x01 ∷ 0x00 ∷ 0xA1
        ∷ 0x02 ∷ 0x00 ∷ 0x00 ∷ 0x01 ∷ 0x00 ∷ 0xA2 ∷ []) ∷ []))
        ≡ record { start = true; body = 0xA1 ∷ [] }
        ∷ record { start = true; body = 0xA2 ∷ [] } ∷ [] }
    ensures later_line { data_on 1 (lines_of 1 A (Opened A 1 0 Central
        ∷ Fed A (0x02 ∷ 0x00 ∷ 0x00 ∷ 0x01 ∷ 0x00 ∷ 0xA1 ∷ [])
        ∷ Fed A (0x02 ∷ 0x00 ∷ 0x00 ∷ 0x01 ∷ 0x00 ∷ 0xA2 ∷ []) ∷ []))
        ≡ record { start = true; body = 0xA1 ∷ [] } ∷ [] }
    ensures credited { data_on 1 (lines_of 1 A (Opened A 1 0 Central
        ∷ Fed A (0x02 ∷ 0x00 ∷ 0x00 ∷ 0x01 ∷ 0x00 ∷ 0xA1 ∷ [])
        ∷ Up A (0x04 ∷ 0x13 ∷ 0x05 ∷ 0x01 ∷ 0x00 ∷ 0x00 ∷ 0x01 ∷ 0x00 ∷ [])
        ∷ Fed A (0x02 ∷ 0x00 ∷ 0x00 ∷ 0x01 ∷ 0x00 ∷ 0xA2 ∷ []) ∷ []))
        ≡ record { start = true; body = 0xA1 ∷ [] }
        ∷ record { start = true; body = 0xA2 ∷ [] } ∷ [] }
    ensures other_link { data_on 2 (lines_of 1 A (Opened A 1 0 Central ∷ Opened A 2 1 Central
        ∷ Fed A (0x02 ∷ 0x00 ∷ 0x00 ∷ 0x01 ∷ 0x00 ∷ 0xA1 ∷ [])
        ∷ Fed A (0x02 ∷ 0x01 ∷ 0x00 ∷ 0x01 ∷ 0x00 ∷ 0xA2 ∷ []) ∷ [])) ≡ [] }
    ensures link_ended { data_on 2 (lines_of 1 A (Opened A 1 0 Central ∷ Opened A 2 1 Central
        ∷ Fed A (0x02 ∷ 0x00 ∷ 0x00 ∷ 0x01 ∷ 0x00 ∷ 0xA1 ∷ [])
        ∷ Shut A 1 (record { 0 = 0x08 })
        ∷ Fed A (0x02 ∷ 0x01 ∷ 0x00 ∷ 0x01 ∷ 0x00 ∷ 0xA2 ∷ []) ∷ []))
        ≡ record { start = true; body = 0xA2 ∷ [] } ∷ [] }
    ensures empty_first { data_on 1 (lines_of 1 A (Opened A 1 0 Central
        ∷ Fed A (0x02 ∷ 0x00 ∷ 0x00 ∷ 0x00 ∷ 0x00
        ∷ 0x02 ∷ 0x00 ∷ 0x00 ∷ 0x01 ∷ 0x00 ∷ 0xA1 ∷ []) ∷ []))
        ≡ record { start = true; body = 0xA1 ∷ [] } ∷ [] }
    ensures empty_last { empties_on 1 (lines_of 1 A (Opened A 1 0 Central
        ∷ Fed A (0x02 ∷ 0x00 ∷ 0x00 ∷ 0x01 ∷ 0x00 ∷ 0xA1
        ∷ 0x02 ∷ 0x00 ∷ 0x00 ∷ 0x00 ∷ 0x00 ∷ []) ∷ [])) ≡ 1 }
{}

/// What a side takes, hands up and is credited: control PDUs are taken and are no data; the packet
/// boundary flag 10 marks the first octet of a message; the counts of several events are added; and
/// a packet or event for a handle without a link is of none.
pub fn worked_received()
    ensures control_taken { pdus_on 1 (lines_of 8 B (Opened B 1 0 Peripheral
        ∷ Took B 1 1 3 (0x02 ∷ 0x13 ∷ []) ∷ [])).taken
        ≡ record { link = 1; number = 1; pdu = record { llid = 3; body = 0x02 ∷ 0x13 ∷ [] } }
        ∷ [] }
    ensures control_accepted { accepted_on 1 (lines_of 8 B (Opened B 1 0 Peripheral
        ∷ Took B 1 1 3 (0x02 ∷ 0x13 ∷ []) ∷ Took B 1 2 2 (0xA1 ∷ 0xA2 ∷ []) ∷ []))
        ≡ (true, 0xA1) ∷ (false, 0xA2) ∷ [] }
    ensures received { received_on 1 (lines_of 8 B (Opened B 1 0 Peripheral
        ∷ Up B (0x02 ∷ 0x00 ∷ 0x20 ∷ 0x02 ∷ 0x00 ∷ 0xA1 ∷ 0xA2 ∷ [])
        ∷ Up B (0x02 ∷ 0x00 ∷ 0x10 ∷ 0x01 ∷ 0x00 ∷ 0xA3 ∷ []) ∷ []))
        ≡ (true, 0xA1) ∷ (false, 0xA2) ∷ (false, 0xA3) ∷ [] }
    ensures received_of_none { (lines_of 8 B (Opened B 1 0 Peripheral
        ∷ Up B (0x02 ∷ 0x01 ∷ 0x20 ∷ 0x01 ∷ 0x00 ∷ 0xA1 ∷ []) ∷ [])).received ≡ [] }
    ensures credits { credited_on 1 (lines_of 8 A (Opened A 1 0 Central
        ∷ Up A (0x04 ∷ 0x13 ∷ 0x05 ∷ 0x01 ∷ 0x00 ∷ 0x00 ∷ 0x02 ∷ 0x00 ∷ [])
        ∷ Up A (0x04 ∷ 0x13 ∷ 0x05 ∷ 0x01 ∷ 0x00 ∷ 0x00 ∷ 0x01 ∷ 0x00 ∷ []) ∷ [])) ≡ 3 }
    ensures credit_of_none { (lines_of 8 A (Opened A 1 0 Central
        ∷ Up A (0x04 ∷ 0x13 ∷ 0x05 ∷ 0x01 ∷ 0x01 ∷ 0x00 ∷ 0x01 ∷ 0x00 ∷ []) ∷ [])).credited
        ≡ [] }
    ensures other_event { credited_on 1 (lines_of 8 A (Opened A 1 0 Central
        ∷ Up A (0x04 ∷ 0x1A ∷ 0x01 ∷ 0x01 ∷ []) ∷ [])) ≡ 0 }
{}

/// Link 1 ends, and link 2 is opened under its handle. What both hosts then submit and receive,
/// and the credits, are of link 2, and those before are of link 1. Between the two a packet is of
/// none.
pub fn worked_next_link()
    ensures both_links { let journal = Opened A 1 0 Central ∷ Opened B 1 0 Peripheral
        ∷ Fed A (0x02 ∷ 0x00 ∷ 0x00 ∷ 0x01 ∷ 0x00 ∷ 0xA1 ∷ [])
        ∷ Sent A 1 1 2 (0xA1 ∷ []) ∷ Took B 1 1 2 (0xA1 ∷ [])
        ∷ Up A (0x04 ∷ 0x13 ∷ 0x05 ∷ 0x01 ∷ 0x00 ∷ 0x00 ∷ 0x01 ∷ 0x00 ∷ [])
        ∷ Up B (0x02 ∷ 0x00 ∷ 0x20 ∷ 0x01 ∷ 0x00 ∷ 0xA1 ∷ [])
        ∷ Shut A 1 (record { 0 = 0x08 }) ∷ Shut B 1 (record { 0 = 0x08 })
        ∷ Fed A (0x02 ∷ 0x00 ∷ 0x00 ∷ 0x01 ∷ 0x00 ∷ 0xA2 ∷ [])
        ∷ Opened A 2 0 Central ∷ Opened B 2 0 Peripheral
        ∷ Fed A (0x02 ∷ 0x00 ∷ 0x00 ∷ 0x01 ∷ 0x00 ∷ 0xA3 ∷ [])
        ∷ Sent A 2 1 2 (0xA3 ∷ []) ∷ Took B 2 1 2 (0xA3 ∷ [])
        ∷ Up A (0x04 ∷ 0x13 ∷ 0x05 ∷ 0x01 ∷ 0x00 ∷ 0x00 ∷ 0x01 ∷ 0x00 ∷ [])
        ∷ Up B (0x02 ∷ 0x00 ∷ 0x20 ∷ 0x01 ∷ 0x00 ∷ 0xA3 ∷ []) ∷ [] in
        let a = lines_of 8 A journal in
        let b = lines_of 8 B journal in
        (data_on 1 a ≡ record { start = true; body = 0xA1 ∷ [] } ∷ [])
        × (data_on 2 a ≡ record { start = true; body = 0xA3 ∷ [] } ∷ [])
        × (accepted_on 1 b ≡ (true, 0xA1) ∷ []) × (accepted_on 2 b ≡ (true, 0xA3) ∷ [])
        × (received_on 1 b ≡ (true, 0xA1) ∷ []) × (received_on 2 b ≡ (true, 0xA3) ∷ [])
        × (credited_on 1 a ≡ 1) × (credited_on 2 a ≡ 1) }
{}

/// A link is open at a side from its `open` line to its `shut` line, and so has its handle there.
pub fn worked_open_links()
    ensures opened { is_open_link 1 (links_open A (Opened A 1 0 Central ∷ [])) ≡ true }
    ensures other_link { is_open_link 2 (links_open A (Opened A 1 0 Central ∷ [])) ≡ false }
    ensures other_side { is_open_link 1 (links_open B (Opened A 1 0 Central ∷ [])) ≡ false }
    ensures shut { is_open_link 1 (links_open A (Opened A 1 0 Central ∷ Opened A 2 1 Central
        ∷ Shut A 1 (record { 0 = 0x08 }) ∷ [])) ≡ false }
    ensures free { link_under 0 (links_open A (Opened A 1 0 Central ∷ Opened A 2 1 Central
        ∷ Shut A 1 (record { 0 = 0x08 }) ∷ [])) ≡ None }
    ensures second { link_under 1 (links_open A (Opened A 1 0 Central ∷ Opened A 2 1 Central
        ∷ Shut A 1 (record { 0 = 0x08 }) ∷ [])) ≡ Some 2 }
{}
