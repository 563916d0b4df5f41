//! Worked examples and wrong ones, which the definitions compute.
ghost use Rattle.std.specs.Prelude.{◌≡◌, ◌++◌, ◌∷◌, [], None, Some, false, replicate, true};
ghost use Rattle.ble_base.specs.declared.procedure_kinds.Kind.TheVariants.{Version};
ghost use Rattle.ble_base.specs.declared.roles.Role.TheVariants.{Central};
ghost use Rattle.ble_base.specs.declared.roles.Side.TheVariants.{A, B};
ghost use Rattle.ble_base.specs.declared.verdicts.Verdict.TheVariants.{Good, Missed};
ghost use Rattle.journal.specs.declared.entries.Entry.TheVariants.{Air, Done, Fed, Opened, Sent};
ghost use Rattle.journal.specs.declared.entries.Entry.TheVariants.{Took};
ghost use Rattle.journal.specs.declared.entries.Mark.TheVariants.{Lost as WasLost, Pass};
ghost use Rattle.journal_leaving.specs.journal_data.Lines.{lines_of};
ghost use Rattle.journal_leaving.specs.journal_acks.Rows.{data_heard, data_packet, data_pdu};
ghost use Rattle.journal_leaving.specs.journal_acks.Rows.{data_sent, data_taken};
ghost use Rattle.journal_leaving.specs.link_model.Acknowledgement.{empty_pdu};
ghost use Rattle.journal_leaving.specs.run_model.Rows.{first_packet, one_event_journal};
ghost use Rattle.journal_fixing.specs.NextPdu.{pdu_next};
ghost use Rattle.journal_fixing.specs.OnLines.{control_fixing};
ghost use Rattle.journal_fixing.specs.Rows.{end_sent, length_taken, link_ended, long_allowed};
ghost use Rattle.journal_fixing.specs.Rows.{own_version, terminate_pdu, version_heard};
ghost use Rattle.journal_fixing.specs.journal_controls.journal_ends.Rows.{some_words};
ghost use Rattle.journal_sending.specs.Announced.{announced_pdu, new_pdu_in};
ghost use Rattle.journal_sending.specs.Outgoing.{octets_wait, piece_after, piece_by_lines};
ghost use Rattle.journal_sending.specs.Pending.{pending_pdu, taken_pdu};
ghost use Rattle.journal_sending.specs.Rows.{data_too, eight_wait, seven_wait, terminate_answered};
ghost use Rattle.journal_sending.specs.Rows.{version_owed};
ghost use Rattle.journal_sending.specs.WhatWaits.{has_payload_next, tells_more};

/// Pieces are cut at the effective length, here 27 octets, and at the end of each packet: of two
/// packets of one octet each the second is a piece of its own. Only the first piece of a packet can
/// start a message.
pub fn worked_pieces()
    ensures first { piece_after 27 (record { start = true; body = replicate 28 0xA1 } ∷ []) 0
        ≡ Some (record { start = true; body = record { items = replicate 27 0xA1 } }) }
    ensures second { piece_after 27 (record { start = true; body = replicate 28 0xA1 } ∷ []) 27
        ≡ Some (record { start = false; body = record { items = 0xA1 ∷ [] } }) }
    ensures last { piece_after 27 (record { start = true; body = replicate 28 0xA1 } ∷ []) 28
        ≡ None }
    ensures longer { piece_after 251 (record { start = true; body = replicate 28 0xA1 } ∷ []) 0
        ≡ Some (record { start = true; body = record { items = replicate 28 0xA1 } }) }
    ensures one_packet { piece_after 27 (record { start = true; body = 0xA1 ∷ [] }
        ∷ record { start = true; body = 0xA2 ∷ [] } ∷ []) 0
        ≡ Some (record { start = true; body = record { items = 0xA1 ∷ [] } }) }
    ensures next_packet { piece_after 27 (record { start = true; body = 0xA1 ∷ [] }
        ∷ record { start = true; body = 0xA2 ∷ [] } ∷ []) 1
        ≡ Some (record { start = true; body = record { items = 0xA2 ∷ [] } }) }
    ensures continuation { piece_after 27 (record { start = false; body = 0xA1 ∷ [] } ∷ []) 0
        ≡ Some (record { start = false; body = record { items = 0xA1 ∷ [] } }) }
{}

/// Data waits until the last piece is sent.
pub fn worked_waiting()
    ensures each { let submitted = Opened A 1 0 Central
        ∷ Fed A (0x02 ∷ 0x00 ∷ 0x00 ∷ 0x1C ∷ 0x00 ∷ replicate 28 0xA1) ∷ [] in
        let first_sent = submitted ++ Sent A 1 1 2 (replicate 27 0xA1) ∷ [] in
        let all_sent = first_sent ++ Sent A 1 2 1 (0xA1 ∷ []) ∷ [] in
        (octets_wait 1 (lines_of 8 A (Opened A 1 0 Central ∷ [])) ≡ false)
        × (octets_wait 1 (lines_of 8 A submitted) ≡ true)
        × (octets_wait 1 (lines_of 8 A first_sent) ≡ true)
        × (octets_wait 1 (lines_of 8 A all_sent) ≡ false) }
{}

/// A peripheral took LL_VERSION_IND in the turn before, and its host gives it data: its own
/// LL_VERSION_IND goes first, and MD is 1 for the data. Without data MD is 0 (Core 5.2, volume 6
/// part B, section 4.5.6).
pub fn worked_control_and_data()
    ensures fixes { control_fixing some_words A 1 data_too ≡ Some version_owed }
    ensures waits { octets_wait 1 (lines_of 8 A data_too) ≡ true }
    ensures control_first { pdu_next version_owed version_owed (piece_by_lines A 1 data_too 27)
        ≡ own_version }
    ensures more { tells_more true version_owed own_version
        (octets_wait 1 (lines_of 8 A data_too)) ≡ true }
    ensures not_last { tells_more true version_owed own_version
        (octets_wait 1 (lines_of 8 A data_too)) ≡ false → ⊥ }
    ensures alone { tells_more true version_owed own_version
        (octets_wait 1 (lines_of 8 A version_heard)) ≡ false }
{}

/// MD of an answer does not count LL_LENGTH_RSP, which the packet that is answered has queued: the
/// answer was fixed before. Nor does it where an older PDU is sent again; in the next turn it counts
/// it. Once the host has ended the link, no data goes and none is told of with a new PDU, though
/// octets wait. With LL_TERMINATE_IND that is sent again MD is 1 for them (our choice).
pub fn worked_counting()
    ensures not_counted { tells_more true long_allowed empty_pdu false ≡ false }
    ensures wrongly { tells_more true long_allowed empty_pdu false ≡ true → ⊥ }
    ensures not_again { tells_more false long_allowed empty_pdu false ≡ false }
    ensures wrongly_again { tells_more false long_allowed empty_pdu false ≡ true → ⊥ }
    ensures counted { tells_more false length_taken empty_pdu false ≡ true }
    ensures ends { has_payload_next link_ended true ≡ true }
    ensures ended { has_payload_next end_sent true ≡ false }
    ensures no_data { pdu_next end_sent end_sent (Some (record {
      start = true;
      body = record { items = 0xAA ∷ [] };
    })) ≡ empty_pdu }
    ensures none_told { tells_more true end_sent empty_pdu true ≡ false }
    ensures again { tells_more false end_sent terminate_pdu true ≡ true }
    ensures not_untold { tells_more false end_sent terminate_pdu true ≡ false → ⊥ }
{}

/// The central sends a PDU of data. The packet after its line brings it; sent again, the packet
/// brings nothing new, and neither does that of an empty PDU.
pub fn worked_new_pdu()
    ensures announced { announced_pdu B data_sent
        ≡ Some (record { link = 1; number = 1; pdu = data_pdu }) }
    ensures brought { new_pdu_in data_sent B (Air B 25 data_packet Pass Good)
        ≡ Some (record { link = 1; number = 1; pdu = data_pdu }) }
    ensures announced_no_more { announced_pdu B data_heard ≡ None }
    ensures again { new_pdu_in data_heard B (Air B 25 data_packet Pass Good) ≡ None }
    ensures empty { new_pdu_in one_event_journal B (Air B 25 first_packet Pass Good) ≡ None }
    ensures other_side { announced_pdu A data_sent ≡ None }
{}

/// The peripheral takes the PDU as the packet reaches it, and not again as it comes again. The line
/// of a procedure that is done on this link may come before, and no line of another link. A central
/// whose LL_TERMINATE_IND the packet acknowledges does not take its PDU (Core 5.2, volume 6 part B,
/// section 5.1.6).
pub fn worked_taking()
    ensures heard { pending_pdu some_words A data_heard
        ≡ Some (record { link = 1; number = 1; pdu = data_pdu }) }
    ensures taken { taken_pdu (Took A 1 1 data_pdu.llid data_pdu.body)
        ≡ pending_pdu some_words A data_heard }
    ensures done { pending_pdu some_words A (data_heard ++ Done A 1 Version ∷ [])
        ≡ pending_pdu some_words A data_heard }
    ensures other_link { pending_pdu some_words A (data_heard ++ Done A 2 Version ∷ []) ≡ None }
    ensures taken_no_more { pending_pdu some_words A data_taken ≡ None }
    ensures lost { pending_pdu some_words A (data_sent ++ Air B 25 data_packet WasLost Missed ∷ [])
        ≡ None }
    ensures again { pending_pdu some_words A (data_taken ++ Air B 25 data_packet Pass Good ∷ [])
        ≡ None }
    ensures empty { pending_pdu some_words A (one_event_journal ++ Air B 25 first_packet Pass Good ∷ []) ≡ None }
    ensures sender { pending_pdu some_words B data_heard ≡ None }
    ensures left { pending_pdu some_words B terminate_answered ≡ None }
{}

/// A PDU of data is taken where seven wait for the host, also on other links, and is not where eight
/// do (Core 5.2, volume 6 part B, section 4.5.9; the number is our choice).
pub fn worked_room()
    ensures room { pending_pdu some_words A (seven_wait ++ Air B 25 data_packet Pass Good ∷ [])
        ≡ Some (record { link = 1; number = 1; pdu = data_pdu }) }
    ensures full { pending_pdu some_words A (eight_wait ++ Air B 25 data_packet Pass Good ∷ []) ≡ None }
{}
