//! Worked examples, which the definitions compute.
ghost use Rattle.std.specs.Prelude.{◌≡◌, ◌++◌, None, Some, [], ◌∷◌, false, true};
ghost use Rattle.std.specs.Option.{option_map};
ghost use Rattle.ble_base.specs.declared.roles.Side.TheVariants.{A, B};
ghost use Rattle.ble_base.specs.declared.verdicts.Verdict.TheVariants.{Good, Missed};
ghost use Rattle.adv_pdu.specs.declared.pdu.AdvPdu.TheVariants.{Direct};
ghost use Rattle.journal_data.specs.controller_model.Packets.{pdu_heard};
ghost use Rattle.journal.specs.declared.entries.Entry.TheVariants.{Air, Fed, Up};
ghost use Rattle.journal.specs.declared.entries.Mark.TheVariants.{Lost, Pass as Passed};
ghost use Rattle.journal_hearings.specs.Connects.{connect_numbered};
ghost use Rattle.journal_hearings.specs.Openings.{IsToOpen, WasToOpen, is_linked, is_taken_by};
ghost use Rattle.journal_hearings.specs.Openings.{lets_in, offer_in};
ghost use Rattle.journal_hearings.specs.Requests.{is_awaited};
ghost use Rattle.journal_hearings.specs.Rows.{completing_octets, device_a, device_b};
ghost use Rattle.journal_hearings.specs.Rows.{listing_octets, offered_journal, policy_octets};
ghost use Rattle.journal_hearings.specs.Rows.{refusal};
ghost use Rattle.journal_hearings.specs.Settings.{accept_list, filter_policy};
ghost use Rattle.journal_hearings.specs.Taken.{HasHeardConnect};
ghost use Rattle.journal_data.specs.run_laws.Rows.{one_event_fields};
ghost use Rattle.journal_data.specs.run_model.Rows.{answer, connect_packet, connectable_packet};
ghost use Rattle.journal_data.specs.run_model.Rows.{connecting_octets, one_connection_journal, reset};
ghost use Rattle.journal_data.specs.run_model.Rows.{reset_answer, status_answer, turn_entry};

/// A CONNECT_IND is awaited, and an advertisement is not.
pub fn worked_requests()
    ensures request { option_map is_awaited (pdu_heard 37 connect_packet) ≡ Some true }
    ensures advertisement { option_map is_awaited (pdu_heard 37 connectable_packet) ≡ Some false }
{}

/// A CONNECT_IND is found under the number of its link, with its addresses.
pub fn worked_connects()
    ensures connect { connect_numbered 1 one_connection_journal
        ≡ Some (record { central = B; from = device_b; to = device_a }) }
    ensures lost { connect_numbered 1 (Air B 37 connect_packet Lost Missed ∷ [])
        ≡ Some (record { central = B; from = device_b; to = device_a }) }
    ensures no_link { connect_numbered 2 one_connection_journal ≡ None }
    ensures zero { connect_numbered 0 one_connection_journal ≡ None }
{}

/// A command counts where the status in its answer is 00, and a Reset undoes what was set. Answers
/// come in the order of the commands, Command Status or Command Complete; Host Number Of Completed
/// Packets is left out with the answers to it.
pub fn worked_settings()
    ensures accepted { filter_policy A (Fed A policy_octets ∷ Up A (answer 0x06 0x20) ∷ []) ≡ 2 }
    ensures refused { filter_policy A (Fed A policy_octets ∷ Up A (refusal 0x06 0x20) ∷ []) ≡ 0 }
    ensures other { filter_policy B (Fed A policy_octets ∷ Up A (answer 0x06 0x20) ∷ []) ≡ 0 }
    ensures undone { filter_policy A (Fed A (policy_octets ++ reset) ∷ Up A (answer 0x06 0x20)
        ∷ Up A reset_answer ∷ []) ≡ 0 }
    ensures in_order { filter_policy A (Fed A (connecting_octets ++ policy_octets)
        ∷ Up A status_answer ∷ Up A (answer 0x06 0x20) ∷ []) ≡ 2 }
    ensures left_out { filter_policy A (Fed A (completing_octets ++ policy_octets)
        ∷ Up A (answer 0x06 0x20) ∷ []) ≡ 2 }
    ensures left_out_too { filter_policy A (Fed A (completing_octets ++ policy_octets)
        ∷ Up A (refusal 0x35 0x0C) ∷ Up A (answer 0x06 0x20) ∷ []) ≡ 2 }
    ensures listed { accept_list A (Fed A (listing_octets ++ policy_octets)
        ∷ Up A (answer 0x11 0x20) ∷ Up A (refusal 0x06 0x20) ∷ []) ≡ device_b ∷ [] }
    ensures not_listed { accept_list A (Fed A (listing_octets ++ policy_octets)
        ∷ Up A (refusal 0x11 0x20) ∷ Up A (answer 0x06 0x20) ∷ []) ≡ [] }
{}

/// The last ADV_IND of a side in a turn lets a device in by the filter policy and the accept list,
/// and an ADV_DIRECT_IND its target alone.
pub fn worked_offers()
    ensures anyone { lets_in (offer_in A offered_journal) (filter_policy A offered_journal)
        (accept_list A offered_journal) device_b device_a ≡ true }
    ensures other_address { lets_in (offer_in A offered_journal) 0 [] device_b device_b ≡ false }
    ensures not_listed { lets_in (offer_in A offered_journal) 2 [] device_b device_a ≡ false }
    ensures listed { lets_in (offer_in A offered_journal) 2 (device_b ∷ []) device_b device_a
        ≡ true }
    ensures target { lets_in (Some (Direct device_a device_b true)) 2 [] device_b device_a ≡ true }
    ensures other_target { lets_in (Some (Direct device_a device_a true)) 0 [] device_b device_a
        ≡ false }
    ensures other_side { offer_in B offered_journal ≡ None }
    ensures next_turn { offer_in A (offered_journal ++ turn_entry 1 ∷ []) ≡ None }
{}

/// A link is to be opened where its CONNECT_IND answers an advertisement and passes the policy, and
/// was to be opened where a good one came so. A side that took a link has one between its own
/// address and that of its peer.
pub fn worked_openings()
    ensures to_open { IsToOpen A offered_journal device_b device_a one_event_fields }
    ensures was_to_open { WasToOpen A 1
        (offered_journal ++ Air B 37 connect_packet Passed Good ∷ []) }
    ensures taken { is_taken_by A 1 one_connection_journal ≡ true }
    ensures central { is_taken_by B 1 one_connection_journal ≡ false }
    ensures no_link { is_taken_by A 2 one_connection_journal ≡ false }
    ensures linked { is_linked A device_a device_b one_connection_journal ≡ true }
    ensures peer { is_linked B device_b device_a one_connection_journal ≡ true }
    ensures crossed { is_linked A device_b device_a one_connection_journal ≡ false }
    ensures not_yet { is_linked A device_a device_b offered_journal ≡ false }
{}

/// No link is opened where no CONNECT_IND was heard, where it was lost, in a later turn, or by the
/// side that sent it.
pub fn worked_refusals()
    ensures unheard { HasHeardConnect A 1 offered_journal → ⊥ }
    ensures lost { HasHeardConnect A 1
        (offered_journal ++ Air B 37 connect_packet Lost Missed ∷ []) → ⊥ }
    ensures other_turn { HasHeardConnect A 1
        (offered_journal ++ Air B 37 connect_packet Passed Good ∷ turn_entry 1 ∷ []) → ⊥ }
    ensures other_side { HasHeardConnect A 1
        (offered_journal ++ Air A 37 connect_packet Passed Good ∷ []) → ⊥ }
{}
