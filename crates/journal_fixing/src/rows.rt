//! Worked examples, which the definitions compute.
ghost use Rattle.std.specs.Prelude.{◌≡◌, ◌++◌, ◌∷◌, [], None, Some, false, true};
ghost use Rattle.ble_base.specs.declared.roles.Role.TheVariants.{Central, Peripheral};
ghost use Rattle.ble_base.specs.declared.roles.Side.TheVariants.{A, B};
ghost use Rattle.journal_controls.specs.LineSteps.{keyed_on};
ghost use Rattle.journal_controls.specs.Rows.{begun_on, version_pdu, version_sent};
ghost use Rattle.journal_controls.specs.link_model.Acknowledgement.{empty_pdu};
ghost use Rattle.journal_controls.specs.link_model.Controls.{read_of};
ghost use Rattle.journal_controls.specs.link_model.Data.{next_piece};
ghost use Rattle.journal_controls.specs.link_model.Facts.{no_response};
ghost use Rattle.journal_controls.specs.link_model.keyed_control.KeyedSteps.{Enters, Sends, Takes};
ghost use Rattle.journal_controls.specs.link_model.keyed_control.KeyedSteps.{keyed_after_all};
ghost use Rattle.journal_controls.specs.link_model.phased_end.Taking.{drawn};
ghost use Rattle.journal_controls.specs.run_model.Rows.{turn_entry};
ghost use Rattle.journal_fixing.specs.NextPdu.{data_waits_after, more_with_new, more_with_old};
ghost use Rattle.journal_fixing.specs.NextPdu.{pdu_next, piece_limit};
ghost use Rattle.journal_fixing.specs.OnLines.{control_fixing, control_going};
ghost use Rattle.journal_fixing.specs.Rows.{end_sent, length_taken, link_ended, long_allowed};
ghost use Rattle.journal_fixing.specs.Rows.{message_cut, message_pdu, own_version, terminate_pdu};
ghost use Rattle.journal_fixing.specs.Rows.{two_waiting, version_begun, version_heard};
ghost use Rattle.journal_fixing.specs.Rows.{not_quiet};
ghost use Rattle.journal_controls.specs.journal_ends.Asked.{Words};

/// A central whose exchange of versions begins sends LL_VERSION_IND next. A peripheral cuts its data
/// at the effective length with which the turn began, though it takes LL_LENGTH_REQ before it
/// sends: 27 octets of the 28, and not all of them. Once the host has ended the link no data goes:
/// LL_TERMINATE_IND, and then empty PDUs. In a phase that is not Clear or Secure no data goes either,
/// and MD does not tell of it (Core 5.2, volume 6 part B, section 5.1.3).
pub fn worked_next_pdus()
    ensures version { pdu_next version_begun version_begun None ≡ own_version }
    ensures limit { piece_limit long_allowed ≡ 27 }
    ensures longer { piece_limit length_taken ≡ 251 }
    ensures cut { pdu_next long_allowed length_taken (next_piece (message_cut long_allowed))
        ≡ message_pdu 27 }
    ensures not_whole { pdu_next long_allowed length_taken (next_piece (message_cut long_allowed))
        ≡ message_pdu 28 → ⊥ }
    ensures ends { pdu_next link_ended link_ended (next_piece (message_cut link_ended))
        ≡ terminate_pdu }
    ensures ended { pdu_next end_sent end_sent (next_piece (message_cut end_sent)) ≡ empty_pdu }
    ensures no_data { pdu_next end_sent end_sent (next_piece (message_cut end_sent))
        ≡ message_pdu 27 → ⊥ }
    ensures held { pdu_next not_quiet not_quiet (next_piece (message_cut not_quiet)) ≡ empty_pdu }
    ensures held_back { more_with_new not_quiet true ≡ false }
{}

/// MD is 0 with LL_VERSION_IND where nothing else waits, and 1 where data or another control PDU
/// does. With the first 27 octets of 28 it is 1, and with all of them 0. With a PDU that is sent
/// again it is 1 where LL_VERSION_IND, LL_TERMINATE_IND or data waits. With LL_TERMINATE_IND that is
/// sent again it is 1 where the host gave data before it ended the link, though that data never goes
/// (Core 5.2, volume 6 part B, section 4.5.6; what counts is our choice).
pub fn worked_md()
    ensures alone { more_with_new version_begun false ≡ false }
    ensures with_data { more_with_new version_begun
        (data_waits_after own_version (message_cut version_begun)) ≡ true }
    ensures another { more_with_new two_waiting false ≡ true }
    ensures not_alone { more_with_new two_waiting false ≡ false → ⊥ }
    ensures part { more_with_new (begun_on Central)
        (data_waits_after (message_pdu 27) (message_cut (begun_on Central))) ≡ true }
    ensures whole { more_with_new (begun_on Central)
        (data_waits_after (message_pdu 28) (message_cut (begun_on Central))) ≡ false }
    ensures again { more_with_old version_begun empty_pdu false ≡ true }
    ensures end_waits { more_with_old link_ended empty_pdu false ≡ true }
    ensures data_again { more_with_old (begun_on Central) empty_pdu true ≡ true }
    ensures nothing { more_with_old (begun_on Central) empty_pdu false ≡ false }
    ensures never_goes { more_with_old end_sent terminate_pdu true ≡ true }
    ensures not_unsaid { more_with_old end_sent terminate_pdu true ≡ false → ⊥ }
    ensures all_gone { more_with_old end_sent terminate_pdu false ≡ false }
{}

/// A central fixes LL_VERSION_IND as it is before its line, and the next turn begins as it is after
/// that. The answer of a peripheral was fixed, and goes, as it is before it takes the PDU of the
/// packet that it hears.
pub fn worked_fixing()
    ensures fixes { (words : Words) → control_fixing words B 1 version_sent
        ≡ Some (keyed_after_all (Enters 2 ∷ []) (begun_on Central)) }
    ensures later { (words : Words) → control_fixing words B 1 (version_sent ++ turn_entry 4 ∷ [])
        ≡ Some (keyed_after_all (Enters 2 ∷ Sends 3 ∷ []) (begun_on Central)) }
    ensures fixed { (words : Words) → control_fixing words A 1 version_heard
        ≡ Some (keyed_after_all (Enters 2 ∷ []) (begun_on Peripheral)) }
    ensures goes { (words : Words) → control_going words A 1 version_heard
        ≡ Some (keyed_after_all (Enters 2 ∷ []) (begun_on Peripheral)) }
    ensures taken { (words : Words) → keyed_on words A 1 version_heard
        ≡ Some (keyed_after_all (Enters 2
        ∷ Takes (read_of version_pdu) 3 (drawn no_response) ∷ [])
        (begun_on Peripheral)) }
{}
