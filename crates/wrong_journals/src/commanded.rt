//! PDUs that are sent or taken against the rules on a link whose host gives commands.
ghost use Rattle.journal_pdus.specs.journal_controls.journal_ends.Asked.{Words};
ghost use Rattle.journal_pdus.specs.journal_sending.NextPdus.{AllNewPdusAreNext};
ghost use Rattle.journal_pdus.specs.journal_sending.Pending.{AllAreTakenAtOnce};
ghost use Rattle.journal_pdus.specs.journal_sending.WhatWaits.{AllTellWhatWaits};
ghost use Rattle.wrong_journals.specs.Commanded as wrong;

/// A piece of data has the effective length where the packet of the host has as many octets. A
/// control PDU goes before data, and no data goes once the host has ended the link. An
/// LL_CONNECTION_UPDATE_IND has the values of an accepted command, and the Instant of its event
/// (Core 5.2, volume 6 part B, sections 4.5.9, 4.5.10, 5.1.1 and 5.1.6).
pub fn wrong_pdus_are_refused()
    ensures longer { (words : Words) → AllNewPdusAreNext words wrong.piece_too_long → ⊥ }
    ensures shorter { (words : Words) → AllNewPdusAreNext words wrong.piece_too_short → ⊥ }
    ensures data_first { (words : Words) → AllNewPdusAreNext words wrong.data_before_control → ⊥ }
    ensures ended { (words : Words) → AllNewPdusAreNext words wrong.data_after_disconnect → ⊥ }
    ensures values { (words : Words) → AllNewPdusAreNext words wrong.update_otherwise → ⊥ }
    ensures instant { (words : Words) → AllNewPdusAreNext words wrong.update_too_near → ⊥ }
    ensures unasked { (words : Words) → AllNewPdusAreNext words wrong.update_unasked → ⊥ }
{}

/// MD of a packet counts a control PDU that waited as its PDU was fixed, and MD of a reply does not
/// count the answer that the PDU just taken has queued. No new empty PDU goes where a control PDU
/// waits (Core 5.2, volume 6 part B, section 4.5.6).
pub fn wrong_more_bits_are_refused()
    ensures untold { (words : Words) → AllTellWhatWaits words wrong.version_untold → ⊥ }
    ensures empty { (words : Words) → AllTellWhatWaits words wrong.empty_before_control → ⊥ }
    ensures counted { (words : Words) → AllTellWhatWaits words wrong.answer_counted → ⊥ }
{}

/// No line comes between a packet and the line that its PDU is taken, but for that of a procedure
/// that is done on the same link. A central whose LL_TERMINATE_IND is acknowledged takes nothing
/// more (Core 5.2, volume 6 part B, sections 4.5.9 and 5.1.6).
pub fn late_taking_is_refused()
    ensures event { (words : Words) → AllAreTakenAtOnce words wrong.taken_after_event → ⊥ }
    ensures other_link { (words : Words) → AllAreTakenAtOnce words wrong.taken_after_done → ⊥ }
    ensures terminated { (words : Words) → AllAreTakenAtOnce words wrong.taken_after_terminate → ⊥ }
{}
