//! Packets that are sent again with the wrong MD.
ghost use Rattle.journal_pdus.specs.journal_controls.journal_ends.Asked.{Words};
ghost use Rattle.journal_pdus.specs.journal_rules.Waiting.{AllTellInWords};
ghost use Rattle.journal_pdus.specs.journal_sending.WhatWaits.{AllTellWhatWaits};
ghost use Rattle.wrong_journals.specs.Again as wrong;

/// MD of a packet whose PDU is sent again is 1 where a PDU waited as the turn began, and 0 where none
/// did. With LL_TERMINATE_IND it counts data that waits, although that never goes (Core 5.2, volume 6
/// part B, section 4.5.6; that such data counts is our choice).
pub fn wrong_more_bits_are_not_sent_again()
    ensures untold { (words : Words) → AllTellWhatWaits words wrong.again_untold → ⊥ }
    ensures nothing { (words : Words) → AllTellWhatWaits words wrong.nothing_told → ⊥ }
    ensures terminated { (words : Words) → AllTellWhatWaits words wrong.terminate_untold → ⊥ }
    ensures in_words { (words : Words) → AllTellInWords words wrong.terminate_untold → ⊥ }
{}
