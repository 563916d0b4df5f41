//! PDUs that are sent against the rules on a link that begins to encrypt, and a link that ends as if
//! a packet had been forged.
ghost use Rattle.journal_pdus.specs.journal_controls.journal_ends.Asked.{Words};
ghost use Rattle.journal_pdus.specs.journal_controls.journal_ends.Rows.{some_words};
ghost use Rattle.journal_pdus.specs.journal_failures.Failures.{AllFailuresAreForged};
ghost use Rattle.journal_pdus.specs.journal_sealing.Mixed.{is_mixed};
ghost use Rattle.journal_pdus.specs.journal_sending.NextPdus.{AllNewPdusAreNext};
ghost use Rattle.wrong_journals.specs.Encrypting as wrong;

/// LL_ENC_REQ has the halves that its side drew as it accepted the command, and does not go where
/// its host gave none. No data goes while the central waits for LL_ENC_RSP (Core 5.2, volume 6 part
/// B, section 5.1.3.1).
pub fn wrong_starts_are_refused()
    ensures halves { AllNewPdusAreNext some_words wrong.halves_otherwise → ⊥ }
    ensures unasked { (words : Words) → AllNewPdusAreNext words wrong.encryption_unasked → ⊥ }
    ensures data { AllNewPdusAreNext some_words wrong.data_while_asking → ⊥ }
{}

/// A link is not shut with 3D where its side judged no packet of it forged (Core 5.2, volume 6 part
/// B, section 5.1.3.1).
pub fn failures_without_forgeries_are_refused()
    ensures { (words : Words) → AllFailuresAreForged (is_mixed words) wrong.shut_unforged → ⊥ }
{}
