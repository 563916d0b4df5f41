//! Ends of a link that enter an event in two ways, or follow two indications.
ghost use Rattle.journal_pdus.specs.journal_agreement.Indications.{AllAreEnteredAlike};
ghost use Rattle.journal_pdus.specs.journal_agreement.Indications.{AllFollowCentral};
ghost use Rattle.journal_pdus.specs.journal_controls.journal_ends.Asked.{Words};
ghost use Rattle.journal_pdus.specs.journal_sealing.Mixed.{is_mixed};
ghost use Rattle.wrong_journals.specs.Alike as wrong;

/// Both ends enter an event with the same number of indications in one turn, on one channel and with
/// equal parameters; and a peripheral follows the indication that its central sent (Core 5.2, volume
/// 6 part B, sections 4.5.1, 4.5.8 and 5.5). No packet in these journals mixes two session keys.
pub fn ends_that_differ_are_refused()
    ensures channels { (words : Words) → AllAreEnteredAlike
        (is_mixed words) wrong.on_two_channels → ⊥ }
    ensures turns { (words : Words) → AllAreEnteredAlike (is_mixed words) wrong.in_two_turns → ⊥ }
    ensures maps { (words : Words) → AllAreEnteredAlike (is_mixed words) wrong.with_two_maps → ⊥ }
    ensures another { (words : Words) → AllFollowCentral
        (is_mixed words) wrong.following_another → ⊥ }
{}
