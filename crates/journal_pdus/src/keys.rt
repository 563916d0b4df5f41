//! A lawful journal in which both ends of each link have one key. The body only calls the laws that
//! it rests on: the contract is the law.
ghost use Rattle.std.specs.Prelude.{ℕ, List};
ghost use Rattle.journal.specs.declared.entries.Entry.{Entry};
ghost use Rattle.radio_replay.specs.Script.{Script};
ghost use Rattle.journal_seals.specs.journal_sealing.Mixed.{HaveOneKey};
ghost use Rattle.journal_moves.specs.journal_wants.journal_sending.journal_data.Followed.{none_mixed};
ghost use Rattle.journal_words.specs.Drawn.{words_by};
ghost use Rattle.journal_pdus.specs.Lawful.{IsLawful, IsLawfulWith};

/// In a lawful journal no packet mixes two session keys, where at each packet of a link both its ends
/// that are open have one key by the lines before it, if the end that is to hear it opens what it
/// hears. So it is where both hosts give one key for each start of an encryption. Then the two ends of
/// each link are followed through the whole journal, without an exception (Core 5.2, volume 6 part B,
/// section 5.1.3.1, and part E, section 2).
pub fn with_one_key_nothing_is_mixed()
    ensures { (a b : List ℕ) (script : Script) (journal : List Entry)
        → ((number : ℕ) → HaveOneKey (words_by script) number journal)
        → IsLawful a b script journal
        → IsLawfulWith (words_by script) none_mixed a b script journal }
{
    journal_seals::a_mixed_journal_stays_mixed();
    journal_seals::only_packets_between_two_keys_are_mixed();
}
