//! Laws of the packets that mix two session keys, by the lines of any journal. The bodies are empty:
//! the contracts are the laws.
ghost use Rattle.std.specs.Prelude.{◌≡◌, ◌||◌, ◌++◌, ◌∷◌, ℕ, List, Some, false, true};
ghost use Rattle.ble_base.specs.Side.{other_side};
ghost use Rattle.ble_base.specs.declared.roles.Side.{Side};
ghost use Rattle.ble_base.specs.declared.verdicts.Verdict.{Verdict};
ghost use Rattle.journal.specs.declared.entries.Entry.{Entry};
ghost use Rattle.journal.specs.declared.entries.Entry.TheVariants.{Air};
ghost use Rattle.journal.specs.declared.entries.Mark.{Mark};
ghost use Rattle.journal_controls.specs.LineSteps.{keyed_on};
ghost use Rattle.journal_controls.specs.journal_ends.Asked.{Words};
ghost use Rattle.journal_controls.specs.link_model.Payload.{opens_now};
ghost use Rattle.journal_controls.specs.link_model.keyed_control.Keyed.{Keyed};
ghost use Rattle.journal_sealing.specs.Forged.{NeverOpens};
ghost use Rattle.journal_sealing.specs.Mixed.{HaveOneKey, is_mixed, is_mixed_at, mixed_from};

/// A journal in which a packet of a link mixes two session keys does so with more lines too.
pub fn a_mixed_journal_stays_mixed()
    ensures more { (words : Words) (number : ℕ) (front more : List Entry)
        → is_mixed words number (front ++ more)
        ≡ (is_mixed words number front || mixed_from words number front more) }
    ensures front { (words : Words) (number : ℕ) (front more : List Entry)
        → is_mixed words number (front ++ more) ≡ false → is_mixed words number front ≡ false }
    ensures each { (words : Words) (number : ℕ) (front rest : List Entry) (line : Entry)
        → is_mixed words number (front ++ line ∷ rest) ≡ false
        → is_mixed_at words number front line ≡ false }
{}

/// No packet mixes two session keys in a journal by the lines of which neither end of the link ever
/// opens what it hears, none does while the lines give one session key to both ends, and no packet of a
/// journal does where they do before each packet to an end that opens it (Core 5.2, volume 6 part B,
/// section 5.1.3.1, and part E, section 2).
pub fn only_packets_between_two_keys_are_mixed()
    ensures clear { (words : Words) (number : ℕ) (journal : List Entry)
        → ((side : Side) → NeverOpens words number journal side)
        → is_mixed words number journal ≡ false }
    ensures one_key { (words : Words) (number : ℕ) (front : List Entry) (side : Side) (channel : ℕ)
        (octets : List ℕ) (fate : Mark) (verdict : Verdict)
        → ((one other : Keyed) → keyed_on words side number front ≡ Some one
        → keyed_on words (other_side side) number front ≡ Some other
        → opens_now other.end ≡ true → one.end.key ≡ other.end.key)
        → is_mixed_at words number front (Air side channel octets fate verdict) ≡ false }
    ensures journals { (words : Words) (number : ℕ) (journal : List Entry)
        → HaveOneKey words number journal → is_mixed words number journal ≡ false }
{}
