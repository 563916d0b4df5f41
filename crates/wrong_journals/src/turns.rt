//! Turns that do not follow their schedule, and verdicts that no listener can give.
ghost use Rattle.std.specs.Prelude.{ℕ, List, [], ◌∷◌};
ghost use Rattle.ble_base.specs.declared.Config.{Config};
ghost use Rattle.ble_base.specs.declared.roles.Side.TheVariants.{A};
ghost use Rattle.ble_base.specs.declared.verdicts.Verdict.TheVariants as verdict;
ghost use Rattle.journal.specs.declared.entries.Mark.TheVariants.{Damage, Lost};
ghost use Rattle.journal_pdus.specs.journal_turns.Judged.{IsJudged};
ghost use Rattle.journal_pdus.specs.journal_turns.Radios.{AllAreOnRadio};
ghost use Rattle.journal_pdus.specs.journal_turns.Scheduled as scheduled;
ghost use Rattle.journal_pdus.specs.journal_turns.Stopped.{IsStoppedAt};
ghost use Rattle.wrong_journals.specs.Turns as wrong;

/// The turns of a journal are the first of its schedule, from slot 0, with its radios; those of a
/// whole run are all.
pub fn wrong_turns_are_refused()
    ensures none { (a b : Config) → scheduled.AreAllTurns
        (wrong.one_turn a b) wrong.empty_journal → ⊥ }
    ensures cut { (a b : Config) → scheduled.AreAllTurns (wrong.two_turns a b) wrong.cut_short → ⊥ }
    ensures first { (a b : Config) → scheduled.AreFirstTurns
        (wrong.one_turn a b) wrong.begins_at_seven → ⊥ }
    ensures radios { (a b : Config) → scheduled.AreFirstTurns
        (wrong.one_turn a b) wrong.radio_off → ⊥ }
    ensures many { (a b : Config) → scheduled.AreFirstTurns
        (wrong.one_turn a b) wrong.one_too_many → ⊥ }
{}

/// Each side is fed the octets of its stream in order, in each turn as many as the schedule says.
pub fn wrong_feeds_are_refused()
    ensures another { (a b : Config) → scheduled.IsFedInTurn wrong.stream []
        (wrong.one_turn a b) wrong.fed_another → ⊥ }
    ensures too_much { (a b : Config) → scheduled.IsFedInTurn wrong.stream []
        (wrong.one_turn a b) wrong.fed_too_much → ⊥ }
    ensures other_side { (a b : Config) → scheduled.IsFedInTurn wrong.stream []
        (wrong.one_turn a b) wrong.fed_to_other → ⊥ }
    ensures late { (a b : Config) → scheduled.IsFedInTurn wrong.stream []
        (wrong.two_turns a b) wrong.fed_late → ⊥ }
{}

/// The n-th packet of a turn has the n-th fate, and packets past the fates pass.
pub fn wrong_fates_are_refused()
    ensures of_the_next { (a b : Config) → scheduled.AllHaveNextFate
        (wrong.one_turn a b) wrong.fate_of_the_next → ⊥ }
    ensures of_the_last { (a b : Config) → scheduled.AllHaveNextFate
        (wrong.one_turn a b) wrong.fate_of_the_last → ⊥ }
    ensures of_its_own { (a b : Config) → scheduled.AllHaveNextFate
        (wrong.one_turn a b) wrong.fate_of_its_own → ⊥ }
{}

/// A side whose radio is off sends nothing, and misses each packet.
pub fn wrong_radios_are_refused()
    ensures sends { (a b : Config) → AllAreOnRadio
        (wrong.without_a a b) wrong.sent_without_radio → ⊥ }
    ensures hears { (a b : Config) → AllAreOnRadio
        (wrong.without_b a b) wrong.heard_without_radio → ⊥ }
{}

/// A lost packet is missed, and so it is not judged forged, and a packet that is judged good is heard
/// as it was sent.
pub fn wrong_verdicts_are_refused()
    ensures lost_good { (octets : List ℕ) → IsJudged octets Lost verdict.Good → ⊥ }
    ensures lost_broken { (octets : List ℕ) → IsJudged octets Lost verdict.Broken → ⊥ }
    ensures changed { (octets : List ℕ) → IsJudged (0x00 ∷ octets) (Damage 0 (0x01
        ∷ [])) verdict.Good → ⊥ }
    ensures forged { (octets : List ℕ) → IsJudged octets Lost verdict.Forged → ⊥ }
{}

/// A run may stop in turn 0 at the first packet, whose first octet is changed. It does not stop in
/// turn 1, which did not begin, nor at the second packet, nor where the packet arrives as it was
/// sent or changed otherwise.
pub fn wrong_stops_are_refused()
    ensures right { (a b : Config) → IsStoppedAt
        (wrong.with_damage a b) A 0 1 wrong.two_octets wrong.two_octets_heard wrong.before_damage }
    ensures early { (a b : Config) → IsStoppedAt
        (wrong.with_damage a b) A 1 1 wrong.two_octets wrong.two_octets_heard wrong.before_damage → ⊥ }
    ensures place { (a b : Config) → IsStoppedAt
        (wrong.with_damage a b) A 0 2 wrong.two_octets wrong.two_octets_heard wrong.before_damage → ⊥ }
    ensures unchanged { (a b : Config) → IsStoppedAt
        (wrong.with_damage a b) A 0 1 wrong.two_octets wrong.two_octets wrong.before_damage → ⊥ }
    ensures otherwise { (a b : Config) → IsStoppedAt
        (wrong.with_damage a b) A 0 1 wrong.two_octets (0xA3 ∷ 0xB0 ∷ []) wrong.before_damage → ⊥ }
{}
