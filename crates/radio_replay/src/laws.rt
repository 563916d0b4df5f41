//! Laws of the grammar, for every schedule. The bodies do nothing: the contracts are the laws.
ghost use Rattle.std.specs.Prelude.{◌≡◌, ◌≤◌, ℕ, List, Some, length, replicate};
ghost use Rattle.std.specs.List.{All};
ghost use Rattle.std.specs.Option.{option_map};
ghost use Rattle.ble_base.specs.declared.Config.{Config};
ghost use Rattle.line_words.specs.Text.{words_of};
ghost use Rattle.radio_replay.specs.LoadSchedule.{load_schedule, load_settings_a};
ghost use Rattle.radio_replay.specs.LoadSchedule.{load_settings_b, load_turns, ChangesNone};
ghost use Rattle.radio_replay.specs.Schedule.{Right, schedule_of};
ghost use Rattle.radio_replay.specs.Script.{Turn};
ghost use Rattle.radio_replay.specs.Spelling.{CanBeSet, CanBeTaken, run_line, schedule_text};
ghost use Rattle.radio_replay.specs.TurnLine.{line_in, plain_turn, line_turns};

use crate::limits::{MOST_REPEATED, MOST_TURNS};

/// The grammar has every schedule of at most 100,000 turns: one that is spelled in the plainest
/// form, each number in its full width or without a zero before it, is read as itself.
pub fn every_schedule_is_read()
    ensures { (a b : Config) (turns : List Turn) → CanBeSet a → CanBeSet b → All CanBeTaken turns
        → length turns ≤ MOST_TURNS → schedule_of (schedule_text a b turns) ≡ Right a b turns }
{}

/// A run of 1 to 999,999 turns is this number of turns with both radios on, in which nothing is fed
/// and all packets pass.
pub fn a_run_is_plain_turns()
    ensures { (count : ℕ) → 1 ≤ count → count ≤ MOST_REPEATED
        → option_map line_turns (line_in (words_of (run_line count)))
        ≡ Some (replicate count plain_turn) }
{}

/// The schedule of a load is in the grammar. It has 5,281 turns, and no fate in it changes a packet.
pub fn a_load_has_a_schedule()
    ensures read { (number : ℕ) → schedule_of (load_schedule number)
        ≡ Right load_settings_a load_settings_b (load_turns number) }
    ensures count { (number : ℕ) → length (load_turns number) ≡ 5281 }
    ensures unchanged { (number : ℕ) → All ChangesNone (load_turns number) }
{}
