//! Laws of the words that a side draws, by any list of lines. The bodies are empty: the contracts are
//! the laws.
ghost use Rattle.std.specs.Prelude.{◌≡◌, ◌++◌, ◌∷◌, [], ℕ, List};
ghost use Rattle.ble_base.specs.declared.roles.Side.{Side};
ghost use Rattle.journal.specs.declared.entries.Entry.{Entry};
ghost use Rattle.journal_words.specs.Drawn.{drawn_counts, next_count};

/// A line adds one count, and leaves those before it: that of the words that the side drew before it
/// and of those that it draws in the line.
pub fn each_line_adds_what_it_draws()
    ensures begins { (list : List ℕ) (side : Side) → drawn_counts list side [] ≡ 0 ∷ [] }
    ensures adds { (list : List ℕ) (side : Side) (journal : List Entry) (line : Entry)
        → let counts = drawn_counts list side journal in
        drawn_counts list side (journal ++ line ∷ [])
        ≡ counts ++ next_count list side counts journal line ∷ [] }
{}
