//! Laws of the text of a journal. The bodies do nothing: the contracts are the laws.
ghost use Rattle.std.specs.Prelude.{◌≡◌, List, []};
ghost use Rattle.std.specs.List.{All};
ghost use Rattle.journal.specs.declared.entries.Entry.{Entry};
ghost use Rattle.journal.specs.Division.{AreLinesOf};
ghost use Rattle.journal.specs.Range.{IsEntry};
ghost use Rattle.journal.specs.Text.{line, text};

/// Two entries with the same line are equal.
pub fn a_line_has_one_entry()
    ensures { (x y : Entry) → IsEntry x → IsEntry y → line x ≡ line y → x ≡ y }
{}

/// Two journals with the same text are equal.
pub fn a_text_has_one_journal()
    ensures { (xs ys : List Entry) → All IsEntry xs → All IsEntry ys → text xs ≡ text ys
        → xs ≡ ys }
{}

/// A text is divided into the lines of its entries, and nothing is left. So what a journal writes is
/// read as that journal.
pub fn a_text_is_its_lines()
    ensures { (entries : List Entry) → All IsEntry entries
        → AreLinesOf (text entries) entries [] }
{}
