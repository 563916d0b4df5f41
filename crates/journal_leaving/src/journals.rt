//! Laws of how an end leaves its link, by any list of lines. The bodies are empty: the contracts
//! are the laws.
ghost use Rattle.std.specs.Prelude.{◌≡◌, ◌++◌, ◌∷◌, [], None, ℕ, List, Some, false};
ghost use Rattle.ble_base.specs.declared.error_codes.ErrCode.{ErrCode};
ghost use Rattle.ble_base.specs.declared.roles.Role.{Role};
ghost use Rattle.ble_base.specs.declared.roles.Side.{Side};
ghost use Rattle.journal.specs.declared.entries.Entry.{Entry};
ghost use Rattle.journal.specs.declared.entries.Entry.TheVariants.{Opened, Shut};
ghost use Rattle.journal_controls.specs.journal_ends.Answering.{answers_in_line};
ghost use Rattle.journal_controls.specs.journal_ends.Seen.{seen_in_line};
ghost use Rattle.journal_controls.specs.link_model.Facts.{stays};
ghost use Rattle.journal_leaving.specs.Leaving.{is_own_packet, leaving_on};
ghost use Rattle.journal_controls.specs.journal_ends.Asked.{Words};

/// An end stays as its link is opened, and is none any more once the link is shut. A line in which
/// it says and hears nothing, is asked nothing and its host answers nothing, and which is no packet
/// of its own, leaves it as it is.
pub fn only_its_lines_and_packets_move_how_an_end_leaves()
    ensures begins { (words : Words) (side : Side) (number handle : ℕ) (role : Role) (journal : List Entry)
        → leaving_on words side number (journal ++ Opened side number handle role ∷ []) ≡ Some stays }
    ensures ends { (words : Words) (side : Side) (number : ℕ) (reason : ErrCode) (journal : List Entry)
        → leaving_on words side number (journal ++ Shut side number reason ∷ []) ≡ None }
    ensures stays { (words : Words) (side : Side) (number : ℕ) (journal : List Entry) (line : Entry)
        → seen_in_line words side number journal line ≡ []
        → answers_in_line words side number journal line ≡ []
        → is_own_packet side number journal line ≡ false
        → leaving_on words side number (journal ++ line ∷ []) ≡ leaving_on words side number journal }
{}
