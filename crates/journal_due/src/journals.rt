//! Laws of what is due by any list of lines. The bodies are empty: the contracts are the laws.
ghost use Rattle.std.specs.Prelude.{◌≡◌, ◌++◌, ◌∷◌, ◌&&◌, [], ℕ, List, None, Some, false};
ghost use Rattle.ble_base.specs.declared.roles.Side.{Side};
ghost use Rattle.journal.specs.declared.entries.Entry.{Entry};
ghost use Rattle.journal_controls.specs.LineSteps.{is_more_acked, keyed_on, turn_now};
ghost use Rattle.journal_controls.specs.LinesDue.{due_hearing, due_saying, lines_due};
ghost use Rattle.journal_controls.specs.journal_acks.Carried.{carried_of};
ghost use Rattle.journal_controls.specs.journal_acks.Exchange.{exchange_of};
ghost use Rattle.journal_controls.specs.journal_ends.Seen.{Hears, HearsForged, Says, seen_in_line};
ghost use Rattle.journal_controls.specs.link_model.Data.{is_control};
ghost use Rattle.journal_controls.specs.link_model.keyed_control.Keyed.{Keyed};
ghost use Rattle.journal_due.specs.ProcedureLines.{applied_in, applied_last, is_same_side};
ghost use Rattle.journal_due.specs.ProcedureLines.{side_of_line};
ghost use Rattle.journal_controls.specs.journal_ends.Asked.{Words};

/// A line that an open end says, and a good packet that it hears, change which lines of procedures
/// are due to it, by its control part, its phase and its keys before. A packet that it judges forged
/// leaves them, and so does any other line: one of the other side, of another link, or of none. Where
/// a link is not open none is due (Core 5.2, volume 6 part B, sections 5.1 and 5.5).
pub fn one_line_more_changes_what_is_due()
    ensures said { (words : Words) (side : Side) (number : ℕ) (journal : List Entry) (line : Entry)
        (k : Keyed) → keyed_on words side number journal ≡ Some k
        → seen_in_line words side number journal line ≡ Says line ∷ []
        → lines_due words side number (journal ++ line ∷ [])
        ≡ due_saying side number (words side journal) (turn_now journal) k
        (lines_due words side number journal) line }
    ensures heard { (words : Words) (side : Side) (number slot : ℕ) (octets : List ℕ) (journal : List Entry)
        (line : Entry) (k : Keyed) → keyed_on words side number journal ≡ Some k
        → seen_in_line words side number journal line ≡ Hears slot octets ∷ []
        → lines_due words side number (journal ++ line ∷ [])
        ≡ due_hearing side number (is_more_acked (exchange_of number journal side)
        (exchange_of number (journal ++ line ∷ []) side)
        && is_control (carried_of number journal side)) k.phased.control }
    ensures forged { (words : Words) (side : Side) (number : ℕ) (journal : List Entry) (line : Entry)
        → seen_in_line words side number journal line ≡ HearsForged ∷ []
        → lines_due words side number (journal ++ line ∷ []) ≡ lines_due words side number journal }
    ensures stays { (words : Words) (side : Side) (number : ℕ) (journal : List Entry) (line : Entry)
        → seen_in_line words side number journal line ≡ []
        → lines_due words side number (journal ++ line ∷ []) ≡ lines_due words side number journal }
    ensures shut { (words : Words) (side : Side) (number : ℕ) (journal : List Entry)
        → keyed_on words side number journal ≡ None → lines_due words side number journal ≡ [] }
{}

/// The last line of a side says that an indication comes into force, or it does not, and lines of
/// the other side, and turns, leave that.
pub fn the_last_line_of_a_side_tells_of_an_indication()
    ensures own { (side : Side) (journal : List Entry) (line : Entry)
        → side_of_line line ≡ Some side
        → applied_last side (journal ++ line ∷ []) ≡ applied_in line }
    ensures other { (side : Side) (journal : List Entry) (line : Entry)
        → is_same_side (side_of_line line) side ≡ false
        → applied_last side (journal ++ line ∷ []) ≡ applied_last side journal }
{}
