//! Laws of an end as it fixes its next PDU, and as that goes, by any list of lines.
//! The bodies are empty: the contracts are the laws.
ghost use Rattle.std.specs.Prelude.{◌≡◌, ◌||◌, ◌++◌, ◌∷◌, [], ℕ, Bool, List, Option, false, true};
ghost use Rattle.ble_base.specs.declared.roles.Side.{Side};
ghost use Rattle.journal.specs.declared.entries.Entry.{Entry};
ghost use Rattle.journal.specs.declared.entries.Entry.TheVariants.{Turn};
ghost use Rattle.journal_controls.specs.LineSteps.{keyed_on};
ghost use Rattle.journal_controls.specs.journal_ends.Answering.{answers_in_line};
ghost use Rattle.journal_controls.specs.journal_ends.Seen.{seen_in_line};
ghost use Rattle.journal_fixing.specs.OnLines.{begins_turn, control_answering, control_fixing};
ghost use Rattle.journal_fixing.specs.OnLines.{control_going, has_heard, is_fixed, is_fixed_from};
ghost use Rattle.journal_fixing.specs.OnLines.{is_heard_at};
ghost use Rattle.journal_controls.specs.journal_ends.Asked.{Words};

/// As a turn begins, the next PDU of an end is not fixed. From the first packet of the turn on, or
/// from the line of a new PDU of the end, it is, and the end is kept as it was then. No other line
/// changes what is kept; until then it is the end of now.
pub fn the_control_part_is_kept_as_a_pdu_is_fixed()
    ensures begins { (words : Words) (side : Side) (number slot : ℕ) (a_on : Bool) (b_on : Option Bool)
        (journal : List Entry)
        → control_fixing words side number (journal ++ Turn slot a_on b_on ∷ [])
        ≡ keyed_on words side number journal }
    ensures unfixed { (words : Words) (side : Side) (number slot : ℕ) (a_on : Bool) (b_on : Option Bool)
        (journal : List Entry) → is_fixed words side number (journal ++ Turn slot a_on b_on ∷ []) ≡ false }
    ensures now { (words : Words) (side : Side) (number : ℕ) (journal : List Entry)
        → is_fixed words side number journal ≡ false
        → control_fixing words side number journal ≡ keyed_on words side number journal }
    ensures fixed { (words : Words) (side : Side) (number : ℕ) (journal : List Entry) (line : Entry)
        → begins_turn line ≡ false
        → is_fixed words side number (journal ++ line ∷ [])
        ≡ (is_fixed words side number journal || is_fixed_from side number line) }
    ensures stays { (words : Words) (side : Side) (number : ℕ) (journal : List Entry) (line : Entry)
        → begins_turn line ≡ false
        → (is_fixed words side number journal || is_fixed_from side number line) ≡ true
        → control_fixing words side number (journal ++ line ∷ []) ≡ control_fixing words side number journal }
    ensures quiet { (words : Words) (side : Side) (number : ℕ) (journal : List Entry) (line : Entry)
        → begins_turn line ≡ false → seen_in_line words side number journal line ≡ []
        → answers_in_line words side number journal line ≡ []
        → control_fixing words side number (journal ++ line ∷ []) ≡ control_fixing words side number journal }
{}

/// As a turn begins, an end heard nothing in it. Where it hears a good packet of the other end, it is
/// kept as it is once the packet has acknowledged a control PDU, and before the PDU of the packet is
/// taken. No other line of the turn changes what is kept; until then it is the end of now (Core 5.2,
/// volume 6 part B, section 4.5.9; the order is our choice).
pub fn the_control_part_is_kept_as_a_packet_is_heard()
    ensures begins { (words : Words) (side : Side) (number slot : ℕ) (a_on : Bool) (b_on : Option Bool)
        (journal : List Entry)
        → control_going words side number (journal ++ Turn slot a_on b_on ∷ [])
        ≡ keyed_on words side number journal }
    ensures unheard { (words : Words) (side : Side) (number slot : ℕ) (a_on : Bool) (b_on : Option Bool)
        (journal : List Entry) → has_heard words side number (journal ++ Turn slot a_on b_on ∷ []) ≡ false }
    ensures now { (words : Words) (side : Side) (number : ℕ) (journal : List Entry)
        → has_heard words side number journal ≡ false
        → control_going words side number journal ≡ keyed_on words side number journal }
    ensures heard { (words : Words) (side : Side) (number : ℕ) (journal : List Entry) (line : Entry)
        → begins_turn line ≡ false
        → has_heard words side number (journal ++ line ∷ [])
        ≡ (has_heard words side number journal || is_heard_at side number journal line) }
    ensures hears { (words : Words) (side : Side) (number : ℕ) (journal : List Entry) (line : Entry)
        → begins_turn line ≡ false → has_heard words side number journal ≡ false
        → is_heard_at side number journal line ≡ true
        → control_going words side number (journal ++ line ∷ [])
        ≡ control_answering words side number journal line }
    ensures stays { (words : Words) (side : Side) (number : ℕ) (journal : List Entry) (line : Entry)
        → begins_turn line ≡ false → has_heard words side number journal ≡ true
        → control_going words side number (journal ++ line ∷ []) ≡ control_going words side number journal }
    ensures quiet { (words : Words) (side : Side) (number : ℕ) (journal : List Entry) (line : Entry)
        → begins_turn line ≡ false → is_heard_at side number journal line ≡ false
        → seen_in_line words side number journal line ≡ []
        → answers_in_line words side number journal line ≡ []
        → control_going words side number (journal ++ line ∷ []) ≡ control_going words side number journal }
{}
