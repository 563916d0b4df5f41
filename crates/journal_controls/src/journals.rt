//! Laws of an end by any list of lines. The bodies are empty: the contracts are the laws.
ghost use Rattle.std.specs.Prelude.{◌≡◌, ◌++◌, ◌∷◌, [], ℕ, List, Some};
ghost use Rattle.std.specs.Option.{option_map};
ghost use Rattle.ble_base.specs.declared.roles.Role.{Role};
ghost use Rattle.ble_base.specs.declared.roles.Side.{Side};
ghost use Rattle.journal.specs.declared.entries.Entry.{Entry};
ghost use Rattle.journal.specs.declared.entries.Entry.TheVariants.{Opened};
ghost use Rattle.journal_ends.specs.Asked.{Words};
ghost use Rattle.journal_ends.specs.Answering.{answers_in_line};
ghost use Rattle.journal_ends.specs.Seen.{seen_in_line};
ghost use Rattle.journal_ends.specs.host_answers.Flows.{most_received_on};
ghost use Rattle.journal_ends.specs.journal_links.Begun.{LinkBegun, link_numbered};
ghost use Rattle.journal_ends.specs.link_model.keyed_control.Keyed.{Keyed};
ghost use Rattle.journal_controls.specs.LineSteps.{control_on, keyed_begun, keyed_on};

/// The control part, the phase and the keys of an end begin with the line that says that its link is
/// opened there, and the end receives as many octets as its host takes then. A line in which the end
/// says and hears nothing, and its host asks nothing of it and answers nothing to the peer, leaves them
/// as they are. What a journal says of its control part alone is that part of it.
pub fn only_what_an_end_says_and_hears_moves_its_control_part()
    ensures begins { (words : Words) (side : Side) (number handle : ℕ) (role : Role) (journal : List Entry)
        (link : LinkBegun) → link_numbered number journal ≡ Some link
        → keyed_on words side number (journal ++ Opened side number handle role ∷ [])
        ≡ keyed_begun (most_received_on side journal) side (Some link) }
    ensures stays { (words : Words) (side : Side) (number : ℕ) (journal : List Entry) (line : Entry)
        → seen_in_line words side number journal line ≡ []
        → answers_in_line words side number journal line ≡ []
        → keyed_on words side number (journal ++ line ∷ []) ≡ keyed_on words side number journal }
    ensures part { (words : Words) (side : Side) (number : ℕ) (journal : List Entry)
        → control_on words side number journal
        ≡ option_map (λ (k : Keyed). k.phased.control) (keyed_on words side number journal) }
{}
