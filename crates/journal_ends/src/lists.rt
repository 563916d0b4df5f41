//! Laws of what an end says and hears, by any list of lines and by any past of the end. The bodies
//! are empty: the contracts are the laws.
ghost use Rattle.std.specs.Prelude.{◌≡◌, ℕ, List, None, map};
ghost use Rattle.std.specs.Option.{option_map};
ghost use Rattle.ble_base.specs.declared.roles.Side.{Side};
ghost use Rattle.journal_acks.specs.controller_model.Since.{notes_opened_on};
ghost use Rattle.journal.specs.declared.entries.Entry.{Entry};
ghost use Rattle.journal_acks.specs.journal_links.LinkLines.{line_of, lines_of};
ghost use Rattle.journal_acks.specs.link_model.End.{facts_of};
ghost use Rattle.journal_acks.specs.link_model.Setup.{Setup};
ghost use Rattle.journal_acks.specs.link_model.Step.{Step};
ghost use Rattle.journal_acks.specs.link_model.declared.events.Reception.{Reception};
ghost use Rattle.journal_acks.specs.Shut.{last_heard};
ghost use Rattle.journal_ends.specs.Asked.{Words, peer_by};
ghost use Rattle.journal_ends.specs.Seen.{last_slot, lines_said, seen_of, seen_on};

/// What the end of a side on a link says, by the lines of any journal, are the lines of that side
/// on that link; and by its past they are its notes, after the one that says that the link was
/// opened.
pub fn what_an_end_says_is_its_lines()
    ensures by_lines { (words : Words) (side : Side) (number : ℕ) (journal : List Entry)
        → lines_said (seen_on words side number journal) ≡ lines_of side number journal }
    ensures by_past { (side : Side) (number : ℕ) (setup : Setup) (past : List Step)
        → lines_said (seen_of side number setup past)
        ≡ map (line_of side number) (notes_opened_on setup past) }
{}

/// The packet that an end hears last is, by the lines of any journal, the last one of the other
/// side on that link that its verdict finds good; and by its past, the last good packet that it
/// received (Core 5.2, volume 6 part B, section 4.5.2).
pub fn what_an_end_hears_last_is_its_last_good_packet()
    ensures by_lines { (words : Words) (side : Side) (number : ℕ) (journal : List Entry)
        → last_slot (seen_on words side number journal) ≡ last_heard number side journal }
    ensures by_past { (side : Side) (number : ℕ) (setup : Setup) (past : List Step)
        → last_slot (seen_of side number setup past)
        ≡ option_map (λ (good : Reception). good.slot) (facts_of setup past).last_good }
{}

/// What an end that goes on knows of its peer is what the control PDUs say that it answered, by its
/// lines: it answered each as it took it, and a PDU that a central kept as its encryption was done
/// or refused (Core 5.2, volume 6 part B, sections 2.4.2.9 to 2.4.2.15 and 5.1.3).
pub fn what_an_end_knows_of_its_peer_is_what_it_answered()
    ensures { (side : Side) (number : ℕ) (setup : Setup) (past : List Step)
        → (facts_of setup past).control.ends ≡ None
        → peer_by (map (line_of side number) (notes_opened_on setup past))
        ≡ (facts_of setup past).peer }
{}
