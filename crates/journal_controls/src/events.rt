//! Laws of an end by the lines after each event of a history that is no call. The bodies are empty:
//! the contracts are the laws.
ghost use Rattle.std.specs.Prelude.{◌≡◌, ◌++◌, ◌∷◌, [], ℕ, Bool, List, Some};
ghost use Rattle.ble_base.specs.declared.roles.Side.{Side};
ghost use Rattle.journal.specs.declared.entries.Entry.TheVariants.{Air};
ghost use Rattle.journal_ends.specs.Asked.{Words};
ghost use Rattle.journal_ends.specs.Seen.{Hears, HearsForged, heard_in_line};
ghost use Rattle.journal_ends.specs.journal_acks.Carried.{carried_of};
ghost use Rattle.journal_ends.specs.journal_acks.Exchange.{exchange_of};
ghost use Rattle.journal_ends.specs.link_model.keyed_control.Keyed.{Keyed};
ghost use Rattle.journal_ends.specs.link_model.phased_control.Taken.{role_now};
ghost use Rattle.journal_ends.specs.run_model.History.{Event, Hearing, HostFed, Transmitted};
ghost use Rattle.journal_ends.specs.run_model.History.{TurnBegan};
ghost use Rattle.journal_ends.specs.run_model.Journal.{journal_of, mark_of, side_of};
ghost use Rattle.journal_controls.specs.KeyedLines.{Forges, has_next, keyed_by, keyed_by_all};
ghost use Rattle.journal_controls.specs.LineSteps.{keyed_on, steps_heard};

/// After any history, a turn that begins and what a host sends leave the control part, the phase and
/// the keys of each end as they are.
pub fn turns_and_hosts_leave_the_control_part()
    ensures turn { (words : Words) (side : Side) (number slot : ℕ) (radios : List Bool) (history : List Event)
        → keyed_on words side number (journal_of (history ++ TurnBegan slot radios ∷ []))
        ≡ keyed_on words side number (journal_of history) }
    ensures host { (words : Words) (side : Side) (number station : ℕ) (octets : List ℕ) (history : List Event)
        → keyed_on words side number (journal_of (history ++ HostFed station octets ∷ []))
        ≡ keyed_on words side number (journal_of history) }
{}

/// After any history, a packet on the air moves the control part, the phase and the keys of the end
/// that hears it, by the counts of its link before the packet and after it, or ends the link where it
/// is forged, and leaves those of any other end.
pub fn a_packet_moves_the_control_part_of_the_end_that_hears_it()
    ensures heard { (words : Words) (side : Side) (number station channel slot : ℕ) (octets heard : List ℕ)
        (hearing : Hearing) (history : List Event) (k : Keyed)
        → heard_in_line side number (journal_of history)
        (Air (side_of station) channel octets (mark_of hearing.fate) hearing.verdict)
        ≡ Hears slot heard ∷ []
        → keyed_on words side number (journal_of history) ≡ Some k
        → let after = history ++ Transmitted station channel octets (hearing ∷ []) ∷ [] in
        keyed_on words side number (journal_of after)
        ≡ Some (keyed_by_all (steps_heard (role_now k.phased) slot
        (exchange_of number (journal_of history) side)
        (exchange_of number (journal_of after) side)
        (carried_of number (journal_of history) side) (has_next k)) k) }
    ensures forged { (words : Words) (side : Side) (number station channel : ℕ) (octets : List ℕ)
        (hearing : Hearing) (history : List Event) (k : Keyed)
        → heard_in_line side number (journal_of history)
        (Air (side_of station) channel octets (mark_of hearing.fate) hearing.verdict)
        ≡ HearsForged ∷ []
        → keyed_on words side number (journal_of history) ≡ Some k
        → keyed_on words side number
        (journal_of (history ++ Transmitted station channel octets (hearing ∷ []) ∷ []))
        ≡ Some (keyed_by Forges k) }
    ensures unheard { (words : Words) (side : Side) (number station channel : ℕ) (octets : List ℕ)
        (hearing : Hearing) (history : List Event)
        → heard_in_line side number (journal_of history)
        (Air (side_of station) channel octets (mark_of hearing.fate) hearing.verdict) ≡ []
        → keyed_on words side number
        (journal_of (history ++ Transmitted station channel octets (hearing ∷ []) ∷ []))
        ≡ keyed_on words side number (journal_of history) }
{}
