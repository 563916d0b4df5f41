//! Laws of how an end leaves its link, after each event of a history that is no call. The bodies
//! are empty: the contracts are the laws.
ghost use Rattle.std.specs.Prelude.{◌≡◌, ◌++◌, ◌∷◌, [], ℕ, Bool, List, Some, false, true};
ghost use Rattle.ble_base.specs.declared.roles.Side.{Side};
ghost use Rattle.journal.specs.declared.entries.Entry.TheVariants.{Air};
ghost use Rattle.journal_controls.specs.LineSteps.{is_more_acked};
ghost use Rattle.journal_controls.specs.journal_acks.Carried.{carried_of};
ghost use Rattle.journal_controls.specs.journal_acks.Exchange.{exchange_of};
ghost use Rattle.journal_controls.specs.journal_ends.Seen.{Hears, HearsForged, heard_in_line};
ghost use Rattle.journal_controls.specs.link_model.Receiving.{leaving_acked_if};
ghost use Rattle.journal_controls.specs.link_model.Sending.{leaving_sent};
ghost use Rattle.journal_controls.specs.link_model.declared.state.Leaving.{Leaving};
ghost use Rattle.journal_controls.specs.run_model.History.{Event, Hearing, HostFed, Transmitted};
ghost use Rattle.journal_controls.specs.run_model.History.{TurnBegan};
ghost use Rattle.journal_controls.specs.run_model.Journal.{journal_of, mark_of, side_of};
ghost use Rattle.journal_leaving.specs.Leaving.{acks_terminate, is_own_packet, leaving_on};
ghost use Rattle.journal_controls.specs.journal_ends.Asked.{Words};

/// After any history, a turn that begins and what a host sends leave each end as it is.
pub fn turns_and_hosts_leave_an_end_as_it_is()
    ensures turn { (words : Words) (side : Side) (number slot : ℕ) (radios : List Bool) (history : List Event)
        → leaving_on words side number (journal_of (history ++ TurnBegan slot radios ∷ []))
        ≡ leaving_on words side number (journal_of history) }
    ensures host { (words : Words) (side : Side) (number station : ℕ) (octets : List ℕ) (history : List Event)
        → leaving_on words side number (journal_of (history ++ HostFed station octets ∷ []))
        ≡ leaving_on words side number (journal_of history) }
{}

/// After any history, a packet on the air is one more that the end sent whose packet it is. At the
/// end that hears it, it may acknowledge LL_TERMINATE_IND, by the counts of the link before the
/// packet and after it; where that judges it forged, it leaves how the end is to leave as it was. It
/// leaves any other end as it is (Core 5.2, volume 6 part B, sections 5.1.3.1 and 5.1.6).
pub fn a_packet_moves_how_its_two_ends_leave()
    ensures sent { (words : Words) (side : Side) (number station channel : ℕ) (octets : List ℕ)
        (hearing : Hearing) (history : List Event) (leaving : Leaving)
        → is_own_packet side number (journal_of history)
        (Air (side_of station) channel octets (mark_of hearing.fate) hearing.verdict) ≡ true
        → leaving_on words side number (journal_of history) ≡ Some leaving
        → leaving_on words side number
        (journal_of (history ++ Transmitted station channel octets (hearing ∷ []) ∷ []))
        ≡ Some (leaving_sent leaving) }
    ensures heard { (words : Words) (side : Side) (number station channel slot : ℕ) (octets heard : List ℕ)
        (hearing : Hearing) (history : List Event) (leaving : Leaving)
        → heard_in_line side number (journal_of history)
        (Air (side_of station) channel octets (mark_of hearing.fate) hearing.verdict)
        ≡ Hears slot heard ∷ []
        → leaving_on words side number (journal_of history) ≡ Some leaving
        → let after = history ++ Transmitted station channel octets (hearing ∷ []) ∷ [] in
        leaving_on words side number (journal_of after)
        ≡ Some (leaving_acked_if
        (acks_terminate (is_more_acked (exchange_of number (journal_of history) side)
        (exchange_of number (journal_of after) side))
        (carried_of number (journal_of history) side)) leaving) }
    ensures forged { (words : Words) (side : Side) (number station channel : ℕ) (octets : List ℕ)
        (hearing : Hearing) (history : List Event) (leaving : Leaving)
        → heard_in_line side number (journal_of history)
        (Air (side_of station) channel octets (mark_of hearing.fate) hearing.verdict)
        ≡ HearsForged ∷ []
        → leaving_on words side number (journal_of history) ≡ Some leaving
        → leaving_on words side number
        (journal_of (history ++ Transmitted station channel octets (hearing ∷ []) ∷ []))
        ≡ Some leaving }
    ensures neither { (words : Words) (side : Side) (number station channel : ℕ) (octets : List ℕ)
        (hearing : Hearing) (history : List Event)
        → heard_in_line side number (journal_of history)
        (Air (side_of station) channel octets (mark_of hearing.fate) hearing.verdict) ≡ []
        → is_own_packet side number (journal_of history)
        (Air (side_of station) channel octets (mark_of hearing.fate) hearing.verdict) ≡ false
        → leaving_on words side number
        (journal_of (history ++ Transmitted station channel octets (hearing ∷ []) ∷ []))
        ≡ leaving_on words side number (journal_of history) }
{}
