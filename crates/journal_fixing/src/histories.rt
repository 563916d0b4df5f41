//! Laws of an end as it fixes its next PDU, and as that goes, after each event and call of a
//! history. The bodies are empty: the contracts are the laws.
ghost use Rattle.std.specs.Prelude.{◌≡◌, ◌&&◌, ◌++◌, ◌∷◌, [], ℕ, Bool, List, Some, false, true};
ghost use Rattle.ble_base.specs.declared.roles.Side.{Side};
ghost use Rattle.journal_controls.specs.controller_model.Step.{Step as Call};
ghost use Rattle.journal.specs.declared.entries.Entry.{Entry};
ghost use Rattle.journal.specs.declared.entries.Entry.TheVariants.{Air};
ghost use Rattle.journal_controls.specs.LineSteps.{is_more_acked, keyed_on, turn_now};
ghost use Rattle.journal_controls.specs.LineSteps.{withholds};
ghost use Rattle.journal_controls.specs.SaidLines.{NoneOpens, moved_by};
ghost use Rattle.journal_controls.specs.journal_acks.Carried.{carried_of};
ghost use Rattle.journal_controls.specs.journal_acks.Exchange.{exchange_of};
ghost use Rattle.journal_controls.specs.journal_ends.Seen.{Hears, heard_in_line};
ghost use Rattle.journal_controls.specs.journal_links.LinkLines.{lines_of};
ghost use Rattle.journal_controls.specs.link_model.Data.{is_control};
ghost use Rattle.journal_controls.specs.link_model.Receiving.{keyed_acked_if};
ghost use Rattle.journal_controls.specs.link_model.keyed_control.Keyed.{Keyed};
ghost use Rattle.journal_controls.specs.run_model.Feeding.{is_octet};
ghost use Rattle.journal_controls.specs.run_model.History.{Event, Hearing, HostFed, Transmitted};
ghost use Rattle.journal_controls.specs.run_model.History.{TurnBegan};
ghost use Rattle.journal_controls.specs.run_model.Journal.{journal_of, mark_of, side_of};
ghost use Rattle.journal_controls.specs.run_model.Run.{Given, after_call};
ghost use Rattle.journal_fixing.specs.OnLines.{control_fixing, control_going, has_heard, is_fixed};
ghost use Rattle.journal_fixing.specs.OnLines.{NoneTakes, before_sending};
ghost use Rattle.journal_controls.specs.journal_ends.Asked.{Words};

/// After any history, a turn that begins has no PDU fixed and nothing heard yet, and what a host
/// sends keeps the end with which the next PDU is fixed, and goes.
pub fn a_turn_begins_with_no_pdu_fixed()
    ensures fixing { (words : Words) (side : Side) (number slot : ℕ) (radios : List Bool) (history : List Event)
        → control_fixing words side number (journal_of (history ++ TurnBegan slot radios ∷ []))
        ≡ keyed_on words side number (journal_of history) }
    ensures going { (words : Words) (side : Side) (number slot : ℕ) (radios : List Bool) (history : List Event)
        → control_going words side number (journal_of (history ++ TurnBegan slot radios ∷ []))
        ≡ keyed_on words side number (journal_of history) }
    ensures unfixed { (words : Words) (side : Side) (number slot : ℕ) (radios : List Bool) (history : List Event)
        → is_fixed words side number (journal_of (history ++ TurnBegan slot radios ∷ [])) ≡ false }
    ensures unheard { (words : Words) (side : Side) (number slot : ℕ) (radios : List Bool) (history : List Event)
        → has_heard words side number (journal_of (history ++ TurnBegan slot radios ∷ [])) ≡ false }
    ensures host_fixing { (words : Words) (side : Side) (number station : ℕ) (octets : List ℕ)
        (history : List Event)
        → control_fixing words side number (journal_of (history ++ HostFed station octets ∷ []))
        ≡ control_fixing words side number (journal_of history) }
    ensures host_going { (words : Words) (side : Side) (number station : ℕ) (octets : List ℕ)
        (history : List Event)
        → control_going words side number (journal_of (history ++ HostFed station octets ∷ []))
        ≡ control_going words side number (journal_of history) }
{}

/// After any history, a packet on the air leaves the next PDU of each end fixed, by the end that it
/// was fixed with. Where an end hears it as the first of its turn, the end with which its next
/// control PDU goes is that of now, with the last control PDU acknowledged if the packet does that
/// (Core 5.2, volume 6 part B, section 4.5.9; the order is our choice).
pub fn a_packet_keeps_the_control_part_that_fixed_a_pdu()
    ensures fixed { (words : Words) (side : Side) (number station channel : ℕ) (octets : List ℕ)
        (hearing : Hearing) (history : List Event)
        → is_fixed words side number
        (journal_of (history ++ Transmitted station channel octets (hearing ∷ []) ∷ [])) ≡ true }
    ensures fixing { (words : Words) (side : Side) (number station channel : ℕ) (octets : List ℕ)
        (hearing : Hearing) (history : List Event)
        → control_fixing words side number
        (journal_of (history ++ Transmitted station channel octets (hearing ∷ []) ∷ []))
        ≡ control_fixing words side number (journal_of history) }
    ensures unheard { (words : Words) (side : Side) (number station channel : ℕ) (octets : List ℕ)
        (hearing : Hearing) (history : List Event)
        → heard_in_line side number (journal_of history)
        (Air (side_of station) channel octets (mark_of hearing.fate) hearing.verdict) ≡ []
        → control_going words side number
        (journal_of (history ++ Transmitted station channel octets (hearing ∷ []) ∷ []))
        ≡ control_going words side number (journal_of history) }
    ensures heard { (words : Words) (side : Side) (number station channel slot : ℕ) (octets heard : List ℕ)
        (hearing : Hearing) (history : List Event) (k : Keyed)
        → has_heard words side number (journal_of history) ≡ false
        → heard_in_line side number (journal_of history)
        (Air (side_of station) channel octets (mark_of hearing.fate) hearing.verdict)
        ≡ Hears slot heard ∷ []
        → keyed_on words side number (journal_of history) ≡ Some k
        → let after = history ++ Transmitted station channel octets (hearing ∷ []) ∷ [] in
        control_going words side number (journal_of after)
        ≡ Some (keyed_acked_if
        (is_more_acked (exchange_of number (journal_of history) side)
        (exchange_of number (journal_of after) side)
        && is_control (carried_of number (journal_of history) side)) k) }
{}

/// A call on a controller, after any history, keeps the end that fixed its next PDU, once that is
/// fixed. Else, where the call is one of a turn, that is the end before the line of a new PDU that
/// the call adds for it, or after all its lines. What is kept as a packet is heard stays as well, and
/// else it is the end after the call.
pub fn calls_keep_the_control_part_that_fixed_a_pdu()
    ensures fixed { (words : Words) (given : Given) (side : Side) (number station : ℕ) (call : Call)
        (history : List Event)
        → is_fixed words side number (journal_of history) ≡ true
        → control_fixing words side number (journal_of (after_call given station call history))
        ≡ control_fixing words side number (journal_of history) }
    ensures fixes { (words : Words) (given : Given) (side : Side) (number station : ℕ) (call : Call)
        (history : List Event) (more : List Entry) (k : Keyed) → is_octet call ≡ false
        → lines_of side number (journal_of (after_call given station call history))
        ≡ lines_of side number (journal_of history) ++ more
        → NoneOpens more → NoneTakes (before_sending more)
        → is_fixed words side number (journal_of history) ≡ false
        → keyed_on words side number (journal_of history) ≡ Some k
        → control_fixing words side number (journal_of (after_call given station call history))
        ≡ Some (moved_by (withholds side (journal_of history))
        (words side (journal_of history)) (turn_now (journal_of history)) (before_sending more)
        k) }
    ensures heard { (words : Words) (given : Given) (side : Side) (number station : ℕ) (call : Call)
        (history : List Event)
        → has_heard words side number (journal_of history) ≡ true
        → control_going words side number (journal_of (after_call given station call history))
        ≡ control_going words side number (journal_of history) }
    ensures unheard { (words : Words) (given : Given) (side : Side) (number station : ℕ) (call : Call)
        (history : List Event)
        → has_heard words side number (journal_of history) ≡ false
        → control_going words side number (journal_of (after_call given station call history))
        ≡ keyed_on words side number (journal_of (after_call given station call history)) }
{}
