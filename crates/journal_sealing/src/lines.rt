//! Laws of the payload by the lines of any journal. The bodies are empty: the contracts are the laws.
ghost use Rattle.std.specs.Prelude.{◌≡◌, ◌++◌, ◌∷◌, [], ℕ, List, Some, false, true};
ghost use Rattle.ble_base.specs.declared.roles.Side.{Side};
ghost use Rattle.ble_base.specs.declared.verdicts.Verdict.{Verdict};
ghost use Rattle.journal.specs.declared.entries.Entry.{Entry};
ghost use Rattle.journal.specs.declared.entries.Entry.TheVariants.{Air, Sent};
ghost use Rattle.journal.specs.declared.entries.Mark.{Mark};
ghost use Rattle.journal_controls.specs.journal_acks.run_laws.Ranges.{IsPayload};
ghost use Rattle.journal_controls.specs.journal_acks.Carried.{carried_of, sent_line_of};
ghost use Rattle.journal_controls.specs.journal_acks.Exchange.{exchange_of};
ghost use Rattle.journal_controls.specs.journal_ends.Asked.{Words};
ghost use Rattle.journal_controls.specs.LineSteps.{keyed_on};
ghost use Rattle.journal_controls.specs.link_model.enc_phase.Phases.{seals};
ghost use Rattle.journal_controls.specs.link_model.keyed_control.Keyed.{Keyed};
ghost use Rattle.journal_sealing.specs.Forged.{OpensNothing, is_forged_for};
ghost use Rattle.journal_sealing.specs.SealedLines.{HasPayload, NeverSeals, NoneSent};
ghost use Rattle.journal_sealing.specs.SealedLines.{payload_carried, sealed_line_of};
ghost use Rattle.journal_sealing.specs.SealedLines.{without_payload};
ghost use Rattle.journal_sealing.specs.Sessions.{GoesOnSealing, IsLaterInSession};

/// The lines that give a payload are those that give the PDU in a packet, and it is a payload of that
/// PDU: its body, or four octets longer, and empty where the PDU is (Core 5.2, volume 6 part B,
/// section 2.4, and part E, section 2).
pub fn a_payload_by_lines_is_of_the_pdu_that_is_carried()
    ensures lines { (words : Words) (number : ℕ) (journal : List Entry) (side : Side)
        → without_payload (sealed_line_of words number journal side) ≡ sent_line_of number journal side }
    ensures payload { (words : Words) (number : ℕ) (journal : List Entry) (side : Side)
        → IsPayload (carried_of number journal side) (payload_carried words number journal side) }
{}

/// The payload by lines stays the same in lines that send no new PDU of the side and tell of no
/// acknowledgement. So it does in each packet of the side itself, and two packets between which
/// nothing was acknowledged and no new PDU was sent have one payload: a PDU that is sent again has the
/// payload of its first packet, whatever counters the end has by then (Core 5.2, volume 6 part B,
/// section 4.5.9).
pub fn the_payload_by_lines_stays_until_an_acknowledgement()
    ensures lines { (words : Words) (number : ℕ) (front more : List Entry) (side : Side) → NoneSent number side more
        → (exchange_of number (front ++ more) side).acked
        ≡ (exchange_of number front side).acked
        → payload_carried words number (front ++ more) side ≡ payload_carried words number front side }
    ensures packets { (words : Words) (number : ℕ) (front : List Entry) (side : Side) (channel : ℕ)
        (octets : List ℕ) (fate : Mark) (verdict : Verdict)
        → payload_carried words number (front ++ Air side channel octets fate verdict ∷ []) side
        ≡ payload_carried words number front side }
    ensures again { (words : Words) (front more : List Entry) (side : Side) (channel channel_too : ℕ)
        (octets octets_too : List ℕ) (fate : Mark) (verdict : Verdict)
        (p : HasPayload words front side channel octets)
        (q : HasPayload words (front ++ Air side channel octets fate verdict ∷ more) side channel_too
        octets_too) → q.packet.number ≡ p.packet.number → NoneSent p.packet.number side more
        → (exchange_of p.packet.number (front ++ Air side channel octets fate verdict ∷ more)
        side).acked ≡ (exchange_of p.packet.number front side).acked
        → q.packet.payload ≡ p.packet.payload }
{}

/// Where the end of a side never seals, as the lines say, the payload by lines is the body of the
/// PDU (Core 5.2, volume 6 part B, section 5.1.3).
pub fn an_end_that_never_seals_sends_bodies()
    ensures { (words : Words) (number : ℕ) (journal : List Entry) (side : Side) → NeverSeals words number journal side
        → payload_carried words number journal side ≡ (carried_of number journal side).body }
{}

/// Where the end of a side opens nothing, as the lines say, no packet is forged for it (Core 5.2, volume
/// 6 part B, section 5.1.3.1).
pub fn nothing_is_forged_for_an_end_that_opens_nothing()
    ensures { (words : Words) (number : ℕ) (front : List Entry) (side : Side) (channel : ℕ) (octets : List ℕ)
        → OpensNothing words number front side → is_forged_for words number front side channel octets ≡ false }
{}

/// Where the end of a side seals a PDU, as the lines say, it has the same key and initialization vector
/// and a higher counter at each later place up to which it goes on sealing: the link is open there, and
/// its counter is not 0 again, as it is where a session begins. So in one session no two PDUs have one
/// counter (Core 5.2, volume 6 part B, section 5.1.3.1, and part E, section 2).
pub fn a_counter_is_used_once_in_a_session()
    ensures { (words : Words) (number : ℕ) (side : Side) (front more : List Entry) (count llid : ℕ)
        (body : List ℕ) (one later : Keyed)
        → keyed_on words side number front ≡ Some one → seals one.end.role one.end.phase ≡ true
        → GoesOnSealing words number side (front ++ Sent side number count llid body ∷ []) more
        → keyed_on words side number (front ++ Sent side number count llid body ∷ more)
        ≡ Some later → IsLaterInSession one later }
{}
