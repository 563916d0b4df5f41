//! Laws of acknowledgement by one bit each way (Core 5.2, volume 6 part B, section 4.5.9). The
//! bodies do nothing: the contracts are the laws. `C` is the type of a PDU.

ghost use Rattle.std.specs.Prelude.{◌≡◌, ℕ, ◌+◌, ◌-◌, Bool, true, false, Some};
ghost use Rattle.std.specs.Prelude.{List, length, take, slice_get};
ghost use Rattle.ack_bit.specs.AckBits.{first_bits, is_new, is_odd};
ghost use Rattle.ack_bit.specs.AckNumbers.{Arrival, bits_after, ack_count, accept_count};
ghost use Rattle.ack_bit.specs.AckLink.{End, Packet, Step, Link, first_end, header_from};
ghost use Rattle.ack_bit.specs.AckLink.{after_sending, after_receiving, step_of, run, link_after};
ghost use Rattle.ack_bit.specs.AckLink.{IsReliable, SaysWhatIsAccepted};
ghost use Rattle.ack_bit.specs.InStep.{AreInStep, IsInStep, IsOut};
ghost use Rattle.ack_bit.specs.Nonempty.{nonempty, IsReliableNonempty};

/// The two bits of one end are counts modulo 2: SN of the acknowledgements that it saw, NESN of the
/// PDUs that it accepted, whatever packets it received and whenever there was no room.
pub fn numbers_are_counts()
    ensures sn { (packets : List Arrival)
        → (bits_after first_bits packets).sn ≡ is_odd (ack_count first_bits packets) }
    ensures nesn { (packets : List Arrival)
        → (bits_after first_bits packets).nesn ≡ is_odd (accept_count first_bits packets) }
{}

/// The invariant of a link holds when it begins, whichever end is named first. It is kept when an
/// end sends, after which that end has a PDU out; when a packet of an end that has a PDU out is
/// received; by each step of the link; and so over each run.
pub fn ends_stay_in_step<C>()
    ensures begins { (x y : C) → AreInStep (first_end x) (first_end y) }
    ensures exchanged { (a b : End C) → AreInStep a b → AreInStep b a }
    ensures sent { (a b : End C) (next : C) → AreInStep a b → AreInStep (after_sending a next) b }
    ensures out { (a b : End C) (next : C) → AreInStep a b → IsOut (after_sending a next) }
    ensures received { (a b : End C) (p : Packet C) → AreInStep a b → IsOut a
        → AreInStep a (after_receiving b (header_from a p) a.last p.room) }
    ensures step { (link : Link C) (step : Step C) → AreInStep link.a link.b
        → AreInStep (step_of link step).a (step_of link step).b }
    ensures run { (link : Link C) (steps : List (Step C)) → AreInStep link.a link.b
        → AreInStep (run link steps).a (run link steps).b }
{}

/// Whatever packets are lost, and whenever there is no room: each end accepts each PDU of the other
/// at most once, and in order, all but at most the last one. It takes for acknowledged only what
/// the other accepted.
pub fn each_pdu_at_most_once_and_in_order<C>()
    ensures from_a { (x y : C) (steps : List (Step C))
        → IsReliable (link_after x y steps).a (link_after x y steps).b }
    ensures from_b { (x y : C) (steps : List (Step C))
        → IsReliable (link_after x y steps).b (link_after x y steps).a }
{}

/// The bits of each end of a link are its counts modulo 2: SN of its PDUs that are acknowledged,
/// NESN of the PDUs that it accepted.
pub fn bits_are_counts<C>()
    ensures sn_of_a { (x y : C) (steps : List (Step C))
        → (link_after x y steps).a.bits.sn ≡ is_odd (link_after x y steps).a.acked }
    ensures nesn_of_a { (x y : C) (steps : List (Step C))
        → (link_after x y steps).a.bits.nesn ≡ is_odd (length (link_after x y steps).a.accepted) }
    ensures sn_of_b { (x y : C) (steps : List (Step C))
        → (link_after x y steps).b.bits.sn ≡ is_odd (link_after x y steps).b.acked }
    ensures nesn_of_b { (x y : C) (steps : List (Step C))
        → (link_after x y steps).b.bits.nesn ≡ is_odd (length (link_after x y steps).b.accepted) }
{}

/// The PDU that an end sends, again or for the first time, is the last of those that it sent. So
/// its number, from 1 on, is their count.
pub fn packets_carry_the_last_pdu_sent<C>()
    ensures from_a { (x y : C) (steps : List (Step C)) → let a = (link_after x y steps).a in
        slice_get a.sent (length a.sent - 1) ≡ Some a.last }
    ensures from_b { (x y : C) (steps : List (Step C)) → let b = (link_after x y steps).b in
        slice_get b.sent (length b.sent - 1) ≡ Some b.last }
{}

/// The bits of a packet say exactly what was accepted: its PDU is new exactly where the other end
/// has not accepted it yet, and it acknowledges exactly where its sender has accepted what the
/// other end sent last.
pub fn bits_say_what_was_accepted<C>()
    ensures in_step { (s r : End C) (p : Packet C) → AreInStep s r → SaysWhatIsAccepted s r p }
    ensures from_a { (x y : C) (steps : List (Step C)) (p : Packet C)
        → SaysWhatIsAccepted (link_after x y steps).a (link_after x y steps).b p }
    ensures from_b { (x y : C) (steps : List (Step C)) (p : Packet C)
        → SaysWhatIsAccepted (link_after x y steps).b (link_after x y steps).a p }
{}

/// After a packet of s arrives at r, the PDUs of r that r takes for acknowledged are exactly those
/// that s accepted, whatever PDU the packet carries.
pub fn arrival_acknowledges_all_accepted<C>()
    ensures count { (s r : End C) (p : Packet C) (pdu : C) → IsInStep r s
        → (after_receiving r (header_from s p) pdu p.room).acked ≡ length s.accepted }
    ensures pdus { (s r : End C) (p : Packet C) (pdu : C) → IsInStep r s
        → take (after_receiving r (header_from s p) pdu p.room).acked r.sent ≡ s.accepted }
{}

/// The same of the nonempty PDUs alone, whichever PDUs count as empty: the other end accepts them
/// at most once, in order and under the numbers that they were sent under. A new nonempty PDU that
/// arrives has the next number. After an arrival the acknowledged ones are those that were
/// accepted.
pub fn nonempty_pdus_at_most_once_and_in_order<C>()
    ensures reliable { (is_empty : C → Bool) (s r : End C) → IsInStep s r
        → IsReliableNonempty is_empty s r }
    ensures from_a { (is_empty : C → Bool) (x y : C) (steps : List (Step C))
        → IsReliableNonempty is_empty (link_after x y steps).a (link_after x y steps).b }
    ensures from_b { (is_empty : C → Bool) (x y : C) (steps : List (Step C))
        → IsReliableNonempty is_empty (link_after x y steps).b (link_after x y steps).a }
    ensures fresh { (is_empty : C → Bool) (s r : End C) (p : Packet C) → IsInStep s r → IsOut s
        → is_new r.bits (header_from s p) ≡ true → is_empty s.last ≡ false
        → length (nonempty is_empty s.sent) ≡ length (nonempty is_empty r.accepted) + 1 }
    ensures acked { (is_empty : C → Bool) (s r : End C) (p : Packet C) (pdu : C) → IsInStep r s
        → nonempty is_empty (take (after_receiving r (header_from s p) pdu p.room).acked r.sent)
        ≡ nonempty is_empty s.accepted }
{}
