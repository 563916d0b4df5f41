//! Laws of both ends of a link. The bodies only call the laws that they rest on: the contracts are
//! the laws.
ghost use Rattle.std.specs.Prelude.{◌≡◌, ◌+◌, ◌≤◌, ℕ, Bool, true, false, List};
ghost use Rattle.link_model.specs.Setup.{Setup};
ghost use Rattle.link_model.specs.Facts.{Facts, first_facts};
ghost use Rattle.link_model.specs.End.{facts_after};
ghost use Rattle.link_model.specs.Receiving.{replies_of};
ghost use Rattle.link_model.specs.Step.{Step};
ghost use Rattle.link_pairs.specs.Ends.{AreEnds, heard_turns};
ghost use Rattle.link_pairs.specs.Hearing.{IsPacketOf, answered, is_mixed, received};
ghost use Rattle.link_pairs.specs.Hosts.{MayHost};
ghost use Rattle.link_pairs.specs.Shown.{AreLinked};
ghost use Rattle.link_pairs.specs.Turns.{HaveBegun, MayExchange, central_begun, prepared};

/// Two ends that one CONNECT_IND opened are linked, in the turn of that (Core 5.2, volume 6 part B,
/// section 4.5).
pub fn a_new_link_is_linked()
    ensures { (central peripheral : Setup) → AreEnds central peripheral
        → AreLinked central peripheral (central.opened + 1) false (first_facts central)
        (first_facts peripheral) }
{}

/// Whatever the host of an end asks, answers, ends or sends, the two ends stay linked.
pub fn hosts_leave_ends_linked()
    ensures central { (central peripheral : Setup) (turns : ℕ) (answers : Bool) (c p : Facts)
        (step : Step) → AreEnds central peripheral
        → AreLinked central peripheral turns answers c p → MayHost step c
        → AreLinked central peripheral turns answers (facts_after central c step) p }
    ensures peripheral { (central peripheral : Setup) (turns : ℕ) (answers : Bool) (c p : Facts)
        (step : Step) → AreEnds central peripheral
        → AreLinked central peripheral turns answers c p → MayHost step p
        → AreLinked central peripheral turns answers c (facts_after peripheral p step) }
{}

/// A turn begins: each end enters its event if the anchor is in this turn, an end that has an
/// exchange in the turn fixes its PDU, and the central sends its packet. They stay linked (Core 5.2,
/// volume 6 part B, sections 4.5.1 and 4.5.9).
pub fn a_turn_leaves_ends_linked()
    ensures { (central peripheral : Setup) (slot : ℕ) (answers transmits listens : Bool)
        (c p : Facts) → AreEnds central peripheral
        → AreLinked central peripheral slot answers c p → MayExchange central slot transmits c
        → MayExchange peripheral slot listens p
        → HaveBegun central peripheral slot transmits listens
        (central_begun central slot transmits c) (prepared peripheral slot listens p) }
{}

/// The packet of the central reaches the peripheral on its channel, before the supervision timeout
/// has passed: the peripheral sees its own last PDU acknowledged, or not, takes the new one, or not,
/// and answers; or the packet is forged for it, and the link ends there. They stay linked, unless
/// both have other keys and the integrity code is right by chance (Core 5.2, volume 6 part B,
/// sections 4.5.2, 4.5.9 and 5.1.3.1).
pub fn a_peripheral_that_hears_stays_linked()
    ensures { (central peripheral : Setup) (slot : ℕ) (c p : Facts) (channel : ℕ)
        (octets : List ℕ) (room : Bool) → AreEnds central peripheral
        → HaveBegun central peripheral slot true true c p
        → IsPacketOf central slot c channel octets → channel ≡ p.event.channel
        → slot + 1 ≤ heard_turns peripheral p + 32768
        → is_mixed peripheral p octets c.acknowledgement.last ≡ false
        → AreLinked central peripheral (slot + 1) (replies_of peripheral p slot octets room) c
        (answered peripheral slot octets room p) }
{
    air_frame::laws::packet_tells_its_pdu();
}

/// The answer reaches the central on its channel, in the same turn. They stay linked, unless both
/// have other keys and the integrity code is right by chance (Core 5.2, volume 6 part B, sections
/// 4.5.9 and 5.1.3.1).
pub fn a_central_that_hears_stays_linked()
    ensures { (central peripheral : Setup) (slot : ℕ) (c p : Facts) (channel : ℕ)
        (octets : List ℕ) (room : Bool) → AreEnds central peripheral
        → AreLinked central peripheral (slot + 1) true c p → heard_turns central c ≤ slot
        → 1 ≤ c.control.track.entered
        → IsPacketOf peripheral slot p channel octets → channel ≡ c.event.channel
        → is_mixed central c octets p.acknowledgement.last ≡ false
        → AreLinked central peripheral (slot + 1) false (received central slot octets room c) p }
{
    air_frame::laws::packet_tells_its_pdu();
}
