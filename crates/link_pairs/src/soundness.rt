//! What follows of two linked ends while the link lasts at both. The bodies only call the laws that
//! they rest on: the contracts are the laws.
ghost use Rattle.std.specs.Prelude.{◌≡◌, ◌⊎◌, ◌+◌, ◌≤◌, ℕ, Bool, true, false, List, None};
ghost use Rattle.std.specs.Prelude.{if◌then◌else◌};
ghost use Rattle.ble_base.specs.declared.verdicts.Verdict.TheVariants.{Forged, Good};
ghost use Rattle.link_model.specs.Setup.{Setup};
ghost use Rattle.link_model.specs.Facts.{Facts};
ghost use Rattle.link_model.specs.End.{facts_after};
ghost use Rattle.link_model.specs.Packets.{is_forged, verdict_of};
ghost use Rattle.link_model.specs.Step.{Step};
ghost use Rattle.link_pairs.specs.Ends.{AreEnds, heard_turns, is_lasting};
ghost use Rattle.link_pairs.specs.Hearing.{HaveOneKey, IsPacketOf, answered, is_mixed};
ghost use Rattle.link_pairs.specs.Hearing.{is_mixed_packet, received};
ghost use Rattle.link_pairs.specs.Hosts.{MayHost};
ghost use Rattle.link_pairs.specs.Shown.{AreLinked, keys_of, link_of};
ghost use Rattle.link_pairs.specs.Sound.{AreSoundEnds, EndsForInstant, EndsForged, EndsNothing};
ghost use Rattle.link_pairs.specs.Sound.{IsJointState, ShareEvent};
ghost use Rattle.link_pairs.specs.Turns.{HaveBegun, central_begun, prepared};

/// Two linked ends are a joint run that goes on while the link lasts at both, so all laws of joint
/// runs hold of them. Their counts of acknowledgement agree. Each has the parameters and the anchor
/// that follow from the first indications that the central sent, and at the central at most one
/// more of these holds than at the peripheral. At most ten control PDUs wait at each end, and the
/// last PDU of each fits the other (Core 5.2, volume 6 part B, sections 4.5.9, 4.5.10 and 5.5).
pub fn linked_ends_are_sound()
    ensures ends { (central peripheral : Setup) (turns : ℕ) (answers : Bool) (c p : Facts)
        → AreEnds central peripheral → AreLinked central peripheral turns answers c p
        → is_lasting c ≡ true → is_lasting p ≡ true → AreSoundEnds central peripheral c p }
    ensures state { (central peripheral : Setup) (turns : ℕ) (answers : Bool) (c p : Facts)
        → AreEnds central peripheral → (linked : AreLinked central peripheral turns answers c p)
        → is_lasting c ≡ true → is_lasting p ≡ true
        → IsJointState central peripheral c p (link_of central peripheral linked.steps).joint }
{}

/// While the link lasts at both ends, the packet that one has sent is good at the other, where that
/// is on its channel, unless it is forged there. Where its PDU was sealed with the session key of
/// the other end, or not sealed, it is not forged, and read as it was sent (Core 5.2, volume 6 part
/// B, sections 2.1, 4.5.10 and 5.1.3.1, and part E, section 2).
pub fn linked_ends_understand_each_other()
    ensures peripheral { (central peripheral : Setup) (turns slot : ℕ) (answers : Bool)
        (c p : Facts) (channel : ℕ) (octets : List ℕ) → AreEnds central peripheral
        → AreLinked central peripheral turns answers c p → is_lasting c ≡ true
        → is_lasting p ≡ true → IsPacketOf central slot c channel octets
        → channel ≡ p.event.channel → verdict_of peripheral p octets
        ≡ (if is_forged peripheral p octets then Forged else Good) }
    ensures central { (central peripheral : Setup) (turns slot : ℕ) (answers : Bool)
        (c p : Facts) (channel : ℕ) (octets : List ℕ) → AreEnds central peripheral
        → AreLinked central peripheral turns answers c p → is_lasting c ≡ true
        → is_lasting p ≡ true → IsPacketOf peripheral slot p channel octets
        → channel ≡ c.event.channel
        → verdict_of central c octets ≡ (if is_forged central c octets then Forged else Good) }
    ensures peripheral_with_one_key { (central peripheral : Setup) (turns slot : ℕ)
        (answers : Bool) (c p : Facts) (channel : ℕ) (octets : List ℕ)
        → AreEnds central peripheral → (linked : AreLinked central peripheral turns answers c p)
        → is_lasting c ≡ true → is_lasting p ≡ true → IsPacketOf central slot c channel octets
        → channel ≡ p.event.channel
        → HaveOneKey (keys_of central peripheral linked.steps).central.made p.encryption.end
        → (is_forged peripheral p octets ≡ false)
        × (is_mixed peripheral p octets c.acknowledgement.last ≡ false) }
    ensures central_with_one_key { (central peripheral : Setup) (turns slot : ℕ)
        (answers : Bool) (c p : Facts) (channel : ℕ) (octets : List ℕ)
        → AreEnds central peripheral → (linked : AreLinked central peripheral turns answers c p)
        → is_lasting c ≡ true → is_lasting p ≡ true
        → IsPacketOf peripheral slot p channel octets → channel ≡ c.event.channel
        → HaveOneKey (keys_of central peripheral linked.steps).peripheral.made c.encryption.end
        → (is_forged central c octets ≡ false)
        × (is_mixed central c octets p.acknowledgement.last ≡ false) }
{
    air_frame::laws::packet_tells_its_pdu();
    link_model::a_sealed_packet_is_opened();
}

/// While the link lasts at both ends, a packet of one is read by the other as another than was sent
/// only where it is mixed: it brings a new PDU that is not empty and sealed, and is good, though the
/// session keys of both ends differ (Core 5.2, volume 6 part B, section 5.1.3.1, and part E, section
/// 2).
pub fn a_packet_is_mixed_only_with_other_keys()
    ensures peripheral { (central peripheral : Setup) (turns slot : ℕ) (answers : Bool)
        (c p : Facts) (channel : ℕ) (octets : List ℕ) → AreEnds central peripheral
        → AreLinked central peripheral turns answers c p → is_lasting c ≡ true
        → is_lasting p ≡ true → IsPacketOf central slot c channel octets
        → channel ≡ p.event.channel → is_mixed_packet peripheral p c octets ≡ false
        → is_mixed peripheral p octets c.acknowledgement.last ≡ false }
    ensures central { (central peripheral : Setup) (turns slot : ℕ) (answers : Bool)
        (c p : Facts) (channel : ℕ) (octets : List ℕ) → AreEnds central peripheral
        → AreLinked central peripheral turns answers c p → is_lasting c ≡ true
        → is_lasting p ≡ true → IsPacketOf peripheral slot p channel octets
        → channel ≡ c.event.channel → is_mixed_packet central c p octets ≡ false
        → is_mixed central c octets p.acknowledgement.last ≡ false }
{
    air_frame::laws::packet_tells_its_pdu();
    link_model::a_sealed_packet_is_opened();
}

/// Where the peripheral hears the central while the link lasts at both, they are in the event of
/// one number, with one anchor; or the peripheral has passed the Instant of the last indication
/// that the central sent, and ends the link with 0x28; or the packet is forged, and ends it with
/// 0x3D. Once the peripheral has answered, they are in the event of one number, with one anchor, in
/// that turn (Core 5.2, volume 6 part B, sections 4.5.1, 5.1.3.1 and 5.5.1).
pub fn linked_ends_hear_in_one_event()
    ensures peripheral { (central peripheral : Setup) (slot : ℕ) (c p : Facts) (channel : ℕ)
        (octets : List ℕ) (room : Bool) → AreEnds central peripheral
        → HaveBegun central peripheral slot true true c p → is_lasting c ≡ true
        → is_lasting p ≡ true → IsPacketOf central slot c channel octets
        → channel ≡ p.event.channel → slot + 1 ≤ heard_turns peripheral p + 32768
        → is_mixed peripheral p octets c.acknowledgement.last ≡ false
        → let ends = (answered peripheral slot octets room p).control.ends in
        ShareEvent c p ⊎ (EndsForInstant c p ends ⊎ EndsForged peripheral p octets ends) }
    ensures central { (central peripheral : Setup) (turns : ℕ) (c p : Facts)
        → AreEnds central peripheral → AreLinked central peripheral turns true c p
        → is_lasting c ≡ true → is_lasting p ≡ true → ShareEvent c p }
{
    air_frame::laws::packet_tells_its_pdu();
}

/// Neither what a host does nor the beginning of a turn ends a link at once. While the link lasts
/// at both ends, the central ends it, as that hears the answer, only where the packet is forged,
/// with 0x3D. The peripheral ends it, as that hears the central, only for a forged packet too, or
/// where the Instant of the last indication that the central sent has passed there, with 0x28. So
/// no link ends for lack of room (0x07) or for a collision (0x23, 0x2A) (Core 5.2, volume 6 part B,
/// sections 5.1.3.1, 5.3 and 5.5.1).
pub fn only_a_late_peripheral_ends_a_link()
    ensures hosts { (setup : Setup) (facts : Facts) (step : Step) → MayHost step facts
        → EndsNothing facts (facts_after setup facts step) }
    ensures central_turn { (setup : Setup) (slot : ℕ) (transmits : Bool) (facts : Facts)
        → EndsNothing facts (central_begun setup slot transmits facts) }
    ensures peripheral_turn { (setup : Setup) (slot : ℕ) (listens : Bool) (facts : Facts)
        → EndsNothing facts (prepared setup slot listens facts) }
    ensures central { (central peripheral : Setup) (slot : ℕ) (c p : Facts) (channel : ℕ)
        (octets : List ℕ) (room : Bool) → AreEnds central peripheral
        → AreLinked central peripheral (slot + 1) true c p → is_lasting c ≡ true
        → is_lasting p ≡ true → heard_turns central c ≤ slot → 1 ≤ c.control.track.entered
        → IsPacketOf peripheral slot p channel octets → channel ≡ c.event.channel
        → is_mixed central c octets p.acknowledgement.last ≡ false
        → let ends = (received central slot octets room c).control.ends in
        (ends ≡ None) ⊎ EndsForged central c octets ends }
    ensures peripheral { (central peripheral : Setup) (slot : ℕ) (c p : Facts) (channel : ℕ)
        (octets : List ℕ) (room : Bool) → AreEnds central peripheral
        → HaveBegun central peripheral slot true true c p → is_lasting c ≡ true
        → is_lasting p ≡ true → IsPacketOf central slot c channel octets
        → channel ≡ p.event.channel → slot + 1 ≤ heard_turns peripheral p + 32768
        → is_mixed peripheral p octets c.acknowledgement.last ≡ false
        → let ends = (answered peripheral slot octets room p).control.ends in
        (ends ≡ None) ⊎ (EndsForInstant c p ends ⊎ EndsForged peripheral p octets ends) }
{
    air_frame::laws::packet_tells_its_pdu();
}
