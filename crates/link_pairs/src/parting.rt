//! Laws of two ends of a link after one of them took LL_TERMINATE_IND of the other (Core 5.2,
//! volume 6 part B, section 5.1.6). The bodies only call the laws that they rest on: the contracts
//! are the laws.
ghost use Rattle.std.specs.Prelude.{◌≡◌, ◌+◌, ℕ, Bool, true, false, List, None, is_some};
ghost use Rattle.ble_base.specs.declared.error_codes.ErrCode.{ErrCode};
ghost use Rattle.link_model.specs.Setup.{Setup};
ghost use Rattle.link_model.specs.Controls.{is_quiet_now, next_control};
ghost use Rattle.link_model.specs.End.{facts_after};
ghost use Rattle.link_model.specs.Facts.{Facts};
ghost use Rattle.link_model.specs.Fixing.{data_goes};
ghost use Rattle.link_model.specs.Packets.{is_forged, pdu_sent};
ghost use Rattle.link_model.specs.Receiving.{replies_of};
ghost use Rattle.link_model.specs.Step.{Step, Disconnected};
ghost use Rattle.link_model.specs.Times.{ending_of};
ghost use Rattle.link_pairs.specs.Ends.{AreEnds, is_lasting};
ghost use Rattle.link_pairs.specs.Hearing.{IsPacketOf, answered, is_mixed, received};
ghost use Rattle.link_pairs.specs.Hearing.{is_mixed_packet};
ghost use Rattle.link_pairs.specs.Hosts.{MayHost};
ghost use Rattle.link_pairs.specs.Parting.{ArePartingFrom, EndsForged, HasSeenTerminate};
ghost use Rattle.link_pairs.specs.Parting.{HearsNothingNew, HearsTheEnd};
ghost use Rattle.link_pairs.specs.Shown.{AreLinked};
ghost use Rattle.link_pairs.specs.Turns.{HaveBegun, central_begun, prepared};

/// Two linked ends, at both of which the link lasts, are parting once one of them hears
/// LL_TERMINATE_IND of the other and takes it, unless both have other keys and the integrity code is
/// right by chance. A peripheral answers that packet.
pub fn taking_terminate_parts_two_ends()
    ensures peripheral { (central peripheral : Setup) (slot : ℕ) (c p : Facts) (channel : ℕ)
        (octets : List ℕ) (room : Bool) → AreEnds central peripheral
        → HaveBegun central peripheral slot true true c p
        → is_lasting c ≡ true → is_lasting p ≡ true
        → IsPacketOf central slot c channel octets → channel ≡ p.event.channel
        → is_mixed peripheral p octets c.acknowledgement.last ≡ false
        → is_some (answered peripheral slot octets room p).leaving.ended_by_peer ≡ true
        → ArePartingFrom peripheral central (answered peripheral slot octets room p) c }
    ensures central { (central peripheral : Setup) (slot : ℕ) (c p : Facts) (channel : ℕ)
        (octets : List ℕ) (room : Bool) → AreEnds central peripheral
        → AreLinked central peripheral (slot + 1) true c p
        → is_lasting c ≡ true → is_lasting p ≡ true
        → IsPacketOf peripheral slot p channel octets → channel ≡ c.event.channel
        → is_mixed central c octets p.acknowledgement.last ≡ false
        → is_some (received central slot octets room c).leaving.ended_by_peer ≡ true
        → ArePartingFrom central peripheral (received central slot octets room c) p }
{
    air_frame::laws::packet_tells_its_pdu();
}

/// Whatever the host of an end asks, answers, ends or sends, the two ends stay parting. A
/// Disconnect queues nothing.
pub fn hosts_leave_ends_parting()
    ensures taker { (taker sender : Setup) (t s : Facts) (step : Step)
        → ArePartingFrom taker sender t s → MayHost step t
        → ArePartingFrom taker sender (facts_after taker t step) s }
    ensures sender { (taker sender : Setup) (t s : Facts) (step : Step)
        → ArePartingFrom taker sender t s → MayHost step s
        → ArePartingFrom taker sender t (facts_after sender s step) }
    ensures taker_ends_no_more { (taker sender : Setup) (t s : Facts) (reason : ErrCode) (slot : ℕ)
        → ArePartingFrom taker sender t s
        → (facts_after taker t (Disconnected reason slot)).control ≡ t.control }
    ensures sender_ends_no_more { (taker sender : Setup) (t s : Facts) (reason : ErrCode) (slot : ℕ)
        → ArePartingFrom taker sender t s
        → (facts_after sender s (Disconnected reason slot)).control ≡ s.control }
{}

/// A turn begins at an end: it enters its event if the anchor is in this turn, and fixes its PDU if
/// it has an exchange in the turn; a central sends. The two ends stay parting (Core 5.2, volume 6
/// part B, sections 4.5.1 and 4.5.9).
pub fn a_turn_leaves_ends_parting()
    ensures central_took { (central peripheral : Setup) (slot : ℕ) (transmits : Bool) (c p : Facts)
        → AreEnds central peripheral → ArePartingFrom central peripheral c p
        → ArePartingFrom central peripheral (central_begun central slot transmits c) p }
    ensures peripheral_sent { (central peripheral : Setup) (slot : ℕ) (listens : Bool)
        (c p : Facts) → AreEnds central peripheral → ArePartingFrom central peripheral c p
        → ArePartingFrom central peripheral c (prepared peripheral slot listens p) }
    ensures peripheral_took { (central peripheral : Setup) (slot : ℕ) (listens : Bool)
        (c p : Facts) → AreEnds central peripheral → ArePartingFrom peripheral central p c
        → ArePartingFrom peripheral central (prepared peripheral slot listens p) c }
    ensures central_sent { (central peripheral : Setup) (slot : ℕ) (transmits : Bool) (c p : Facts)
        → AreEnds central peripheral → ArePartingFrom peripheral central p c
        → ArePartingFrom peripheral central p (central_begun central slot transmits c) }
{}

/// The end that took LL_TERMINATE_IND hears a packet of the other. That has the same PDU again and
/// acknowledges nothing, so the end notes nothing, and its procedures stay as they are. A
/// peripheral answers. The two ends stay parting (Core 5.2, volume 6 part B, section 4.5.9).
pub fn a_taker_hears_nothing_new()
    ensures peripheral { (central peripheral : Setup) (slot : ℕ) (c p : Facts) (channel : ℕ)
        (octets : List ℕ) (room : Bool) → AreEnds central peripheral
        → ArePartingFrom peripheral central p c
        → IsPacketOf central slot c channel octets → channel ≡ p.event.channel
        → ArePartingFrom peripheral central (answered peripheral slot octets room p) c }
    ensures peripheral_nothing { (central peripheral : Setup) (slot : ℕ) (c p : Facts)
        (channel : ℕ) (octets : List ℕ) (room : Bool) → AreEnds central peripheral
        → ArePartingFrom peripheral central p c
        → IsPacketOf central slot c channel octets → channel ≡ p.event.channel
        → HearsNothingNew peripheral p slot octets room }
    ensures peripheral_answers { (central peripheral : Setup) (slot : ℕ) (c p : Facts)
        (channel : ℕ) (octets : List ℕ) (room : Bool) → AreEnds central peripheral
        → ArePartingFrom peripheral central p c
        → IsPacketOf central slot c channel octets → channel ≡ p.event.channel
        → replies_of peripheral p slot octets room ≡ true }
    ensures central { (central peripheral : Setup) (slot : ℕ) (c p : Facts) (channel : ℕ)
        (octets : List ℕ) (room : Bool) → AreEnds central peripheral
        → ArePartingFrom central peripheral c p
        → IsPacketOf peripheral slot p channel octets → channel ≡ c.event.channel
        → ArePartingFrom central peripheral (received central slot octets room c) p }
    ensures central_nothing { (central peripheral : Setup) (slot : ℕ) (c p : Facts)
        (channel : ℕ) (octets : List ℕ) (room : Bool) → AreEnds central peripheral
        → ArePartingFrom central peripheral c p
        → IsPacketOf peripheral slot p channel octets → channel ≡ c.event.channel
        → HearsNothingNew central c slot octets room }
{
    air_frame::laws::packet_tells_its_pdu();
}

/// The end that sent LL_TERMINATE_IND hears a packet of the end that took it, which acknowledges
/// it. So the link ends there at the end of the turn, with 16. The end takes no PDU with that
/// packet, and does not answer. No procedure ends the link, and the counts of both ends still
/// agree. That is so unless both have other keys and the integrity code is right by chance. A
/// forged packet ends the link with 3D, and is not answered (Core 5.2, volume 6 part B, section
/// 5.1.3.1).
pub fn a_sender_hears_the_end()
    ensures peripheral { (central peripheral : Setup) (slot : ℕ) (c p : Facts) (channel : ℕ)
        (octets : List ℕ) (room : Bool) → AreEnds central peripheral
        → ArePartingFrom central peripheral c p
        → IsPacketOf central slot c channel octets → channel ≡ p.event.channel
        → is_mixed peripheral p octets c.acknowledgement.last ≡ false
        → is_forged peripheral p octets ≡ false
        → HasSeenTerminate c.acknowledgement (answered peripheral slot octets room p) }
    ensures peripheral_ends { (central peripheral : Setup) (slot : ℕ) (c p : Facts)
        (channel : ℕ) (octets : List ℕ) (room : Bool) → AreEnds central peripheral
        → ArePartingFrom central peripheral c p
        → IsPacketOf central slot c channel octets → channel ≡ p.event.channel
        → is_mixed peripheral p octets c.acknowledgement.last ≡ false
        → is_forged peripheral p octets ≡ false
        → HearsTheEnd peripheral p slot octets room }
    ensures central { (central peripheral : Setup) (slot : ℕ) (c p : Facts) (channel : ℕ)
        (octets : List ℕ) (room : Bool) → AreEnds central peripheral
        → ArePartingFrom peripheral central p c
        → IsPacketOf peripheral slot p channel octets → channel ≡ c.event.channel
        → is_mixed central c octets p.acknowledgement.last ≡ false
        → is_forged central c octets ≡ false
        → HasSeenTerminate p.acknowledgement (received central slot octets room c) }
    ensures central_ends { (central peripheral : Setup) (slot : ℕ) (c p : Facts)
        (channel : ℕ) (octets : List ℕ) (room : Bool) → AreEnds central peripheral
        → ArePartingFrom peripheral central p c
        → IsPacketOf peripheral slot p channel octets → channel ≡ c.event.channel
        → is_mixed central c octets p.acknowledgement.last ≡ false
        → is_forged central c octets ≡ false
        → HearsTheEnd central c slot octets room }
    ensures peripheral_forged { (central peripheral : Setup) (slot : ℕ) (c p : Facts)
        (channel : ℕ) (octets : List ℕ) (room : Bool) → AreEnds central peripheral
        → ArePartingFrom central peripheral c p
        → IsPacketOf central slot c channel octets → channel ≡ p.event.channel
        → is_forged peripheral p octets ≡ true → EndsForged peripheral p slot octets room }
    ensures central_forged { (central peripheral : Setup) (slot : ℕ) (c p : Facts)
        (channel : ℕ) (octets : List ℕ) (room : Bool) → AreEnds central peripheral
        → ArePartingFrom peripheral central p c
        → IsPacketOf peripheral slot p channel octets → channel ≡ c.event.channel
        → is_forged central c octets ≡ true → EndsForged central c slot octets room }
{
    air_frame::laws::packet_tells_its_pdu();
}

/// While two ends part, a packet of the end that took LL_TERMINATE_IND is read by the other as
/// another than was sent only where it is mixed: it brings a new PDU that is not empty and sealed,
/// and is good, though the session keys of both ends differ (Core 5.2, volume 6 part E, section 2).
pub fn the_end_is_mixed_only_with_other_keys()
    ensures peripheral { (central peripheral : Setup) (slot : ℕ) (c p : Facts) (channel : ℕ)
        (octets : List ℕ) → AreEnds central peripheral → ArePartingFrom central peripheral c p
        → IsPacketOf central slot c channel octets → channel ≡ p.event.channel
        → is_mixed_packet peripheral p c octets ≡ false
        → is_mixed peripheral p octets c.acknowledgement.last ≡ false }
    ensures central { (central peripheral : Setup) (slot : ℕ) (c p : Facts) (channel : ℕ)
        (octets : List ℕ) → AreEnds central peripheral → ArePartingFrom peripheral central p c
        → IsPacketOf peripheral slot p channel octets → channel ≡ c.event.channel
        → is_mixed_packet central c p octets ≡ false
        → is_mixed central c octets p.acknowledgement.last ≡ false }
{
    air_frame::laws::packet_tells_its_pdu();
    link_model::a_sealed_packet_is_opened();
}

/// While two ends part, each packet of the end that sent LL_TERMINATE_IND has that again. No data
/// is to be sent after it, and no control PDU while the end is quiet: in other phases it may have
/// one left.
pub fn terminate_is_sent_again()
    ensures again { (taker sender : Setup) (t s : Facts) → ArePartingFrom taker sender t s
        → pdu_sent s ≡ s.acknowledgement.last }
    ensures no_control { (taker sender : Setup) (t s : Facts) → ArePartingFrom taker sender t s
        → is_quiet_now s ≡ true → next_control s ≡ None }
    ensures no_data { (taker sender : Setup) (t s : Facts) → ArePartingFrom taker sender t s
        → data_goes s ≡ false }
{}

/// While two ends part, the end that took LL_TERMINATE_IND ends the link with the code of that at
/// the end of the turn in which it sends its next packet, and not before: a peripheral in the turn
/// in which it took it, a central in the next turn in which it transmits. The other end does not
/// end the link before LL_TERMINATE_IND is acknowledged.
pub fn a_taker_ends_with_the_code()
    ensures taker { (taker sender : Setup) (t s : Facts) → ArePartingFrom taker sender t s
        → t.leaving.answered ≡ true → ending_of t ≡ t.leaving.ended_by_peer }
    ensures not_before { (taker sender : Setup) (t s : Facts) → ArePartingFrom taker sender t s
        → t.leaving.answered ≡ false → ending_of t ≡ None }
    ensures sender { (taker sender : Setup) (t s : Facts) → ArePartingFrom taker sender t s
        → ending_of s ≡ None }
    ensures peripheral { (central peripheral : Setup) (c p : Facts) → AreEnds central peripheral
        → ArePartingFrom peripheral central p c → ending_of p ≡ p.leaving.ended_by_peer }
    ensures central { (central peripheral : Setup) (slot : ℕ) (c p : Facts)
        → AreEnds central peripheral → ArePartingFrom central peripheral c p
        → ending_of (central_begun central slot true c) ≡ c.leaving.ended_by_peer }
{}
