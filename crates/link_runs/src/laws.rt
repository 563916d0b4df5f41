//! Laws of whole runs of one link. The bodies only call the laws that they rest on: the contracts
//! are the laws.
ghost use Rattle.std.specs.Prelude.{◌≡◌, ℕ, true, false, List, Some};
ghost use Rattle.link_pairs.specs.link_model.OneLink.{AreInAgreement};
ghost use Rattle.link_pairs.specs.link_model.Setup.{Setup};
ghost use Rattle.link_pairs.specs.link_model.Facts.{Facts};
ghost use Rattle.link_pairs.specs.link_model.Times.{due_of};
ghost use Rattle.link_pairs.specs.Ends.{AreEnds, is_lasting};
ghost use Rattle.link_pairs.specs.Shown.{AreLinked};
ghost use Rattle.link_pairs.specs.Sound.{AreSoundEnds};
ghost use Rattle.link_runs.specs.Open.{AreOpenEnds, AreTerminated, GoOnUnlessLate, is_timeout};
ghost use Rattle.link_runs.specs.Runs.{AreUnmixed, IsUnmixedTurn, MayAllHost, MayHostTurn};
ghost use Rattle.link_runs.specs.Runs.{ends_of, slot_after};
ghost use Rattle.link_runs.specs.Turn.{Given, ends_in_turn};

/// After any list of turns two ends that are open are linked, and the link lasts at both; or the
/// central has taken LL_TERMINATE_IND, and is shut once it has sent. This holds whenever each end
/// has the radio, whatever is lost between them, and with room for data or not, as long as no packet
/// is mixed (Core 5.2, volume 6 part B, sections 4.5, 5.1.3.1 and 5.1.6).
pub fn links_stay_linked_turn_by_turn()
    ensures open_ends { (central peripheral : Setup) (turns : List Given) (c p : Facts)
        → AreEnds central peripheral → MayAllHost central peripheral turns
        → AreUnmixed central peripheral turns
        → (ends_of central peripheral turns).central ≡ Some c
        → (ends_of central peripheral turns).peripheral ≡ Some p
        → AreOpenEnds central peripheral (slot_after central turns) c p }
    ensures lasting { (central peripheral : Setup) (turns : List Given) (c p : Facts)
        → AreEnds central peripheral → MayAllHost central peripheral turns
        → AreUnmixed central peripheral turns
        → (ends_of central peripheral turns).central ≡ Some c
        → (ends_of central peripheral turns).peripheral ≡ Some p
        → is_lasting c ≡ true → is_lasting p ≡ true
        → AreLinked central peripheral (slot_after central turns) false c p }
{
    air_frame::laws::packet_tells_its_pdu();
    link_pairs::a_sealed_packet_is_opened();
}

/// After any list of turns the counts of two open ends agree. While the link lasts at both, they
/// have equal parameters in events of one number in which the same number of indications hold, and
/// at most ten control PDUs wait at each. In no turn does a procedure end the link at the central;
/// one ends it at the peripheral only with 0x28, where the Instant of the last indication that the
/// central sent has passed there; and at each with 0x3D, where a packet is forged. So at the end of
/// a turn an end is shut with 0x16 or with the code of its peer, or with 0x3D, or a peripheral with
/// 0x28; and at the start of a turn because a time has passed. No end is shut with 0x07, 0x23 or
/// 0x2A, unless LL_TERMINATE_IND of its peer has that code. That is so as long as no packet is mixed
/// (Core 5.2, volume 6 part B, sections 4.5.9, 5.1.3.1, 5.1.6, 5.3 and 5.5).
pub fn each_link_is_sound()
    ensures agreement { (central peripheral : Setup) (turns : List Given) (c p : Facts)
        → AreEnds central peripheral → MayAllHost central peripheral turns
        → AreUnmixed central peripheral turns
        → (ends_of central peripheral turns).central ≡ Some c
        → (ends_of central peripheral turns).peripheral ≡ Some p
        → AreInAgreement c.acknowledgement p.acknowledgement }
    ensures ends { (central peripheral : Setup) (turns : List Given) (c p : Facts)
        → AreEnds central peripheral → MayAllHost central peripheral turns
        → AreUnmixed central peripheral turns
        → (ends_of central peripheral turns).central ≡ Some c
        → (ends_of central peripheral turns).peripheral ≡ Some p
        → is_lasting c ≡ true → is_lasting p ≡ true → AreSoundEnds central peripheral c p }
    ensures procedures { (central peripheral : Setup) (turns : List Given) (given : Given)
        → AreEnds central peripheral → MayAllHost central peripheral turns
        → AreUnmixed central peripheral turns
        → let ends = ends_of central peripheral turns in MayHostTurn central peripheral given ends
        → IsUnmixedTurn central peripheral (slot_after central turns) given ends
        → GoOnUnlessLate (ends_in_turn central peripheral (slot_after central turns) given ends) }
    ensures codes { (central peripheral : Setup) (turns : List Given) (given : Given)
        → AreEnds central peripheral → MayAllHost central peripheral turns
        → AreUnmixed central peripheral turns
        → let ends = ends_of central peripheral turns in MayHostTurn central peripheral given ends
        → IsUnmixedTurn central peripheral (slot_after central turns) given ends
        → AreTerminated (ends_in_turn central peripheral (slot_after central turns) given ends) }
    ensures timeouts { (setup : Setup) (facts : Facts) (slot code : ℕ)
        → due_of setup facts slot ≡ Some code → is_timeout code ≡ true }
{
    air_frame::laws::packet_tells_its_pdu();
    link_pairs::a_sealed_packet_is_opened();
}
