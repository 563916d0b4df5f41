//! What a peripheral takes of its central, over the two ends of a link. The body only calls the law
//! that it rests on: the contract is the law.
ghost use Rattle.std.specs.Prelude.{◌≡◌, ◌+◌, ◌≤◌, ◌<◌, ◌++◌, ◌∷◌, ℕ, Bool, true, false, List, Some};
ghost use Rattle.arrayvec.specs.ArrayVec.{ArrayVec};
ghost use Rattle.ble_base.specs.declared.notes.Note.{Note};
ghost use Rattle.ble_base.specs.declared.notes.Note.TheVariants.{Took};
ghost use Rattle.instants.specs.Track.{event_of, gap_ahead};
ghost use Rattle.instants.specs.declared.indications.Indication.{Indication};
ghost use Rattle.two_tracks.specs.TwoEnds.{change_of};
ghost use Rattle.link_changes.specs.Noted.{indication_in};
ghost use Rattle.run_pairs.specs.link_calls.link_model.End.{notes_after};
ghost use Rattle.run_pairs.specs.link_calls.link_model.Facts.{Facts};
ghost use Rattle.run_pairs.specs.link_calls.link_model.Setup.{Setup};
ghost use Rattle.run_pairs.specs.link_calls.link_model.Step.{PacketReceived};
ghost use Rattle.link_runs.specs.joint_controls.Joint.{last_change};
ghost use Rattle.link_runs.specs.link_pairs.Ends.{AreEnds, heard_turns, is_lasting};
ghost use Rattle.link_runs.specs.link_pairs.Hearing.{IsPacketOf, is_mixed_packet};
ghost use Rattle.link_runs.specs.link_pairs.Turns.{HaveBegun};

/// A packet of the central reaches the peripheral on its channel, while the link lasts at both
/// ends, and the peripheral notes that it takes an indication whose Instant has not passed by its
/// own count. Then this indication is the last that the central sent, and its Instant is one event
/// at both ends, unless the packet is mixed (Core 5.2, volume 6 part B, sections 5.1.1, 5.1.2 and
/// 5.5.1).
pub fn a_peripheral_reads_what_the_central_sent_last()
    ensures { (central peripheral : Setup) (slot : ℕ) (c p : Facts) (channel : ℕ)
        (octets : List ℕ) (room : Bool) (before later : List Note) (handle number llid : ℕ)
        (body : ArrayVec ℕ) (indication : Indication) → AreEnds central peripheral
        → HaveBegun central peripheral slot true true c p
        → is_lasting c ≡ true → is_lasting p ≡ true
        → IsPacketOf central slot c channel octets → channel ≡ p.event.channel
        → slot + 1 ≤ heard_turns peripheral p + 32768
        → notes_after peripheral p (PacketReceived slot octets room)
        ≡ before ++ Took handle number llid body ∷ later
        → indication_in llid body.items ≡ Some indication
        → gap_ahead (event_of p.control.track) indication < 32767
        → is_mixed_packet peripheral p c octets ≡ false
        → last_change c.control.sent ≡ Some (change_of (event_of p.control.track) indication) }
{
    air_frame::laws::packet_tells_its_pdu();
    link_runs::a_sealed_packet_is_opened();
}
