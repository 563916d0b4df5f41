//! The second slot of an event of a link. The bodies only call the laws that they rest on: the
//! contracts are the laws.
ghost use Rattle.std.specs.Prelude.{◌≡◌, ◌∷◌, []};
ghost use Rattle.journal_slots.specs.SecondSlot.{AllAreContinued};
ghost use Rattle.journal_acks.specs.run_model.Journal.{journal_of};
ghost use Rattle.journal_acks.specs.run_model.LinkEnds.{HaveAddresses};
ghost use Rattle.journal_acks.specs.run_model.Run.{Given, history_of, run_of};

/// In the journal of a run of two stations, with any number of links each, a side sends a packet of
/// a link in the turn after that of the anchor of an event only where it judged a packet of the
/// other side good in the turn of the anchor, and MD was 1 in that packet or in its own (Core 5.2,
/// volume 6 part B, section 4.5.6; which packets decide is our choice).
pub fn each_second_slot_has_its_reason()
    ensures { (given : Given) → given.stations ≡ 0 ∷ 1 ∷ [] → HaveAddresses given
        → AllAreContinued (journal_of (history_of (run_of given))) }
{
    journal_acks::a_pdu_is_understood();
    advertise::laws::connections_are_taken();
    scan_init::laws::searches_give_each_valid_address();
    air_frame::laws::packet_tells_its_pdu();
}
