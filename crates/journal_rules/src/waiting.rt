//! MD of each packet of a link, in the words of the standard. The bodies are empty: the contracts
//! are the laws.
ghost use Rattle.std.specs.Prelude.{◌≡◌, ◌++◌, ◌∷◌, [], ℕ, List, Some, false, true};
ghost use Rattle.ble_base.specs.declared.roles.Side.{Side};
ghost use Rattle.journal.specs.declared.entries.Entry.{Entry};
ghost use Rattle.journal.specs.declared.entries.Entry.TheVariants.{Took};
ghost use Rattle.journal_rules.specs.Waiting as told;

/// In any journal in which MD is that of the end as it fixed its next PDU, in which each new PDU is
/// the next one and goes out at once, and in which none is under way between turns: MD of each packet
/// is 1 exactly where something waited, as the turn began, after the PDU that the packet carries
/// (Core 5.2, volume 6 part B, section 4.5.6).
pub fn md_tells_what_waits_after_the_pdu_of_its_packet()
    ensures { (words : told.Words) (journal : List Entry) → told.AllTellWhatWaits words journal
        → told.AllNewPdusAreNext words journal → told.AllGoOutAtOnce journal → told.AllAreAtRest words journal
        → told.AllTellInWords words journal }
{}

/// What a side takes in a turn changes nothing of MD with a PDU that is sent again: once a packet of
/// the turn was on the air, a line that a PDU is taken leaves it (Core 5.2, volume 6 part B, section
/// 4.5.6).
pub fn a_pdu_sent_again_tells_nothing_of_what_was_taken()
    ensures { (words : told.Words) (front : List Entry) (side taker : Side) (number link count llid : ℕ)
        (body : List ℕ) (pdu : told.Pdu) (fixing then_fixing : told.Keyed)
        → told.is_fixed words side number front ≡ true
        → told.control_fixing words side number front ≡ Some fixing
        → told.control_fixing words side number (front ++ Took taker link count llid body ∷ [])
        ≡ Some then_fixing
        → told.md_with false pdu then_fixing
        (told.lines_of told.host_buffers side (front ++ Took taker link count llid body ∷ [])) number
        ≡ told.md_with false pdu fixing (told.lines_of told.host_buffers side front) number }
{}
