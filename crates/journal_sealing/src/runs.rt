//! The payload and the verdict of each packet in a run, and what two ends hear of each other. The
//! bodies only call the laws that they rest on: the contracts are the laws.
ghost use Rattle.std.specs.Prelude.{◌≡◌, ◌+◌, ◌++◌, ◌∷◌, [], ℕ, List, false};
ghost use Rattle.std.specs.List.{Contains};
ghost use Rattle.ble_base.specs.declared.roles.Side.{Side};
ghost use Rattle.ble_base.specs.declared.verdicts.Verdict.{Verdict};
ghost use Rattle.journal.specs.declared.entries.Entry.{Entry};
ghost use Rattle.journal.specs.declared.entries.Entry.TheVariants.{Air};
ghost use Rattle.journal.specs.declared.entries.Mark.{Mark};
ghost use Rattle.journal_controls.specs.journal_ends.Asked.{Words};
ghost use Rattle.journal_controls.specs.journal_ends.GivenWords.{GivesWords};
ghost use Rattle.journal_controls.specs.run_model.History.{Event, Hearing, Transmitted};
ghost use Rattle.journal_controls.specs.run_model.Journal.{journal_of, side_of};
ghost use Rattle.journal_controls.specs.run_model.LinkEnds.{HaveAddresses};
ghost use Rattle.journal_controls.specs.run_model.Links.{is_advertising, links_of};
ghost use Rattle.journal_controls.specs.run_model.Run.{Given, Stop, Stops};
ghost use Rattle.journal_controls.specs.run_model.Run.{history_of, run_of};
ghost use Rattle.link_calls.specs.run_laws.Ends.{AreEnds, OpenEnd};
ghost use Rattle.run_pairs.specs.InTurns.{HearNoMixed};
ghost use Rattle.journal_sealing.specs.Judged.{AllVerdictsAreOfLines};
ghost use Rattle.journal_sealing.specs.Mixed.{is_mixed};
ghost use Rattle.journal_sealing.specs.NewPdus.{IsMadeByLines};
ghost use Rattle.journal_sealing.specs.SealedLines.{AllPayloadsAreOfLines, HasPayload};
ghost use Rattle.journal_sealing.specs.SealedLines.{IsSentAgain};

/// In a run of two stations, with any number of links each and whatever phases they are in, the
/// payload of each packet off the advertising channels is the one that the lines before it give: what
/// its end made of the PDU in the line of which that was sent first, with the keys and the counter
/// that the end had before that line. So has the one at which damage stops a run (Core 5.2, volume 6
/// part B, sections 2.4, 4.5.9 and 5.1.3, and part E, section 2).
pub fn each_packet_has_the_payload_of_the_lines()
    ensures lines { (words : Words) (given : Given) → given.stations ≡ 0 ∷ 1 ∷ []
        → HaveAddresses given → GivesWords given words
        → AllPayloadsAreOfLines words (journal_of (history_of (run_of given))) }
    ensures stopped { (words : Words) (given : Given) (history : List Event) (stop : Stop)
        → given.stations ≡ 0 ∷ 1 ∷ [] → HaveAddresses given → GivesWords given words
        → run_of given ≡ Stops history stop → is_advertising stop.channel ≡ false
        → HasPayload words (journal_of history) (side_of stop.sender) stop.channel stop.sent }
{
    journal_controls::a_pdu_is_understood();
    advertise::laws::connections_are_taken();
    scan_init::laws::searches_give_each_valid_address();
    air_frame::laws::packet_tells_its_pdu();
    link_calls::each_packet_on_the_air_is_due();
}

/// So in a run of two stations, with any number of links each and whatever phases they are in, two
/// packets of a side on one link have one payload, octet for octet, where between them no PDU of that
/// side was acknowledged and no new one was sent: a PDU is sealed once, however often it is sent (Core
/// 5.2, volume 6 part B, sections 4.5.9 and 5.1.3.1, and part E, section 2).
pub fn a_pdu_is_sent_again_with_its_payload()
    ensures { (words : Words) (given : Given) (front more rest : List Entry) (side : Side)
        (channel channel_too : ℕ) (octets octets_too : List ℕ) (fate fate_too : Mark)
        (verdict verdict_too : Verdict)
        → given.stations ≡ 0 ∷ 1 ∷ [] → HaveAddresses given → GivesWords given words
        → journal_of (history_of (run_of given))
        ≡ (front ++ Air side channel octets fate verdict ∷ more)
        ++ Air side channel_too octets_too fate_too verdict_too ∷ rest
        → is_advertising channel ≡ false → is_advertising channel_too ≡ false
        → IsSentAgain words front more side channel channel_too octets octets_too fate verdict }
{
    each_packet_has_the_payload_of_the_lines();
}

/// In a run of two stations, with any number of links each and whatever phases they are in, the first
/// packet of a PDU that is not empty has the payload that its end makes of it with the keys that it
/// has by the lines before the packet, and with the counter before the one that it has by them (Core
/// 5.2, volume 6 part B, section 5.1.3, and part E, section 2).
pub fn a_new_pdu_is_sealed_with_the_keys_of_the_lines()
    ensures { (words : Words) (given : Given) (before rest : List Event) (station channel : ℕ)
        (octets : List ℕ) (hearings : List Hearing)
        → given.stations ≡ 0 ∷ 1 ∷ [] → HaveAddresses given → GivesWords given words
        → Contains given.stations station
        → history_of (run_of given) ≡ before ++ Transmitted station channel octets hearings ∷ rest
        → is_advertising channel ≡ false
        → IsMadeByLines words given before station channel octets }
{
    journal_acks::links_of_two_stations_keep_to_the_journal();
    journal_controls::the_keys_by_lines_are_those_that_the_end_holds();
}

/// In a run of two stations, with any number of links each and whatever phases they are in, a packet
/// off the advertising channels that the other side judges forged or good is judged forged exactly
/// where the lines before it say that it is forged for the end that hears it: its PDU is new and not
/// empty, the end opens what it hears, and the integrity code is not the one of the session and the
/// counter of the end (Core 5.2, volume 6 part B, sections 4.5.9 and 5.1.3.1, and part E, section 2).
pub fn each_verdict_is_that_of_the_lines()
    ensures { (words : Words) (given : Given) → given.stations ≡ 0 ∷ 1 ∷ []
        → HaveAddresses given → GivesWords given words
        → AllVerdictsAreOfLines words (journal_of (history_of (run_of given))) }
{
    journal_acks::links_of_two_stations_keep_to_the_journal();
    journal_controls::the_keys_by_lines_are_those_that_the_end_holds();
}

/// In a run of two stations, with any number of links each: as long as no line of a link mixes two
/// session keys, neither end of it receives a packet that mixes them, by what both ends hold as it
/// comes. So laws of two ends hold up to the first such line (Core 5.2, volume 6 part B, section
/// 5.1.3.1, and part E, section 2).
pub fn ends_hear_no_mixed_packet_while_their_journal_is_not_mixed()
    ensures { (words : Words) (given : Given) (before rest : List Event)
        (central peripheral : OpenEnd) (ends : AreEnds before central peripheral) (number : ℕ)
        → given.stations ≡ 0 ∷ 1 ∷ [] → HaveAddresses given → GivesWords given words
        → history_of (run_of given) ≡ before ++ rest
        → Contains given.stations central.station → Contains given.stations peripheral.station
        → number ≡ (links_of ends.of_central.before).begun + 1
        → is_mixed words number (journal_of before) ≡ false
        → HearNoMixed given before central peripheral }
{
    journal_controls::the_keys_by_lines_are_those_that_the_end_holds();
    journal_controls::a_pdu_is_understood();
    advertise::laws::connections_are_taken();
    scan_init::laws::searches_give_each_valid_address();
    air_frame::laws::packet_tells_its_pdu();
}
