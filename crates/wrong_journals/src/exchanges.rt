//! PDUs that are sent or taken against the rules, and packets that carry what they must not.
ghost use Rattle.journal_pdus.specs.Exchanged.{AllAreNew};
ghost use Rattle.journal_pdus.specs.journal_controls.journal_ends.Asked.{Words};
ghost use Rattle.journal_pdus.specs.journal_sealing.SealedLines.{AllPayloadsAreOfLines};
ghost use Rattle.journal_pdus.specs.journal_sending.Announced.{AllGoOutAtOnce};
ghost use Rattle.journal_pdus.specs.journal_sending.NextPdus.{AllNewPdusAreNext};
ghost use Rattle.journal_pdus.specs.journal_sending.Pending.{AllAreTakenAtOnce};
ghost use Rattle.journal_pdus.specs.journal_sending.Resting.{AllAreAtRest};
ghost use Rattle.journal_pdus.specs.journal_sending.WhatWaits.{AllTellWhatWaits};
ghost use Rattle.wrong_journals.specs.Exchanges as wrong;

/// A side takes each PDU once, as the first good packet brings it, with its octets.
pub fn wrong_taking_is_refused()
    ensures twice { (words : Words) → AllAreTakenAtOnce words wrong.taken_twice → ⊥ }
    ensures from_nothing { (words : Words) → AllAreTakenAtOnce words wrong.taken_from_nothing → ⊥ }
    ensures never { (words : Words) → AllAreTakenAtOnce words wrong.never_taken → ⊥ }
    ensures lost { (words : Words) → AllAreTakenAtOnce words wrong.taken_though_lost → ⊥ }
    ensures otherwise { (words : Words) → AllAreTakenAtOnce words wrong.taken_otherwise → ⊥ }
{}

/// A `sent` line is of the next piece of what the host submitted, with the next number, once all
/// before it is acknowledged, and its packet is the next line of its side.
pub fn wrong_sending_is_refused()
    ensures otherwise { (words : Words) → AllNewPdusAreNext words wrong.sent_otherwise → ⊥ }
    ensures misnumbered { (words : Words) → AllNewPdusAreNext words wrong.sent_misnumbered → ⊥ }
    ensures continuation { (words : Words) → AllNewPdusAreNext words wrong.sent_as_continuation
        → ⊥ }
    ensures from_nothing { (words : Words) → AllNewPdusAreNext words wrong.sent_from_nothing → ⊥ }
    ensures too_early { AllAreNew wrong.sent_too_early → ⊥ }
    ensures no_packet { AllGoOutAtOnce wrong.sent_without_packet → ⊥ }
{}

/// A packet has the channel of its event, the SN and NESN that the lines before it give, the PDU of
/// the last `sent` line of its side, and MD where more waits; and no empty PDU while data waits.
pub fn wrong_packets_are_refused()
    ensures empty { (words : Words) → AllTellWhatWaits words wrong.empty_while_data_waits → ⊥ }
    ensures number { (words : Words) → AllTellWhatWaits words wrong.number_stays → ⊥ }
    ensures no_line { (words : Words) → AllTellWhatWaits words wrong.packet_without_line → ⊥ }
    ensures otherwise { (words : Words) → AllPayloadsAreOfLines words wrong.packet_otherwise → ⊥ }
    ensures more { (words : Words) → AllTellWhatWaits words wrong.more_than_waits → ⊥ }
    ensures less { (words : Words) → AllTellWhatWaits words wrong.less_than_waits → ⊥ }
    ensures channel { (words : Words) → AllTellWhatWaits words wrong.another_channel → ⊥ }
{}

/// The packet of a `sent` line is in the turn of that line, and a side takes a PDU in the turn of its
/// packet.
pub fn wrong_turns_of_exchanges_are_refused()
    ensures sent { (words : Words) → AllAreAtRest words wrong.sent_in_another_turn → ⊥ }
    ensures taken { (words : Words) → AllAreAtRest words wrong.taken_in_another_turn → ⊥ }
{}
