//! The rules in the words of the standard, in the journal of each run of a pair. The bodies only call
//! the laws that they rest on: the contracts are the laws.
ghost use Rattle.std.specs.Prelude.{◌≡◌, ℕ, List, length};
ghost use Rattle.radio_replay.specs.Script.{Script};
ghost use Rattle.journal_rules.specs.Rules as rules;

/// In the journal of each run of a pair the end of a side has, in each event that it enters, the
/// latency of its CONNECT_IND as the indications in force at the side have changed it (Core 5.2,
/// volume 6 part B, sections 4.5.1 and 5.1.1).
pub fn each_end_has_the_latency_of_the_indications()
    ensures { (words : rules.Words) (a b : List ℕ) (script : Script) → length script.a.public ≡ 6
        → length script.b.public ≡ 6 → rules.GivesWords (rules.given_of a b script) words
        → rules.AllHaveLatency words
        (rules.journal_of (rules.history_of (rules.run_of (rules.given_of a b script)))) }
{
    journal_events::a_pdu_is_understood();
    advertise::laws::connections_are_taken();
    scan_init::laws::searches_give_each_valid_address();
    air_frame::laws::packet_tells_its_pdu();
}

/// The journal of each run of a pair keeps the rules of MD, of skipped events and of sealed PDUs, where MD is that of
/// each end as it fixed its next PDU, each new PDU is the next one and goes out at once, and none is
/// under way between turns (Core 5.2, volume 6 part B, sections 4.5.1, 4.5.6 and 5.1.3).
pub fn each_journal_keeps_the_rules_in_words()
    ensures { (words : rules.Words) (a b : List ℕ) (script : Script) → length script.a.public ≡ 6
        → length script.b.public ≡ 6 → rules.GivesWords (rules.given_of a b script) words
        → let journal = rules.journal_of (rules.history_of (rules.run_of (rules.given_of a b script))) in
        rules.AllTellWhatWaits words journal → rules.AllNewPdusAreNext words journal
        → rules.AllGoOutAtOnce journal → rules.AllAreAtRest words journal
        → rules.KeepsRules words journal }
{
    crate::waiting::md_tells_what_waits_after_the_pdu_of_its_packet();
    crate::skipping::a_peripheral_skips_events_up_to_the_latency_in_force();
    each_end_has_the_latency_of_the_indications();
    crate::sealing::a_side_seals_from_the_start_that_it_took_last();
}
