//! Worked examples and wrong ones, which the definitions compute.
ghost use Rattle.std.specs.Prelude.{◌≡◌, ◌++◌, ◌∷◌, [], None, Some, false, true};
ghost use Rattle.journal_rules.specs.Rows as worked;

/// A peripheral sends its LL_VERSION_IND: MD is 1 where its host gave it data, and not 0; without
/// data it is 0, and not 1. An empty PDU that is sent again tells of LL_LENGTH_RSP, which waited as
/// the turn began.
pub fn worked_md()
    ensures more { worked.md_with true worked.own_version worked.version_owed
        (worked.lines_of 8 worked.A worked.version_sent_first) 1 ≡ true }
    ensures not_last { worked.md_with true worked.own_version worked.version_owed
        (worked.lines_of 8 worked.A worked.version_sent_first) 1 ≡ false → ⊥ }
    ensures last { worked.md_with true worked.own_version worked.version_owed
        (worked.lines_of 8 worked.A worked.version_sent) 1 ≡ false }
    ensures not_more { worked.md_with true worked.own_version worked.version_owed
        (worked.lines_of 8 worked.A worked.version_sent) 1 ≡ true → ⊥ }
    ensures again { worked.md_with false worked.empty_pdu worked.length_taken
        (worked.lines_of 8 worked.A worked.version_sent) 1 ≡ true }
{}

/// After new data more waits where there were more octets than the PDU has. LL_TERMINATE_IND is sent
/// again with MD 0 where nothing else waits, and with MD 1 where data waits in Clear or Secure, though
/// none goes.
pub fn worked_waiting_after()
    ensures rest { (waited : worked.Waited)
        → worked.waits_after worked.NewData 27 (record waited { octets = 28 }) ≡ true }
    ensures all { (waited : worked.Waited)
        → worked.waits_after worked.NewData 27 (record waited { octets = 27 }) ≡ false }
    ensures second { (waited : worked.Waited)
        → worked.waits_after worked.NewControl 1 (record waited { controls = 2 }) ≡ true }
    ensures held { (waited : worked.Waited) → worked.waits_after worked.Again 1
        (record waited { controls = 1; may_go = false; data_goes = false }) ≡ false }
    ensures ended { worked.md_with false worked.terminate_pdu worked.end_sent
        (worked.lines_of 8 worked.A worked.version_sent) 1 ≡ false }
    ensures to_go { worked.md_with true worked.terminate_pdu worked.link_ended
        (worked.lines_of 8 worked.A worked.version_sent) 1 ≡ false }
    ensures ended_with_data { worked.md_with false worked.terminate_pdu worked.end_sent
        (worked.lines_of 8 worked.A worked.version_sent_first) 1 ≡ true }
{}

/// A peripheral seals from LL_START_ENC_RSP of its central on, and a central from LL_START_ENC_REQ on;
/// each counts the PDUs that it sends from there. LL_PAUSE_ENC_RSP ends that, on the link that it
/// comes on and no other. LL_START_ENC_REQ does not make a peripheral seal.
pub fn worked_sealing()
    ensures peripheral { worked.is_sealed worked.Peripheral worked.A 1 worked.started_at_a ≡ true }
    ensures unsealed { worked.is_sealed worked.Peripheral worked.A 1 worked.started_at_a
        ≡ false → ⊥ }
    ensures counter { worked.sent_since worked.Peripheral worked.A 1 worked.started_at_a ≡ 2 }
    ensures first { worked.sent_since worked.Peripheral worked.A 1 worked.started_at_a ≡ 0 → ⊥ }
    ensures central { worked.is_sealed worked.Central worked.B 1 worked.started_at_b ≡ true }
    ensures one { worked.sent_since worked.Central worked.B 1 worked.started_at_b ≡ 1 }
    ensures paused { worked.is_sealed worked.Peripheral worked.A 1
        (worked.started_at_a ++ worked.took_at_a 0x0B ∷ []) ≡ false }
    ensures central_paused { worked.is_sealed worked.Central worked.B 1
        (worked.started_at_b ++ worked.took_at_b 0x0B ∷ []) ≡ false }
    ensures again { worked.is_sealed worked.Central worked.B 1
        (worked.started_at_b ++ worked.took_at_b 0x0B ∷ worked.took_at_b 0x05 ∷ []) ≡ true }
    ensures anew { worked.sent_since worked.Central worked.B 1
        (worked.started_at_b ++ worked.took_at_b 0x0B ∷ worked.took_at_b 0x05 ∷ []) ≡ 0 }
    ensures other_link { worked.is_sealed worked.Peripheral worked.A 2 worked.started_at_a ≡ false }
    ensures other_role { worked.is_sealed worked.Peripheral worked.B 1 (worked.took_at_b 0x05 ∷ [])
        ≡ false }
{}

/// Each side hears the other in event 0. The latency of an update counts in the event from which on
/// the update is in force, and not before. With a latency of 2 an idle peripheral that heard a good
/// packet last in event 4 skips events 5 and 6.
pub fn worked_skipping()
    ensures peripheral { worked.events_heard worked.A 1 worked.one_event_journal ≡ 0 ∷ [] }
    ensures central { worked.events_heard worked.B 1 worked.one_event_journal ≡ 0 ∷ [] }
    ensures in_force { worked.latency_in 1 worked.one_link worked.A worked.latency_in_force 6 ≡ 2 }
    ensures not_first { worked.latency_in 1 worked.one_link worked.A worked.latency_in_force 6
        ≡ 0 → ⊥ }
    ensures before { worked.latency_in 1 worked.one_link worked.A worked.latency_in_force 5 ≡ 0 }
    ensures taken { worked.latency_in 1 worked.one_link worked.A worked.latency_taken 6 ≡ 0 }
    ensures skips { worked.skips_after worked.Peripheral (Some 4) 6 2 true ≡ true }
    ensures enters { worked.skips_after worked.Peripheral (Some 4) 7 2 true ≡ false }
    ensures heard { worked.skips_after worked.Peripheral (Some 6) 6 2 true ≡ false }
    ensures busy { worked.skips_after worked.Peripheral (Some 4) 6 2 false ≡ false }
    ensures never { worked.skips_after worked.Peripheral None 6 2 true ≡ false }
    ensures at_central { worked.skips_after worked.Central (Some 4) 6 2 true ≡ false }
{}
