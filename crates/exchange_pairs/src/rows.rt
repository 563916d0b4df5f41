//! Worked runs of exchanges, which the definitions compute.
ghost use Rattle.std.specs.Prelude.{◌≡◌, ◌∷◌, ◌++◌, [], Some, true, false};
ghost use Rattle.ble_base.specs.declared.roles.Role.TheVariants.{Central, Peripheral};
ghost use Rattle.machines.specs.Machine.{run};
ghost use Rattle.exchange_pairs.specs.Exchange.{Answer, Idle, Sent};
ghost use Rattle.exchange_pairs.specs.ExchangeLaws;
ghost use Rattle.exchange_pairs.specs.ExchangeRun.{exchanges};
ghost use Rattle.exchange_pairs.specs.LengthRun;
ghost use Rattle.exchange_pairs.specs.LengthRun.{length_exchanges};
ghost use Rattle.exchange_pairs.specs.VersionRun.{versions};
ghost use Rattle.exchange_pairs.specs.Worked.{answers_cross, data_sent, kept_answered};
ghost use Rattle.exchange_pairs.specs.Worked.{lengths_asked, question_kept, question_too_late};
ghost use Rattle.exchange_pairs.specs.Worked.{questions_cross, version_answered, version_asked};
ghost use Rattle.exchange_pairs.specs.Worked.{versions_cross};

/// Two questions cross: each end owes an answer, and both exchanges are over when the answers are
/// taken. A question that the central keeps is answered afterwards. One that reaches an end which
/// is to end the link is not answered.
pub fn worked_exchanges()
    ensures owes { (run exchanges questions_cross).peripheral.queue ≡ Answer ∷ [] }
    ensures awaits { (run exchanges questions_cross).peripheral.own ≡ Sent }
    ensures central { (run exchanges (questions_cross ++ answers_cross)).central.own ≡ Idle }
    ensures peripheral { (run exchanges (questions_cross ++ answers_cross)).peripheral.own ≡ Idle }
    ensures kept { (run exchanges question_kept).kept ≡ true }
    ensures kept_awaits { (run exchanges question_kept).peripheral.own ≡ Sent }
    ensures kept_over { (run exchanges (question_kept ++ kept_answered)).peripheral.own ≡ Idle }
    ensures too_late { (run exchanges question_too_late).central.own ≡ Sent }
    ensures nowhere { ExchangeLaws.places Central (run exchanges question_too_late) ≡ 0 }
{}

/// An LL_VERSION_IND is answered, unless the two cross.
pub fn worked_versions()
    ensures answered { (run versions version_asked).peripheral.waiting ≡ 1 }
    ensures over { (run versions (version_asked ++ version_answered)).central.own ≡ Idle }
    ensures known { (run versions (version_asked ++ version_answered)).central_knows ≡ true }
    ensures crossed { (run versions versions_cross).peripheral.waiting ≡ 0 }
    ensures central { (run versions versions_cross).central.own ≡ Idle }
    ensures peripheral { (run versions versions_cross).peripheral.own ≡ Idle }
    ensures both_know { (run versions versions_cross).central_knows ≡ true }
{}

/// Of two ends that receive 251 and 100 octets the central transmits at most 100 after an exchange,
/// whatever its host asks for, and the peripheral 200, as its host asks for.
pub fn worked_lengths()
    ensures central { (run (length_exchanges 251 100) lengths_asked).central.lengths.peer_rx
        ≡ 100 }
    ensures peripheral { (run (length_exchanges 251 100) lengths_asked).peripheral.lengths.peer_rx
        ≡ 251 }
    ensures over { (run (length_exchanges 251 100) lengths_asked).central.own ≡ Idle }
    ensures sent { (run (length_exchanges 251 100) (lengths_asked ++ data_sent)).up
        ≡ Some (LengthRun.Data 200) }
{}
