//! Worked examples, which the definitions compute.
ghost use Rattle.std.specs.Prelude.{◌≡◌, [], ◌∷◌, Some};
ghost use Rattle.ble_base.specs.declared.roles.Side.TheVariants.{A, B};
ghost use Rattle.ble_base.specs.declared.verdicts.Verdict.TheVariants.{Broken, Good, Missed};
ghost use Rattle.journal.specs.declared.entries.Entry.TheVariants.{Up, Air};
ghost use Rattle.journal.specs.declared.entries.Mark.TheVariants.{Pass as Passed, Lost as WasLost};
ghost use Rattle.journal.specs.declared.entries.Mark.TheVariants.{Damage as Damaged};
ghost use Rattle.radio_replay.specs.declared.fates.Fate.TheVariants.{Lost};
ghost use Rattle.controller_model.specs.Rows.{advertisement_ending};
ghost use Rattle.run_model.specs.Run.{history_of, run_of};
ghost use Rattle.run_model.specs.Journal.{journal_of};
ghost use Rattle.run_model.specs.Rows.{advertisement_opening, first_reset, first_reset_journal};
ghost use Rattle.run_model.specs.Rows.{one_advertisement, one_connection, one_connection_journal};
ghost use Rattle.run_model.specs.Rows.{one_event, one_event_journal, report};
ghost use Rattle.run_model.specs.Rows.{damage_at, other_advertisement, stop_of, unseen_pattern};

/// The journals of three runs: a first HCI_Reset; one advertisement that is reported; and one that
/// the radio loses.
pub fn worked_runs()
    ensures reset { journal_of (history_of (run_of first_reset)) ≡ first_reset_journal }
    ensures advertisement { journal_of (history_of (run_of (one_advertisement [])))
        ≡ advertisement_opening (Air A 37 (advertisement_ending 0xDA) Passed Good
        ∷ Up B report ∷ []) }
    ensures lost { journal_of (history_of (run_of (one_advertisement (Lost ∷ []))))
        ≡ advertisement_opening (Air A 37 (advertisement_ending 0xDA) WasLost Missed ∷ []) }
{}

/// The same advertisement with its last octet changed, which is broken; and with a change of its
/// address and CRC that no receiver can see, which stops the run.
pub fn worked_damage()
    ensures broken { journal_of (history_of (run_of
        (one_advertisement (damage_at 14 (0x01 ∷ []) ∷ []))))
        ≡ advertisement_opening (Air A 37 (advertisement_ending 0xDA)
        (Damaged 14 (0x01 ∷ [])) Broken ∷ []) }
    ensures stop { stop_of (run_of (one_advertisement (damage_at 11 unseen_pattern ∷ [])))
        ≡ Some (record {
          slot = 0;
          place = 1;
          sender = 0;
          channel = 37;
          sent = advertisement_ending 0xDA;
          heard = other_advertisement;
        }) }
    ensures journal { journal_of (history_of (run_of
        (one_advertisement (damage_at 11 unseen_pattern ∷ [])))) ≡ advertisement_opening [] }
{}

/// The journals of two runs in which a link opens. In one turn A advertises, B initiates and
/// answers the advertisement by a CONNECT_IND, and both open the link; two turns later is its first
/// event, in which both send an empty PDU.
pub fn worked_connection()
    ensures opens { journal_of (history_of (run_of one_connection)) ≡ one_connection_journal }
    ensures event { journal_of (history_of (run_of one_event)) ≡ one_event_journal }
{}
