//! What a side seals, and with which counter, by the PDUs that it took and sent. The bodies are empty:
//! the contracts are the laws.
ghost use Rattle.std.specs.Prelude.{◌≡◌, ℕ, List};
ghost use Rattle.ble_base.specs.declared.roles.Role.{Role};
ghost use Rattle.ble_base.specs.declared.roles.Side.{Side};
ghost use Rattle.journal.specs.declared.entries.Entry.{Entry};
ghost use Rattle.journal_rules.specs.Sealing as seals;

/// In any journal the payload of each new PDU of a side is its body, sealed exactly where the last of
/// these PDUs that the side took and did not ignore is the one with which it begins to seal: of
/// LL_START_ENC_REQ and LL_PAUSE_ENC_RSP at a central, and of LL_START_ENC_RSP and LL_PAUSE_ENC_RSP at
/// a peripheral. Its counter is then the number of PDUs that it sent since (Core 5.2, volume 6 part
/// B, sections 5.1.3.1 and 5.1.3.2, and part E, section 2).
pub fn a_side_seals_from_the_start_that_it_took_last()
    ensures { (words : seals.Words) (journal : List Entry) → seals.AllAreSealedInWords words journal }
{}

/// Where a side ignored none of them, all lines count.
pub fn where_none_is_ignored_all_lines_count()
    ensures { (words : seals.Words) (role : Role) (side : Side) (number : ℕ) (journal : List Entry)
        → seals.NoneIsIgnored words role side number journal
        → seals.lines_counted words role side number journal ≡ journal }
{}
