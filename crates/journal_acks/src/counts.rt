//! What the counts of any journal keep, whatever packets and verdicts are in it. The body is
//! empty: the contract is the law.
ghost use Rattle.std.specs.Prelude.{◌≤◌, ◌+◌, ℕ, List};
ghost use Rattle.ble_base.specs.Side.{other_side};
ghost use Rattle.ble_base.specs.declared.roles.Side.{Side};
ghost use Rattle.journal.specs.declared.entries.Entry.{Entry};
ghost use Rattle.journal_acks.specs.Exchange.{exchange_of};

/// What is acknowledged to one end the other accepted, and what the other accepted this end sent;
/// it has at most one PDU that is not acknowledged (Core 5.2, volume 6 part B, section 4.5.9). This
/// is so in any list of entries, also in one that no run writes.
pub fn counts_of_any_journal()
    ensures acknowledged { (number : ℕ) (journal : List Entry) (side : Side)
        → (exchange_of number journal side).acked
        ≤ (exchange_of number journal (other_side side)).accepted }
    ensures accepted { (number : ℕ) (journal : List Entry) (side : Side)
        → (exchange_of number journal (other_side side)).accepted
        ≤ (exchange_of number journal side).sent }
    ensures sent { (number : ℕ) (journal : List Entry) (side : Side)
        → (exchange_of number journal side).sent
        ≤ (exchange_of number journal side).acked + 1 }
{}
