//! Worked examples, which the definitions compute.
ghost use Rattle.std.specs.Prelude.{◌≡◌, true, false};
ghost use Rattle.ble_base.specs.declared.roles.Role.TheVariants.{Central, Peripheral};
ghost use Rattle.journal_events.specs.EventLines.{goes_on, no_event_lines, slots_held};
ghost use Rattle.journal_events.specs.Rows.{heard_in, to_continue, update_entered};
ghost use Rattle.journal_events.specs.Skips.{skips_by};

/// With a latency of one event an idle peripheral skips the event after one in which it heard a good
/// packet, and no other. It is the latency in force in the event that is skipped: where an update
/// holds from event 1 on, event 1 is skipped by the new one. An event with long payloads has one
/// exchange, and holds the radio longer.
pub fn worked_skips()
    ensures next { skips_by Peripheral (heard_in 3) true ≡ true }
    ensures later { skips_by Peripheral (heard_in 2) true ≡ false }
    ensures busy { skips_by Peripheral (heard_in 3) false ≡ false }
    ensures central { skips_by Central (heard_in 3) true ≡ false }
    ensures never { skips_by Peripheral no_event_lines true ≡ false }
    ensures new_latency { update_entered.latency ≡ 1 }
    ensures not_the_old { update_entered.latency ≡ 0 → ⊥ }
    ensures by_the_new { skips_by Peripheral update_entered true ≡ true }
    ensures continues { goes_on to_continue ≡ true }
    ensures long { goes_on (record to_continue { long = true }) ≡ false }
    ensures changed { goes_on (record to_continue { changed = true }) ≡ false }
    ensures two { slots_held to_continue ≡ 2 }
    ensures four { slots_held (record to_continue { long = true }) ≡ 4 }
{}
