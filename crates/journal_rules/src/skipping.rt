//! Which events a peripheral skips, by what it heard and by the indications of its central. The body is
//! empty: the contract is the law.
ghost use Rattle.std.specs.Prelude.{List};
ghost use Rattle.journal.specs.declared.entries.Entry.{Entry};
ghost use Rattle.journal_rules.specs.Skipping as skips;

/// In any journal in which the end of each side has, in each event that it enters, the latency of its
/// CONNECT_IND as the indications in force at the side have changed it: a side skips an event exactly
/// where it is an idle peripheral that heard a good packet last in an event before, not more than
/// that latency before (Core 5.2, volume 6 part B, sections 4.5.1 and 5.1.1; when it is idle is our
/// choice).
pub fn a_peripheral_skips_events_up_to_the_latency_in_force()
    ensures { (words : skips.Words) (journal : List Entry) → skips.AllHaveLatency words journal
        → skips.AllSkipInWords words journal }
{}
