//! Links that are shut for a reason that the lines before do not give, and others that stay open.
ghost use Rattle.ble_base.specs.declared.roles.Side.TheVariants.{A};
ghost use Rattle.journal_pdus.specs.journal_acks.Shut.{CompletesReset};
ghost use Rattle.journal_pdus.specs.journal_controls.journal_ends.Asked.{Words};
ghost use Rattle.journal_pdus.specs.journal_leaving.Reasons as reasons;
ghost use Rattle.wrong_journals.specs.Resetting.{reset_now};
ghost use Rattle.wrong_journals.specs.Shuts as wrong;

/// A link on which nothing was heard is shut in turn 144 with 3E, one on which a packet was heard
/// in turn 2 is shut in turn 578 with 08, and any is shut at a Reset with 00. None is shut one turn
/// before, nor with 3E where a packet was heard or after a packet of that turn, nor with a code that
/// is not that of the reason, nor with 00 where no host sent anything.
pub fn wrong_reasons_are_refused()
    ensures failed { (words : Words) → reasons.IsShutAs words wrong.failing A 1
        (record { 0 = 0x3E }) }
    ensures timed_out { (words : Words) → reasons.IsShutAs words wrong.silent A 1
        (record { 0 = 0x08 }) }
    ensures completes { CompletesReset (reset_now A) A }
    ensures reset { (words : Words) → reasons.IsShutAs words (reset_now A) A 1
        (record { 0 = 0x00 }) }
    ensures fails_early { (words : Words) → reasons.IsShutAs words wrong.before_failing A 1
        (record { 0 = 0x3E }) → ⊥ }
    ensures times_out_early { (words : Words) → reasons.IsShutAs words wrong.before_silent A 1
        (record { 0 = 0x08 }) → ⊥ }
    ensures heard { (words : Words) → reasons.IsShutAs words wrong.heard_once A 1
        (record { 0 = 0x3E }) → ⊥ }
    ensures after_packet { (words : Words)
        → reasons.IsShutAs words wrong.failing_after_packet A 1 (record { 0 = 0x3E }) → ⊥ }
    ensures another_code { (words : Words) → reasons.IsShutAs words wrong.failing A 1
        (record { 0 = 0x13 }) → ⊥ }
    ensures no_reset { (words : Words) → reasons.IsShutAs words wrong.failing A 1
        (record { 0 = 0x00 }) → ⊥ }
{}

/// A link on which nothing was heard may still be open before turn 144, and one on which a packet
/// was heard in turn 2 before turn 578. After these turns neither is.
pub fn links_that_stay_open_are_refused()
    ensures may_fail { (words : Words) → reasons.StaysOpen words A 1 wrong.before_failing }
    ensures may_time_out { (words : Words) → reasons.StaysOpen words A 1 wrong.before_silent }
    ensures failed { (words : Words) → reasons.AllStayOpen words wrong.failing → ⊥ }
    ensures timed_out { (words : Words) → reasons.AllStayOpen words wrong.silent → ⊥ }
{}
