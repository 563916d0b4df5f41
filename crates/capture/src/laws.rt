//! Laws of captures. The bodies do nothing: the contracts are the laws.
ghost use Rattle.std.specs.Prelude.{◌≡◌, ◌++◌, [], List};
ghost use Rattle.journal.specs.declared.entries.Entry.{Entry};
ghost use Rattle.capture.specs.Capture.{blocks_after, capture, file_header};

/// A capture is what `capture_start` and `Recorder::record` give, one after the other, and the
/// entries may be recorded in parts.
#[tactic(auto, using(crate::proofs::Parts::blocks_in_parts))]
pub fn a_capture_is_its_parts()
    ensures whole { (entries : List Entry)
        → capture entries ≡ file_header ++ blocks_after [] entries }
    ensures packets { (past front back : List Entry) → blocks_after past (front ++ back)
        ≡ blocks_after past front ++ blocks_after (past ++ front) back }
{}
