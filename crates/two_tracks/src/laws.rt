//! The laws of two ends. The bodies are empty: the contracts are the laws.
ghost use Rattle.std.specs.Prelude.{◌≡◌, ◌⊎◌, ◌↔◌, ◌<◌, ◌≤◌, ◌+◌, ◌%◌, ◌^◌, ℕ, List, take};
ghost use Rattle.std.specs.Prelude.{Some, None, IsTrue, true};
ghost use Rattle.std.specs.List.{All, Contains};
ghost use Rattle.instants.specs.declared.indications.Params.{Params};
ghost use Rattle.instants.specs.declared.indications.Indication.{Indication};
ghost use Rattle.instants.specs.declared.track.Change.{Change};
ghost use Rattle.instants.specs.Parameters.{instant_of, win_offset_of};
ghost use Rattle.instants.specs.Track.{TrackFacts, event_of, gap_ahead, is_free, next_anchor_of};
ghost use Rattle.instants.specs.Follows.{AreTogether, Follows};
ghost use Rattle.two_tracks.specs.TwoEnds.{May, MayReach, MaySend, Step, TwoEnds, after};
ghost use Rattle.two_tracks.specs.TwoEnds.{beginning, change_of, has_passed};
ghost use Rattle.two_tracks.specs.Reached.{AreOpen, IsLate, IsReached, untaken};

/// A link comes to its beginning, and from each state that it comes to it goes on with each step
/// that may come.
pub fn two_ends_go_on()
    ensures begins { (first : Params) (slot turns : ℕ) → turns ≤ slot → 6 ≤ first.interval
        → IsReached first slot (beginning first slot turns) }
    ensures goes_on { (first : Params) (slot : ℕ) (s : TwoEnds) (step : Step)
        → IsReached first slot s → May step s → IsReached first slot (after step s) }
{}

/// A packet of the central reaches the peripheral only where both are in an event of one number, or
/// where it carries an indication whose Instant has passed, which ends the link. A reply reaches the
/// central only where both are in an event of one number. Both ends then have one anchor.
pub fn packets_pass_within_an_event()
    ensures packets { (first : Params) (slot : ℕ) (s : TwoEnds) → IsReached first slot s
        → MayReach s
        → (s.central.entered ≡ s.peripheral.entered) ⊎ IsLate (untaken s.last) s.peripheral }
    ensures anchors { (first : Params) (slot : ℕ) (s : TwoEnds) → IsReached first slot s
        → MayReach s → s.central.anchor ≡ s.peripheral.anchor }
    ensures replies { (first : Params) (slot : ℕ) (s : TwoEnds) → IsReached first slot s
        → s.replies ≡ true → s.central.entered ≡ s.peripheral.entered }
{}

/// No indication waits at either end where another one comes, and both ends let it hold from the
/// same event on. The 16-bit Instant tells whether it has passed: exactly where the event of the
/// peripheral is past it (Core 5.2, volume 6 part B, section 5.5.1).
pub fn indications_come_one_by_one()
    ensures central { (first : Params) (slot : ℕ) (s : TwoEnds) (indication : Indication)
        → IsReached first slot s → MaySend s (Some indication) → IsTrue (is_free s.central) }
    ensures peripheral { (first : Params) (slot : ℕ) (s : TwoEnds) (change : Change)
        → IsReached first slot s → AreOpen s → untaken s.last ≡ Some change
        → IsTrue (is_free s.peripheral) }
    ensures same { (first : Params) (slot : ℕ) (s : TwoEnds) (change : Change)
        → IsReached first slot s → MayReach s → untaken s.last ≡ Some change
        → event_of s.peripheral ≤ change.at.0
        → change_of (event_of s.peripheral) change.indication ≡ change }
    ensures passed { (first : Params) (slot : ℕ) (s : TwoEnds) (change : Change)
        → IsReached first slot s → MayReach s → untaken s.last ≡ Some change
        → ((has_passed s.peripheral change ≡ true) ↔ (change.at.0 < event_of s.peripheral)) }
    ensures near { (first : Params) (slot : ℕ) (s : TwoEnds) (change : Change)
        → IsReached first slot s → MayReach s → untaken s.last ≡ Some change
        → event_of s.peripheral < change.at.0 + 32769 }
{}

/// Two open ends have entered the same number of events: while the peripheral has taken all
/// indications; while it has not come to the Instant of the one that it has not taken; and, if no
/// indication moves the anchors, wherever the same number of indications hold.
pub fn ends_enter_the_same_events()
    ensures all_taken { (first : Params) (slot : ℕ) (s : TwoEnds) → IsReached first slot s
        → AreOpen s → untaken s.last ≡ None → s.central.entered ≡ s.peripheral.entered }
    ensures before_the_instant { (first : Params) (slot : ℕ) (s : TwoEnds) (change : Change)
        → IsReached first slot s → AreOpen s → untaken s.last ≡ Some change
        → s.peripheral.entered ≤ change.at.0 → s.central.entered ≡ s.peripheral.entered }
    ensures without_offsets { (first : Params) (slot : ℕ) (s : TwoEnds) → IsReached first slot s
        → AreOpen s → All (λ (change : Change). win_offset_of change.indication ≡ 0) s.sent
        → s.central.applied ≡ s.peripheral.applied
        → s.central.entered ≡ s.peripheral.entered }
{}

/// In each event that an end enters it has the parameters and the anchor that follow from the
/// indications that hold there, which are the first that the central sent; so two events of one
/// number in which the same number of indications hold have one anchor and one set of parameters.
/// This holds also after one end is gone.
pub fn each_event_has_its_parameters()
    ensures central { (first : Params) (slot : ℕ) (s : TwoEnds) (a : TrackFacts)
        → IsReached first slot s → Contains s.central_entries a
        → Follows first slot (take a.applied s.sent) a }
    ensures peripheral { (first : Params) (slot : ℕ) (s : TwoEnds) (a : TrackFacts)
        → IsReached first slot s → Contains s.peripheral_entries a
        → Follows first slot (take a.applied s.sent) a }
    ensures both { (first : Params) (slot : ℕ) (s : TwoEnds) (a b : TrackFacts)
        → IsReached first slot s → Contains s.central_entries a
        → Contains s.peripheral_entries b → a.entered ≡ b.entered → a.applied ≡ b.applied
        → AreTogether a b }
{}

/// No open end misses the turn of its next anchor.
pub fn no_anchor_is_missed()
    ensures central { (first : Params) (slot : ℕ) (s : TwoEnds) → IsReached first slot s
        → s.central_open ≡ true → s.turns ≤ next_anchor_of s.central }
    ensures peripheral { (first : Params) (slot : ℕ) (s : TwoEnds) → IsReached first slot s
        → s.peripheral_open ≡ true → s.turns ≤ next_anchor_of s.peripheral }
{}

/// An Instant that is this number of events ahead, modulo 65536, has that gap.
pub fn instants_are_ahead()
    ensures { (event ahead : ℕ) (indication : Indication)
        → instant_of indication ≡ (event + ahead) % 2 ^ 16 → ahead < 2 ^ 16
        → gap_ahead event indication ≡ ahead }
{}
