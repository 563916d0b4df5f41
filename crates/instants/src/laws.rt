//! The laws of parameters by event, for every list of indications.
ghost use Rattle.std.specs.Prelude.{◌≡◌, ℕ, ◌-◌, ◌≤◌, List, [], ◌++◌, length, Option, IsTrue};
ghost use Rattle.instants.specs.declared.indications.Params.{Params};
ghost use Rattle.instants.specs.declared.indications.Indication.{Indication};
ghost use Rattle.instants.specs.declared.track.Change.{Change};
ghost use Rattle.instants.specs.Parameters.{params_in, anchor_in};
ghost use Rattle.instants.specs.Track.{TrackFacts, first_facts, next_anchor_of, next_number};
ghost use Rattle.instants.specs.Track.{track_after_take, track_after_enter};
ghost use Rattle.instants.specs.Follows.{Follows, AreTogether, new_changes};
ghost use Rattle.instants.specs.Arrivals.{track_after, all_takings, changes_in_force};
ghost use Rattle.instants.specs.Arrivals.{number_starting_in};

/// Each call keeps an end at the parameters and the anchor that its indications give: as the link
/// begins, as it takes an indication, and as it enters the next event, in which one more may hold.
pub fn calls_follow_indications()
    ensures begins { (first : Params) (slot : ℕ) → Follows first slot [] (first_facts first slot) }
    ensures takes { (first : Params) (slot : ℕ) (changes : List Change) (t : TrackFacts)
        (i : Indication)
        → 1 ≤ t.entered → Follows first slot changes t
        → Follows first slot changes (track_after_take t i) }
    ensures enters { (first : Params) (slot : ℕ) (changes : List Change) (t : TrackFacts)
        → Follows first slot changes t
        → Follows first slot (changes ++ new_changes t.waits t.entered) (track_after_enter t) }
{}

/// Whatever indications come, in time, late or too late, an end has in each event the parameters
/// and the anchor that follow from those that hold by then. It names each of them as it enters the
/// first event in which it holds.
pub fn track_follows_indications()
    ensures events { (first : Params) (slot : ℕ) (arrivals : List (Option Indication))
        → (track_after first slot arrivals).entered ≡ length arrivals }
    ensures follows { (first : Params) (slot : ℕ) (arrivals : List (Option Indication))
        → Follows first slot (changes_in_force (length arrivals - 1) (all_takings arrivals))
        (track_after first slot arrivals) }
    ensures next_anchor { (first : Params) (slot : ℕ) (arrivals : List (Option Indication))
        → next_anchor_of (track_after first slot arrivals)
        ≡ anchor_in slot first (changes_in_force (length arrivals) (all_takings arrivals))
        (length arrivals) }
    ensures number { (first : Params) (slot : ℕ) (arrivals : List (Option Indication))
        → next_number (track_after first slot arrivals)
        ≡ number_starting_in (length arrivals) (all_takings arrivals) }
{}

/// Two ends of one link in which the same indications hold have one anchor and one set of
/// parameters in each event, whenever each of them took them.
pub fn ends_agree()
    ensures tracks { (first : Params) (slot : ℕ) (changes : List Change) (a b : TrackFacts)
        → Follows first slot changes a → Follows first slot changes b → a.entered ≡ b.entered
        → AreTogether a b }
    ensures events { (first : Params) (slot : ℕ) (a b : List (Option Indication))
        → length a ≡ length b
        → changes_in_force (length a - 1) (all_takings a)
        ≡ changes_in_force (length b - 1) (all_takings b)
        → AreTogether (track_after first slot a) (track_after first slot b) }
{}
