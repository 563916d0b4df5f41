//! Laws of the frames, for callers that keep them in an invariant. The bodies do nothing: the
//! contracts are the laws.

ghost use Rattle.std.specs.Prelude.{◌≡◌, ℕ, ◌≤◌, ◌↔◌, List, ◌++◌, length, map, All};
ghost use Rattle.std.specs.List.Sorted.{IsStrictlyIncreasing};
ghost use Rattle.h4_frames.specs.declared.packet.Fed.{Fed};
ghost use Rattle.h4_frames.specs.Framing.{IsFramed};
ghost use Rattle.h4_frames.specs.Frames.{frames, frame_entries, AreResults};

/// The frames are the one way to divide the octets into packets and losses.
pub fn frames_are_the_division()
    ensures { (octets : List ℕ) (entries : List (ℕ × Fed))
        → IsFramed 0 octets entries ↔ (entries ≡ frames octets) }
{}

/// The results for a host's octets, one after another, are the frames of them all, however they are
/// cut.
pub fn results_are_the_frames()
    ensures { (past octets : List ℕ) → (results : List Fed) → AreResults past octets results
        → frames (past ++ octets) ≡ frames past ++ frame_entries (length past) results }
{}

/// More octets add frames after those that are there.
pub fn frames_grow()
    ensures { (past octets : List ℕ)
        → (more : List (ℕ × Fed)) × (frames (past ++ octets) ≡ frames past ++ more) }
{}

/// Each frame ends within the octets, and after the frame before it.
pub fn frames_are_in_order()
    ensures within { (octets : List ℕ) → All (λ entry. entry.0 ≤ length octets) (frames octets) }
    ensures in_order { (octets : List ℕ)
        → IsStrictlyIncreasing (map (λ entry. entry.0) (frames octets)) }
{}
