//! That the words of a winner name one activity.
ghost use Rattle.std.specs.Prelude.{◌≡◌, List, ◌∷◌};
ghost use Rattle.slot_plan.specs.declared.activities.Activity.{Activity};
ghost use Rattle.slot_plan.specs.declared.wants.Want.{Want};
ghost use Rattle.slot_plan.specs.Winner.{IsWinner};

/// No two activities win one slot.
pub fn winner_is_unique()
    ensures { (wants : List Want) (a b : Activity) → IsWinner wants a → IsWinner wants b → a ≡ b }
{}

/// Where something wants a slot, something wins it.
pub fn winner_exists()
    ensures { (want : Want) (wants : List Want) → (a : Activity) × IsWinner (want ∷ wants) a }
{}
