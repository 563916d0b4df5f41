//! The PDUs of some kinds that are on their way, move by move. The body does nothing: the contract
//! is the law.
ghost use Rattle.std.specs.Prelude.{◌≡◌, true, Option};
ghost use Rattle.collision_steps.specs.SubLists.{Directions, Move, after_move, may_move};
ghost use Rattle.collision_steps.specs.Untaken.{FindsNone, FindsSent, ways_after, ways_of};

/// Of some kinds, the PDUs that are fixed or sent and not taken: a move sends or takes at most one
/// of them, it sends one only where none of its direction is untaken, and takes only what was sent.
/// So a run of both directions is one of the ways of a joint run of exchanges. `A` is the type of a
/// PDU, and `B` that of one of these kinds.
pub fn each_move_sends_or_takes_at_most_one<A, B>()
    ensures ways { (part : A → Option B) (move : Move A) (s : Directions A)
        → may_move move s ≡ true
        → ways_of part (after_move move s) ≡ ways_after part move (ways_of part s) }
    ensures sends { (part : A → Option B) (move : Move A) (s : Directions A)
        → may_move move s ≡ true → FindsNone part move s }
    ensures takes { (move : Move A) (s : Directions A) → may_move move s ≡ true
        → FindsSent move s }
{}
