//! What the hosts of a pair receive. The body only calls the laws that it rests on: the contract is
//! the law.
ghost use Rattle.std.specs.Prelude.{◌≡◌, ℕ, Bool, Option, List, ◌∷◌, ◌++◌};
ghost use Rattle.ble_base.specs.declared.roles.Side.{Side};
ghost use Rattle.journal.specs.declared.entries.Entry.{Entry};
ghost use Rattle.journal.specs.declared.entries.Entry.TheVariants.{Turn};
ghost use Rattle.radio_replay.specs.Script.{Script};
ghost use Rattle.run_model.specs.Run.{history_of, run_of};
ghost use Rattle.run_model.specs.Pair.{given_of};
ghost use Rattle.run_model.specs.Journal.{journal_of};
ghost use Rattle.run_model.specs.Answered.{IsAnswered};

/// Where a turn of a pair is over, and at the end or the stop of a run, each host has received
/// exactly the answers to the packets in the octets that its side was fed, in order, and nothing
/// else while its side has heard nothing. While it has had no link, only LE events may come between
/// the answers. Whatever its links do, each command in these octets that has an answer has exactly
/// one, which names it, in their order.
pub fn a_host_is_answered_in_order()
    ensures turn { (a b : List ℕ) (script : Script) (front rest : List Entry) (slot : ℕ)
        (a_on : Bool) (b_on : Option Bool)
        → journal_of (history_of (run_of (given_of a b script)))
        ≡ front ++ Turn slot a_on b_on ∷ rest
        → (side : Side) → IsAnswered (given_of a b script) front side }
    ensures last { (a b : List ℕ) (script : Script) (side : Side)
        → IsAnswered (given_of a b script)
        (journal_of (history_of (run_of (given_of a b script)))) side }
{
    controller_model::a_host_is_answered_whatever_the_turns();
    controller_model::commands_are_answered_in_order();
}
