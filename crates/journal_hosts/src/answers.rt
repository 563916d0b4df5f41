//! Answers to the commands of hosts. The body only calls the law that it rests on: the contract is
//! the law.
ghost use Rattle.std.specs.Prelude.{List, ℕ};
ghost use Rattle.journal_hosts.specs.Answered.{AllAreAnswered};
ghost use Rattle.radio_replay.specs.Script.{Script};
ghost use Rattle.run_model.specs.Journal.{journal_of};
ghost use Rattle.run_model.specs.Pair.{given_of};
ghost use Rattle.run_model.specs.Run.{history_of, run_of};

/// In the journal of a run of a pair, before each turn and at the end or where damage ends it, the
/// host of each side has received exactly one answer for each command in the octets that its side was
/// fed, which names that command, in their order; Host Number Of Completed Packets alone may have
/// none (Core 5.2, volume 4 part E, sections 4.4, 7.3.40, 7.7.14 and 7.7.15).
pub fn each_command_is_answered()
    ensures { (a b : List ℕ) (script : Script)
        → AllAreAnswered (journal_of (history_of (run_of (given_of a b script)))) }
{
    run_model::a_host_is_answered_in_order();
}
