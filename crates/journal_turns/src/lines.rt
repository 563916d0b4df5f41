//! The law of the journal of each run of a pair about its turns. The body only calls the laws that
//! it rests on: the contract is the law.
ghost use Rattle.std.specs.Prelude.{◌≡◌, ℕ, List};
ghost use Rattle.radio_replay.specs.Script.{Script};
ghost use Rattle.run_model.specs.History.{Event};
ghost use Rattle.run_model.specs.Journal.{journal_of, side_of};
ghost use Rattle.run_model.specs.Pair.{given_of};
ghost use Rattle.run_model.specs.Run.{GoesOn, Stop, Stops, history_of, run_of};
ghost use Rattle.journal_turns.specs.Follows.{FollowsSchedule};
ghost use Rattle.journal_turns.specs.Scheduled.{AreAllTurns};
ghost use Rattle.journal_turns.specs.Stopped.{IsStoppedAt};

/// The journal of each run of a pair, whole or ended by damage, follows its schedule (our choice):
///
/// - its turns are the first of the schedule, in order from slot 0, each with its radios; in a whole
///   run they are all;
/// - before each turn but the first, and at the end, each side was fed what the turns so far feed it
///   of its stream, in order;
/// - the n-th packet of a turn has the n-th fate of that turn. A side whose radio is off sends
///   nothing and misses all packets. A lost packet is missed, and a packet that is judged good is
///   heard as it was sent;
/// - the lines of a turn come in its order.
pub fn each_journal_follows_its_schedule()
    ensures follows { (a b : List ℕ) (script : Script)
        → FollowsSchedule a b script (journal_of (history_of (run_of (given_of a b script)))) }
    ensures whole { (a b : List ℕ) (script : Script) (history : List Event)
        → run_of (given_of a b script) ≡ GoesOn history
        → AreAllTurns script (journal_of history) }
{
    run_model::each_event_is_due();
    run_model::turns_follow_the_schedule();
    run_model::a_journal_says_what_happened();
    run_model::a_turn_leaves_nothing_over();
    run_model::entries_are_in_order();
    run_model::each_packet_on_the_air_is_due();
}

/// A run of a pair that damage stops does so in the turn that began last, at the next packet of that
/// turn, whose fate changes it, while both sides have their radio on (our choice).
pub fn a_run_stops_in_its_turn()
    ensures { (a b : List ℕ) (script : Script) (history : List Event) (stop : Stop)
        → run_of (given_of a b script) ≡ Stops history stop
        → IsStoppedAt script (side_of stop.sender) stop.slot stop.place stop.sent stop.heard
        (journal_of history) }
{
    run_model::unseen_damage_stops_a_run();
}
