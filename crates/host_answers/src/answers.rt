//! The commands that the lines of a side accept. The bodies are empty: the contracts are the laws.
ghost use Rattle.std.specs.Prelude.{◌≡◌, ◌++◌, ◌∷◌, [], ℕ, false, List};
ghost use Rattle.std.specs.List.{Contains};
ghost use Rattle.ble_base.specs.declared.roles.Side.{Side};
ghost use Rattle.run_model.specs.controller_model.Step.{Step};
ghost use Rattle.run_model.specs.Feeding.{is_note};
ghost use Rattle.run_model.specs.History.{Called, Event, past_of};
ghost use Rattle.run_model.specs.Journal.{journal_of, side_of};
ghost use Rattle.run_model.specs.Run.{Given, facts_at, history_of, run_of, setup_at};
ghost use Rattle.host_answers.specs.Answered.{accepted_from, host_commands};
ghost use Rattle.host_answers.specs.Calls.{answered_after, answered_of, call_lines};
ghost use Rattle.host_answers.specs.Flows.{flow_on};

/// In a run of two stations, the lines of a call accept, for the side of its station, the command
/// that the controller accepts in that call, and none where it accepts none; for the other side they
/// accept none. Host Number Of Completed Packets, which has no answer where it is accepted, is left
/// out (Core 5.2, volume 4 part E, sections 7.3.40, 7.7.14 and 7.7.15).
pub fn each_line_accepts_what_its_call_accepts()
    ensures own { (given : Given) (before rest : List Event) (station : ℕ) (step : Step)
        → given.stations ≡ 0 ∷ 1 ∷ [] → Contains given.stations station
        → history_of (run_of given) ≡ before ++ Called station step ∷ rest
        → accepted_from (side_of station) (journal_of before)
        (call_lines given station step before)
        ≡ answered_after (facts_at given station before) step }
    ensures other { (given : Given) (before : List Event) (side : Side) (station : ℕ) (step : Step)
        → (side ≡ side_of station → ⊥)
        → accepted_from side (journal_of before) (call_lines given station step before) ≡ [] }
{}

/// In a run of two stations, the commands that are accepted by all lines of a side are those that
/// its controller accepted in all its calls: before each event that is not itself a note, and at the
/// end.
pub fn lines_accept_all_that_is_accepted()
    ensures before_an_event { (given : Given) (before rest : List Event) (event : Event)
        (station : ℕ) → given.stations ≡ 0 ∷ 1 ∷ [] → Contains given.stations station
        → history_of (run_of given) ≡ before ++ event ∷ rest → is_note event ≡ false
        → host_commands (side_of station) (journal_of before)
        ≡ answered_of (setup_at given station) (past_of station before) }
    ensures at_the_end { (given : Given) (station : ℕ) → given.stations ≡ 0 ∷ 1 ∷ []
        → Contains given.stations station
        → host_commands (side_of station) (journal_of (history_of (run_of given)))
        ≡ answered_of (setup_at given station) (past_of station (history_of (run_of given))) }
{}

/// In a run of two stations, flow control towards a host is, by the lines of its side, as its
/// controller holds it: before each event that is not itself a note, and at the end (Core 5.2, volume
/// 4 part E, sections 7.3.2, 7.3.38 and 7.3.39).
pub fn lines_tell_the_flow_that_is_held()
    ensures before_an_event { (given : Given) (before rest : List Event) (event : Event)
        (station : ℕ) → given.stations ≡ 0 ∷ 1 ∷ [] → Contains given.stations station
        → history_of (run_of given) ≡ before ++ event ∷ rest → is_note event ≡ false
        → flow_on (side_of station) (journal_of before) ≡ (facts_at given station before).view.flow }
    ensures at_the_end { (given : Given) (station : ℕ) → given.stations ≡ 0 ∷ 1 ∷ []
        → Contains given.stations station
        → flow_on (side_of station) (journal_of (history_of (run_of given)))
        ≡ (facts_at given station (history_of (run_of given))).view.flow }
{}
