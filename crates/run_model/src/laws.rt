//! Laws of runs: what the definitions say of every schedule, all streams and any stations, and of
//! the journal of a pair. The bodies are empty: the contracts are the laws.
ghost use Rattle.std.specs.Prelude.{◌≡◌, ℕ, ◌+◌, ◌<◌, Bool, true, false, List, [], ◌∷◌, ◌++◌};
ghost use Rattle.std.specs.Prelude.{Option, length, take};
ghost use Rattle.std.specs.List.{Contains};
ghost use Rattle.ble_base.specs.declared.roles.Side.{Side};
ghost use Rattle.ble_base.specs.declared.verdicts.Verdict.{Verdict};
ghost use Rattle.journal.specs.declared.entries.Entry.{Entry};
ghost use Rattle.journal.specs.declared.entries.Entry.TheVariants.{Air, Fed, Turn};
ghost use Rattle.journal.specs.declared.entries.Mark.{Mark};
ghost use Rattle.radio_replay.specs.Script.{Script};
ghost use Rattle.controller_model.specs.Step.{Step};
ghost use Rattle.run_model.specs.Due.{Each, IsDue, octets_called, packet_in};
ghost use Rattle.run_model.specs.Entries.{IsAired, IsHistoryBefore, IsOfEvent, IsUpToDate};
ghost use Rattle.run_model.specs.Feeding.{AreDistinct, HasNoted, feed_total, feeds_at};
ghost use Rattle.run_model.specs.Feeding.{is_note, is_of_feeding};
ghost use Rattle.run_model.specs.History.{Event, TurnBegan, Called, Transmitted, Hearing};
ghost use Rattle.run_model.specs.History.{fed_to, noted_by, turns_begun};
ghost use Rattle.run_model.specs.Journal.{journal_of};
ghost use Rattle.run_model.specs.OnAir.{IsNextOnAir, IsUnseenStop, ends_phase, transmitted_since};
ghost use Rattle.run_model.specs.Order.{IsInOrder};
ghost use Rattle.run_model.specs.Pair.{EndsUnseen, IsRun, given_of};
ghost use Rattle.run_model.specs.Readers.{HasNextFate, IsOfStations, turn_packets, fed_to_side};
ghost use Rattle.run_model.specs.Readers.{packets_of, packets_to_host, station_of, turns_from, turns_of};
ghost use Rattle.run_model.specs.Run.{Given, GoesOn, Stop, Stops, history_of, run_of, use_at};
ghost use Rattle.run_model.specs.Turns.{IsInTurn, openings_from, openings_of};
ghost use Rattle.run_model.specs.Turns.{calls_in_turn, calls_of_a_turn};

/// A run has one journal: what is given leaves no choice, neither of the journal nor of whether
/// and where unseen damage ends the run.
pub fn a_run_has_one_journal()
    ensures whole { (given : Given) (journal other : List Entry) → IsRun given journal
        → IsRun given other → journal ≡ other }
    ensures unseen { (given : Given) (turn packet other_turn other_packet : ℕ)
        (sent heard other_sent other_heard : List ℕ) (journal other : List Entry)
        → EndsUnseen given turn packet sent heard journal
        → EndsUnseen given other_turn other_packet other_sent other_heard other
        → (journal ≡ other) × (turn ≡ other_turn) × (packet ≡ other_packet)
        × (sent ≡ other_sent) × (heard ≡ other_heard) }
    ensures either { (given : Given) (turn packet : ℕ) (sent heard : List ℕ)
        (journal other : List Entry) → IsRun given journal
        → EndsUnseen given turn packet sent heard other → ⊥ }
{}

/// Each event of a run is due, given those before it: the turns, the octets of hosts, the calls
/// on controllers, and the packets with their fates and verdicts. It is of one of the stations.
/// This is so up to the stop of a run that stops, and for any stations.
pub fn each_event_is_due()
    ensures each { (given : Given) → Each (IsDue given) [] (history_of (run_of given)) }
    ensures place { (given : Given) (before rest : List Event) (event : Event)
        → history_of (run_of given) ≡ before ++ event ∷ rest → IsDue given before event }
    ensures station { (given : Given) (before rest : List Event) (event : Event)
        → history_of (run_of given) ≡ before ++ event ∷ rest
        → IsOfStations given.stations event }
{}

/// Each controller has noted just what the calls on it give, in order: at the end of a run, at
/// the stop of one that stops, and before each event that is not itself a note.
pub fn notes_are_those_of_the_calls()
    ensures end { (given : Given) (station : ℕ)
        → HasNoted given station (history_of (run_of given)) }
    ensures place { (given : Given) (before rest : List Event) (event : Event) (station : ℕ)
        → history_of (run_of given) ≡ before ++ event ∷ rest → is_note event ≡ false
        → HasNoted given station before }
{}

/// Each station is fed what the schedule feeds it, and its controller is called with just these
/// octets, in order: at the end of a run, at the stop of one that stops, and before each event
/// that is not itself of feeding. What is fed is stated for stations that are distinct.
pub fn feeding_follows_the_schedule()
    ensures takes_all { (given : Given) (station : ℕ)
        → octets_called station (history_of (run_of given))
        ≡ fed_to station (history_of (run_of given)) }
    ensures takes_all_before { (given : Given) (before rest : List Event) (event : Event)
        (station : ℕ) → history_of (run_of given) ≡ before ++ event ∷ rest
        → is_of_feeding event ≡ false → octets_called station before ≡ fed_to station before }
    ensures feeds_all { (given : Given) (station : ℕ) → AreDistinct given.stations
        → Contains given.stations station
        → fed_to station (history_of (run_of given))
        ≡ feeds_at given station (history_of (run_of given)) }
    ensures feeds_all_before { (given : Given) (before rest : List Event) (event : Event)
        (station : ℕ) → AreDistinct given.stations → Contains given.stations station
        → history_of (run_of given) ≡ before ++ event ∷ rest → is_of_feeding event ≡ false
        → fed_to station before ≡ feeds_at given station before }
    ensures whole { (given : Given) (history : List Event) (station : ℕ)
        → AreDistinct given.stations → Contains given.stations station
        → run_of given ≡ GoesOn history
        → fed_to station history
        ≡ take (feed_total station given.plans) (given.station_of station).stream }
{}

/// Nothing that is due is missing on the air: whoever ends a phase has transmitted just what it
/// wanted to in it, whoever transmits is the next to do so, and so is the sender of the packet
/// that a run stops at.
pub fn all_that_is_due_is_on_the_air()
    ensures phase { (given : Given) (before rest : List Event) (station : ℕ) (step : Step)
        → AreDistinct given.stations
        → history_of (run_of given) ≡ before ++ Called station step ∷ rest
        → ends_phase step ≡ true
        → transmitted_since station before ≡ packet_in (use_at given station before) }
    ensures packet { (given : Given) (before rest : List Event) (station channel : ℕ)
        (octets : List ℕ) (hearings : List Hearing) → AreDistinct given.stations
        → history_of (run_of given)
        ≡ before ++ Transmitted station channel octets hearings ∷ rest
        → IsNextOnAir given before station }
    ensures stop { (given : Given) (history : List Event) (stop : Stop)
        → AreDistinct given.stations → run_of given ≡ Stops history stop
        → IsNextOnAir given history stop.sender }
{}

/// The turns of a run are those of the schedule, in order, with the radios as it says; they are
/// all of them where it goes on, and those up to its slot where it stops. Nothing comes before
/// the first.
pub fn turns_follow_the_schedule()
    ensures openings { (given : Given) → openings_of (history_of (run_of given))
        ≡ openings_from given.stations 0
        (take (turns_begun (history_of (run_of given))) given.plans) }
    ensures whole { (given : Given) (history : List Event) → run_of given ≡ GoesOn history
        → turns_begun history ≡ length given.plans }
    ensures stop { (given : Given) (history : List Event) (stop : Stop)
        → run_of given ≡ Stops history stop → turns_begun history ≡ stop.slot + 1 }
    ensures place { (given : Given) (before rest : List Event) (event : Event)
        → history_of (run_of given) ≡ before ++ event ∷ rest → IsInTurn before event }
{}

/// A run stops where a packet is changed on its way and another station would judge what is left
/// of it good.
pub fn unseen_damage_stops_a_run()
    ensures { (given : Given) (history : List Event) (stop : Stop)
        → run_of given ≡ Stops history stop → IsUnseenStop given history stop }
{}

/// The two stations of a pair are distinct.
pub fn a_pair_is_distinct()
    ensures { (a b : List ℕ) (script : Script) → AreDistinct (given_of a b script).stations }
{}

/// In each turn each station has these calls, beside those with octets of its host: it begins the
/// turn, ends three phases, and ends the turn. This is so where a turn is over.
pub fn each_turn_has_three_phases()
    ensures turn { (given : Given) (before rest : List Event) (slot : ℕ) (radios : List Bool)
        (station : ℕ) → AreDistinct given.stations → Contains given.stations station
        → history_of (run_of given) ≡ before ++ TurnBegan slot radios ∷ rest
        → 0 < turns_begun before → calls_in_turn station before ≡ calls_of_a_turn }
    ensures last { (given : Given) (history : List Event) (station : ℕ)
        → AreDistinct given.stations → Contains given.stations station
        → run_of given ≡ GoesOn history → 0 < turns_begun history
        → calls_in_turn station history ≡ calls_of_a_turn }
{}

/// The journal of a pair says what happened: up to each place the octets that each side was fed and
/// the packets that each host received, and the turns, which are those of the schedule.
pub fn a_journal_says_what_happened()
    ensures octets { (a b : List ℕ) (script : Script) (before rest : List Event) (side : Side)
        → history_of (run_of (given_of a b script)) ≡ before ++ rest
        → fed_to_side side (journal_of before) ≡ fed_to (station_of side) before }
    ensures packets { (a b : List ℕ) (script : Script) (before rest : List Event) (side : Side)
        → history_of (run_of (given_of a b script)) ≡ before ++ rest
        → packets_to_host side (journal_of before)
        ≡ packets_of (noted_by (station_of side) before) }
    ensures turns { (a b : List ℕ) (script : Script)
        → turns_of (journal_of (history_of (run_of (given_of a b script))))
        ≡ turns_from 0 (take (turns_begun (history_of (run_of (given_of a b script))))
        script.turns) }
{}

/// Where a turn of a pair is over, and at the end or the stop of a run, all that it feeds was fed
/// and taken, and each host has received what the calls on its controller give.
pub fn a_turn_leaves_nothing_over()
    ensures turn { (a b : List ℕ) (script : Script) (front rest : List Entry) (slot : ℕ)
        (a_on : Bool) (b_on : Option Bool)
        → journal_of (history_of (run_of (given_of a b script)))
        ≡ front ++ Turn slot a_on b_on ∷ rest → IsUpToDate (given_of a b script) front }
    ensures last { (a b : List ℕ) (script : Script) → IsUpToDate (given_of a b script)
        (journal_of (history_of (run_of (given_of a b script)))) }
{}

/// A journal up to a place between two turns of a run has one history: the events before that place.
pub fn a_place_between_turns_has_one_history()
    ensures { (given : Given) (front : List Entry) (one other : List Event)
        → IsHistoryBefore given front one → IsHistoryBefore given front other → one ≡ other }
{}

/// The entries of the journal of a pair are in order, turn after turn. In each, A is fed and its
/// controller notes, and then B; the controllers of A and B note as they begin the turn; in each of
/// three phases A transmits, and B, and then both note; and both note as they end the turn. No side
/// is fed after a packet of the turn.
pub fn entries_are_in_order()
    ensures order { (a b : List ℕ) (script : Script)
        → IsInOrder (journal_of (history_of (run_of (given_of a b script)))) }
    ensures feeds_first { (a b : List ℕ) (script : Script) (front rest : List Entry) (side : Side)
        (octets : List ℕ) → journal_of (history_of (run_of (given_of a b script)))
        ≡ front ++ Fed side octets ∷ rest → turn_packets front ≡ 0 }
{}

/// Each entry of a journal is of an event, and those before it are the journal of the events before
/// that. So what is said of events can be read off entries.
pub fn each_entry_is_of_an_event()
    ensures { (history : List Event) (front rest : List Entry) (entry : Entry)
        → journal_of history ≡ front ++ entry ∷ rest → IsOfEvent history front entry }
{}

/// Each packet in the journal of a run is due there, with the verdict of the other side on what its
/// fate leaves of it; and no changed packet is judged good. The n-th packet of a turn of a pair has
/// the n-th fate of that turn.
pub fn each_packet_on_the_air_is_due()
    ensures due { (given : Given) (front rest : List Entry) (side : Side) (channel : ℕ)
        (octets : List ℕ) (fate : Mark) (verdict : Verdict)
        → journal_of (history_of (run_of given))
        ≡ front ++ Air side channel octets fate verdict ∷ rest
        → IsAired given front side channel octets fate verdict }
    ensures fate { (a b : List ℕ) (script : Script) (front rest : List Entry) (side : Side)
        (channel : ℕ) (octets : List ℕ) (fate : Mark) (verdict : Verdict)
        → journal_of (history_of (run_of (given_of a b script)))
        ≡ front ++ Air side channel octets fate verdict ∷ rest → HasNextFate script front fate }
{}
