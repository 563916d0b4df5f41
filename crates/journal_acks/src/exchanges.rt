//! The counts of both ends of a link in each run of a pair. The body only calls the laws that it
//! rests on: the contract is the law.
ghost use Rattle.std.specs.Prelude.{◌≡◌, ◌++◌, ◌∷◌, ℕ, Bool, List, Some, length};
ghost use Rattle.std.specs.List.{Contains};
ghost use Rattle.journal_packets.specs.open_links.OpenLinks.{OpenLink, facts_in, link_at};
ghost use Rattle.radio_replay.specs.Script.{Script};
ghost use Rattle.link_calls.specs.run_model.History.{Event, TurnBegan};
ghost use Rattle.link_calls.specs.run_model.Journal.{journal_of, side_of};
ghost use Rattle.link_calls.specs.run_model.Links.{links_of};
ghost use Rattle.link_calls.specs.run_model.Pair.{given_of};
ghost use Rattle.link_calls.specs.run_model.Run.{GoesOn, facts_at, history_of, run_of};
ghost use Rattle.journal_acks.specs.Counted.{IsCounted};
ghost use Rattle.journal_acks.specs.Exchange.{exchange_of};

use crate::stations::links_of_two_stations_keep_to_the_journal;

/// Before each turn of a run of a pair, and at the end of a whole run, each open end of a link has
/// sent and accepted as many PDUs as the packets and verdicts of the journal and its `Took` lines
/// say, and as many of its own are acknowledged to it (Core 5.2, volume 6 part B, section 4.5.9).
pub fn each_end_counts_as_the_journal_says()
    ensures before_a_turn { (a b : List ℕ) (script : Script) (before rest : List Event) (slot : ℕ)
        (radios : List Bool) (station handle : ℕ) (link : OpenLink)
        → length script.a.public ≡ 6 → length script.b.public ≡ 6
        → Contains (given_of a b script).stations station
        → history_of (run_of (given_of a b script)) ≡ before ++ TurnBegan slot radios ∷ rest
        → link_at handle (facts_at (given_of a b script) station before).links ≡ Some link
        → IsCounted (exchange_of ((links_of before).link_of station handle) (journal_of before)
        (side_of station)) (facts_in link).acknowledgement }
    ensures at_the_end { (a b : List ℕ) (script : Script) (history : List Event)
        (station handle : ℕ) (link : OpenLink)
        → length script.a.public ≡ 6 → length script.b.public ≡ 6
        → Contains (given_of a b script).stations station
        → run_of (given_of a b script) ≡ GoesOn history
        → link_at handle (facts_at (given_of a b script) station history).links ≡ Some link
        → IsCounted (exchange_of ((links_of history).link_of station handle) (journal_of history)
        (side_of station)) (facts_in link).acknowledgement }
{
    links_of_two_stations_keep_to_the_journal();
}
