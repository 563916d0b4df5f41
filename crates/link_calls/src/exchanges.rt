//! In which slots the open ends of a run send and listen. The body is empty: the contract is the
//! law.
ghost use Rattle.std.specs.Prelude.{◌≡◌, ◌++◌, ℕ, true, List, Some};
ghost use Rattle.std.specs.List.{Contains};
ghost use Rattle.run_laws.specs.open_links.OpenLinks.{OpenLink, link_at};
ghost use Rattle.run_laws.specs.run_model.Feeding.{AreDistinct};
ghost use Rattle.run_laws.specs.run_model.History.{Event};
ghost use Rattle.run_laws.specs.run_model.Run.{Given, facts_at, history_of, run_of};
ghost use Rattle.link_calls.specs.Exchanges.{HasExchange};
ghost use Rattle.link_calls.specs.Uses.{uses_under};

/// At any time of a run, an end that sends or listens has an exchange of the event that it entered
/// last: the first one, in the slot of the anchor, or a second one in the next slot, where it
/// received a good packet in the first (Core 5.2, volume 6 part B, sections 4.5.1 and 4.5.6).
pub fn each_end_exchanges_in_its_events()
    ensures { (given : Given) (before rest : List Event) (station handle : ℕ) (link : OpenLink)
        → AreDistinct given.stations → Contains given.stations station
        → history_of (run_of given) ≡ before ++ rest
        → link_at handle (facts_at given station before).links ≡ Some link
        → uses_under handle (facts_at given station before).turn.doing ≡ true
        → HasExchange (facts_at given station before).turn.slot link }
{}
