//! Which connection events the open ends of a run have entered. The body only calls the law that it
//! rests on: the contract is the law.
ghost use Rattle.std.specs.Prelude.{◌≡◌, ◌++◌, ℕ, List, Some};
ghost use Rattle.std.specs.List.{Contains};
ghost use Rattle.link_calls.specs.open_links.OpenLinks.{OpenLink, facts_in, link_at};
ghost use Rattle.link_calls.specs.run_model.Feeding.{AreDistinct};
ghost use Rattle.link_calls.specs.run_model.History.{Event};
ghost use Rattle.link_calls.specs.run_model.Run.{Given, facts_at, history_of, run_of};
ghost use Rattle.run_pairs.specs.OnTime.{IsOnTrack};

/// At any time of a run, an open end has entered exactly the events whose anchors are in the turns
/// that its controller began: the anchor of the event that it entered last is over, and that of the
/// next one is not, unless a procedure ended the link. The anchors follow from its CONNECT_IND and
/// from the indications that it took (Core 5.2, volume 6 part B, sections 4.5.1 and 5.5).
pub fn each_end_enters_its_events()
    ensures { (given : Given) (before rest : List Event) (station handle : ℕ)
        (link : OpenLink) → AreDistinct given.stations → Contains given.stations station
        → history_of (run_of given) ≡ before ++ rest
        → link_at handle (facts_at given station before).links ≡ Some link
        → IsOnTrack (facts_at given station before).turn.begun (facts_in link) }
{
    advertise::laws::connections_are_taken();
}
