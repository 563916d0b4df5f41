//! What the view of a controller knows of its open links. The bodies do nothing: the contracts are
//! the laws.
ghost use Rattle.std.specs.Prelude.{◌≡◌, ◌≤◌, ◌<◌, ℕ, List, Some, None};
ghost use Rattle.host_view.specs.declared.view.TheConstants.{MOST_LINKS};
ghost use Rattle.controller_model.specs.open_links.OpenLinks.{OpenLink, facts_in, link_at};
ghost use Rattle.host_asks.specs.OpenEnds.{KnowsOpenEnds};
ghost use Rattle.host_asks.specs.Views.{KnowsAt};
ghost use Rattle.controller_model.specs.Facts.{Setup};
ghost use Rattle.controller_model.specs.Side.{facts_of};
ghost use Rattle.controller_model.specs.Step.{Step};

/// At any time of a controller its view knows the end of each open link for which it has a place,
/// until a procedure ends the link: which procedures the host asked for that are neither done nor
/// refused, whether the host ended the link, and whether a request of the peer waits for the host.
/// It has places for the handles below 6, so for all links of a controller that holds no more.
pub fn a_view_knows_each_open_end()
    ensures each { (setup : Setup) (past : List Step) (handle : ℕ) (link : OpenLink)
        → handle < MOST_LINKS → link_at handle (facts_of setup past).links ≡ Some link
        → (facts_in link).control.ends ≡ None
        → KnowsAt (facts_of setup past).view handle (facts_in link) }
    ensures all { (setup : Setup) (past : List Step) → setup.links ≤ MOST_LINKS
        → KnowsOpenEnds (facts_of setup past).view (facts_of setup past).links }
{}
