//! What the layer above reads of an end: whether it goes on, and whether it entered an event.
ghost use Rattle.std.specs.Prelude.{◌≡◌, List, nat_lt};
ghost use Rattle.link_model.specs.phased_end.Moves.{lasts};
ghost use Rattle.link_model.specs.Setup.{Setup};
ghost use Rattle.link_model.specs.Controls.{goes_on};
ghost use Rattle.link_model.specs.End.{facts_of};
ghost use Rattle.link_model.specs.Step.{Step};
ghost use Rattle.link_end.specs.Knowing.{Knows};

use crate::ends::LinkEnd;

impl LinkEnd {
    /// Whether none of its procedures ended the link.
    pub fn goes_on(&self) -> bool
        ensures value { result ≡ lasts self.now.control }
        ensures known { (setup : Setup) (past : List Step) → Knows setup self.now past
            → result ≡ goes_on (facts_of setup past) }
    {
        self.control.ends().is_none()
    }

    /// Whether it entered an event.
    pub fn has_entered(&self) -> bool
        ensures value { result ≡ nat_lt 0 self.now.control.control.track.entered }
        ensures known { (setup : Setup) (past : List Step) → Knows setup self.now past
            → result ≡ nat_lt 0 (facts_of setup past).control.track.entered }
    {
        self.control.has_entered()
    }
}
