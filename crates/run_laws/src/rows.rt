//! A worked example, which the definitions compute.
ghost use Rattle.run_laws.specs.Ends.{AreEnds, IsOpen};
ghost use Rattle.run_laws.specs.Rows.{central_end, one_event_history, peripheral_end};
ghost use Rattle.run_model.specs.Rows.{one_event};

/// In a small run, up to the first event of a link, B is the central and A the peripheral; both
/// ends are open after it, and they are ends of one link.
pub fn worked_ends()
    ensures central { IsOpen one_event one_event_history central_end }
    ensures peripheral { IsOpen one_event one_event_history peripheral_end }
    ensures ends { AreEnds one_event_history central_end peripheral_end }
{}
