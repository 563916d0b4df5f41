//! Packets of a link outside its events.
ghost use Rattle.ble_base.specs.declared.roles.Side.TheVariants.{B};
ghost use Rattle.journal_pdus.specs.InEvent.{AllAreInEvents, IsInEvent};
ghost use Rattle.run_model.specs.Rows.{first_packet};
ghost use Rattle.wrong_journals.specs.InEvent as wrong;

/// A packet of a link may come in the turn of the event that its sender entered last, or in the next
/// turn. It does not come later, nor before its sender has entered the event.
pub fn packets_outside_events_are_refused()
    ensures in_turn { IsInEvent wrong.event_entered B first_packet }
    ensures next_turn { IsInEvent wrong.turn_after B first_packet }
    ensures late { AllAreInEvents wrong.packet_too_late → ⊥ }
    ensures before { AllAreInEvents wrong.packet_before_event → ⊥ }
{}
