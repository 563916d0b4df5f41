//! Worked notes, in which each indication is taken in time, and notes in which one is not.
ghost use Rattle.std.specs.Prelude.{◌++◌};
ghost use Rattle.std.specs.List.{All};
ghost use Rattle.ble_base.specs.declared.roles.Role.{Role};
ghost use Rattle.link_changes.specs.Noted.{takings_noted};
ghost use Rattle.link_changes.specs.Worked.{enters, sends_update};
ghost use Rattle.link_indications.specs.InTime.{IsTakenInTime};
ghost use Rattle.link_indications.specs.Rows.{update_taken_in};

/// An update whose Instant is event 6 is taken in event 0, or is sent in event 0. Where the Instant
/// is 32,766 events ahead, the update is still in time.
pub fn worked_takings()
    ensures taken { All IsTakenInTime (takings_noted Role.Peripheral (update_taken_in 0)) }
    ensures sent { All IsTakenInTime (takings_noted Role.Central (enters 0 ++ sends_update 3 6)) }
    ensures furthest { All IsTakenInTime (takings_noted Role.Peripheral (update_taken_in 32776)) }
{}

/// The update is not in time where its Instant is 32,767 or 40,000 events ahead, nor in the event
/// after that of its Instant.
pub fn wrong_takings()
    ensures next { All IsTakenInTime (takings_noted Role.Peripheral (update_taken_in 32775)) → ⊥ }
    ensures far { All IsTakenInTime (takings_noted Role.Peripheral (update_taken_in 25542)) → ⊥ }
    ensures passed { All IsTakenInTime (takings_noted Role.Peripheral (update_taken_in 7)) → ⊥ }
{}
