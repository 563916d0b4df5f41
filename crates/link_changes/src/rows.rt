//! Worked notes, which the definitions compute, and notes that the definitions refuse.
ghost use Rattle.std.specs.Prelude.{◌≡◌, List, [], ◌∷◌, ◌++◌};
ghost use Rattle.ble_base.specs.declared.notes.Note.{Note};
ghost use Rattle.ble_base.specs.declared.roles.Role.{Role};
ghost use Rattle.link_changes.specs.InForce.{IsAppliedInTime};
ghost use Rattle.link_changes.specs.Noted.{changes_noted, event_noted, indications_noted};
ghost use Rattle.link_changes.specs.Worked.{applies, enters, sends_update, taken_in_event_0};
ghost use Rattle.link_changes.specs.Worked.{takes_update, update_at};

/// An update whose Instant is event 6 is taken in event 0, and holds once the end notes so. A
/// central follows the update that it sends; the peer of each has the other note. In event 65,534
/// an Instant of 4 is event 65,540. A PDU of data with the same octets is no indication.
pub fn worked_notes()
    ensures waits { changes_noted Role.Peripheral taken_in_event_0 ≡ [] }
    ensures noted { indications_noted Role.Peripheral taken_in_event_0 ≡ update_at 6 6 ∷ [] }
    ensures event { event_noted taken_in_event_0 ≡ 5 }
    ensures holds { changes_noted Role.Peripheral (taken_in_event_0 ++ applies 1 6)
        ≡ update_at 6 6 ∷ [] }
    ensures sent { changes_noted Role.Central (enters 0 ++ sends_update 3 6 ++ applies 1 6)
        ≡ update_at 6 6 ∷ [] }
    ensures of_the_other { changes_noted Role.Central (taken_in_event_0 ++ applies 1 6) ≡ [] }
    ensures wraps { indications_noted Role.Peripheral (enters 65534 ++ takes_update 3 4)
        ≡ update_at 4 65540 ∷ [] }
    ensures no_indication { indications_noted Role.Peripheral (enters 0 ++ takes_update 2 6) ≡ [] }
{}

/// The update does not come into force one event early, nor with another number, nor where the note
/// of its event does not come next.
pub fn wrong_notes()
    ensures early { (rest : List Note)
        → IsAppliedInTime Role.Peripheral taken_in_event_0 0 1 (record { 0 = 5 })
        (enters 5 ++ rest) → ⊥ }
    ensures number { (rest : List Note)
        → IsAppliedInTime Role.Peripheral taken_in_event_0 0 2 (record { 0 = 6 })
        (enters 6 ++ rest) → ⊥ }
    ensures alone { IsAppliedInTime Role.Peripheral taken_in_event_0 0 1 (record { 0 = 6 }) [] → ⊥ }
    ensures right { (rest : List Note)
        → IsAppliedInTime Role.Peripheral taken_in_event_0 0 1 (record { 0 = 6 })
        (enters 6 ++ rest) }
{}
