//! Worked steps of one end.
ghost use Rattle.std.specs.Prelude.{◌≡◌, ◌≤◌, ◌∷◌, ◌++◌, ℕ, Bool, List, [], Some, None, true};
ghost use Rattle.ble_base.specs.declared.channel_map.ChannelMap.{ChannelMap};
ghost use Rattle.ble_base.specs.declared.procedure_kinds.Kind.{Kind};
ghost use Rattle.ble_base.specs.declared.roles.Role.{Role};
ghost use Rattle.instants.specs.declared.indications.Indication.{Indication};
ghost use Rattle.instants.specs.declared.indications.Params.{Params};
ghost use Rattle.instants.specs.declared.track.Change.{Change};
ghost use Rattle.instants.specs.Track.{event_of};
ghost use Rattle.procedures.specs.procedure_stages.Kinds.{own_kind};
ghost use Rattle.control_model.specs.Control.{Step, after_all, first_control, went};
ghost use Rattle.control_model.specs.Waits.{AreInRange, kind_awaited, kind_waiting};
ghost use Rattle.control_model.specs.Worked.{central_after, entries, peripheral_after};
ghost use Rattle.control_model.specs.Worked.{takes_map, takes_update, update_sent};

/// A central sends an update in event 0, with Instant 6: it waits in event 5, and holds from event
/// 6. The new map that its host asked for begins there, waits for that event to be over, and goes
/// out in event 7 with Instant 13. A peripheral in event 0 takes the update, and then the map, which
/// ends the link with 0x2A; a second update ends it with 0x23. Taken in event 3, an update with
/// Instant 2 ends it with 0x28.
pub fn worked_ends()
    ensures waits { (map : ChannelMap)
        → kind_waiting (central_after map (update_sent map 5)).track.waits ≡ Some Kind.Update }
    ensures still { (map : ChannelMap)
        → (central_after map (update_sent map 5)).track.params.interval ≡ 6 }
    ensures held { (map : ChannelMap)
        → (central_after map (update_sent map 6)).track.params.interval ≡ 8 }
    ensures begins { (map : ChannelMap)
        → own_kind (central_after map (update_sent map 6)).table.progress ≡ Some Kind.Map }
    ensures map_waits { (map : ChannelMap)
        → (went 0 true (central_after map (update_sent map 6))).1 ≡ None }
    ensures map_goes { (map : ChannelMap)
        → (went 0 true (central_after map (update_sent map 7))).1
        ≡ Some (Indication.Map map 13) }
    ensures awaits { (map : ChannelMap)
        → kind_awaited (peripheral_after map (entries 1 ++ takes_update 6 ∷ [])).table.progress
        ≡ Some Kind.Update }
    ensures lasts { (map : ChannelMap)
        → (peripheral_after map (entries 1 ++ takes_update 6 ∷ [])).ends ≡ None }
    ensures map_ends { (map : ChannelMap)
        → (peripheral_after map (entries 1 ++ takes_update 6 ∷ takes_map map 7 ∷ [])).ends
        ≡ Some (record { 0 = 0x2A }) }
    ensures update_ends { (map : ChannelMap)
        → (peripheral_after map (entries 1 ++ takes_update 6 ∷ takes_update 7 ∷ [])).ends
        ≡ Some (record { 0 = 0x23 }) }
    ensures late_ends { (map : ChannelMap)
        → (peripheral_after map (entries 4 ++ takes_update 2 ∷ [])).ends
        ≡ Some (record { 0 = 0x28 }) }
{}

/// No steps come to a peripheral that awaits a map by its table while an update waits at its track,
/// or that awaits an update while none waits there; and none to a central that sent one indication
/// and sends another one by the event of its Instant.
pub fn no_steps_come_to_these()
    ensures two_kinds { (max_rx : ℕ) (first : Params) (slot : ℕ) (steps : List Step)
        → let c = after_all steps (first_control Role.Peripheral max_rx first slot) in
        kind_awaited c.table.progress ≡ Some Kind.Map
        → kind_waiting c.track.waits ≡ Some Kind.Update → ⊥ }
    ensures table_alone { (max_rx : ℕ) (first : Params) (slot : ℕ) (steps : List Step)
        → let c = after_all steps (first_control Role.Peripheral max_rx first slot) in
        c.track.waits ≡ None → kind_awaited c.table.progress ≡ Some Kind.Update → ⊥ }
    ensures early { (max_rx : ℕ) (first : Params) (slot : ℕ) (steps : List Step) (now : ℕ)
        (quiet : Bool) (indication : Indication) (change : Change) → first.latency ≤ 499
        → AreInRange steps
        → let c = after_all steps (first_control Role.Central max_rx first slot) in
        (went now quiet c).1 ≡ Some indication → c.sent ≡ change ∷ []
        → event_of c.track ≤ change.at.0 → ⊥ }
{}
