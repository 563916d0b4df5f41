//! Worked examples, which the definitions compute.
ghost use Rattle.std.specs.Prelude.{◌≡◌, Some, [], ◌∷◌, slice_get};
ghost use Rattle.ble_base.specs.declared.notes.Note.TheVariants.{Refused, Sent, Took};
ghost use Rattle.ble_base.specs.declared.procedure_kinds.Kind.{Kind};
ghost use Rattle.exclusive_stages.specs.declared.stages.PeerAtCentral.TheVariants.{Absent};
ghost use Rattle.exclusive_stages.specs.declared.stages.PeripheralStage.TheVariants.{Idle};
ghost use Rattle.collision_steps.specs.CentralPart.{central_of};
ghost use Rattle.collision_steps.specs.PeripheralPart.{peripheral_of};
ghost use Rattle.link_pairs.specs.procedure_values.declared.asks.Ask.{Ask};
ghost use Rattle.run_collisions.specs.Rows.{both_asked};

/// Both hosts ask for a PHY update after event 0. In event 1 both ends send LL_PHY_REQ. In event 2
/// the central sends LL_REJECT_EXT_IND with 0x16 and 0x23, and the peripheral is refused its own
/// update and answers that of the central.
pub fn two_phy_updates_collide()
    ensures crossed { slice_get (both_asked Ask.Phy).central_notes 4 ≡ Some (Took 0 1 3
        (record { items = 0x16 ∷ 0x01 ∷ 0x01 ∷ [] })) }
    ensures rejected { slice_get (both_asked Ask.Phy).central_notes 6 ≡ Some (Sent 0 2 3
        (record { items = 0x11 ∷ 0x16 ∷ 0x23 ∷ [] })) }
    ensures answered { slice_get (both_asked Ask.Phy).central_notes 7 ≡ Some (Took 0 2 3
        (record { items = 0x17 ∷ 0x01 ∷ 0x01 ∷ [] })) }
    ensures took { slice_get (both_asked Ask.Phy).peripheral_notes 6 ≡ Some (Took 0 2 3
        (record { items = 0x11 ∷ 0x16 ∷ 0x23 ∷ [] })) }
    ensures refused { slice_get (both_asked Ask.Phy).peripheral_notes 7
        ≡ Some (Refused 0 Kind.Phy (record { 0 = 0x23 })) }
    ensures nothing_left { (central_of (both_asked Ask.Phy).central.control.table).peer ≡ Absent }
    ensures over { (peripheral_of (both_asked Ask.Phy).peripheral.control.table).own ≡ Idle }
{}

/// The host of the central asks for an interval of 24 slots and a timeout of 1 s after event 0, and
/// that of the peripheral for a PHY update. In event 2 the central sends LL_REJECT_EXT_IND with
/// 0x16 and 0x2A, and the peripheral is refused its update.
pub fn an_update_and_a_phy_update_collide()
    ensures rejected { slice_get (both_asked (Ask.Update 24 0 100)).central_notes 6
        ≡ Some (Sent 0 2 3 (record { items = 0x11 ∷ 0x16 ∷ 0x2A ∷ [] })) }
    ensures took { slice_get (both_asked (Ask.Update 24 0 100)).peripheral_notes 6
        ≡ Some (Took 0 2 3 (record { items = 0x11 ∷ 0x16 ∷ 0x2A ∷ [] })) }
    ensures refused { slice_get (both_asked (Ask.Update 24 0 100)).peripheral_notes 7
        ≡ Some (Refused 0 Kind.Phy (record { 0 = 0x2A })) }
{}
