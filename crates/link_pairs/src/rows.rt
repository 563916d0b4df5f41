//! Worked examples, which the definitions compute.
ghost use Rattle.std.specs.Prelude.{◌≡◌, true, false, Some, None, [], ◌∷◌, slice_get};
ghost use Rattle.ble_base.specs.declared.notes.Note.TheVariants.{Began, Enter};
ghost use Rattle.ble_base.specs.declared.notes.Note.TheVariants.{Sent, Took};
ghost use Rattle.ble_base.specs.declared.procedure_kinds.Kind.TheVariants.{Version};
ghost use Rattle.control_octets.specs.procedures.Beginning.{may_ask_of};
ghost use Rattle.link_model.specs.Times.{ending_of};
ghost use Rattle.link_pairs.specs.Rows.{disconnected, update_asked, version_asked};

/// The host of the central asks for the version of the peer after event 0. In event 1 the central
/// sends LL_VERSION_IND, and in event 2 the peripheral answers.
pub fn a_version_is_exchanged()
    ensures began { slice_get version_asked.central_notes 2 ≡ Some (Began 0 Version) }
    ensures sent { slice_get version_asked.central_notes 3 ≡ Some (Sent 0 1 3
        (record { items = 0x0C ∷ 0x0B ∷ 0xFF ∷ 0xFF ∷ 0x01 ∷ 0x00 ∷ [] })) }
    ensures entered { slice_get version_asked.central_notes 4
        ≡ Some (Enter 0 (record { 0 = 2 }) 6) }
    ensures took { slice_get version_asked.central_notes 5 ≡ Some (Took 0 1 3
        (record { items = 0x0C ∷ 0x0B ∷ 0xFF ∷ 0xFF ∷ 0x01 ∷ 0x00 ∷ [] })) }
    ensures known { version_asked.central.peer.version
        ≡ Some (record { version = 0x0B; company = 0xFFFF; sub = 1 }) }
    ensures done { may_ask_of version_asked.central.control.table Version ≡ true }
    ensures answer { slice_get version_asked.peripheral_notes 4 ≡ Some (Sent 0 1 3
        (record { items = 0x0C ∷ 0x0B ∷ 0xFF ∷ 0xFF ∷ 0x01 ∷ 0x00 ∷ [] })) }
    ensures all { slice_get version_asked.peripheral_notes 5 ≡ None }
{}

/// The host of the central ends the link after event 0. In event 1 the peripheral takes
/// LL_TERMINATE_IND and answers, and both ends end at the end of that turn, with 16 and 13. Where
/// the packet is lost they do not.
pub fn a_host_ends_a_link()
    ensures central { ending_of (disconnected true).central ≡ Some (record { 0 = 0x16 }) }
    ensures peripheral { ending_of (disconnected true).peripheral ≡ Some (record { 0 = 0x13 }) }
    ensures lost { ending_of (disconnected false).central ≡ None }
{}

/// The host of the central asks for an interval of 24 slots and a timeout of 1 s after event 0. The
/// Instant is event 7. LL_CONNECTION_UPDATE_IND is lost in the events 1 to 6 and taken in event 7,
/// so the peripheral applies it in event 8. Where it is lost in event 7 too, it is taken in event 8,
/// and the peripheral ends the link with 28.
pub fn an_update_comes_late()
    ensures in_time { (update_asked 24 (false ∷ false ∷ false ∷ false ∷ false ∷ false ∷ true ∷ true
        ∷ [])).peripheral.control.track.applied ≡ 1 }
    ensures not_before { (update_asked 24 (false ∷ false ∷ false ∷ false ∷ false ∷ false ∷ true
        ∷ [])).peripheral.control.track.applied ≡ 0 }
    ensures central { (update_asked 24 (false ∷ false ∷ false ∷ false ∷ false ∷ false ∷ true
        ∷ [])).central.control.track.applied ≡ 1 }
    ensures goes_on { ending_of (update_asked 24 (false ∷ false ∷ false ∷ false ∷ false ∷ false
        ∷ true ∷ true ∷ [])).peripheral ≡ None }
    ensures late { ending_of (update_asked 24 (false ∷ false ∷ false ∷ false ∷ false ∷ false
        ∷ false ∷ true ∷ [])).peripheral ≡ Some (record { 0 = 0x28 }) }
{}
