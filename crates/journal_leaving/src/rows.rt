//! Worked examples and wrong ones, which the definitions compute.
ghost use Rattle.std.specs.Prelude.{◌≡◌, ◌∷◌, [], None, Some, false, true};
ghost use Rattle.ble_base.specs.declared.roles.Role.TheVariants.{Peripheral};
ghost use Rattle.ble_base.specs.declared.roles.Side.TheVariants.{A, B};
ghost use Rattle.journal_controls.specs.Rows.{begun_on};
ghost use Rattle.journal_controls.specs.journal_acks.Rows.{central_says_more, data_heard};
ghost use Rattle.journal_controls.specs.journal_acks.Rows.{second_slot};
ghost use Rattle.journal_controls.specs.journal_ends.Rows.{asked_of_central, ended_by_central, forged_data};
ghost use Rattle.journal_controls.specs.link_model.Facts.{stays};
ghost use Rattle.journal_controls.specs.link_model.Step.{KeyAnswered};
ghost use Rattle.journal_controls.specs.link_model.enc_phase.declared.facts.PhaseFacts.TheVariants.{Clear};
ghost use Rattle.journal_controls.specs.link_model.enc_phase.declared.facts.PhaseFacts.TheVariants.{HalfClear};
ghost use Rattle.journal_controls.specs.link_model.keyed_control.KeyedSteps.{LacksKey};
ghost use Rattle.journal_leaving.specs.Lacking.{leaving_answered, leaving_refusing};
ghost use Rattle.journal_leaving.specs.Leaving.{leaving_on};
ghost use Rattle.journal_leaving.specs.Reasons.{AllStayOpen, IsShutAs, StaysOpen};
ghost use Rattle.journal_leaving.specs.Rows.{due_lacking, due_unanswered, key_asked, key_taken};
ghost use Rattle.journal_leaving.specs.Rows.{terminate_acknowledged};
ghost use Rattle.journal_leaving.specs.Rows.{terminate_heard, terminate_taken};
ghost use Rattle.journal_controls.specs.journal_ends.Asked.{Words};

/// The peripheral takes LL_TERMINATE_IND and sends a packet, which acknowledges it. Before that
/// both ends stay.
pub fn worked_leavings()
    ensures peripheral_stays { (words : Words) → leaving_on words A 1 terminate_heard ≡ Some stays }
    ensures takes { (words : Words) → leaving_on words A 1 terminate_taken
        ≡ Some (record stays { ended_by_peer = Some (record { 0 = 0x13 }) }) }
    ensures answers { (words : Words) → leaving_on words A 1 terminate_acknowledged
        ≡ Some (record stays { ended_by_peer = Some (record { 0 = 0x13 }); answered = true }) }
    ensures central_stays { (words : Words) → leaving_on words B 1 terminate_taken ≡ Some stays }
    ensures acknowledged { (words : Words) → leaving_on words B 1 terminate_acknowledged
        ≡ Some (record stays { acknowledged = true }) }
    ensures other { (words : Words) → leaving_on words A 2 terminate_taken ≡ None }
{}

/// Then the peripheral is shut with the code of the peer, and the central with 16. Neither is shut
/// so before the packet that acknowledges, nor with 28 where no indication was taken; and neither
/// stays open after the turn of that packet. A procedure that the peer does not answer ends a link
/// with 22 after 32,000 slots, and not a slot earlier.
pub fn worked_reasons()
    ensures by_peer { (words : Words) → IsShutAs words terminate_acknowledged A 1 (record { 0 = 0x13 }) }
    ensures by_host { (words : Words) → IsShutAs words terminate_acknowledged B 1 (record { 0 = 0x16 }) }
    ensures not_answered { (words : Words) → IsShutAs words terminate_taken A 1 (record { 0 = 0x13 }) → ⊥ }
    ensures not_acknowledged { (words : Words) → IsShutAs words terminate_taken B 1 (record { 0 = 0x16 }) → ⊥ }
    ensures no_instant { (words : Words) → IsShutAs words central_says_more A 1 (record { 0 = 0x28 }) → ⊥ }
    ensures stays { (words : Words) → StaysOpen words A 1 second_slot }
    ensures too_long { (words : Words) → AllStayOpen words terminate_acknowledged → ⊥ }
    ensures unanswered { due_unanswered 32003 ≡ Some 0x22 }
    ensures early { due_unanswered 32002 ≡ None }
{}

/// A packet that the peripheral judges forged ends its link with 3D, in the turn; the central is not
/// shut so, and nor is the peripheral where it judges the same packet good.
pub fn worked_forgeries()
    ensures forged { (words : Words) → IsShutAs words forged_data A 1 (record { 0 = 0x3D }) }
    ensures stays { (words : Words) → leaving_on words A 1 forged_data ≡ Some stays }
    ensures not_sender { (words : Words) → IsShutAs words forged_data B 1 (record { 0 = 0x3D }) → ⊥ }
    ensures not_good { (words : Words) → IsShutAs words data_heard A 1 (record { 0 = 0x3D }) → ⊥ }
{}

/// A host that lacks a key after a pause ends the link of its peripheral, from the slot of its
/// answer on, and so does an answer that is given at once; at the first start, and where nothing was
/// asked, the link stays. It is due with 16 once the supervision timeout has passed, and not a slot
/// earlier.
pub fn worked_keys()
    ensures lacks { leaving_answered (Some (key_asked (HalfClear false))) (KeyAnswered None 7 ∷ [])
        stays ≡ record stays { disconnected = Some 7 } }
    ensures at_once { leaving_refusing 3 (key_asked (HalfClear false)) (Some LacksKey) stays
        ≡ record stays { disconnected = Some 3 } }
    ensures first { leaving_answered (Some (key_asked Clear)) (KeyAnswered None 7 ∷ []) stays
        ≡ stays }
    ensures not_first { leaving_answered (Some (key_asked Clear)) (KeyAnswered None 7 ∷ []) stays
        ≡ record stays { disconnected = Some 7 } → ⊥ }
    ensures unasked { leaving_answered (Some (begun_on Peripheral)) (KeyAnswered None 7 ∷ []) stays
        ≡ stays }
    ensures withheld { (words : Words) → leaving_on words A 1 key_taken ≡ Some stays }
    ensures not_withheld { (words : Words) → leaving_on words A 1 key_taken
        ≡ Some (record stays { disconnected = Some 3 }) → ⊥ }
    ensures due { due_lacking (HalfClear false) 583 ≡ Some 0x16 }
    ensures early { due_lacking (HalfClear false) 582 ≡ None }
{}

/// The host of the central ends the link by a Disconnect that is accepted, in slot 1. That moves no
/// other end, and a command that asks for a procedure moves none.
pub fn worked_disconnects()
    ensures ended { (words : Words) → leaving_on words B 1 ended_by_central
        ≡ Some (record stays { disconnected = Some 1 }) }
    ensures asked { (words : Words) → leaving_on words B 1 asked_of_central ≡ Some stays }
    ensures peripheral { (words : Words) → leaving_on words A 1 ended_by_central ≡ Some stays }
{}
