//! Worked examples, which the definitions compute.
ghost use Rattle.std.specs.Prelude.{◌≡◌, [], ◌∷◌};
ghost use Rattle.run_laws.specs.controller_model.declared.doing.Doing.TheVariants.{CentralSends};
ghost use Rattle.run_laws.specs.controller_model.declared.doing.Doing.TheVariants.{PeripheralListens, Rests};
ghost use Rattle.run_laws.specs.link_model.Step.{EventEntered, PacketSent, PduFixed};
ghost use Rattle.link_calls.specs.Exchanges.{HasExchange};
ghost use Rattle.link_calls.specs.Rows.{central_in_event, new_central, new_peripheral};
ghost use Rattle.link_calls.specs.Turns.{link_begun};

/// As the turn of its first anchor begins, the central of a link enters its event, fixes its PDU
/// and sends, and the peripheral does all but send; one turn later, nothing happens. The central
/// has an exchange in that slot, and none in the next one, since it heard nothing yet.
pub fn worked_turns()
    ensures central { (link_begun 2 0 (CentralSends 0) new_central).past
        ≡ EventEntered 2 ∷ PduFixed ∷ PacketSent 2 ∷ [] }
    ensures peripheral { (link_begun 2 0 (PeripheralListens 0) new_peripheral).past
        ≡ EventEntered 2 ∷ PduFixed ∷ [] }
    ensures later { (link_begun 3 0 Rests new_central).past ≡ [] }
    ensures exchange { HasExchange 2 central_in_event }
    ensures unheard { HasExchange 3 central_in_event → ⊥ }
{}
