//! The link under one handle after each call on a controller. The bodies are empty: the contracts
//! are the laws.
ghost use Rattle.std.specs.Prelude.{◌≡◌, ℕ, Bool, true, List, Option, Some, Result};
ghost use Rattle.std.specs.Option.{option_map};
ghost use Rattle.ble_base.specs.declared.roles.Role.TheVariants.{Central};
ghost use Rattle.ble_base.specs.declared.error_codes.ErrCode.{ErrCode};
ghost use Rattle.run_laws.specs.run_model.procedure_values.declared.asks.Ask.{Ask};
ghost use Rattle.run_laws.specs.link_model.Step.{RequestAnswered};
ghost use Rattle.run_laws.specs.link_model.Times.{ending_of};
ghost use Rattle.run_laws.specs.open_links.Data.{link_reported};
ghost use Rattle.run_laws.specs.open_links.OpenLinks.{OpenLink, facts_in, link_at};
ghost use Rattle.run_laws.specs.open_links.Turns.{ending_in, place_without};
ghost use Rattle.run_laws.specs.run_model.Run.{step_of};
ghost use Rattle.run_laws.specs.controller_model.Facts.{Facts, Setup};
ghost use Rattle.run_laws.specs.controller_model.Heard.{has_room};
ghost use Rattle.run_laws.specs.controller_model.Side.{facts_after};
ghost use Rattle.run_laws.specs.controller_model.Step.{HostOctet, TurnBegins, TurnEnds};
ghost use Rattle.link_calls.specs.Hosts.{HasHeardHost};
ghost use Rattle.link_calls.specs.Phases.{HasPassed, refusal_at};
ghost use Rattle.link_calls.specs.Turns.{HasBegunTurn, HasEndedTurn};

/// A link that is open after a turn began was open before it and had no reason to end. It entered
/// its event if the anchor of that is in this slot; then it fixed its PDU if an exchange begins on
/// it; and then it sent its packet if it is the central of that exchange (Core 5.2, volume 6 part
/// B, sections 4.5.1, 4.5.2 and 4.5.9).
pub fn a_turn_begins_on_links()
    ensures { (setup : Setup) (facts : Facts) (slot : ℕ) (on : Bool) (handle : ℕ)
        (after : OpenLink)
        → link_at handle (facts_after setup facts (TurnBegins slot on)).links ≡ Some after
        → HasBegunTurn facts.links slot handle
        (facts_after setup facts (TurnBegins slot on)).turn.doing after }
{}

/// A link that is open after a phase is new, or nothing happened to it, or it received the packet
/// of the phase. Then it may have answered a request of the peer at once, and it sent its packet if
/// it is to answer (Core 5.2, volume 6 part B, sections 4.5.1, 4.5.9, 5.1.3.1 and 5.1.7).
pub fn a_link_receives_answers_and_sends()
    ensures { (setup : Setup) (facts : Facts) (received : Option (List ℕ)) (handle : ℕ)
        (after : OpenLink)
        → link_at handle (facts_after setup facts (step_of received)).links ≡ Some after
        → HasPassed setup facts (has_room setup facts) received handle
        (facts_after setup facts (step_of received)).turn.doing after }
{}

/// Only a central refuses a request of its peer: LL_CONNECTION_PARAM_REQ, which the mask of its
/// host withholds from it (Core 5.2, volume 6 part B, section 5.1.7).
pub fn only_a_central_refuses()
    ensures { (facts : Facts) (handle : ℕ) (room : Bool) (octets : List ℕ) (link : OpenLink)
        (answer : Result Ask ErrCode)
        → refusal_at handle room octets facts link ≡ Some (RequestAnswered answer)
        → link.setup.link.role ≡ Central }
{}

/// A link that is open after an octet of the host got data of it, or a command that the octet
/// completes was accepted and asks a step of its end, or nothing happened to it (Core 5.2, volume 4
/// part E, sections 5.4.2, 7.1 and 7.8).
pub fn a_host_gives_data_or_asks()
    ensures { (setup : Setup) (facts : Facts) (octet handle : ℕ) (after : OpenLink)
        → link_at handle (facts_after setup facts (HostOctet octet)).links ≡ Some after
        → HasHeardHost setup facts octet handle after }
{}

/// As a turn ends, the complete packets of each link are reported, and then a link is shut exactly
/// where it is to end: its own LL_TERMINATE_IND is acknowledged, the peer ended it, or one of its
/// procedures did (Core 5.2, volume 4 part E, section 7.7.19; volume 6 part B, section 5.1.6).
pub fn a_turn_ends_on_links()
    ensures open { (setup : Setup) (facts : Facts) (handle : ℕ) (after : OpenLink)
        → link_at handle (facts_after setup facts TurnEnds).links ≡ Some after
        → HasEndedTurn facts.links handle after }
    ensures place { (setup : Setup) (facts : Facts) (handle : ℕ)
        → link_at handle (facts_after setup facts TurnEnds).links
        ≡ place_without ending_in (option_map link_reported (link_at handle facts.links)) }
    ensures reported { (link : OpenLink)
        → ending_of (facts_in (link_reported link)) ≡ ending_of (facts_in link) }
{}
