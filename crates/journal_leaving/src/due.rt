//! Laws of the reason for which one end is to end. The bodies are empty: the contracts are the laws.
ghost use Rattle.std.specs.Prelude.{◌≡◌, ◌≤◌, ℕ, Bool, List, Option, Result, Some};
ghost use Rattle.std.specs.Option.{option_map};
ghost use Rattle.ble_base.specs.declared.error_codes.ErrCode.{ErrCode};
ghost use Rattle.journal_controls.specs.controller_model.Shutting.{IsLeaving, IsOverdue};
ghost use Rattle.journal_controls.specs.journal_ends.open_links.OpenLinks.{OpenLink, facts_in};
ghost use Rattle.journal_controls.specs.journal_links.Begun.{LinkBegun};
ghost use Rattle.journal_controls.specs.link_model.End.{facts_after, facts_of};
ghost use Rattle.journal_controls.specs.link_model.Facts.{Facts, params_of};
ghost use Rattle.journal_controls.specs.link_model.Setup.{Setup};
ghost use Rattle.journal_controls.specs.link_model.Step.{DataGiven, DataReported, Disconnected};
ghost use Rattle.journal_controls.specs.link_model.Step.{KeyAnswered, ProcedureAsked};
ghost use Rattle.journal_controls.specs.link_model.Step.{RequestAnswered, Step};
ghost use Rattle.journal_controls.specs.link_model.Times.{due_of, ending_of};
ghost use Rattle.journal_controls.specs.link_model.declared.events.Reception.{Reception};
ghost use Rattle.journal_controls.specs.link_model.procedure_values.declared.asks.Ask.{Ask};
ghost use Rattle.journal_leaving.specs.Reasons.{due_by, ending_by};

/// The reason for which an end is to end as a turn begins is that of its parts: the slot of its
/// CONNECT_IND, its control part, how it leaves, and the slot of the last good packet. So is the
/// reason as a turn ends (Core 5.2, volume 6 part B, sections 4.5.2, 5.1.6 and 5.2).
pub fn an_end_is_due_by_its_parts()
    ensures begins { (link : LinkBegun) (setup : Setup) (facts : Facts) (slot : ℕ)
        → link.slot ≡ setup.opened
        → due_by link facts.control facts.leaving
        (option_map (λ (good : Reception). good.slot) facts.last_good) slot
        ≡ due_of setup facts slot }
    ensures ends { (facts : Facts) → ending_by facts.control facts.leaving ≡ ending_of facts }
{}

/// A link that is overdue, or is to leave, for a cause has the reason of that cause (Core 5.2,
/// volume 6 part B, sections 4.5.2, 5.1.6, 5.2 and 5.5.1).
pub fn an_end_is_due_for_its_cause()
    ensures overdue { (slot reason : ℕ) (link : OpenLink) → IsOverdue slot link reason
        → due_of link.setup (facts_in link) slot ≡ Some reason }
    ensures leaving { (reason : ℕ) (link : OpenLink) → IsLeaving link reason
        → option_map (λ (code : ErrCode). code.0) (ending_of (facts_in link)) ≡ Some reason }
{}

/// What a host does before a turn begins leaves the reason for which the end is to end then: so it
/// may be looked at as the slot begins. A Disconnect in this slot is not due in it where the
/// supervision timeout is not 0, and leaves one of an earlier slot as it is; nor is a key that lacks
/// in this slot, and one that lacks does so before any Disconnect (Core 5.2, volume 6 part B,
/// sections 5.1.3.1, 5.1.3.2 and 5.1.6).
pub fn what_a_host_does_leaves_what_is_due()
    ensures given { (setup : Setup) (facts : Facts) (start : Bool) (body : List ℕ) (slot : ℕ)
        → due_of setup (facts_after setup facts (DataGiven start body)) slot
        ≡ due_of setup facts slot }
    ensures reported { (setup : Setup) (facts : Facts) (slot : ℕ)
        → due_of setup (facts_after setup facts DataReported) slot ≡ due_of setup facts slot }
    ensures asked { (setup : Setup) (facts : Facts) (ask : Ask) (slot : ℕ)
        → due_of setup (facts_after setup facts (ProcedureAsked ask)) slot
        ≡ due_of setup facts slot }
    ensures answered { (setup : Setup) (facts : Facts) (answer : Result Ask ErrCode) (slot : ℕ)
        → due_of setup (facts_after setup facts (RequestAnswered answer)) slot
        ≡ due_of setup facts slot }
    ensures keys { (setup : Setup) (past : List Step) (key : Option (List ℕ)) (slot : ℕ)
        → let facts = facts_of setup past in 1 ≤ (params_of facts).timeout
        → due_of setup (facts_after setup facts (KeyAnswered key slot)) slot
        ≡ due_of setup facts slot }
    ensures disconnected { (setup : Setup) (facts : Facts) (reason : ErrCode) (slot : ℕ)
        → 1 ≤ (params_of facts).timeout
        → due_of setup (facts_after setup facts (Disconnected reason slot)) slot
        ≡ due_of setup facts slot }
{}
