//! Laws of the indications of one end of a link, for each list of steps of the end, whatever its
//! peer sends. The bodies are empty: the contracts are the laws.
ghost use Rattle.std.specs.Prelude.{◌≡◌, List, None};
ghost use Rattle.std.specs.List.{All};
ghost use Rattle.ble_base.specs.declared.roles.Role.{Role};
ghost use Rattle.link_model.specs.End.{facts_of, notes_of};
ghost use Rattle.link_model.specs.Setup.{Setup};
ghost use Rattle.link_model.specs.Step.{Step};
ghost use Rattle.link_changes.specs.InForce.{HasRanges};
ghost use Rattle.link_changes.specs.Noted.{indications_noted, takings_noted};
ghost use Rattle.link_indications.specs.InTime.{IsTakenInTime};

/// The control part of a central keeps the indications that the central noted as sent, in their
/// order, each with the event that its Instant names (Core 5.2, volume 6 part B, section 5.5).
pub fn a_central_keeps_the_indications_that_it_sent()
    ensures { (setup : Setup) (past : List Step) → setup.link.role ≡ Role.Central
        → HasRanges setup past
        → indications_noted Role.Central (notes_of setup past)
        ≡ (facts_of setup past).control.sent }
{}

/// While the procedures of an end have not ended the link, each indication that the end sent as the
/// central or took as the peripheral came in time: its Instant was less than 32,767 events ahead. A
/// peripheral that takes a later one ends the link (Core 5.2, volume 6 part B, section 5.5.1).
pub fn indications_of_an_end_that_goes_on_came_in_time()
    ensures { (setup : Setup) (past : List Step)
        → (setup.link.role ≡ Role.Central → HasRanges setup past)
        → (facts_of setup past).control.ends ≡ None
        → All IsTakenInTime (takings_noted setup.link.role (notes_of setup past)) }
{}
