//! Worked examples, which the definitions compute.
ghost use Rattle.std.specs.Prelude.{◌≡◌, ◌++◌, ◌∷◌, [], Err, None, Ok, Some, false, true};
ghost use Rattle.std.specs.Option.{option_map};
ghost use Rattle.ble_base.specs.ErrorCodes.{connection_timeout};
ghost use Rattle.ble_base.specs.declared.procedure_kinds.Kind.{Kind};
ghost use Rattle.ble_base.specs.declared.roles.Role.TheVariants.{Central, Peripheral};
ghost use Rattle.ble_base.specs.declared.roles.Side.TheVariants.{A, B};
ghost use Rattle.host_masks.specs.Rows.{masking_octets};
ghost use Rattle.journal.specs.declared.entries.Entry.TheVariants.{Began, Enter, Fed, Shut};
ghost use Rattle.journal_ends.specs.journal_acks.Rows.{data_acknowledged};
ghost use Rattle.journal_ends.specs.journal_acks.link_calls.Phases.{refusal};
ghost use Rattle.journal_ends.specs.link_model.Controls.{read_of};
ghost use Rattle.journal_ends.specs.link_model.Facts.{no_response};
ghost use Rattle.journal_ends.specs.Rows.{asked_of_central, ended_by_central, some_words};
ghost use Rattle.journal_ends.specs.Rows.{refused_to_central, replied, replied_negatively};
ghost use Rattle.journal_ends.specs.link_model.control_model.Control.{Answers, Asks, Control};
ghost use Rattle.journal_ends.specs.link_model.control_model.Control.{Disconnects};
ghost use Rattle.journal_ends.specs.link_model.control_model.Control.{Enters, Sends, Takes};
ghost use Rattle.journal_ends.specs.link_model.control_model.Control.{after_all};
ghost use Rattle.journal_ends.specs.link_model.keyed_control.KeyedSteps.{Enters as KeyedEnters};
ghost use Rattle.journal_ends.specs.link_model.keyed_control.KeyedSteps.{keyed_after};
ghost use Rattle.journal_ends.specs.link_model.procedure_stages.InProgress.{is_host_asked};
ghost use Rattle.journal_ends.specs.link_model.procedure_values.declared.asks.Ask.TheVariants.{Update, Version};
ghost use Rattle.journal_ends.specs.run_model.Rows.{one_connection_journal, one_event_journal, turn_entry};
ghost use Rattle.journal_controls.specs.KeyedLines.{keyed_by_all, steps_sending, steps_taking};
ghost use Rattle.journal_controls.specs.LineSteps.{control_on, keyed_on};
ghost use Rattle.journal_controls.specs.LinesDue.{applied_due, due_saying, lines_due};
ghost use Rattle.journal_controls.specs.Rows.{begun_on, first_on, one_octet, secured, version_pdu};
ghost use Rattle.journal_controls.specs.Rows.{version_sent};
ghost use Rattle.journal_controls.specs.Rows.{version_taken};
ghost use Rattle.journal_controls.specs.Rows.{param_pdu, param_taken, param_told, version_asked};

/// As a link is opened, each end has the first control part of its role, and is in phase Clear; and
/// then it enters an event. An empty PDU and a PDU of data do not move it. A side has none on another
/// link, nor on one that it shut.
pub fn worked_controls()
    ensures opened { control_on some_words A 1 one_connection_journal ≡ Some (first_on Peripheral) }
    ensures central { control_on some_words B 1 one_event_journal
        ≡ Some (after_all (Enters 2 true ∷ []) (first_on Central)) }
    ensures keyed { keyed_on some_words B 1 one_event_journal
        ≡ Some (keyed_after (KeyedEnters 2) (begun_on Central)) }
    ensures peripheral { control_on some_words A 1 data_acknowledged
        ≡ Some (after_all (Enters 2 true ∷ []) (first_on Peripheral)) }
    ensures other { control_on some_words A 2 one_event_journal ≡ None }
    ensures shut { control_on some_words A 1 (one_event_journal
        ++ Shut A 1 (record { 0 = connection_timeout }) ∷ []) ≡ None }
{}

/// The host of the central asks for an exchange of versions by a command that is accepted, and then
/// ends the link. A command that is refused asks nothing, and no command asks of the other end.
pub fn worked_asks()
    ensures asked { control_on some_words B 1 asked_of_central
        ≡ Some (after_all (Asks Version ∷ []) (first_on Central)) }
    ensures ended { control_on some_words B 1 ended_by_central
        ≡ Some (after_all (Asks Version ∷ Disconnects (record { 0 = 0x13 }) ∷ [])
        (first_on Central)) }
    ensures refused { control_on some_words B 1 refused_to_central ≡ Some (first_on Central) }
    ensures peripheral { control_on some_words A 1 asked_of_central ≡ Some (first_on Peripheral) }
{}

/// The control PDU of a central is first sent in its line, in turn 3. As the peripheral takes it,
/// only the control part of the peripheral moves.
pub fn worked_versions()
    ensures sent { control_on some_words B 1 version_taken
        ≡ Some (after_all (Enters 2 true ∷ Sends 3 true ∷ []) (first_on Central)) }
    ensures waits { control_on some_words A 1 version_sent
        ≡ Some (after_all (Enters 2 true ∷ []) (first_on Peripheral)) }
    ensures taken { control_on some_words A 1 version_taken
        ≡ Some (after_all (Enters 2 true ∷ Takes (read_of version_pdu) 3 true ∷ [])
        (first_on Peripheral)) }
{}

/// A central takes a request for other parameters. By the masks of a start it refuses it at once; where
/// its host lets the event of it through, the request waits for the answer of the host. The host lets
/// the parameters pass in the next turn, or refuses them.
pub fn worked_requests()
    ensures refused { control_on some_words B 1 param_taken
        ≡ Some (after_all (Enters 2 true ∷ Takes (read_of param_pdu) 3 true ∷ Answers refusal ∷ [])
        (first_on Central)) }
    ensures told { control_on some_words B 1 (Fed B masking_octets ∷ param_taken)
        ≡ Some (after_all (Enters 2 true ∷ Takes (read_of param_pdu) 3 true ∷ [])
        (first_on Central)) }
    ensures asked { option_map (λ (control : Control). is_host_asked control.table.progress)
        (control_on some_words B 1 (Fed B masking_octets ∷ param_taken)) ≡ Some true }
    ensures passed { control_on some_words B 1 (param_told ++ turn_entry 4 ∷ replied)
        ≡ Some (after_all (Enters 2 true ∷ Takes (read_of param_pdu) 3 true
        ∷ Answers (Ok (Update 24 0 72)) ∷ []) (first_on Central)) }
    ensures negative { control_on some_words B 1 (param_told ++ turn_entry 4 ∷ replied_negatively)
        ≡ Some (after_all (Enters 2 true ∷ Takes (read_of param_pdu) 3 true
        ∷ Answers (Err (record { 0 = 0x3B })) ∷ []) (first_on Central)) }
    ensures answered { option_map (λ (control : Control). is_host_asked control.table.progress)
        (control_on some_words B 1 param_taken) ≡ Some false }
{}

/// The host of a central that asks for an exchange of versions is told that it began just after the
/// line of the next event, and not that another procedure did. After that line no other one is due.
/// In a run in which no host asks for anything no such line is due, and no indication.
pub fn worked_lines_due()
    ensures begins { due_saying B 1 no_response 2 version_asked [] (Enter B 1 0 25)
        ≡ Began B 1 Kind.Version ∷ [] }
    ensures other { due_saying B 1 no_response 2 version_asked [] (Enter B 1 0 25)
        ≡ Began B 1 Kind.Features ∷ [] → ⊥ }
    ensures begun { due_saying B 1 no_response 2 version_asked (Began B 1 Kind.Version ∷ [])
        (Began B 1 Kind.Version) ≡ [] }
    ensures none { lines_due some_words B 1 one_event_journal ≡ [] }
    ensures no_indication { applied_due some_words A 1 one_connection_journal ≡ None }
{}

/// In phase Secure the line of a PDU that is sent takes a counter of an end, and that of one that is
/// taken the other counter. In phase Clear neither does.
pub fn worked_counters()
    ensures sent { (keyed_by_all (steps_sending Central 3 one_octet) secured).end.sent ≡ 1 }
    ensures taken { (keyed_by_all (steps_taking no_response 3 one_octet) secured).end.opened ≡ 1 }
    ensures apart { (keyed_by_all (steps_taking no_response 3 one_octet) secured).end.sent ≡ 1
        → ⊥ }
    ensures clear { keyed_by_all (steps_taking no_response 3 one_octet) (begun_on Central)
        ≡ begun_on Central }
{}
