//! Worked examples, which the definitions compute.
ghost use Rattle.std.specs.Prelude.{◌≡◌, ◌++◌, ◌∷◌, [], Err, Ok, Some};
ghost use Rattle.ble_base.specs.declared.procedure_kinds.Kind.TheVariants.{Encrypt};
ghost use Rattle.ble_base.specs.declared.roles.Role.TheVariants.{Central, Peripheral};
ghost use Rattle.ble_base.specs.declared.roles.Side.TheVariants.{A, B};
ghost use Rattle.journal.specs.declared.entries.Entry.TheVariants.{Began, Done, Enter, Opened};
ghost use Rattle.journal.specs.declared.entries.Entry.TheVariants.{Refused, Sent, Took};
ghost use Rattle.journal_acks.specs.run_model.Rows.{first_reply};
ghost use Rattle.journal_acks.specs.Rows.{data_acknowledged, data_packet, data_pdu, more_packet};
ghost use Rattle.journal_acks.specs.Rows.{reply_packet};
ghost use Rattle.journal_acks.specs.link_model.Facts.{no_peer};
ghost use Rattle.journal_acks.specs.link_model.Step.{Disconnected, ProcedureAsked, RequestAnswered};
ghost use Rattle.journal_acks.specs.link_model.procedure_values.declared.asks.Ask.TheVariants.{Update, Version};
ghost use Rattle.journal_ends.specs.Asked.{peer_by};
ghost use Rattle.journal_ends.specs.Rows.{asked_meanwhile, asked_of_central, ended_by_central};
ghost use Rattle.journal_ends.specs.Rows.{forged_data, known_version, version_kept};
ghost use Rattle.journal_ends.specs.Rows.{refused_to_central};
ghost use Rattle.journal_ends.specs.Answering.{answers_from};
ghost use Rattle.journal_ends.specs.Rows.{asked_again, next_turn, some_words, replied, replied_negatively};
ghost use Rattle.journal_ends.specs.Rows.{reply_answer, reply_command, version_body};
ghost use Rattle.journal_ends.specs.Seen.{Asks, Hears, HearsForged, Says, last_slot, seen_on};

/// The central sends a PDU of data in the second slot of an event, and the peripheral takes it.
/// Each end says that the link is opened, that it enters the event, and what it sends or takes. It
/// hears the two packets of the other one, in turns 2 and 3. On another link a side says and hears
/// nothing. Where the peripheral judges the packet with the PDU forged, it hears that, and in turn 2
/// its last good packet.
pub fn worked_ends()
    ensures central { seen_on some_words B 1 data_acknowledged
        ≡ Says (Opened B 1 0 Central) ∷ Says (Enter B 1 0 25) ∷ Hears 2 first_reply
        ∷ Says (Sent B 1 1 data_pdu.llid data_pdu.body) ∷ Hears 3 reply_packet ∷ [] }
    ensures peripheral { seen_on some_words A 1 data_acknowledged
        ≡ Says (Opened A 1 0 Peripheral) ∷ Says (Enter A 1 0 25) ∷ Hears 2 more_packet
        ∷ Hears 3 data_packet ∷ Says (Took A 1 1 data_pdu.llid data_pdu.body) ∷ [] }
    ensures other_link { seen_on some_words A 2 data_acknowledged ≡ [] }
    ensures last { last_slot (seen_on some_words A 1 data_acknowledged) ≡ Some 3 }
    ensures forged { seen_on some_words A 1 forged_data
        ≡ Says (Opened A 1 0 Peripheral) ∷ Says (Enter A 1 0 25) ∷ Hears 2 more_packet
        ∷ HearsForged ∷ [] }
    ensures last_before { last_slot (seen_on some_words A 1 forged_data) ≡ Some 2 }
{}

/// The host of the central sends Read Remote Version Information in turn 1, before the first event of
/// the link. It is asked of the end at the line of its Command Status with status 00, and not where
/// the command is refused, nor of the other end, nor on another link. A Disconnect after it ends the
/// link in the same turn. Where the end knows the version of its peer, nothing is asked.
pub fn worked_asks()
    ensures central { seen_on some_words B 1 asked_of_central
        ≡ Says (Opened B 1 0 Central) ∷ Asks (ProcedureAsked Version) ∷ [] }
    ensures refused { seen_on some_words B 1 refused_to_central ≡ Says (Opened B 1 0 Central) ∷ [] }
    ensures peripheral { seen_on some_words A 1 asked_of_central ≡ Says (Opened A 1 0 Peripheral) ∷ [] }
    ensures other_link { seen_on some_words B 2 asked_of_central ≡ [] }
    ensures ends { seen_on some_words B 1 ended_by_central
        ≡ Says (Opened B 1 0 Central) ∷ Asks (ProcedureAsked Version)
        ∷ Asks (Disconnected (record { 0 = 0x13 }) 1) ∷ [] }
    ensures known { seen_on some_words B 1 asked_again
        ≡ Says (Opened B 1 0 Central) ∷ Says (Took B 1 1 3 version_body) ∷ [] }
{}

/// A central that takes LL_VERSION_IND while its encryption runs keeps it: it knows the version of its
/// peer once the encryption is done or refused. Until then a host that asks for it asks the end. An
/// end that does not encrypt knows the version at once.
pub fn worked_versions()
    ensures kept { peer_by version_kept ≡ no_peer }
    ensures done { peer_by (version_kept ++ Done B 1 Encrypt ∷ []) ≡ known_version }
    ensures refused { peer_by (version_kept ++ Refused B 1 Encrypt (record { 0 = 0x06 }) ∷ [])
        ≡ known_version }
    ensures at_once { peer_by (Took B 1 1 3 version_body ∷ []) ≡ known_version }
    ensures asked { seen_on some_words B 1 asked_meanwhile
        ≡ Says (Opened B 1 0 Central) ∷ Says (Began B 1 Encrypt) ∷ Says (Took B 1 1 3 version_body)
        ∷ Asks (ProcedureAsked Version) ∷ [] }
{}

/// The host of the central answers a request of the peripheral in turn 1: it lets the parameters
/// pass, or refuses them. It does so at the line of the Command Complete with status 00, and not where
/// the command is refused, nor at the other end, nor on another link. Such an answer is not among
/// what is seen of the end, and another command is none.
pub fn worked_answers()
    ensures passes { answers_from some_words B 1 next_turn replied
        ≡ RequestAnswered (Ok (Update 24 0 72)) ∷ [] }
    ensures refuses { answers_from some_words B 1 next_turn replied_negatively
        ≡ RequestAnswered (Err (record { 0 = 0x3B })) ∷ [] }
    ensures refused { answers_from some_words B 1 next_turn (reply_command ∷ reply_answer 0x20 0x0C ∷ [])
        ≡ [] }
    ensures peripheral { answers_from some_words A 1 next_turn replied ≡ [] }
    ensures other_link { answers_from some_words B 2 next_turn replied ≡ [] }
    ensures unseen { seen_on some_words B 1 (next_turn ++ replied) ≡ Says (Opened B 1 0 Central) ∷ [] }
    ensures other { answers_from some_words B 1 [] asked_of_central ≡ [] }
{}
