//! Worked examples, which the definitions compute.
ghost use Rattle.journal_packets.specs.link_model.Acknowledgement.{empty_pdu};
ghost use Rattle.std.specs.Prelude.{◌≡◌, ◌++◌, [], ◌∷◌, Some, false};
ghost use Rattle.air_frame.specs.Packet.{on_air};
ghost use Rattle.ble_base.specs.declared.roles.Side.TheVariants.{A, B};
ghost use Rattle.ble_base.specs.declared.verdicts.Verdict.TheVariants.{Missed};
ghost use Rattle.journal.specs.declared.entries.Entry.TheVariants.{Air, Enter};
ghost use Rattle.journal.specs.declared.entries.Mark.TheVariants.{Lost as WasLost};
ghost use Rattle.journal_acks.specs.Carried.{bits_of, carried_of, channel_entered, pdu_octets};
ghost use Rattle.journal_acks.specs.EventOrder.{entered_on};
ghost use Rattle.journal_acks.specs.Exchange.{exchange_of};
ghost use Rattle.journal_acks.specs.Rows.{data_heard, data_packet, data_pdu, data_sent};
ghost use Rattle.journal_acks.specs.Rows.{data_taken};
ghost use Rattle.link_calls.specs.run_model.Rows.{first_packet, one_connection_journal, one_event_journal};
ghost use Rattle.link_calls.specs.run_model.Rows.{turn_entry};

/// After the first exchange of a link, each end has accepted the PDU of the other, and the central
/// knows that its own is acknowledged. Where the first packet is lost nothing is accepted. Each end
/// has entered one event of this link, and none of another.
pub fn worked_exchange()
    ensures central { exchange_of 1 one_event_journal B
        ≡ record { sent = 1; accepted = 1; acked = 1 } }
    ensures peripheral { exchange_of 1 one_event_journal A
        ≡ record { sent = 1; accepted = 1; acked = 0 } }
    ensures lost { exchange_of 1 (one_connection_journal ++ turn_entry 1 ∷ turn_entry 2
        ∷ Enter A 1 0 25 ∷ Enter B 1 0 25 ∷ Air B 25 first_packet WasLost Missed ∷ []) A
        ≡ record { sent = 1; accepted = 0; acked = 0 } }
    ensures channel { channel_entered 1 A one_event_journal ≡ Some 25 }
    ensures events { entered_on A 1 one_event_journal ≡ 1 }
    ensures other_events { entered_on A 2 one_event_journal ≡ 0 }
{}

/// A packet carries an empty PDU until a new PDU is sent, and then that one, until it is
/// acknowledged. What is sent is accepted only as it is taken, where it is not empty.
pub fn worked_data()
    ensures empty { carried_of 1 one_event_journal B ≡ empty_pdu }
    ensures first { carried_of 1 data_sent B ≡ data_pdu }
    ensures packet { on_air 25 0x71764129 2
        (pdu_octets (bits_of (exchange_of 1 data_sent B)) false (carried_of 1 data_sent B))
        ≡ data_packet }
    ensures again { carried_of 1 data_taken B ≡ data_pdu }
    ensures heard { exchange_of 1 data_heard A ≡ record { sent = 1; accepted = 1; acked = 1 } }
    ensures taken { exchange_of 1 data_taken A ≡ record { sent = 1; accepted = 2; acked = 1 } }
{}
