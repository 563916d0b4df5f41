//! A worked example, which the definitions compute.
ghost use Rattle.std.specs.Prelude.{◌≡◌, ◌++◌, [], ◌∷◌, Some, None};
ghost use Rattle.ble_base.specs.declared.roles.Side.TheVariants.{A, B};
ghost use Rattle.ble_base.specs.declared.verdicts.Verdict.TheVariants.{Good, Missed};
ghost use Rattle.journal.specs.declared.entries.Entry.TheVariants.{Air};
ghost use Rattle.journal.specs.declared.entries.Mark.TheVariants.{Lost as WasLost, Pass as Passed};
ghost use Rattle.journal_packets.specs.Belonging.{link_of_packet};
ghost use Rattle.journal_links.specs.run_model.Rows.{first_packet, first_reply, one_connection_journal, turn_entry};

/// After the CONNECT_IND of B, a packet of B with its access address is of link 1. One of A is of
/// it where it answers a packet of B that A heard in the same turn.
pub fn worked_packets()
    ensures central { link_of_packet (one_connection_journal ++ turn_entry 1 ∷ []) B first_packet
        ≡ Some 1 }
    ensures unasked { link_of_packet (one_connection_journal ++ turn_entry 1 ∷ []) A first_reply
        ≡ None }
    ensures unheard { link_of_packet (one_connection_journal ++ turn_entry 1
        ∷ Air B 25 first_packet WasLost Missed ∷ []) A first_reply ≡ None }
    ensures answer { link_of_packet (one_connection_journal ++ turn_entry 1
        ∷ Air B 25 first_packet Passed Good ∷ []) A first_reply ≡ Some 1 }
    ensures later { link_of_packet (one_connection_journal ++ turn_entry 1
        ∷ Air B 25 first_packet Passed Good ∷ turn_entry 2 ∷ []) A first_reply ≡ None }
{}
