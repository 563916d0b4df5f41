//! Worked examples, which the definitions compute.
ghost use Rattle.std.specs.Prelude.{◌≡◌, true, [], ◌∷◌, ◌++◌, replicate};
ghost use Rattle.ble_base.specs.declared.Verdict.TheVariants.{Missed, Broken, Good};
ghost use Rattle.ble_base.specs.declared.notes.Note.TheVariants.{Opened, Shut, Enter};
ghost use Rattle.ble_base.specs.declared.roles.Role.TheVariants.{Central, Peripheral};
ghost use Rattle.h4_frames.specs.declared.packet.HostPacket.TheVariants.{Acl};
ghost use Rattle.h4_frames.specs.declared.packet.Fed.TheVariants.{Packet};
ghost use Rattle.controller_model.specs.Facts.{Listens, Sends};
ghost use Rattle.controller_model.specs.Host.{commands_of};
ghost use Rattle.controller_model.specs.Notes.{answers_among};
ghost use Rattle.controller_model.specs.Packets.{use_of, verdict_of};
ghost use Rattle.controller_model.specs.Rows.{address_a, address_b, advertisement_b, advertisement_ending};
ghost use Rattle.controller_model.specs.Rows.{advertiser_in_turn, central_answers, central_linked};
ghost use Rattle.controller_model.specs.Rows.{central_listens, connection, empty_given, fed};
ghost use Rattle.controller_model.specs.Rows.{first_packet, octet_given};
ghost use Rattle.controller_model.specs.Rows.{peripheral_linked, peripheral_listens, peripheral_sends};
ghost use Rattle.controller_model.specs.Rows.{public, scanner_heard_it, scanner_in_turn, setup_a};
ghost use Rattle.controller_model.specs.Rows.{setup_b, up};
ghost use Rattle.controller_model.specs.Side.{facts_of, notes_after, notes_fed, notes_from, notes_of};
ghost use Rattle.controller_model.specs.Step.{TurnBegins};

/// What hosts are answered: an HCI_Reset; an opcode that is no command; a Reset of another length;
/// a loss of synchronisation that a Reset ends; the public address; a random word; a command of
/// advertising with the wrong length; and Disconnect of a link that is not open.
pub fn worked_rows()
    ensures reset { notes_of setup_a (fed (0x01 ∷ 0x03 ∷ 0x0C ∷ 0x00 ∷ []))
        ≡ up (0x04 ∷ 0x0E ∷ 0x04 ∷ 0x01 ∷ 0x03 ∷ 0x0C ∷ 0x00 ∷ []) ∷ [] }
    ensures unknown { notes_of setup_a (fed (0x01 ∷ 0xFF ∷ 0xFF ∷ 0x00 ∷ []))
        ≡ up (0x04 ∷ 0x0F ∷ 0x04 ∷ 0x01 ∷ 0x01 ∷ 0xFF ∷ 0xFF ∷ []) ∷ [] }
    ensures long_reset { notes_of setup_a (fed (0x01 ∷ 0x03 ∷ 0x0C ∷ 0x01 ∷ 0x00 ∷ []))
        ≡ up (0x04 ∷ 0x0E ∷ 0x04 ∷ 0x01 ∷ 0x03 ∷ 0x0C ∷ 0x12 ∷ []) ∷ [] }
    ensures loss { notes_of setup_a (fed (0x07 ∷ 0xAA ∷ 0x01 ∷ 0x03 ∷ 0x0C ∷ 0x00 ∷ []))
        ≡ up (0x04 ∷ 0x10 ∷ 0x01 ∷ 0x01 ∷ [])
        ∷ up (0x04 ∷ 0x0E ∷ 0x04 ∷ 0x01 ∷ 0x03 ∷ 0x0C ∷ 0x00 ∷ []) ∷ [] }
    ensures address { notes_of setup_a (fed (0x01 ∷ 0x09 ∷ 0x10 ∷ 0x00 ∷ []))
        ≡ up (0x04 ∷ 0x0E ∷ 0x0A ∷ 0x01 ∷ 0x09 ∷ 0x10 ∷ 0x00
        ∷ 0x0A ∷ 0x00 ∷ 0x00 ∷ 0xEE ∷ 0xFF ∷ 0xC0 ∷ []) ∷ [] }
    ensures random { notes_of setup_a (fed (0x01 ∷ 0x18 ∷ 0x20 ∷ 0x00 ∷ []))
        ≡ up (0x04 ∷ 0x0E ∷ 0x0C ∷ 0x01 ∷ 0x18 ∷ 0x20 ∷ 0x00
        ∷ 0x01 ∷ 0 ∷ 0 ∷ 0 ∷ 0 ∷ 0 ∷ 0 ∷ 0 ∷ []) ∷ [] }
    ensures wrong_length { notes_of setup_a (fed (0x01 ∷ 0x06 ∷ 0x20 ∷ 0x03
        ∷ 0x00 ∷ 0x00 ∷ 0x13 ∷ []))
        ≡ up (0x04 ∷ 0x0E ∷ 0x04 ∷ 0x01 ∷ 0x06 ∷ 0x20 ∷ 0x12 ∷ []) ∷ [] }
    ensures no_link { notes_of setup_a (fed (0x01 ∷ 0x06 ∷ 0x04 ∷ 0x03 ∷ 0x00 ∷ 0x00 ∷ 0x13 ∷ []))
        ≡ up (0x04 ∷ 0x0F ∷ 0x04 ∷ 0x02 ∷ 0x01 ∷ 0x06 ∷ 0x04 ∷ []) ∷ [] }
{}

/// One advertisement: what A sends in its first turn and the octets of it; that B listens; its
/// verdicts on the packet, on one whose CRC is wrong, and on nothing of its own; and what B
/// reports.
pub fn worked_advertisement()
    ensures sends { use_of (facts_of setup_a advertiser_in_turn)
        ≡ Sends 37 (advertisement_ending 0xDA) }
    ensures listens { use_of (facts_of setup_b scanner_in_turn) ≡ Listens 37 }
    ensures good { verdict_of (facts_of setup_b scanner_in_turn) (advertisement_ending 0xDA)
        ≡ Good }
    ensures broken { verdict_of (facts_of setup_b scanner_in_turn) (advertisement_ending 0xDB)
        ≡ Broken }
    ensures missed { verdict_of (facts_of setup_a advertiser_in_turn) (advertisement_ending 0xDA)
        ≡ Missed }
    ensures reports { notes_of setup_b scanner_heard_it
        ≡ up (0x04 ∷ 0x0E ∷ 0x04 ∷ 0x01 ∷ 0x01 ∷ 0x0C ∷ 0x00 ∷ [])
        ∷ up (0x04 ∷ 0x0E ∷ 0x04 ∷ 0x01 ∷ 0x0C ∷ 0x20 ∷ 0x00 ∷ [])
        ∷ up (0x04 ∷ 0x3E ∷ 0x0C ∷ 0x02 ∷ 0x01 ∷ 0x03 ∷ 0x00
        ∷ 0x0A ∷ 0x00 ∷ 0x00 ∷ 0xEE ∷ 0xFF ∷ 0xC0 ∷ 0x00 ∷ 0x7F ∷ []) ∷ [] }
{}

/// The commands of a host that sends an HCI_Reset and LE Rand, and what the answers say of them.
pub fn worked_answers()
    ensures commands { commands_of setup_a
        (fed (0x01 ∷ 0x03 ∷ 0x0C ∷ 0x00 ∷ 0x01 ∷ 0x18 ∷ 0x20 ∷ 0x00 ∷ []))
        ≡ (0x0C03, true) ∷ (0x2018, true) ∷ [] }
    ensures answers { answers_among (notes_of setup_a
        (fed (0x01 ∷ 0x03 ∷ 0x0C ∷ 0x00 ∷ 0x01 ∷ 0x18 ∷ 0x20 ∷ 0x00 ∷ [])))
        ≡ (1, 0x0C03) ∷ (1, 0x2018) ∷ [] }
{}

/// A link is made in one turn: B sends ADV_IND on channel 37 while A, which initiates, listens
/// there; A answers by CONNECT_IND, for which B listens; both note the link, and their hosts
/// receive LE Connection Complete.
pub fn worked_connection()
    ensures advertises { use_of (facts_of setup_b peripheral_sends) ≡ Sends 37 advertisement_b }
    ensures initiates { use_of (facts_of setup_a central_listens) ≡ Listens 37 }
    ensures connects { use_of (facts_of setup_a central_answers) ≡ Sends 37 connection }
    ensures listens { use_of (facts_of setup_b peripheral_listens) ≡ Listens 37 }
    ensures central { notes_of setup_a central_linked
        ≡ up (0x04 ∷ 0x0E ∷ 0x04 ∷ 0x01 ∷ 0x01 ∷ 0x0C ∷ 0x00 ∷ [])
        ∷ up (0x04 ∷ 0x0F ∷ 0x04 ∷ 0x00 ∷ 0x01 ∷ 0x0D ∷ 0x20 ∷ [])
        ∷ Opened 0 Central (public address_a) (public address_b)
        ∷ up (0x04 ∷ 0x3E ∷ 0x13 ∷ 0x01 ∷ 0x00 ∷ 0x00 ∷ 0x00 ∷ 0x00 ∷ 0x00
        ∷ 0x0B ∷ 0x00 ∷ 0x00 ∷ 0xEE ∷ 0xFF ∷ 0xC0
        ∷ 0x18 ∷ 0x00 ∷ 0x00 ∷ 0x00 ∷ 0x48 ∷ 0x00 ∷ 0x00 ∷ []) ∷ [] }
    ensures peripheral { notes_of setup_b peripheral_linked
        ≡ up (0x04 ∷ 0x0E ∷ 0x04 ∷ 0x01 ∷ 0x01 ∷ 0x0C ∷ 0x00 ∷ [])
        ∷ up (0x04 ∷ 0x0E ∷ 0x04 ∷ 0x01 ∷ 0x0A ∷ 0x20 ∷ 0x00 ∷ [])
        ∷ Opened 0 Peripheral (public address_b) (public address_a)
        ∷ up (0x04 ∷ 0x3E ∷ 0x13 ∷ 0x01 ∷ 0x00 ∷ 0x00 ∷ 0x00 ∷ 0x01 ∷ 0x00
        ∷ 0x0A ∷ 0x00 ∷ 0x00 ∷ 0xEE ∷ 0xFF ∷ 0xC0
        ∷ 0x18 ∷ 0x00 ∷ 0x00 ∷ 0x00 ∷ 0x48 ∷ 0x00 ∷ 0x00 ∷ []) ∷ [] }
{}

/// The first event of that link, in slot 2: both ends enter it on channel 25, where A sends and B
/// listens. A link on which nothing was received ends six intervals after its CONNECT_IND, and the
/// host receives Disconnection Complete with 3E.
pub fn worked_link()
    ensures central { notes_after setup_a (facts_of setup_a central_linked) (TurnBegins 2 true)
        ≡ Enter 0 (record { 0 = 0 }) 25 ∷ [] }
    ensures peripheral { notes_after setup_b (facts_of setup_b peripheral_linked)
        (TurnBegins 2 true)
        ≡ Enter 0 (record { 0 = 0 }) 25 ∷ [] }
    ensures sends { use_of (facts_of setup_a (central_linked ++ TurnBegins 2 true ∷ []))
        ≡ Sends 25 first_packet }
    ensures listens { use_of (facts_of setup_b (peripheral_linked ++ TurnBegins 2 true ∷ []))
        ≡ Listens 25 }
    ensures good { verdict_of (facts_of setup_b (peripheral_linked ++ TurnBegins 2 true ∷ []))
        first_packet ≡ Good }
    ensures alive { notes_after setup_a (facts_of setup_a central_linked) (TurnBegins 143 true)
        ≡ [] }
    ensures shut { notes_after setup_a (facts_of setup_a central_linked) (TurnBegins 144 true)
        ≡ Shut 0 (record { 0 = 0x3E })
        ∷ up (0x04 ∷ 0x05 ∷ 0x04 ∷ 0x00 ∷ 0x00 ∷ 0x00 ∷ 0x3E ∷ []) ∷ [] }
{}

/// Packets of a host: one for a handle whose link is not open, which is not noted; one of 252
/// octets on an open link, which is reported as Data Buffer Overflow; one of no octet, which is
/// complete at once; and one of one octet, which is kept to be sent.
pub fn worked_data()
    ensures no_link { notes_fed setup_a (facts_of setup_a central_linked)
        (Packet (Acl 1 true 1 (record { items = 0xAA ∷ [] }))) ≡ [] }
    ensures too_long { notes_fed setup_a (facts_of setup_a central_linked)
        (Packet (Acl 0 true 252 (record { items = replicate 251 0xAA })))
        ≡ up (0x04 ∷ 0x1A ∷ 0x01 ∷ 0x01 ∷ []) ∷ [] }
    ensures empty { notes_from setup_a (facts_of setup_a central_linked) empty_given
        ≡ up (0x04 ∷ 0x13 ∷ 0x05 ∷ 0x01 ∷ 0x00 ∷ 0x00 ∷ 0x01 ∷ 0x00 ∷ []) ∷ [] }
    ensures kept { notes_from setup_a (facts_of setup_a central_linked) octet_given ≡ [] }
{}
