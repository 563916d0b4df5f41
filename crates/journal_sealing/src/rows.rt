//! Worked examples, which the definitions compute.
ghost use Rattle.std.specs.Prelude.{◌≡◌, [], ◌∷◌, None, Some, false, length, true};
ghost use Rattle.ble_base.specs.declared.roles.Role.TheVariants.{Central, Peripheral};
ghost use Rattle.ble_base.specs.declared.roles.Side.TheVariants.{A, B};
ghost use Rattle.journal_controls.specs.Rows.{begun_on, one_octet, secured};
ghost use Rattle.journal_controls.specs.journal_acks.Rows.{data_acknowledged, data_sent};
ghost use Rattle.journal_controls.specs.journal_ends.Asked.{Words};
ghost use Rattle.journal_controls.specs.link_model.Acknowledgement.{empty_pdu};
ghost use Rattle.journal_controls.specs.link_model.Payload.{payload_made};
ghost use Rattle.journal_controls.specs.link_model.enc_phase.Sealing.{after_sending};
ghost use Rattle.journal_sealing.specs.Forged.{counts_by, is_wrong};
ghost use Rattle.journal_sealing.specs.Mixed.{mixes};
ghost use Rattle.journal_sealing.specs.Rows.{begun, data_lost, empty_octets, one_each};
ghost use Rattle.journal_sealing.specs.Rows.{sealed_octets, secured_as};
ghost use Rattle.journal_sealing.specs.Rows.{start_enc_req, start_enc_rsp};
ghost use Rattle.journal_sealing.specs.Rows.{start_enc_rsp_octets, starting, two_taken};
ghost use Rattle.journal_sealing.specs.SealedLines.{payload_by, payload_carried, payload_of_line};

/// On a link in clear the payload of a PDU of data is its body, also where its first packet was lost,
/// until it is acknowledged. That of an end that sent nothing is empty.
pub fn worked_payloads()
    ensures first { (words : Words) → payload_carried words 1 data_sent B ≡ 0xAA ∷ [] }
    ensures again { (words : Words) → payload_carried words 1 data_lost B ≡ 0xAA ∷ [] }
    ensures acknowledged { (words : Words) → payload_carried words 1 data_acknowledged B ≡ [] }
    ensures other { (words : Words) → payload_carried words 1 data_sent A ≡ [] }
{}

/// LL_START_ENC_REQ goes in clear, and LL_START_ENC_RSP of the central does not: it is sealed, so it
/// has five octets and not the one of its body. In phase Secure an empty PDU is not sealed, and a PDU
/// of one octet is. It has the payload of its line, and not one that is made anew as it is sent again:
/// the end has another counter by then (Core 5.2, volume 6 part B, sections 4.5.9 and 5.1.3.1).
pub fn worked_starts()
    ensures request { payload_made (starting Peripheral) start_enc_req ≡ 0x05 ∷ [] }
    ensures response { length (payload_made (starting Central) start_enc_rsp) ≡ 5 }
    ensures in_clear { payload_made (starting Central) start_enc_rsp ≡ start_enc_rsp.body → ⊥ }
    ensures empty { payload_made secured.end empty_pdu ≡ [] }
    ensures full { length (payload_made secured.end one_octet) ≡ 5 }
    ensures again { payload_of_line (Some (record {
      pdu = one_octet;
      acked = 1;
      payload = payload_by (Some secured) one_octet;
    })) 1
        ≡ payload_made secured.end one_octet }
    ensures anew { (after_sending secured.end).sent ≡ secured.end.sent → ⊥ }
{}

/// LL_START_ENC_RSP of a central that goes in clear is forged for a peripheral that began a session: it
/// has no integrity code. Sent again after it was accepted it is not looked at, an empty PDU is not
/// either, and a central that has no session opens nothing.
pub fn worked_forgeries()
    ensures in_clear { is_wrong (Some (begun Peripheral)) one_each start_enc_rsp_octets ≡ true }
    ensures again { is_wrong (Some (begun Peripheral)) two_taken start_enc_rsp_octets ≡ false }
    ensures empty { is_wrong (Some (begun Peripheral)) one_each empty_octets ≡ false }
    ensures clear { is_wrong (Some (begun_on Central)) one_each start_enc_rsp_octets ≡ false }
{}

/// A sealed PDU of a central that a peripheral with another session key judges good mixes keys. It does
/// not between two ends with one key, for an end that opens nothing, for one that accepted it before,
/// or where it comes after the peripheral shut the link.
pub fn worked_mixtures()
    ensures two_keys { mixes (counts_by one_each sealed_octets) (Some (secured_as Central 1))
        (Some (secured_as Peripheral 2))
        ≡ true }
    ensures one_key { mixes (counts_by one_each sealed_octets) (Some (secured_as Central 1))
        (Some (secured_as Peripheral 1))
        ≡ false }
    ensures in_clear { mixes (counts_by one_each sealed_octets) (Some (secured_as Central 1))
        (Some (begun_on Peripheral))
        ≡ false }
    ensures again { mixes (counts_by two_taken sealed_octets) (Some (secured_as Central 1))
        (Some (secured_as Peripheral 2))
        ≡ false }
    ensures shut { mixes (counts_by one_each sealed_octets) (Some (secured_as Central 1)) None
        ≡ false }
{}
