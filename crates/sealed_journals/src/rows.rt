//! Worked examples, which the definitions compute: the sample data of the standard.
ghost use Rattle.std.specs.Prelude.{◌≡◌, [], ◌∷◌, false, true};
ghost use Rattle.ccm_link.specs.Ccm.{sealed_payload};
ghost use Rattle.ccm_link.specs.Payload.{additional_data, nonce, session_key};
ghost use Rattle.sealed_journals.specs.Sample.{central_response, central_skd, long_term_key};
ghost use Rattle.sealed_journals.specs.Sample.{peripheral_response, peripheral_skd, sample_iv};
ghost use Rattle.sealed_journals.specs.Sample.{sample_key};

/// The session key of the sample data (Core 5.2, volume 6 part C, section 1).
pub fn worked_session_key()
    ensures { session_key long_term_key central_skd peripheral_skd ≡ sample_key }
{}

/// LL_START_ENC_RSP of each end, sealed with counter 0, and a PDU of data of three octets of the
/// central, sealed with counter 1 (Core 5.2, volume 6 part C, section 1).
pub fn worked_payloads()
    ensures central { sealed_payload (session_key long_term_key central_skd peripheral_skd)
        (nonce 0 true sample_iv) (additional_data 3) (0x06 ∷ []) ≡ central_response }
    ensures peripheral { sealed_payload (session_key long_term_key central_skd peripheral_skd)
        (nonce 0 false sample_iv) (additional_data 3) (0x06 ∷ []) ≡ peripheral_response }
    ensures three { sealed_payload (session_key long_term_key central_skd peripheral_skd)
        (nonce 1 true sample_iv) (additional_data 2) (0x01 ∷ 0x02 ∷ 0x03 ∷ [])
        ≡ 0x6C ∷ 0x72 ∷ 0xB6 ∷ 0xD7 ∷ 0x4A ∷ 0x24 ∷ 0x2B ∷ [] }
{}
