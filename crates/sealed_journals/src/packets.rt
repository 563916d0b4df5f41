//! Packets of a link that encrypts with the sample data of the standard, in a whole journal: the payloads
//! that are due, and packets that are refused.
ghost use Rattle.std.specs.Prelude.{◌≡◌};
ghost use Rattle.ble_base.specs.declared.roles.Side.TheVariants.{A, B};
ghost use Rattle.ble_base.specs.declared.verdicts.Verdict.TheVariants.{Missed};
ghost use Rattle.journal.specs.declared.entries.Mark.TheVariants.{Lost};
ghost use Rattle.journal_sealing.specs.Judged.{AllVerdictsAreOfLines};
ghost use Rattle.journal_sealing.specs.SealedLines.{AllPayloadsAreOfLines, IsSentAgain};
ghost use Rattle.journal_sealing.specs.SealedLines.{payload_carried};
ghost use Rattle.sealed_journals.specs.Refused.{counter_used_again, response_forged};
ghost use Rattle.sealed_journals.specs.Refused.{response_in_clear, response_resealed};
ghost use Rattle.sealed_journals.specs.Refused.{response_turned, until_next_event};
ghost use Rattle.sealed_journals.specs.Sample.{answer_sent, central_response, central_sealed};
ghost use Rattle.sealed_journals.specs.Sample.{data_sent, peripheral_response};
ghost use Rattle.sealed_journals.specs.Sample.{peripheral_sealed, reply_sent};
ghost use Rattle.sealed_journals.specs.Sample.{resealed_response, response_packet};
ghost use Rattle.sealed_journals.specs.Sample.{response_sent, sample_words};

/// By the lines of the journal the payloads of both ends are those of the sample data: of LL_START_ENC_RSP
/// of the central and of the peripheral, and of the data of each (Core 5.2, volume 6 part C, section 1).
pub fn payloads_of_the_sample_data_are_due()
    ensures response { payload_carried sample_words 1 response_sent A ≡ central_response }
    ensures reply { payload_carried sample_words 1 reply_sent B ≡ peripheral_response }
    ensures sent { payload_carried sample_words 1 data_sent A ≡ central_sealed }
    ensures answered { payload_carried sample_words 1 answer_sent B ≡ peripheral_sealed }
{}

/// LL_START_ENC_RSP does not go in clear, and not with the direction bit of the other end. It is not
/// sealed anew where it goes again, and its counter is not used for a further PDU (Core 5.2, volume 6
/// part B, sections 4.5.9 and 5.1.3.1, and part E, section 2).
pub fn wrong_payloads_are_refused()
    ensures in_clear { AllPayloadsAreOfLines sample_words response_in_clear → ⊥ }
    ensures turned { AllPayloadsAreOfLines sample_words response_turned → ⊥ }
    ensures anew { AllPayloadsAreOfLines sample_words response_resealed → ⊥ }
    ensures counter { AllPayloadsAreOfLines sample_words counter_used_again → ⊥ }
{}

/// Two packets between which nothing was acknowledged have one payload, so what goes again sealed anew
/// is refused as such, too (Core 5.2, volume 6 part B, section 4.5.9).
pub fn a_response_sealed_anew_is_not_sent_again()
    ensures { IsSentAgain sample_words response_sent until_next_event A 21 34 response_packet resealed_response Lost
        Missed → ⊥ }
{}

/// A packet with the direction bit of the other end in its integrity code is not good, and the one that
/// is due is not forged (Core 5.2, volume 6 part E, section 2).
pub fn wrong_verdicts_are_refused()
    ensures turned { AllVerdictsAreOfLines sample_words response_turned → ⊥ }
    ensures right { AllVerdictsAreOfLines sample_words response_forged → ⊥ }
{}
