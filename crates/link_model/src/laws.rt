//! Laws of one end of a link. The bodies only call the laws that they rest on: the contracts are
//! the laws.
ghost use Rattle.std.specs.Prelude.{◌≡◌, ◌<◌, ◌≤◌, ◌+◌, ◌-◌, ℕ, nat_lt, Bool, true, false, List};
ghost use Rattle.std.specs.Prelude.{[], ◌∷◌, ◌++◌, length, take, Some, None, slice_get};
ghost use Rattle.std.specs.Prelude.{◌&&◌, ◌||◌, not, is_none, is_some};
ghost use Rattle.std.specs.List.{filter, find};
ghost use Rattle.std.specs.Option.{option_map};
ghost use Rattle.acl_banks.specs.Packets.{piece_of};
ghost use Rattle.ble_base.specs.declared.roles.Role.TheVariants.{Central};
ghost use Rattle.ble_base.specs.declared.verdicts.Verdict.TheVariants.{Forged, Good};
ghost use Rattle.ble_base.specs.ErrorCodes.{mic_failure};
ghost use Rattle.phased_end.specs.control_end.procedure_stages.declared.steps.Effect.TheVariants.{Nothing};
ghost use Rattle.ack_bit.specs.Nonempty.{nonempty};
ghost use Rattle.data_pdu.specs.declared.ctrl.Ctrl.{Ctrl};
ghost use Rattle.data_pdu.specs.declared.ctrl.CtrlRead.TheVariants.{Bare, Known};
ghost use Rattle.data_pdu.specs.declared.header.DataHeader.{DataHeader};
ghost use Rattle.data_pdu.specs.Header.{header_in};
ghost use Rattle.instants.specs.Track.{is_free};
ghost use Rattle.phased_end.specs.control_end.procedure_values.Limits.{tx_of};
ghost use Rattle.phased_end.specs.control_end.procedure_stages.InProgress.{is_busy};
ghost use Rattle.phased_end.specs.control_end.procedure_stages.Kinds.{role_of};
ghost use Rattle.phased_end.specs.control_end.procedure_stages.Queue.{waiting_in};
ghost use Rattle.phased_end.specs.enc_phase.declared.facts.PhaseFacts.TheVariants.{Clear};
ghost use Rattle.phased_end.specs.enc_phase.Sealing.{EncEnd, after_sending, clear_end};
ghost use Rattle.phased_end.specs.keyed_control.Keyed.{first_keyed};
ghost use Rattle.phased_end.specs.keyed_control.KeyedSteps.{keyed_after_all, phased_steps};
ghost use Rattle.phased_end.specs.phased_control.Ends.{AllAskInRange};
ghost use Rattle.link_model.specs.Setup.{Setup, first_anchor, first_params};
ghost use Rattle.link_model.specs.Acknowledgement.{Acknowledgement, Pdu, empty_pdu, is_acked};
ghost use Rattle.link_model.specs.Data.{is_control, is_data, is_empty, is_out, is_unsent};
ghost use Rattle.link_model.specs.Data.{next_piece, pdu_with, unsent_of};
ghost use Rattle.link_model.specs.Numbers.{is_took_note};
ghost use Rattle.link_model.specs.Verdicts.{pdu_of};
ghost use Rattle.link_model.specs.OneLink.{AreInAgreement};
ghost use Rattle.link_model.specs.Payload.{CanOpen, payload_made};
ghost use Rattle.link_model.specs.Facts.{Facts, keyed_of, params_of};
ghost use Rattle.link_model.specs.Controls.{goes_on, is_long, is_quiet_now, next_control};
ghost use Rattle.link_model.specs.Controls.{pdu_fixed, pdu_of_control, read_of};
ghost use Rattle.link_model.specs.Step.{Step, EventEntered, PacketReceived, PacketSent};
ghost use Rattle.link_model.specs.Step.{PduFixed, begins_turn};
ghost use Rattle.link_model.specs.Fixing.{data_cut, data_goes, is_last_of_all};
ghost use Rattle.link_model.specs.Packets.{FitsReceiver, good_pdu, header_sent, is_forged};
ghost use Rattle.link_model.specs.Packets.{more_sent, packet_sent, payload_sent};
ghost use Rattle.link_model.specs.Packets.{pdu_sent, verdict_of};
ghost use Rattle.link_model.specs.Hearing.{IsOpened, IsUnderstood, is_on_air, pdu_heard};
ghost use Rattle.link_model.specs.Hearing.{pdu_octets};
ghost use Rattle.link_model.specs.Sending.{facts_sent};
ghost use Rattle.link_model.specs.Receiving.{accepts, control_taken, effect_of};
ghost use Rattle.link_model.specs.Receiving.{ended_by_forgery, is_seen, kept_answered};
ghost use Rattle.link_model.specs.Receiving.{keyed_taken, peer_from, peer_from_if, peer_taken};
ghost use Rattle.link_model.specs.Receiving.{facts_hearing, notes_hearing, replies_of};
ghost use Rattle.link_model.specs.Times.{ending_of, has_second_exchange, wants_of};
ghost use Rattle.link_model.specs.KeyedSteps.{is_forged_in_step};
ghost use Rattle.link_model.specs.KeyedSteps.{keyed_steps_in, keyed_steps_of};
ghost use Rattle.link_model.specs.AskRanges.{AreAsksInRange};
ghost use Rattle.link_model.specs.NoEncryption.{AllBeginNone};
ghost use Rattle.link_model.specs.Delivery.{AreNumbered, IsDelivered, IsInOrder};
ghost use Rattle.link_model.specs.End.{facts_after, facts_of, notes_after, notes_of};

/// With one more step, an end holds what that step makes of what it held, and notes what it notes
/// in that step after all that it noted before.
#[tactic(auto, using(crate::proofs::Pasts::grows, crate::proofs::Pasts::notes_grow))]
pub fn past_grows()
    ensures facts { (setup : Setup) (past : List Step) (step : Step)
        → facts_of setup (past ++ step ∷ []) ≡ facts_after setup (facts_of setup past) step }
    ensures notes { (setup : Setup) (past : List Step) (step : Step)
        → notes_of setup (past ++ step ∷ [])
        ≡ notes_of setup past ++ notes_after setup (facts_of setup past) step }
{}

/// The packet that an end sends is good at the other end of the link where that listens on its
/// channel, its payload is not longer than what that receives, and that opens what is sealed. What
/// is read in it is its header, and its LLID and its body as one PDU; that is what the other end
/// hears (Core 5.2, volume 6 part B, sections 2.4 and 4.5.10). Each PDU that an end sends has the
/// LLID 1, 2 or 3.
pub fn a_packet_is_understood()
    ensures good { (from to : Setup) (sender listener : Facts)
        → IsUnderstood from sender to listener
        → verdict_of to listener (packet_sent from sender) ≡ Good }
    ensures pdu { (from to : Setup) (sender listener : Facts)
        → IsUnderstood from sender to listener
        → good_pdu to listener (packet_sent from sender)
        ≡ Some (pdu_octets sender listener) }
    ensures forged { (from to : Setup) (sender listener : Facts)
        → IsUnderstood from sender to listener
        → is_forged to listener (packet_sent from sender) ≡ false }
    ensures header { (sender listener : Facts) → (pdu_sent sender).llid < 4
        → header_in (pdu_octets sender listener) ≡ header_sent sender }
    ensures body { (sender listener : Facts) → (pdu_sent sender).llid < 4
        → pdu_of (pdu_octets sender listener) ≡ pdu_heard sender listener }
    ensures facts { (from to : Setup) (sender listener : Facts) (slot : ℕ) (room : Bool)
        → IsUnderstood from sender to listener
        → facts_after to listener (PacketReceived slot (packet_sent from sender) room)
        ≡ facts_hearing to.link.role slot room (header_sent sender) (pdu_sent sender) listener }
    ensures notes { (from to : Setup) (sender listener : Facts) (slot : ℕ) (room : Bool)
        → IsUnderstood from sender to listener
        → notes_after to listener (PacketReceived slot (packet_sent from sender) room)
        ≡ notes_hearing to slot room (header_sent sender) (pdu_sent sender) listener }
    ensures llid { (setup : Setup) (past : List Step) → let pdu = pdu_sent (facts_of setup past) in
        (0 < pdu.llid) × (pdu.llid < 4) }
{
    air_frame::laws::packet_tells_its_pdu();
}

/// The procedures, the phase and the keys of an end go by the steps of its past, one after the
/// other, from the first ones of its link. A forged packet is no step: it ends the link, and changes
/// nothing else (Core 5.2, volume 6 part B, section 5.1.3). No step changes the role of the end, and
/// its session is in the phase of its procedures.
pub fn an_end_goes_by_its_steps()
    ensures step { (setup : Setup) (facts : Facts) (step : Step)
        → facts.encryption.end.phase ≡ facts.encryption.phase
        → is_forged_in_step setup facts step ≡ false
        → keyed_of (facts_after setup facts step)
        ≡ keyed_after_all (keyed_steps_in setup facts step) (keyed_of facts) }
    ensures forged { (setup : Setup) (facts : Facts) (step : Step)
        → is_forged_in_step setup facts step ≡ true
        → facts_after setup facts step
        ≡ record facts { control = ended_by_forgery facts.control } }
    ensures past { (setup : Setup) (past : List Step) → goes_on (facts_of setup past) ≡ true
        → keyed_of (facts_of setup past)
        ≡ keyed_after_all (keyed_steps_of setup past)
        (first_keyed setup.link.role setup.link.max_rx (first_params setup.link.fields)
        (first_anchor setup)) }
    ensures grows { (setup : Setup) (past : List Step) (step : Step)
        → keyed_steps_of setup (past ++ step ∷ [])
        ≡ keyed_steps_of setup past ++ keyed_steps_in setup (facts_of setup past) step }
    ensures in_range { (setup : Setup) (past : List Step) → AreAsksInRange past
        → AllAskInRange (phased_steps (keyed_steps_of setup past)) }
    ensures role { (setup : Setup) (past : List Step)
        → role_of (facts_of setup past).control.table.progress ≡ setup.link.role }
    ensures phase { (setup : Setup) (past : List Step)
        → let encryption = (facts_of setup past).encryption in
        encryption.end.phase ≡ encryption.phase }
{}

/// An end whose host asks for no encryption, and that takes no LL_ENC_REQ and no LL_PAUSE_ENC_REQ,
/// has the session of the beginning: no packet is forged for it, and the payload of each packet that
/// it sends is the body of the PDU (Core 5.2, volume 6 part B, section 5.1.3).
pub fn an_end_without_encryption_stays_clear()
    ensures session { (setup : Setup) (past : List Step) → AllBeginNone setup past
        → (facts_of setup past).encryption.end ≡ clear_end setup.link.role Clear }
    ensures forged { (setup : Setup) (past : List Step) (octets : List ℕ) → AllBeginNone setup past
        → is_forged setup (facts_of setup past) octets ≡ false }
    ensures body { (setup : Setup) (past : List Step) → AllBeginNone setup past
        → payload_sent (facts_of setup past) ≡ (pdu_sent (facts_of setup past)).body }
{}

/// What one end sends is opened by the other end, where its payload was made with the session and
/// the counter with which that opens, or both are clear; and an integrity code fits in there where
/// the body does (Core 5.2, volume 6 part B, section 4.5.10, and part E, section 2). A new PDU that
/// is not empty takes a counter as it is sent, and nothing else does.
pub fn a_sealed_packet_is_opened()
    ensures opened { (made : EncEnd) (sender listener : Facts) → (pdu_sent sender).llid < 4
        → payload_sent sender ≡ payload_made made (pdu_sent sender)
        → CanOpen made listener.encryption.end → IsOpened sender listener }
    ensures fits { (made : EncEnd) (sender listener : Facts) (to : Setup)
        → payload_sent sender ≡ payload_made made (pdu_sent sender)
        → CanOpen made listener.encryption.end
        → length (pdu_sent sender).body ≤ to.link.max_rx → FitsReceiver sender to listener }
    ensures sent { (sender : Facts) (slot : ℕ) → is_acked sender.acknowledgement ≡ true
        → is_empty (pdu_fixed sender) ≡ false
        → (facts_sent slot sender).encryption.end ≡ after_sending sender.encryption.end }
    ensures again { (sender : Facts) (slot : ℕ) → is_acked sender.acknowledgement ≡ false
        → (facts_sent slot sender).encryption.end ≡ sender.encryption.end }
    ensures empty { (sender : Facts) (slot : ℕ) → is_empty (pdu_fixed sender) ≡ true
        → (facts_sent slot sender).encryption.end ≡ sender.encryption.end }
{
    enc_phase::laws::sent_is_opened();
}

/// Whatever an end receives, it takes no PDU for acknowledged that it did not send, and sends none
/// before the one before it is acknowledged; and what it sends again is the last of those sent.
#[tactic(auto, using(crate::proofs::Counts::past_counted, crate::proofs::Counts::past_last))]
pub fn one_pdu_is_out_at_a_time()
    ensures counts { (setup : Setup) (past : List Step)
        → let ack = (facts_of setup past).acknowledgement in
        (ack.acked ≤ length ack.sent) × (length ack.sent ≤ ack.acked + 1) }
    ensures last { (setup : Setup) (past : List Step)
        → let ack = (facts_of setup past).acknowledgement in
        slice_get ack.sent (length ack.sent - 1) ≡ Some ack.last }
{}

/// What an end notes of the PDUs that it sends and of those that it takes are the PDUs that are not
/// empty, each once and in order, with the numbers 1, 2 and so on in each direction.
pub fn notes_are_numbered()
    ensures { (setup : Setup) (past : List Step) → AreNumbered setup past }
{}

/// Whatever happens to an end, the octets that its host gave are sent or wait, in order, and each
/// of them once, with pieces of any length; and the packets that it has counted as complete are
/// those of which the last octet was acknowledged (Core 5.2, volume 4 part E, section 4.1). Where
/// the fixed PDU is data, it is the next piece, cut at its own length, whatever the limit is by
/// now. A piece is out exactly where the PDU that was sent last is data and is not acknowledged.
pub fn data_is_sent_in_order()
    ensures in_order { (setup : Setup) (past : List Step) → IsInOrder (facts_of setup past) }
    ensures next { (setup : Setup) (past : List Step)
        → let outgoing = (facts_of setup past).outgoing in is_data outgoing.fixed ≡ true
        → pdu_with (option_map (piece_of (length outgoing.fixed.body))
        (find is_unsent outgoing.packets)) ≡ outgoing.fixed }
    ensures out { (setup : Setup) (past : List Step) → let facts = facts_of setup past in
        is_some (find is_out facts.outgoing.packets)
        ≡ (not (is_acked facts.acknowledgement) && is_data facts.acknowledgement.last) }
{}

/// Where two ends are in agreement, what one took of data is the first octets of what the host of
/// the other gave, with the starts of messages where they were; and each packet that was reported
/// as complete there was taken whole here.
pub fn what_is_taken_was_given()
    ensures { (setup : Setup) (past : List Step) (other : Facts)
        → AreInAgreement (facts_of setup past).acknowledgement other.acknowledgement
        → IsDelivered (facts_of setup past) other }
{}

/// What an end sends again has the payload octets of its first packet: until the last PDU is
/// acknowledged, whatever happens keeps them, and its packets have them (Core 5.2, volume 6 part B,
/// section 4.5.9).
pub fn a_payload_is_sent_again()
    ensures sent { (facts : Facts) → is_acked facts.acknowledgement ≡ false
        → payload_sent facts ≡ facts.outgoing.payload }
    ensures kept { (setup : Setup) (facts : Facts) (step : Step)
        → is_acked facts.acknowledgement ≡ false
        → (facts_after setup facts step).outgoing.payload ≡ facts.outgoing.payload }
    ensures first { (facts : Facts) (slot : ℕ) → is_acked facts.acknowledgement ≡ true
        → (facts_sent slot facts).outgoing.payload
        ≡ payload_made facts.encryption.end (pdu_fixed facts) }
{}

/// As a turn begins, a control PDU that has left the queue and is not sent stays fixed, and is the
/// one that goes. Else, where a control PDU may be sent, that one is fixed, and MD is 0 only where
/// nothing else waits: no other control PDU, also none that may not be sent yet, and no piece of
/// data that the phase lets go. Where none may be sent and data goes, the next piece of at most the
/// effective length is fixed, or an empty PDU where there is none, and MD says whether octets of
/// data wait after it. Where no data goes, an empty PDU is fixed, with MD 0. MD of the last PDU,
/// where that is sent again, is whether a PDU waits after that: a control PDU that may be sent, or a
/// piece where data goes. After LL_TERMINATE_IND of an accepted Disconnect nothing is sent, and MD
/// is whether any control PDU waits, or a piece that the phase lets go (Core 5.2, volume 6 part B,
/// sections 4.5.6 and 4.5.10).
pub fn control_pdus_go_before_data()
    ensures stays { (setup : Setup) (facts : Facts) → is_control facts.outgoing.fixed ≡ true
        → facts_after setup facts PduFixed ≡ facts }
    ensures left { (setup : Setup) (past : List Step) → let facts = facts_of setup past in
        is_control facts.outgoing.fixed ≡ true → pdu_fixed facts ≡ facts.outgoing.fixed }
    ensures control { (setup : Setup) (facts : Facts) (ctrl : Ctrl)
        → is_control facts.outgoing.fixed ≡ false → next_control facts ≡ Some ctrl
        → pdu_fixed (facts_after setup facts PduFixed) ≡ pdu_of_control (Some ctrl) }
    ensures after_control { (setup : Setup) (facts : Facts) (ctrl : Ctrl)
        → is_control facts.outgoing.fixed ≡ false → next_control facts ≡ Some ctrl
        → (facts_after setup facts PduFixed).outgoing.more ≡ false
        → (waiting_in facts.control.table.queue ≤ 1)
        × (is_quiet_now facts ≡ true → next_piece (data_cut facts) ≡ None) }
    ensures data { (setup : Setup) (facts : Facts) → is_control facts.outgoing.fixed ≡ false
        → next_control facts ≡ None → data_goes facts ≡ true
        → pdu_fixed (facts_after setup facts PduFixed) ≡ pdu_with (next_piece (data_cut facts)) }
    ensures after_data { (setup : Setup) (facts : Facts) → is_control facts.outgoing.fixed ≡ false
        → next_control facts ≡ None → data_goes facts ≡ true
        → (facts_after setup facts PduFixed).outgoing.more
        ≡ nat_lt (length (pdu_with (next_piece (data_cut facts))).body)
        (length (unsent_of facts.outgoing)) }
    ensures short { (facts : Facts) → length (pdu_with (next_piece (data_cut facts))).body
        ≤ tx_of facts.control.table.lengths }
    ensures nothing { (setup : Setup) (facts : Facts) → is_control facts.outgoing.fixed ≡ false
        → next_control facts ≡ None → data_goes facts ≡ false
        → pdu_fixed (facts_after setup facts PduFixed) ≡ empty_pdu }
    ensures after_nothing { (setup : Setup) (facts : Facts)
        → is_control facts.outgoing.fixed ≡ false → next_control facts ≡ None
        → data_goes facts ≡ false
        → (facts_after setup facts PduFixed).outgoing.more ≡ false }
    ensures again { (setup : Setup) (facts : Facts) → is_control facts.outgoing.fixed ≡ false
        → is_last_of_all facts ≡ false
        → (facts_after setup facts PduFixed).outgoing.more_again
        ≡ (is_some (next_control facts)
        || (data_goes facts && is_some (next_piece (data_cut facts)))) }
    ensures again_at_end { (setup : Setup) (facts : Facts)
        → is_control facts.outgoing.fixed ≡ false → is_last_of_all facts ≡ true
        → (facts_after setup facts PduFixed).outgoing.more_again
        ≡ (nat_lt 0 (waiting_in facts.control.table.queue)
        || (is_quiet_now facts && is_some (next_piece (data_cut facts)))) }
{}

/// MD of the packet that an end sends in a turn is what waited as the turn began, and nothing that
/// it receives before changes it. A new PDU has whether a further one waited after it, and a PDU
/// that is sent again has whether one waited after that, which changes only as a turn begins (Core
/// 5.2, volume 6 part B, section 4.5.6; when it is looked at is our choice).
pub fn md_is_what_waited_as_the_turn_began()
    ensures new { (setup : Setup) (facts : Facts) (slot : ℕ) (octets : List ℕ) (room : Bool)
        → let after = facts_after setup facts (PacketReceived slot octets room) in
        is_acked after.acknowledgement ≡ true → more_sent after ≡ facts.outgoing.more }
    ensures again { (setup : Setup) (facts : Facts) (slot : ℕ) (octets : List ℕ) (room : Bool)
        → let after = facts_after setup facts (PacketReceived slot octets room) in
        is_acked after.acknowledgement ≡ false → more_sent after ≡ facts.outgoing.more_again }
    ensures stays { (setup : Setup) (facts : Facts) (step : Step) → begins_turn step ≡ false
        → (facts_after setup facts step).outgoing.more_again ≡ facts.outgoing.more_again }
{}

/// A central wants every event, and so does a peripheral whose latency is 0: the latency of an event
/// is the one that is in force in it, as the end has entered it. A peripheral wants an event too
/// where a PDU with a payload is not acknowledged, a control PDU or data waits, a procedure is in
/// progress, or an indication waits (Core 5.2, volume 6 part B, section 4.5.1).
pub fn only_latency_skips_events()
    ensures in_force { (setup : Setup) (facts : Facts) (slot : ℕ) → goes_on facts ≡ true
        → let after = facts_after setup facts (EventEntered slot) in
        after.event.latency ≡ (params_of after).latency }
    ensures central { (setup : Setup) (facts : Facts) → setup.link.role ≡ Central
        → wants_of setup facts ≡ true }
    ensures no_latency { (setup : Setup) (facts : Facts) → facts.event.latency ≡ 0
        → wants_of setup facts ≡ true }
    ensures unacknowledged { (setup : Setup) (facts : Facts)
        → is_acked facts.acknowledgement ≡ false → is_empty facts.acknowledgement.last ≡ false
        → wants_of setup facts ≡ true }
    ensures control_waits { (setup : Setup) (facts : Facts)
        → 0 < waiting_in facts.control.table.queue → wants_of setup facts ≡ true }
    ensures data_waits { (setup : Setup) (facts : Facts)
        → 0 < length (unsent_of facts.outgoing) → wants_of setup facts ≡ true }
    ensures procedure { (setup : Setup) (facts : Facts)
        → is_busy facts.control.table.progress ≡ true → wants_of setup facts ≡ true }
    ensures indication_waits { (setup : Setup) (facts : Facts)
        → is_free facts.control.track ≡ false → wants_of setup facts ≡ true }
{}

/// An event has no second exchange where an effective length was over 27 octets as it was entered,
/// or was changed since. So where it has one, no effective length is over 27 octets.
pub fn lengths_hold_a_second_exchange()
    ensures long { (facts : Facts) → facts.lengths.long ≡ true
        → has_second_exchange facts ≡ false }
    ensures changed { (facts : Facts) → facts.lengths.changed ≡ true
        → has_second_exchange facts ≡ false }
    ensures short { (setup : Setup) (past : List Step) → let facts = facts_of setup past in
        has_second_exchange facts ≡ true → is_long facts.control.table.lengths ≡ false }
{}

/// A packet that has the verdict forged does nothing but end the link: nothing is noted of it, it is
/// not answered, the procedures do nothing with it, and the link ends at the end of the turn with the
/// reason that an integrity code was wrong, unless its own LL_TERMINATE_IND is acknowledged (Core
/// 5.2, volume 6 part B, section 5.1.3.1).
pub fn a_forged_packet_ends_the_link()
    ensures facts { (setup : Setup) (facts : Facts) (slot : ℕ) (octets : List ℕ) (room : Bool)
        → verdict_of setup facts octets ≡ Forged
        → facts_after setup facts (PacketReceived slot octets room)
        ≡ record facts { control = ended_by_forgery facts.control } }
    ensures notes { (setup : Setup) (facts : Facts) (slot : ℕ) (octets : List ℕ) (room : Bool)
        → verdict_of setup facts octets ≡ Forged
        → notes_after setup facts (PacketReceived slot octets room) ≡ [] }
    ensures reply { (setup : Setup) (facts : Facts) (slot : ℕ) (octets : List ℕ) (room : Bool)
        → verdict_of setup facts octets ≡ Forged
        → replies_of setup facts slot octets room ≡ false }
    ensures effect { (setup : Setup) (facts : Facts) (slot : ℕ) (octets : List ℕ) (room : Bool)
        → verdict_of setup facts octets ≡ Forged
        → effect_of setup facts slot octets room ≡ Nothing }
    ensures ending { (setup : Setup) (facts : Facts) (slot : ℕ) (octets : List ℕ) (room : Bool)
        → verdict_of setup facts octets ≡ Forged → goes_on facts ≡ true
        → facts.leaving.acknowledged ≡ false
        → ending_of (facts_after setup facts (PacketReceived slot octets room))
        ≡ Some (record { 0 = mic_failure }) }
{}

/// An end whose LL_TERMINATE_IND is acknowledged accepts no PDU that is not empty, and notes none,
/// also in the packet that acknowledges it; and it stays acknowledged (Core 5.2, volume 6 part B,
/// section 5.1.6).
pub fn nothing_is_taken_after_the_end()
    ensures stays { (setup : Setup) (facts : Facts) (step : Step)
        → facts.leaving.acknowledged ≡ true
        → (facts_after setup facts step).leaving.acknowledged ≡ true }
    ensures refused { (room : Bool) (header : DataHeader) (pdu : Pdu) (facts : Facts)
        → facts.leaving.acknowledged ≡ true → is_empty pdu ≡ false
        → accepts room header pdu facts ≡ false }
    ensures accepted { (setup : Setup) (facts : Facts) (step : Step)
        → (facts_after setup facts step).leaving.acknowledged ≡ true
        → nonempty is_empty (facts_after setup facts step).acknowledgement.accepted
        ≡ nonempty is_empty facts.acknowledgement.accepted }
    ensures noted { (setup : Setup) (facts : Facts) (step : Step)
        → (facts_after setup facts step).leaving.acknowledged ≡ true
        → filter is_took_note (notes_after setup facts step) ≡ [] }
{}

/// An end knows the features and the version of its peer from a PDU that has them as it answers
/// that: as it takes it, or, where a central keeps it while its encryption runs, as it answers what
/// it kept. As it keeps a PDU, it knows nothing of that; and an end that ended the link by a PDU
/// knows nothing of it (Core 5.2, volume 6 part B, sections 2.4.2.9 to 2.4.2.15 and 5.1.3).
pub fn a_kept_pdu_is_known_as_it_is_answered()
    ensures kept { (pdu : Pdu) (slot : ℕ) (facts : Facts) → is_seen pdu facts ≡ false
        → kept_answered facts.encryption.kept (keyed_taken pdu slot facts).phased.kept ≡ Bare
        → peer_taken pdu slot facts ≡ facts.peer }
    ensures answered { (pdu : Pdu) (slot : ℕ) (facts : Facts) (ctrl : Ctrl)
        → facts.encryption.kept ≡ Some ctrl → (keyed_taken pdu slot facts).phased.kept ≡ None
        → is_none (control_taken pdu slot facts).ends ≡ true
        → peer_taken pdu slot facts
        ≡ peer_from (Known ctrl)
        (peer_from_if (is_seen pdu facts) (read_of pdu) facts.peer) }
    ensures seen { (pdu : Pdu) (slot : ℕ) (facts : Facts) → is_seen pdu facts ≡ true
        → facts.encryption.kept ≡ None → is_none (control_taken pdu slot facts).ends ≡ true
        → peer_taken pdu slot facts ≡ peer_from (read_of pdu) facts.peer }
    ensures ended { (pdu : Pdu) (slot : ℕ) (facts : Facts)
        → is_none (control_taken pdu slot facts).ends ≡ false
        → peer_taken pdu slot facts ≡ facts.peer }
{}

/// Two ends are in agreement as their link begins, and stay so: where one of them sends, also where
/// the other does not hear it; where the other hears that packet, with room for it or with none;
/// and in all that they do apart from that. So SN and NESN of each end are the numbers of its PDUs
/// that are acknowledged and of those that it accepted, modulo 2. Each end accepts what the other
/// sent, in order, all but at most the last PDU, and takes for acknowledged only what the other
/// accepted.
pub fn ends_stay_in_agreement()
    ensures begin { (one other : Setup) → AreInAgreement (facts_of one []).acknowledgement
        (facts_of other []).acknowledgement }
    ensures both_ways { (one other : Acknowledgement) → AreInAgreement one other
        → AreInAgreement other one }
    ensures sent { (from : Setup) (slot : ℕ) (sender : Facts) (other : Acknowledgement)
        → AreInAgreement sender.acknowledgement other
        → AreInAgreement (facts_after from sender (PacketSent slot)).acknowledgement other }
    ensures heard { (from to : Setup) (sender listener : Facts) (slot : ℕ) (room : Bool)
        → IsUnderstood from sender to listener
        → AreInAgreement (facts_after from sender (PacketSent slot)).acknowledgement
        listener.acknowledgement
        → AreInAgreement (facts_after from sender (PacketSent slot)).acknowledgement
        (facts_after to listener
        (PacketReceived slot (packet_sent from sender) room)).acknowledgement }
    ensures unheard { (setup : Setup) (facts : Facts) (slot : ℕ) (octets : List ℕ) (room : Bool)
        → good_pdu setup facts octets ≡ None → is_forged setup facts octets ≡ false
        → facts_after setup facts (PacketReceived slot octets room) ≡ facts }
    ensures others { (setup : Setup) (facts : Facts) (step : Step) → is_on_air step ≡ false
        → (facts_after setup facts step).acknowledgement ≡ facts.acknowledgement }
    ensures accepted { (one other : Acknowledgement) → AreInAgreement one other
        → other.accepted ≡ take (length other.accepted) one.sent }
    ensures at_most_one_ahead { (one other : Acknowledgement) → AreInAgreement one other
        → length one.sent ≤ length other.accepted + 1 }
    ensures acknowledged { (one other : Acknowledgement) → AreInAgreement one other
        → one.acked ≤ length other.accepted }
{
    air_frame::laws::packet_tells_its_pdu();
}

/// A packet that is received says exactly what was accepted, and no bit is needed for it: the PDUs
/// that the end takes for acknowledged are then, by their number, those that the sender accepted.
/// Where it has room, and its LL_TERMINATE_IND is not acknowledged, it has accepted all that the
/// sender sent (Core 5.2, volume 6 part B, section 4.5.9).
pub fn a_packet_says_what_was_accepted()
    ensures acknowledged { (from to : Setup) (sender listener : Facts) (slot : ℕ) (room : Bool)
        → IsUnderstood from sender to listener
        → AreInAgreement (facts_after from sender (PacketSent slot)).acknowledgement
        listener.acknowledgement
        → (facts_after to listener
        (PacketReceived slot (packet_sent from sender) room)).acknowledgement.acked
        ≡ length sender.acknowledgement.accepted }
    ensures accepted { (from to : Setup) (sender listener : Facts) (slot : ℕ)
        → IsUnderstood from sender to listener
        → AreInAgreement (facts_after from sender (PacketSent slot)).acknowledgement
        listener.acknowledgement
        → let after = facts_after to listener
        (PacketReceived slot (packet_sent from sender) true) in
        after.leaving.acknowledged ≡ false → length after.acknowledgement.accepted
        ≡ length (facts_after from sender (PacketSent slot)).acknowledgement.sent }
{
    air_frame::laws::packet_tells_its_pdu();
}
