//! Two procedures that collide on a link. The bodies only call the laws that they rest on: the
//! contracts are the laws.
ghost use Rattle.std.specs.Prelude.{◌≡◌, ◌∷◌, ◌++◌, [], ◌+◌, ◌≤◌, ℕ, Bool, true, false, List};
ghost use Rattle.ble_base.specs.declared.error_codes.ErrCode.{ErrCode};
ghost use Rattle.ble_base.specs.declared.notes.Note.{Note};
ghost use Rattle.ble_base.specs.declared.notes.Note.TheVariants.{Sent, Took};
ghost use Rattle.ble_base.specs.declared.roles.Role.TheVariants.{Central};
ghost use Rattle.data_pdu.specs.declared.ctrl.Ctrl.TheVariants.{RejectExtInd};
ghost use Rattle.data_pdu.specs.Layouts.{written};
ghost use Rattle.exclusive_stages.specs.declared.pdus.Exclusive.{Exclusive};
ghost use Rattle.collision_steps.specs.CentralPart.{central_of};
ghost use Rattle.link_pairs.specs.procedure_values.declared.drafts.Outgoing.{Outgoing};
ghost use Rattle.link_pairs.specs.procedure_values.declared.drafts.Rejection.{Rejection};
ghost use Rattle.link_pairs.specs.link_model.Controls.{goes_on};
ghost use Rattle.link_pairs.specs.link_model.Data.{is_control, numbered};
ghost use Rattle.link_pairs.specs.link_model.End.{notes_after};
ghost use Rattle.link_pairs.specs.link_model.Facts.{Facts};
ghost use Rattle.link_pairs.specs.link_model.Sending.{takes_leave};
ghost use Rattle.link_pairs.specs.link_model.Setup.{Setup};
ghost use Rattle.link_pairs.specs.link_model.Step.{PacketReceived, PacketSent, Step};
ghost use Rattle.link_pairs.specs.Ends.{AreEnds, heard_turns, is_lasting};
ghost use Rattle.link_pairs.specs.Hearing.{IsPacketOf, is_mixed_packet, received};
ghost use Rattle.link_pairs.specs.Shown.{AreLinked};
ghost use Rattle.link_pairs.specs.Turns.{HaveBegun};
ghost use Rattle.run_collisions.specs.Prevailing.{Prevails, TakesColliding, next_outgoing, seen};
ghost use Rattle.run_collisions.specs.Refused.{IsRefused, TakesRejection};
ghost use Rattle.run_collisions.specs.Waiting.{facts_from, sends_control, sends_no_control};

/// The central hears the first PDU of a procedure of the peripheral while its own procedure is in
/// progress, and the link lasts at both ends. Where the two exclude each other, the central's goes
/// on as it was, and nothing of the peripheral's is left at the central. The next control PDU that
/// the central sends is the rejection of the peripheral's procedure, with 0x23 where the two are of
/// one kind and 0x2A where they are not. A central that is to end the link rejects nothing any
/// more: LL_TERMINATE_IND comes next, or nothing. Its own procedure is looked at after it has seen
/// its last PDU acknowledged by the same packet. Where it notes nothing before the PDU that it
/// takes, that is as before the packet. A packet that is mixed is not followed (Core 5.2, volume 6
/// part B, sections 5.1.6 and 5.3).
pub fn the_central_prevails_as_it_hears()
    ensures prevails { (central peripheral : Setup) (slot : ℕ) (c p : Facts) (channel : ℕ)
        (octets : List ℕ) (room : Bool) (own other : Exclusive) → AreEnds central peripheral
        → AreLinked central peripheral (slot + 1) true c p → is_lasting c ≡ true
        → is_lasting p ≡ true → heard_turns central c ≤ slot → 1 ≤ c.control.track.entered
        → IsPacketOf peripheral slot p channel octets → channel ≡ c.event.channel
        → TakesColliding central c slot octets room own other
        → is_mixed_packet central c p octets ≡ false
        → Prevails (seen central slot octets c) (received central slot octets room c) own other }
    ensures stage { (central : Setup) (slot : ℕ) (c : Facts) (octets : List ℕ) (room : Bool)
        (number llid : ℕ) (body : List ℕ) (later : List Note) → central.link.role ≡ Central
        → notes_after central c (PacketReceived slot octets room)
        ≡ Took central.link.handle number llid (record { items = body }) ∷ later
        → (central_of (seen central slot octets c).control.table).own
        ≡ (central_of c.control.table).own }
{
    air_frame::laws::packet_tells_its_pdu();
    link_runs::a_sealed_packet_is_opened();
}

/// A rejection that is the next control PDU of a central stays that until the central sends a new
/// control PDU, whatever its host does, whatever it hears, and whichever events it enters. The new
/// control PDU is that rejection: an LL_REJECT_EXT_IND with its opcode and its error. No other
/// step notes that a control PDU is sent, where none is fixed that has left its queue (Core 5.2,
/// volume 6 part B, sections 2.4.2.18 and 5.3).
pub fn a_rejection_that_waits_goes_next()
    ensures stays { (central : Setup) (facts : Facts) (steps : List Step) (rejection : Rejection)
        → central.link.role ≡ Central
        → next_outgoing facts ≡ Outgoing.Rejection rejection
        → sends_no_control central facts steps ≡ true
        → next_outgoing (facts_from central facts steps) ≡ Outgoing.Rejection rejection }
    ensures goes { (central : Setup) (facts : Facts) (slot : ℕ) (rejection : Rejection)
        → next_outgoing facts ≡ Outgoing.Rejection rejection → goes_on facts ≡ true
        → takes_leave facts ≡ true
        → notes_after central facts (PacketSent slot) ≡ Sent central.link.handle
        (numbered facts.acknowledgement.sent + 1) 3
        (record { items = written (RejectExtInd rejection.opcode rejection.code.0) }) ∷ [] }
    ensures none { (central : Setup) (facts : Facts) (step : Step) (earlier later : List Note)
        (number : ℕ) (body : List ℕ) → sends_control facts step ≡ false
        → is_control facts.outgoing.fixed ≡ false
        → notes_after central facts step
        ≡ earlier ++ Sent central.link.handle number 3 (record { items = body }) ∷ later → ⊥ }
{}

/// While the link lasts at both ends, the peripheral hears the central and takes LL_REJECT_EXT_IND
/// with the opcode of the first PDU of a procedure. Then that procedure is the own one of the
/// peripheral that is in progress, and the peripheral notes right after that the procedure is
/// refused with the error of the rejection, and notes nothing else. So the procedure is over, and
/// is not reported as done. A packet that is mixed is not followed (Core 5.2, volume 6 part B,
/// sections 2.4.2.18 and 5.3).
pub fn a_rejected_procedure_is_refused()
    ensures { (central peripheral : Setup) (slot : ℕ) (c p : Facts) (channel : ℕ)
        (octets : List ℕ) (room : Bool) (q : Exclusive) (code : ErrCode)
        → AreEnds central peripheral → HaveBegun central peripheral slot true true c p
        → is_lasting c ≡ true → is_lasting p ≡ true → IsPacketOf central slot c channel octets
        → channel ≡ p.event.channel → slot + 1 ≤ heard_turns peripheral p + 32768
        → (taking : TakesRejection peripheral p slot octets room q code)
        → is_mixed_packet peripheral p c octets ≡ false
        → IsRefused peripheral (seen peripheral slot octets p)
        (received peripheral slot octets room p) taking.later q code }
{
    air_frame::laws::packet_tells_its_pdu();
    link_runs::a_sealed_packet_is_opened();
}
