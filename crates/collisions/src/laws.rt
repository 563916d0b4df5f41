//! The laws of collisions, over all lists of steps of a central and a peripheral. The bodies do
//! nothing: the contracts are the laws.
ghost use Rattle.std.specs.Prelude.{◌≡◌, ◌≢◌, ◌≤◌, ◌<◌, ℕ, ◌+◌, ◌-◌, ◌%◌, ◌^◌, nat_le, List};
ghost use Rattle.std.specs.Prelude.{length, Bool, true, false, Some};
ghost use Rattle.ble_base.specs.Instant.{gap_of};
ghost use Rattle.exclusive_stages.specs.declared.pdus.Exclusive.{Exclusive};
ghost use Rattle.exclusive_stages.specs.declared.pdus.Exclusive.TheVariants.{Request, Phy};
ghost use Rattle.exclusive_stages.specs.declared.pdus.Reason.{Reason};
ghost use Rattle.exclusive_stages.specs.declared.pdus.Pdu.{Pdu};
ghost use Rattle.exclusive_stages.specs.declared.pdus.Pdu.TheVariants.{RejectParam, RejectPhy};
ghost use Rattle.exclusive_stages.specs.declared.stages.PeerAtCentral.TheVariants.{Absent};
ghost use Rattle.exclusive_stages.specs.declared.stages.PeripheralStage.TheVariants.{Idle};
ghost use Rattle.collisions.specs.declared.events.Event.{Event};
ghost use Rattle.collisions.specs.declared.events.Event.TheVariants.{CentralSends, CentralTakes};
ghost use Rattle.collisions.specs.declared.events.Event.TheVariants.{PeripheralTakes};
ghost use Rattle.collisions.specs.declared.events.Place.{Place};
ghost use Rattle.collisions.specs.declared.joint.End.TheVariants.{Open, Collided};
ghost use Rattle.collisions.specs.declared.joint.Way.TheVariants.{OnAir};
ghost use Rattle.machines.specs.Machine.{run, run_from};
ghost use Rattle.exclusive_stages.specs.Pdus.{is_timed, reason_of, rejection_of};
ghost use Rattle.collisions.specs.PeripheralTable.{is_waiting, refusal_by};
ghost use Rattle.collisions.specs.JointRun.{collisions, may, act, is_after};
ghost use Rattle.collisions.specs.Numbers.{Move, makes, central_sends, may_move, last_instant};
ghost use Rattle.collisions.specs.Numbers.{numbered_collisions, is_next_timed};
ghost use Rattle.collisions.specs.Agreement.{agree};
ghost use Rattle.collisions.specs.Meaning.{is_meant};
ghost use Rattle.collisions.specs.CollisionLaws.{IsCollision, is_silent};

/// In each state of a link that has not ended the two tables agree on the procedures in progress,
/// but for the PDUs that are on their way.
pub fn tables_agree()
    ensures { (events : List Event) → (run collisions events).end ≡ Open
        → agree (run collisions events) ≡ true }
{}

/// A PDU that is taken means what it was sent as: it is not ignored, it is not treated anew in
/// place of an earlier one, and an LL_CONNECTION_UPDATE_IND is read as an answer exactly where it
/// was sent as one.
pub fn pdus_mean_what_they_were_sent_as()
    ensures { (events : List Event) (event : Event) → may event (run collisions events) ≡ true
        → is_meant event (run collisions events) ≡ true }
{}

/// No link ends with 0x23 or 0x2A.
pub fn no_link_ends_by_a_collision()
    ensures { (events : List Event) (reason : Reason)
        → (run collisions events).end ≢ Collided reason }
{}

/// A central has at most one rejection and one other PDU of these procedures that wait, and a
/// peripheral at most two PDUs.
pub fn few_pdus_wait()
    ensures rejections { (events : List Event)
        → length (run collisions events).central.rejections.items ≤ 1 }
    ensures central { (events : List Event)
        → length (run collisions events).central.queue.items ≤ 1 }
    ensures peripheral { (events : List Event)
        → length (run collisions events).peripheral.queue.items ≤ 2 }
{}

/// Of two procedures that collide the central's goes on, nothing of the peripheral's is left at the
/// central, and the link does not end.
pub fn a_central_goes_on()
    ensures own { (p q : Exclusive) (judged : Bool) (pdu : Pdu) (events : List Event)
        → IsCollision p q judged pdu (run collisions events)
        → (act (CentralTakes judged) (run collisions events)).central.own
        ≡ (run collisions events).central.own }
    ensures peer { (p q : Exclusive) (judged : Bool) (pdu : Pdu) (events : List Event)
        → IsCollision p q judged pdu (run collisions events)
        → (act (CentralTakes judged) (run collisions events)).central.peer ≡ Absent }
    ensures end { (p q : Exclusive) (judged : Bool) (pdu : Pdu) (events : List Event)
        → IsCollision p q judged pdu (run collisions events)
        → (act (CentralTakes judged) (run collisions events)).end ≡ Open }
{}

/// The next PDU of these procedures that the central sends after a collision, whatever comes
/// between, is the rejection of the peripheral's procedure, with 0x23 where the two are of one kind
/// and 0x2A where they are not.
pub fn a_collision_is_rejected_next()
    ensures { (p q : Exclusive) (judged : Bool) (pdu : Pdu) (events later : List Event)
        (next : Place)
        → IsCollision p q judged pdu (run collisions events) → is_silent later ≡ true
        → may (CentralSends next)
        (run_from collisions (act (CentralTakes judged) (run collisions events)) later) ≡ true
        → (act (CentralSends next)
        (run_from collisions (act (CentralTakes judged) (run collisions events)) later)).down
        ≡ OnAir (rejection_of q (reason_of p q)) }
{}

/// Where a peripheral takes a rejection, it runs the procedure that is rejected, its host hears of
/// that procedure and of the error, and the procedure is over.
pub fn a_rejection_reaches_the_host()
    ensures request { (events : List Event) (reason : Reason)
        → may PeripheralTakes (run collisions events) ≡ true
        → (run collisions events).down ≡ OnAir (RejectParam reason)
        → refusal_by (RejectParam reason) (run collisions events).peripheral.own
        ≡ Some (Request, reason) }
    ensures request_over { (events : List Event) (reason : Reason)
        → may PeripheralTakes (run collisions events) ≡ true
        → (run collisions events).down ≡ OnAir (RejectParam reason)
        → (act PeripheralTakes (run collisions events)).peripheral.own ≡ Idle }
    ensures phy { (events : List Event) (reason : Reason)
        → may PeripheralTakes (run collisions events) ≡ true
        → (run collisions events).down ≡ OnAir (RejectPhy reason)
        → refusal_by (RejectPhy reason) (run collisions events).peripheral.own
        ≡ Some (Phy, reason) }
    ensures phy_over { (events : List Event) (reason : Reason)
        → may PeripheralTakes (run collisions events) ≡ true
        → (run collisions events).down ≡ OnAir (RejectPhy reason)
        → (act PeripheralTakes (run collisions events)).peripheral.own ≡ Idle }
{}

/// A peripheral that takes an indication with an instant has none that waits.
pub fn an_indication_finds_none_that_waits()
    ensures { (events : List Event) (pdu : Pdu) → may PeripheralTakes (run collisions events) ≡ true
        → (run collisions events).down ≡ OnAir pdu → is_timed pdu ≡ true
        → is_waiting (run collisions events).peripheral ≡ false }
{}

/// Each run with the numbers of events is a joint run: there is a list of steps after which a link
/// is in the same state. So each law holds of it.
pub fn runs_with_numbers_are_joint_runs()
    ensures { (moves : List Move) → (events : List Event)
        × ((run numbered_collisions moves).link ≡ run collisions events) }
{}

/// A peripheral ends its link by an indication, with 0x28, exactly where its event is past the
/// instant.
pub fn instants_pass_with_the_event()
    ensures { (moves : List Move) → is_after (run numbered_collisions moves).link.peripheral_at
        ≡ nat_le (run numbered_collisions moves).passed_from
        (run numbered_collisions moves).peripheral_event }
{}

/// The 16-bit gap from the event of a peripheral to the instant of an indication that it takes is
/// at most 505 where that is not past, and at least 32767 where it is. The second holds while the
/// peripheral is less than 32769 events past the instant, which a supervision timeout of at most
/// 25600 slots leaves.
pub fn a_gap_tells_whether_an_instant_has_passed()
    ensures ahead { (moves : List Move)
        → may_move (makes PeripheralTakes) (run numbered_collisions moves) ≡ true
        → let r = run numbered_collisions moves in r.peripheral_event < r.passed_from
        → gap_of (last_instant r % 2 ^ 16) (r.peripheral_event % 2 ^ 16)
        ≡ last_instant r - r.peripheral_event }
    ensures near { (moves : List Move)
        → may_move (makes PeripheralTakes) (run numbered_collisions moves) ≡ true
        → let r = run numbered_collisions moves in r.peripheral_event < r.passed_from
        → last_instant r ≤ r.peripheral_event + 505 }
    ensures passed { (moves : List Move) (pdu : Pdu)
        → let r = run numbered_collisions moves in r.link.down ≡ OnAir pdu → is_timed pdu ≡ true
        → r.passed_from ≤ r.peripheral_event → r.peripheral_event < last_instant r + 32769
        → 32767 ≤ gap_of (last_instant r % 2 ^ 16) (r.peripheral_event % 2 ^ 16) }
{}

/// A central that sends an indication with an instant has passed the instant of the one before.
pub fn an_indication_is_sent_after_the_last_instant()
    ensures { (moves : List Move) (latency : ℕ)
        → may_move (central_sends latency) (run numbered_collisions moves) ≡ true
        → is_next_timed (run numbered_collisions moves) ≡ true
        → (run numbered_collisions moves).passed_from
        ≤ (run numbered_collisions moves).central_event }
{}
