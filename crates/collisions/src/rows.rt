//! Worked runs, which the definitions compute.
ghost use Rattle.std.specs.Prelude.{◌≡◌, [], ◌∷◌, ◌++◌, Some, true, false};
ghost use Rattle.exclusive_stages.specs.declared.pdus.Exclusive.TheVariants.{Update, Request, Map, Phy};
ghost use Rattle.exclusive_stages.specs.declared.pdus.Reason.TheVariants.{SameKind, OtherKind};
ghost use Rattle.exclusive_stages.specs.declared.pdus.Pdu.TheVariants.{RejectParam, RejectPhy};
ghost use Rattle.exclusive_stages.specs.declared.pdus.Pdu.TheVariants.{ParamReq};
ghost use Rattle.exclusive_stages.specs.declared.stages.CentralStage.TheVariants.{Idle as IdleCentral};
ghost use Rattle.exclusive_stages.specs.declared.stages.CentralStage.TheVariants.{MapSent, PhySent};
ghost use Rattle.exclusive_stages.specs.declared.stages.PeerAtCentral.TheVariants.{GrantSent};
ghost use Rattle.exclusive_stages.specs.declared.stages.PeerAtCentral.TheVariants.{Absent as CentralAbsent};
ghost use Rattle.exclusive_stages.specs.declared.stages.PeripheralStage.TheVariants.{Idle, RequestGranted};
ghost use Rattle.exclusive_stages.specs.declared.stages.PeerAtPeripheral.TheVariants.{Absent, UpdateTaken};
ghost use Rattle.exclusive_stages.specs.declared.stages.PeerAtPeripheral.TheVariants.{PhyRspUnsent};
ghost use Rattle.collisions.specs.declared.events.Event.TheVariants.{CentralTakesKept, HostGrants};
ghost use Rattle.collisions.specs.declared.events.Event.TheVariants.{PeripheralEnters};
ghost use Rattle.collisions.specs.declared.events.Place.TheVariants.{Before};
ghost use Rattle.collisions.specs.declared.joint.End.TheVariants.{Open, InstantPassed};
ghost use Rattle.collisions.specs.declared.joint.Way.TheVariants.{OnAir};
ghost use Rattle.machines.specs.Machine.{run};
ghost use Rattle.collisions.specs.JointRun.{collisions};
ghost use Rattle.collisions.specs.Rows.{request_granted, instant_entered, both_sent, next_taken};
ghost use Rattle.collisions.specs.Rows.{update_taken_late, update_taken_too_late, request_kept};
ghost use Rattle.collisions.specs.Rows.{closed_after_collision};

/// A request that is granted: its answer waits at the peripheral, and both procedures are over as
/// the ends enter the event of its instant.
pub fn worked_request()
    ensures answer { (run collisions request_granted).peripheral.own ≡ RequestGranted }
    ensures central { (run collisions request_granted).central.peer ≡ GrantSent }
    ensures over { (run collisions (request_granted ++ instant_entered)).peripheral.own ≡ Idle }
    ensures over_at_central { (run collisions (request_granted ++ instant_entered)).central.peer
        ≡ CentralAbsent }
{}

/// A map of the central and a request of the peripheral cross: the map goes on, the request is
/// rejected with 0x2A and is over. Two PHY procedures cross: the error is 0x23.
pub fn worked_collisions()
    ensures map { (run collisions (both_sent Map Request)).central.own ≡ MapSent }
    ensures rejected { (run collisions (both_sent Map Request)).central.rejections.items
        ≡ RejectParam OtherKind ∷ [] }
    ensures over { (run collisions (both_sent Map Request ++ next_taken)).peripheral.own ≡ Idle }
    ensures phy { (run collisions (both_sent Phy Phy)).central.own ≡ PhySent }
    ensures phy_peer { (run collisions (both_sent Phy Phy)).peripheral.peer ≡ PhyRspUnsent }
    ensures phy_rejected { (run collisions (both_sent Phy Phy)).central.rejections.items
        ≡ RejectPhy SameKind ∷ [] }
    ensures phy_over { (run collisions (both_sent Phy Phy ++ next_taken)).peripheral.own ≡ Idle }
    ensures closed { Idle
        ≡ (run collisions (closed_after_collision Update Phy ++ next_taken)).peripheral.own }
{}

/// An update that is taken in the event of its instant holds from the next event. One that is taken
/// after it ends the link.
pub fn worked_instants()
    ensures late { (run collisions update_taken_late).peripheral.peer ≡ UpdateTaken }
    ensures held { Absent
        ≡ (run collisions (update_taken_late ++ PeripheralEnters false ∷ [])).peripheral.peer }
    ensures still_open { (run collisions update_taken_late).end ≡ Open }
    ensures too_late { (run collisions update_taken_too_late).end ≡ InstantPassed }
{}

/// A request that a central keeps while encryption starts is granted afterwards.
pub fn worked_kept_request()
    ensures kept { (run collisions request_kept).kept ≡ Some ParamReq }
    ensures granted { (run collisions (request_kept ++ CentralTakesKept false ∷ HostGrants ∷ []
        ++ next_taken)).peripheral.own ≡ RequestGranted }
{}
