//! PHY update, which changes nothing (Core 5.2, volume 6 part B, section 5.1.10; that no PHY
//! changes is our choice).
ghost use Rattle.std.specs.Prelude.{◌≡◌};
ghost use Rattle.procedures.specs.Phy.{phy_req_at_central, phy_answered, phy_rsp_taken};
ghost use Rattle.procedures.specs.Phy.{phy_req_at_peripheral, phy_ind_taken};

use crate::outcome::{Outcome, moved, moved_and_answered, unchanged};
use crate::request::{after_grant, against_central};
use crate::table::ProcTable;
use ble_base::Kind;
use exclusive_stages::{CentralStage, PeerAtCentral, PeerAtPeripheral, PeripheralStage};
use procedure_stages::opcodes::PHY_REQ;
use procedure_stages::{Central, Draft, OwnCentral, OwnPeripheral, Peripheral, Progress};

/// LL_PHY_REQ is taken at a central.
pub(crate) fn phy_req_at_central(table: &ProcTable, c: Central) -> Outcome
    ensures { result ≡ phy_req_at_central table.now c }
{
    let answered = Central {
        peer: PeerAtCentral::PhyIndUnsent,
        ..c
    };
    let outcome = moved_and_answered(table, Progress::Central(answered), Draft::PhyInd);
    against_central(table, c, Kind::Phy, PHY_REQ, outcome)
}

/// LL_PHY_RSP answers the request of the central.
fn phy_answered(table: &ProcTable, c: Central) -> Outcome
    ensures { result ≡ phy_answered table.now c }
{
    let answered = Central {
        own: OwnCentral::Exclusive(CentralStage::PhyAnswered),
        ..c
    };
    Outcome {
        restarts: true,
        ..moved_and_answered(table, Progress::Central(answered), Draft::PhyInd)
    }
}

/// LL_PHY_RSP is taken at a central.
pub(crate) fn phy_rsp_taken(table: &ProcTable, c: Central) -> Outcome
    ensures { result ≡ phy_rsp_taken table.now c }
{
    if c.own.stage().awaits_phy_rsp() {
        phy_answered(table, c)
    } else {
        unchanged(table)
    }
}

/// LL_PHY_REQ is taken at a peripheral.
pub(crate) fn phy_req_at_peripheral(table: &ProcTable, p: Peripheral) -> Outcome
    ensures { result ≡ phy_req_at_peripheral table.now p }
{
    let answered = Peripheral {
        peer: PeerAtPeripheral::PhyRspUnsent,
        ..p
    };
    let outcome = moved_and_answered(table, Progress::Peripheral(answered), Draft::PhyRsp);
    after_grant(table, p, Kind::Phy, outcome)
}

/// LL_PHY_UPDATE_IND is taken at a peripheral.
pub(crate) fn phy_ind_taken(table: &ProcTable, p: Peripheral) -> Outcome
    ensures { result ≡ phy_ind_taken table.now p }
{
    if p.peer.is_phy() {
        let over = Peripheral {
            peer: PeerAtPeripheral::Absent,
            ..p
        };
        moved(table, Progress::Peripheral(over))
    } else if p.own.stage().awaits_phy_ind() {
        let over = Peripheral {
            own: OwnPeripheral::Exclusive(PeripheralStage::Idle),
            ..p
        };
        moved(table, Progress::Peripheral(over)).with_done(Kind::Phy)
    } else {
        unchanged(table)
    }
}
