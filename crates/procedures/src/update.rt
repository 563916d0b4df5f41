//! Connection update (Core 5.2, volume 6 part B, section 5.1.1), and the indications that a
//! peripheral follows.
ghost use Rattle.std.specs.Prelude.{◌≡◌};
ghost use Rattle.procedures.specs.Update.{ahead_code, followed, follow, granted, update_begun};
ghost use Rattle.procedures.specs.Update.{update_taken};

use crate::outcome::{Outcome, ended, moved};
use crate::table::ProcTable;
use ble_base::ErrCode;
use exclusive_stages::{PeerAtPeripheral, PeripheralStage};
use instants::Indication;
use procedure_stages::{Ahead, Effect, OwnPeripheral, Peripheral, Progress};

/// The error of an indication of this kind that is taken while another waits.
fn ahead_code(waiting: Ahead, new: Ahead) -> ErrCode
    ensures { result ≡ ahead_code waiting new }
{
    match (waiting, new) {
        (Ahead::Update, Ahead::Update) | (Ahead::Map, Ahead::Map) => {
            ErrCode::LL_PROCEDURE_COLLISION
        }
        _ => ErrCode::DIFFERENT_TRANSACTION_COLLISION,
    }
}

/// A peripheral, which is `p` then, follows an indication.
pub(crate) fn followed(
    table: &ProcTable,
    p: Peripheral,
    new: Ahead,
    indication: Indication,
) -> Outcome
    ensures { result ≡ followed table.now p new indication }
{
    moved(table, Progress::Peripheral(Peripheral { ahead: new, ..p })).with_effect(
        Effect::Indicated(indication),
    )
}

/// The outcome of an indication, unless another waits: that ends the link.
pub(crate) fn follow(table: &ProcTable, waiting: Ahead, new: Ahead, outcome: Outcome) -> Outcome
    ensures { result ≡ follow table.now waiting new outcome }
{
    match waiting {
        Ahead::Nothing => outcome,
        _ => ended(table, ahead_code(waiting, new)),
    }
}

/// The answer to a request is taken.
fn granted(table: &ProcTable, p: Peripheral, indication: Indication) -> Outcome
    ensures { result ≡ granted table.now p indication }
{
    let granted = Peripheral {
        own: OwnPeripheral::Exclusive(PeripheralStage::RequestGranted),
        ..p
    };
    Outcome {
        restarts: true,
        ..followed(table, granted, Ahead::Update, indication)
    }
}

/// An update of the central begins.
fn update_begun(table: &ProcTable, p: Peripheral, indication: Indication) -> Outcome
    ensures { result ≡ update_begun table.now p indication }
{
    let begun = Peripheral {
        peer: PeerAtPeripheral::UpdateTaken,
        ..p
    };
    followed(table, begun, Ahead::Update, indication)
}

/// LL_CONNECTION_UPDATE_IND is taken at a peripheral.
pub(crate) fn update_taken(table: &ProcTable, p: Peripheral, indication: Indication) -> Outcome
    ensures { result ≡ update_taken table.now p indication }
{
    let outcome = if p.own.stage().reads_as_answer() {
        granted(table, p, indication)
    } else {
        update_begun(table, p, indication)
    };
    follow(table, p.ahead, Ahead::Update, outcome)
}
