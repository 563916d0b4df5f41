//! Channel map update (Core 5.2, volume 6 part B, section 5.1.2).
ghost use Rattle.std.specs.Prelude.{◌≡◌};
ghost use Rattle.procedures.specs.Map.{map_taken};

use crate::outcome::Outcome;
use crate::request::after_grant;
use crate::table::ProcTable;
use crate::update::{follow, followed};
use ble_base::Kind;
use exclusive_stages::PeerAtPeripheral;
use instants::Indication;
use procedure_stages::{Ahead, Peripheral};

/// LL_CHANNEL_MAP_IND is taken at a peripheral.
pub(crate) fn map_taken(table: &ProcTable, p: Peripheral, indication: Indication) -> Outcome
    ensures { result ≡ map_taken table.now p indication }
{
    let begun = Peripheral {
        peer: PeerAtPeripheral::MapTaken,
        ..p
    };
    let outcome = followed(table, begun, Ahead::Map, indication);
    after_grant(
        table,
        p,
        Kind::Map,
        follow(table, p.ahead, Ahead::Map, outcome),
    )
}
