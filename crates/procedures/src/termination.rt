//! The end of a link that a host asks for (Core 5.2, volume 6 part B, section 5.1.6).
ghost use Rattle.std.specs.Prelude.{◌≡◌};
ghost use Rattle.procedures.specs.Termination.{terminate_taken};

use crate::outcome::{Outcome, unchanged};
use crate::table::ProcTable;
use ble_base::ErrCode;
use procedure_stages::Effect;

/// LL_TERMINATE_IND is taken.
pub(crate) fn terminate_taken(table: &ProcTable, code: u8) -> Outcome
    ensures { result ≡ terminate_taken table.now code }
{
    unchanged(table).with_effect(Effect::PeerEnds(ErrCode(code)))
}
