//! How the peer refuses a procedure of this end (Core 5.2, volume 6 part B, sections 2.4.2.8,
//! 2.4.2.14 and 2.4.2.18).
ghost use Rattle.std.specs.Prelude.{◌≡◌};
ghost use Rattle.procedures.specs.Refusals.{refused_with, refused, refused_if, unknown_rsp_taken};
ghost use Rattle.procedures.specs.Refusals.{reject_taken, reject_ext_taken};

use crate::outcome::{Outcome, moved, unchanged};
use crate::table::ProcTable;
use ble_base::{ErrCode, Kind};
use procedure_stages::Step;
use procedure_stages::opcodes::{first_opcode, is_opcode, later_opcode};

/// A refusal of the own procedure, if there is one.
fn refused_with(own: Option<Kind>, code: ErrCode) -> Option<(Kind, ErrCode)>
    ensures { result ≡ refused_with own code }
{
    own.map(|kind| (kind, code))
}

/// The own procedure is refused.
fn refused(table: &ProcTable, code: ErrCode) -> Outcome
    ensures { result ≡ refused table.now code }
{
    let progress = table.progress;
    let outcome = moved(table, progress.without_own());
    Outcome {
        step: Step {
            refused: refused_with(progress.own_kind(), code),
            ..outcome.step
        },
        ..outcome
    }
}

/// The own procedure is refused, or nothing happens.
fn refused_if(is_one: bool, table: &ProcTable, code: ErrCode) -> Outcome
    ensures { result ≡ refused_if is_one table.now code }
{
    if is_one {
        refused(table, code)
    } else {
        unchanged(table)
    }
}

/// LL_UNKNOWN_RSP is taken.
pub(crate) fn unknown_rsp_taken(table: &ProcTable, opcode: u8) -> Outcome
    ensures { result ≡ unknown_rsp_taken table.now opcode }
{
    let is_one = is_opcode(first_opcode(table.progress), opcode);
    refused_if(is_one, table, ErrCode::UNSUPPORTED_REMOTE_FEATURE)
}

/// LL_REJECT_IND is taken.
pub(crate) fn reject_taken(table: &ProcTable, code: u8) -> Outcome
    ensures { result ≡ reject_taken table.now code }
{
    refused_if(first_opcode(table.progress).is_some(), table, ErrCode(code))
}

/// LL_REJECT_EXT_IND is taken.
pub(crate) fn reject_ext_taken(table: &ProcTable, opcode: u8, code: u8) -> Outcome
    ensures { result ≡ reject_ext_taken table.now opcode code }
{
    let progress = table.progress;
    let is_one = is_opcode(first_opcode(progress), opcode)
        || is_opcode(later_opcode(progress), opcode);
    refused_if(is_one, table, ErrCode(code))
}
