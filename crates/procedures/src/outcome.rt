//! What a control PDU of the peer does, before it is looked at whether there is room for an answer.
ghost use Rattle.std.specs.Prelude.{◌≡◌};
ghost use Rattle.procedures.specs.Outcomes.{empty_step, unchanged, moved, answered};
ghost use Rattle.procedures.specs.Outcomes.{moved_and_answered, rejected, ended, unknown};
ghost use Rattle.procedures.specs.Outcomes.{with_effect, with_done};

use crate::table::ProcTable;
use ble_base::{ErrCode, Kind};
use procedure_stages::{Draft, Effect, Lengths, Progress, Rejection, Reply, Step};

/// What a control PDU of the peer does.
#[derive(Clone, Copy)]
pub struct Outcome {
    /// The procedures after it.
    pub progress: Progress,
    /// The longest payloads after it.
    pub lengths: Lengths,
    /// What is to be sent.
    pub reply: Reply,
    /// Whether it is a PDU of the procedure that this end began, which goes on: the time in which
    /// the peer has to answer begins anew.
    pub restarts: bool,
    /// What the layer above is given.
    pub step: Step,
}

/// A step that does nothing.
pub(crate) fn empty_step() -> Step
    ensures { result ≡ empty_step }
{
    Step {
        effect: Effect::Nothing,
        ends: None,
        refused: None,
        done: None,
    }
}

/// Nothing happens.
pub(crate) fn unchanged(table: &ProcTable) -> Outcome
    ensures { result ≡ unchanged table.now }
{
    Outcome {
        progress: table.progress,
        lengths: table.lengths,
        reply: Reply::Nothing,
        restarts: false,
        step: empty_step(),
    }
}

/// The procedures change.
pub(crate) fn moved(table: &ProcTable, progress: Progress) -> Outcome
    ensures { result ≡ moved table.now progress }
{
    Outcome {
        progress,
        ..unchanged(table)
    }
}

/// An answer is sent.
pub(crate) fn answered(table: &ProcTable, draft: Draft) -> Outcome
    ensures { result ≡ answered table.now draft }
{
    Outcome {
        reply: Reply::Answer(draft),
        ..unchanged(table)
    }
}

/// The procedures change and an answer is sent.
pub(crate) fn moved_and_answered(table: &ProcTable, progress: Progress, draft: Draft) -> Outcome
    ensures { result ≡ moved_and_answered table.now progress draft }
{
    Outcome {
        progress,
        reply: Reply::Answer(draft),
        ..unchanged(table)
    }
}

/// A procedure of the peer is rejected.
pub(crate) fn rejected(table: &ProcTable, opcode: u8, code: ErrCode) -> Outcome
    ensures { result ≡ rejected table.now opcode code }
{
    Outcome {
        reply: Reply::Reject(Rejection { opcode, code }),
        ..unchanged(table)
    }
}

/// The link ends at once.
pub(crate) fn ended(table: &ProcTable, code: ErrCode) -> Outcome
    ensures { result ≡ ended table.now code }
{
    Outcome {
        step: Step {
            ends: Some(code),
            ..empty_step()
        },
        ..unchanged(table)
    }
}

/// The PDU with this opcode is not known at this end (Core 5.2, volume 6 part B, section 2.4.2.8).
pub(crate) fn unknown(table: &ProcTable, opcode: u8) -> Outcome
    ensures { result ≡ unknown table.now opcode }
{
    answered(table, Draft::UnknownRsp(opcode))
}

impl Outcome {
    /// The layer above is given something.
    pub(crate) fn with_effect(self, effect: Effect) -> Self
        ensures { result ≡ with_effect effect self }
    {
        Outcome {
            step: Step {
                effect,
                ..self.step
            },
            ..self
        }
    }

    /// A procedure of this end is completed.
    pub(crate) fn with_done(self, kind: Kind) -> Self
        ensures { result ≡ with_done kind self }
    {
        Outcome {
            step: Step {
                done: Some(kind),
                ..self.step
            },
            ..self
        }
    }
}
