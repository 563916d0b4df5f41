//! Writing to the output.
ghost use Rattle.std.specs.Prelude.{◌≤◌, OnOk, IfErr};
ghost use Rattle.program.specs.Causes.{IsWriteFault};
ghost use Rattle.program.specs.World.{writes_of, HasWritten};

use crate::faults::{Fault, fault_of_sink};
use outside::Sink;

/// Writes some octets.
pub(crate) fn write_octets<O: Sink>(octets: &[u8], out: &mut O) -> Result<(), Fault>
    ensures ok { OnOk result (HasWritten
        (writes_of O.written O.is_reliable O.faults out.old out.new) octets.now) }
    ensures err { IfErr result (IsWriteFault
        (writes_of O.written O.is_reliable O.faults out.old out.new) octets.now) }
    ensures counts { O.faults out.old ≤ O.faults out.new }
    ensures stays_reliable { O.is_reliable out.old → O.is_reliable out.new }
{
    match out.put(octets) {
        Ok(()) => Ok(()),
        Err(fault) => Err(fault_of_sink(fault)),
    }
}
