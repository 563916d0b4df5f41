//! A sink in memory, for tests and for all that needs no system.
ghost use Rattle.std.specs.Prelude.{◌≡◌, [], ◌∷◌, ◌++◌, ◌↔◌, ◌≤◌, IsTrue, OnOk, OnErr, IsErrOf};
ghost use Rattle.std.specs.Prelude.{Some, is_ok, if◌then◌else◌};
ghost use Rattle.outside.specs.Count.{one_more};
ghost use Rattle.outside.specs.Calls.{next_fails, after_call, NoneFails};

use crate::call_plan::CallPlan;
use crate::sink::{Sink, SinkFault};
use std::alloc::{AllocError, Global};
use std::marker::Model;

/// A sink in memory, whose octets are known. A write fails exactly where its call is planned to.
#[derive(Debug, Drop)]
pub struct MemSink {
    octets: Vec<u8>,
    faults: u64,
    writes: CallPlan,
}

impl Model for MemSink {
    ghost use Rattle.outside.specs.SinkStore.{SinkStore};

    ghost Value = { SinkStore };

    ghost view = { λ sink. record {
      octets = sink.octets.items;
      faults = sink.faults;
      writes = sink.writes;
    } };
}

impl MemSink {
    /// A sink to which nothing was written, and which plans no call to fail.
    pub fn new(alloc: Global) -> MemSink
        ensures { result
            ≡ record { octets = []; faults = 0; writes = record { made = 0; failing = [] } } }
    {
        MemSink {
            octets: Vec::new(alloc),
            faults: 0,
            writes: CallPlan::new(alloc),
        }
    }

    /// Plans a call of `put` to fail: the one of this number, counted from 1. An `Err` changes
    /// nothing.
    pub fn fail_at(&mut self, call: u64) -> Result<(), AllocError>
        ensures ok { OnOk result (self.new ≡ record self.old {
          writes = record self.old.writes
              { failing = self.old.writes.failing ++ call ∷ [] };
        }) }
        ensures err { OnErr result (self.new ≡ self.old) }
    {
        self.writes.fail_at(call)
    }

    /// All that was written.
    pub fn octets(&self) -> &[u8]
        ensures { result.now ≡ self.now.octets }
    {
        &self.octets
    }
}

impl Sink for MemSink {
    ghost written = { λ sink. Some sink.octets };

    ghost faults = { λ sink. sink.faults };

    ghost is_reliable = { λ sink. NoneFails sink.writes };

    ghost wants_memory = { λ _. Unit {0} };

    #[tactic(auto, using(crate::proofs::CallNumbers::none_fails_next, crate::proofs::CallNumbers::none_fails_later))]
    fn put(&mut self, octets: &[u8]) -> Result<(), SinkFault>
        ensures failed { IsErrOf result SinkFault.Failed ↔ IsTrue (next_fails self.old.writes) }
        ensures faults { self.new.faults
            ≡ (if next_fails self.old.writes then one_more self.old.faults else self.old.faults) }
        ensures octets { self.new.octets
            ≡ (if is_ok result then self.old.octets ++ octets.now else self.old.octets) }
        ensures writes { self.new.writes ≡ after_call self.old.writes }
        ensures counts { self.old.faults ≤ self.new.faults }

        // Where no call is planned to fail.
        ensures reliable { NoneFails self.old.writes → ¬ IsErrOf result SinkFault.Failed }
        ensures no_fault { NoneFails self.old.writes → self.new.faults ≡ self.old.faults }
    {
        if self.writes.next_fails() {
            self.faults = self.faults.saturating_add(1);
            return Err(SinkFault::Failed);
        }
        self.octets.extend_from_slice(octets)?;
        Ok(())
    }
}
