//! Which calls of a stand-in in memory are to fail.
ghost use Rattle.std.specs.Prelude.{◌≡◌, [], ◌∷◌, ◌++◌, OnOk, OnErr};

use std::alloc::{AllocError, Global};
use std::marker::Model;

/// Counts calls, and knows which of them are to fail.
#[derive(Debug, Drop)]
pub(crate) struct CallPlan {
    made: u64,
    failing: Vec<u64>,
}

impl Model for CallPlan {
    ghost use Rattle.outside.specs.Calls.{Calls};

    ghost Value = { Calls };

    ghost view = { λ plan. record { made = plan.made; failing = plan.failing.items } };
}

impl CallPlan {
    ghost use Rattle.outside.specs.Calls.{next_fails, after_call};

    /// No call was made, and none is to fail.
    pub(crate) fn new(alloc: Global) -> CallPlan
        ensures { result ≡ record { made = 0; failing = [] } }
    {
        CallPlan {
            made: 0,
            failing: Vec::new(alloc),
        }
    }

    /// Adds the number of a call that is to fail, counted from 1.
    pub(crate) fn fail_at(&mut self, call: u64) -> Result<(), AllocError>
        ensures ok { OnOk result
            (self.new ≡ record self.old { failing = self.old.failing ++ call ∷ [] }) }
        ensures err { OnErr result (self.new ≡ self.old) }
    {
        self.failing.push(call)?;
        Ok(())
    }

    /// Counts a call, and says whether it is to fail.
    pub(crate) fn next_fails(&mut self) -> bool
        ensures answer { result ≡ next_fails self.old }
        ensures counted { self.new ≡ after_call self.old }
    {
        self.made = self.made.saturating_add(1);
        self.failing.contains(&self.made)
    }
}
