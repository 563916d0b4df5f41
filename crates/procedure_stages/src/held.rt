//! The stages of procedures after an event was entered from which an indication holds.
ghost use Rattle.std.specs.Prelude.{◌≡◌};
ghost use Rattle.exclusive_stages.specs.Held.{own_held_at_central, own_held_at_peripheral};
ghost use Rattle.procedure_stages.specs.Exclusive.{on_central_stage, on_peripheral_stage};
ghost use Rattle.procedure_stages.specs.Held.{progress_held, done_held};

use crate::kinds::kind_of;
use crate::stages::{Ahead, Central, OwnCentral, OwnPeripheral, Peripheral, Progress};
use ble_base::Kind;

impl OwnCentral {
    /// The same after its indication holds.
    fn held(self) -> Self
        ensures { result ≡ on_central_stage own_held_at_central self }
    {
        match self {
            OwnCentral::Exclusive(stage) => OwnCentral::Exclusive(stage.held()),
            _ => self,
        }
    }
}

impl OwnPeripheral {
    /// The same after an indication holds.
    fn held(self) -> Self
        ensures { result ≡ on_peripheral_stage own_held_at_peripheral self }
    {
        match self {
            OwnPeripheral::Exclusive(stage) => OwnPeripheral::Exclusive(stage.held()),
            OwnPeripheral::Exchange(_) => self,
        }
    }
}

impl Progress {
    /// The procedures after an indication holds.
    pub fn held(self) -> Self
        ensures { result ≡ progress_held self }
    {
        match self {
            Progress::Central(c) => Progress::Central(Central {
                own: c.own.held(),
                peer: c.peer.held(),
                ..c
            }),
            Progress::Peripheral(p) => Progress::Peripheral(Peripheral {
                own: p.own.held(),
                peer: p.peer.held(),
                ahead: Ahead::Nothing,
                ..p
            }),
        }
    }

    /// The procedure of this end that is completed as an indication holds.
    pub fn done(self) -> Option<Kind>
        ensures { result ≡ done_held self }
    {
        match self {
            Progress::Central(c) => kind_of(c.own.stage().done()),
            Progress::Peripheral(p) => kind_of(p.own.stage().done()),
        }
    }
}
