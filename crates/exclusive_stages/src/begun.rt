//! The stages of procedures as they begin.
ghost use Rattle.std.specs.Prelude.{◌≡◌};
ghost use Rattle.exclusive_stages.specs.Begun.{begins_at_central, begins_at_peripheral};
ghost use Rattle.exclusive_stages.specs.Begun.{stage_begun_at_central, stage_begun_at_peripheral};

use crate::pdus::Exclusive;
use crate::stages::{CentralStage, PeripheralStage};

impl CentralStage {
    /// Whether a central begins a procedure of this kind.
    pub fn may_begin(kind: Exclusive) -> bool
        ensures { result ≡ begins_at_central kind }
    {
        !matches!(kind, Exclusive::Request)
    }

    /// The stage of a procedure that the central begins.
    pub fn begun(kind: Exclusive) -> CentralStage
        ensures { result ≡ stage_begun_at_central kind }
    {
        match kind {
            Exclusive::Update => CentralStage::UpdateUnsent,
            Exclusive::Map => CentralStage::MapUnsent,
            _ => CentralStage::PhyUnsent,
        }
    }
}

impl PeripheralStage {
    /// Whether a peripheral begins a procedure of this kind.
    pub fn may_begin(kind: Exclusive) -> bool
        ensures { result ≡ begins_at_peripheral kind }
    {
        matches!(kind, Exclusive::Request | Exclusive::Phy)
    }

    /// The stage of a procedure that the peripheral begins.
    pub fn begun(kind: Exclusive) -> PeripheralStage
        ensures { result ≡ stage_begun_at_peripheral kind }
    {
        match kind {
            Exclusive::Phy => PeripheralStage::PhyUnsent,
            _ => PeripheralStage::RequestUnsent,
        }
    }
}
