//! What an end answers as an event is entered, and as a control PDU is taken.
ghost use Rattle.std.specs.Prelude.{◌≡◌};
ghost use Rattle.control_end.specs.Answers.{effect_shown, is_update_waiting, no_entry};
ghost use Rattle.control_end.specs.Answers.{nothing_taken, step_shown};

use ble_base::{ErrCode, Kind};
use control_model::{Effect, Step};
use instants::{Change, Indication};

/// What comes of an event that is entered, in this order.
#[derive(Clone, Copy, Debug, PartialEq, Eq)]
pub struct Entry {
    /// The number of the indication that holds from this event on, counted from 1 (Core 5.2, volume
    /// 6 part B, section 5.5).
    pub applied: Option<u64>,
    /// Whether that is an update of the parameters (Core 5.2, volume 6 part B, section 5.1.1).
    pub updated: bool,
    /// The procedure of this end that is done by it.
    pub done: Option<Kind>,
    /// The procedure of this end that begins.
    pub began: Option<Kind>,
}

/// What comes of a control PDU of the peer that is taken.
#[derive(Clone, Copy, Debug, PartialEq, Eq)]
pub struct Taken {
    /// What the layer above does: there is nothing to do for an indication, which this end follows
    /// by itself.
    pub effect: Effect,
    /// The procedure of this end that the PDU refuses, and why (Core 5.2, volume 6 part B, sections
    /// 2.4.2.8, 2.4.2.14 and 2.4.2.18).
    pub refused: Option<(Kind, ErrCode)>,
    /// The procedure of this end that the PDU completes.
    pub done: Option<Kind>,
}

/// Whether the indication that waits is an update of the parameters.
pub(crate) fn is_update_waiting(waits: Option<Change>) -> bool
    ensures { result ≡ is_update_waiting waits }
{
    match waits {
        Some(change) => matches!(change.indication, Indication::Update { .. }),
        None => false,
    }
}

/// Nothing holds, is done or begins.
pub(crate) fn no_entry() -> Entry
    ensures { result ≡ no_entry }
{
    Entry {
        applied: None,
        updated: false,
        done: None,
        began: None,
    }
}

/// Nothing is to be done.
pub(crate) fn nothing_taken() -> Taken
    ensures { result ≡ nothing_taken }
{
    Taken {
        effect: Effect::Nothing,
        refused: None,
        done: None,
    }
}

/// An effect, but for an indication.
fn effect_shown(effect: Effect) -> Effect
    ensures { result ≡ effect_shown effect }
{
    match effect {
        Effect::Indicated(_) => Effect::Nothing,
        _ => effect,
    }
}

/// What the layer above has of a step of the table.
pub(crate) fn step_shown(step: &Step) -> Taken
    ensures { result ≡ step_shown step.now }
{
    Taken {
        effect: effect_shown(step.effect),
        refused: step.refused,
        done: step.done,
    }
}
