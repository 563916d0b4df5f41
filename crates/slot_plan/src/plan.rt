//! The wants of a slot, and for how long the radio is held.
ghost use Rattle.std.specs.Prelude.{◌≡◌, ◌<◌, [], ◌∷◌, ◌++◌, ◌⊎◌, ◌↔◌, length};
ghost use Rattle.std.specs.Prelude.{Some, None, IsNone, IsTrue, IfSome};
ghost use Rattle.slot_plan.specs.Winner.{IsWinner};
ghost use Rattle.slot_plan.specs.Holding.{PlanFacts, IsHeld, is_held_in, winner_of};

use crate::wants::first_activity;
use crate::{Activity, Want};
use arrayvec::ArrayVec;
use ble_base::SlotNo;
use std::marker::Model;

/// The slots for which something holds the radio.
#[derive(Clone, Copy, Debug, PartialEq, Eq, Default)]
pub struct Hold {
    /// The first of them.
    pub from: SlotNo,
    /// How many they are.
    pub slots: u8,
}

impl Hold {
    /// Whether this slot is one of them.
    fn covers(self, slot: SlotNo) -> bool
        ensures held { IsTrue result ↔ IsHeld (Some self) slot.0 }
        ensures value { result ≡ is_held_in (Some self) slot.0 }
    {
        self.from <= slot && slot.0 - self.from.0 < u64::from(self.slots)
    }
}

/// What wants the radio in a slot, and how long it is held already.
#[derive(Debug, PartialEq, Eq, Drop)]
pub struct Plan {
    wants: ArrayVec<Want, 16>,
    hold: Option<Hold>,
}

impl Model for Plan {
    ghost use Rattle.slot_plan.specs.Holding.{PlanFacts};

    ghost Value = { PlanFacts };

    ghost view = { λ plan. record { wants = plan.wants.items; hold = plan.hold } };

    ghost inverse = { λ f. record { wants = record { items = f.wants }; hold = f.hold } };
}

impl Plan {
    /// A plan in which nothing wants the radio and nothing holds it.
    pub fn new() -> Self
        ensures { result ≡ record { wants = []; hold = None } }
    {
        Plan {
            wants: ArrayVec::new(),
            hold: None,
        }
    }

    /// Adds an activity that wants the slot, and the slot in which it was last served.
    pub fn want(&mut self, activity: Activity, last_served: SlotNo)
        requires { length self.old.wants < 16 }
        ensures wants { self.new.wants
            ≡ self.old.wants ++ (record { activity = activity; last_served = last_served }) ∷ [] }
        ensures hold { self.new.hold ≡ self.old.hold }
    {
        self.wants.push(Want {
            activity,
            last_served,
        });
    }

    /// The activity that has the radio in this slot: the first of those that want it. There is none
    /// where nothing wants it or the radio is held.
    pub fn winner(&self, slot: SlotNo) -> Option<Activity>
        ensures none { IsNone result ↔ ((self.now.wants ≡ []) ⊎ IsHeld self.now.hold slot.0) }
        ensures some { IfSome result (IsWinner self.now.wants) }
        ensures value { result ≡ winner_of self.now slot.0 }
    {
        if self.is_held(slot) {
            return None;
        }
        first_activity(self.wants.as_slice())
    }

    /// Whether the radio is held in this slot.
    pub fn is_held(&self, slot: SlotNo) -> bool
        ensures held { IsTrue result ↔ IsHeld self.now.hold slot.0 }
        ensures value { result ≡ is_held_in self.now.hold slot.0 }
    {
        self.hold.is_some_and(|hold| hold.covers(slot))
    }

    /// The slots for which the radio is held, if it is.
    pub fn held(&self) -> Option<Hold>
        ensures { result ≡ self.now.hold }
    {
        self.hold
    }

    /// Holds the radio in this number of slots, from this one on, and in no others.
    pub fn hold(&mut self, from: SlotNo, slots: u8)
        ensures hold { self.new.hold ≡ Some (record { from = from; slots = slots }) }
        ensures wants { self.new.wants ≡ self.old.wants }
    {
        self.hold = Some(Hold { from, slots });
    }

    /// Drops all that want the slot. What holds the radio holds it still.
    pub fn clear(&mut self)
        ensures wants { self.new.wants ≡ [] }
        ensures hold { self.new.hold ≡ self.old.hold }
    {
        self.wants.clear();
    }

    /// Makes the radio free again. What wants the slot wants it still.
    pub fn release(&mut self)
        ensures hold { self.new.hold ≡ None }
        ensures wants { self.new.wants ≡ self.old.wants }
    {
        self.hold = None;
    }
}

/// A plan in which nothing wants the radio and nothing holds it.
impl Default for Plan {
    ghost is_default = { λ plan. plan ≡ record { wants = []; hold = None } };

    fn default() -> Self {
        Self::new()
    }
}
