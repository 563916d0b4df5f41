//! An activity that wants a slot, and which of several comes first.
ghost use Rattle.std.specs.Prelude.{◌≡◌, [], IfSome, IsNone, ◌↔◌};
ghost use Rattle.slot_plan.specs.Winner.{class_of, first_activity, handle_of, IsFirst, IsWinner};

use crate::Activity;
use ble_base::SlotNo;

/// An activity that wants a slot, and when it last had one.
#[derive(Clone, Copy, Debug, PartialEq, Eq, Default)]
pub struct Want {
    /// What wants it.
    pub activity: Activity,
    /// The slot in which it was last served.
    pub last_served: SlotNo,
}

impl Want {
    /// What decides between the activities that want a slot: the least comes first.
    fn rank(&self) -> (u8, SlotNo, u16)
        ensures class { result.0 ≡ class_of self.now.activity }
        ensures last_served { result.1 ≡ self.now.last_served }
        ensures handle { result.2 ≡ handle_of self.now.activity }
    {
        (
            self.activity.class(),
            self.last_served,
            self.activity.handle(),
        )
    }
}

/// The first of these, if there are any.
fn first_of(wants: &[Want]) -> Option<Want>
    ensures none { IsNone result ↔ (wants.now ≡ []) }
    ensures some { IfSome result (IsFirst wants.now) }
{
    wants.iter().copied().min_by_key(Want::rank)
}

/// The activity of the first of these, if there are any.
#[tactic(auto, using(crate::proofs::FirstWant::found_is_first))]
pub(crate) fn first_activity(wants: &[Want]) -> Option<Activity>
    ensures none { IsNone result ↔ (wants.now ≡ []) }
    ensures some { IfSome result (IsWinner wants.now) }
    ensures value { result ≡ first_activity wants.now }
{
    first_of(wants).map(|want| want.activity)
}
