//! Winners of a slot, worked out by hand.
use crate::scripts::check;
use ble_base::SlotNo;
use slot_plan::{Activity, Hold, Plan, winner_exists, winner_is_unique};
use std::alloc::AllocError;
use test_words::{Call, octet, put_answer, put_value, slot};

/// The activity of a word: a link is named by its handle.
fn activity(word: &str) -> Activity {
    match word {
        "advertise" => Activity::Advertise,
        "scan" => Activity::Scan,
        "initiate" => Activity::Initiate,
        _ => Activity::Link(u16::from(octet(word))),
    }
}

/// The slot of a word.
fn slot_no(word: &str) -> SlotNo {
    SlotNo(u64::from(slot(word)))
}

/// Makes a call on a plan.
pub(crate) fn take(plan: &mut Plan, call: Call<'_>, told: &mut String) -> Result<(), AllocError> {
    let [first, second, ..] = call.words;
    match call.name {
        "of_two" => put_value(told, &winner_of(call.words)),
        "of_none" => put_value(told, &Plan::new().winner(slot_no(first))),
        "held" => put_answer(told, plan.held() == Some(hold(first, second))),
        "is_held" => put_answer(told, plan.is_held(slot_no(first))),
        "winner" => put_value(told, &plan.winner(slot_no(first))),
        _ => change(plan, call),
    }
}

/// A hold from a slot on.
fn hold(from: &str, slots: &str) -> Hold {
    Hold {
        from: slot_no(from),
        slots: octet(slots),
    }
}

/// The activity that has slot 50, of two that want it. Each comes with the slot in which it was
/// last served.
fn winner_of([first, first_slot, second, second_slot, ..]: [&str; 8]) -> Option<Activity> {
    let mut plan = Plan::new();
    plan.want(activity(first), slot_no(first_slot));
    plan.want(activity(second), slot_no(second_slot));
    plan.winner(SlotNo(50))
}

/// Makes a call that changes a plan.
fn change(plan: &mut Plan, call: Call<'_>) -> Result<(), AllocError> {
    let [first, second, ..] = call.words;
    match call.name {
        "hold" => plan.hold(slot_no(first), octet(second)),
        "release" => plan.release(),
        _ => {
            plan.clear();
            plan.want(activity(first), slot_no(second));
        }
    }
    Ok(())
}

const PLANS: &str = "\
# First by class, slot and handle.
plan of_two 0 26 1 24 = Some(Link(1))
plan of_two 1 26 0 26 = Some(Link(0))
plan of_two advertise 9 0 49 = Some(Link(0))
plan of_two initiate 0 advertise 49 = Some(Advertise)
plan of_two initiate 3 scan 4 = Some(Initiate)
plan of_two initiate 3 scan 3 = Some(Scan)
plan of_two 0 9 0 9 = Some(Link(0))
plan of_none 50 = None
# Slots that are held have no winner.
plan only advertise 0
plan hold 50 4
plan held 50 4 = yes
plan is_held 53 = yes
plan is_held 54 = no
plan winner 49 = Some(Advertise)
plan winner 50 = None
plan winner 53 = None
plan winner 54 = Some(Advertise)
plan only 2 26
plan winner 51 = None
plan hold 60 0
plan winner 60 = Some(Link(2))
plan hold 60 2
plan release
plan winner 61 = Some(Link(2))
";

#[test]
fn winners_of_slots(rt: HostRuntime) -> Result<(), AllocError> {
    check(&rt, rt.alloc(), PLANS)?;
    winner_is_unique();
    winner_exists();
    Ok(())
}
