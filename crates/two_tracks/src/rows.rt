//! Worked runs of two ends, and states that no run comes to.
ghost use Rattle.std.specs.Prelude.{◌≡◌, ℕ, Some, None, true};
ghost use Rattle.ble_base.specs.declared.channel_map.ChannelMap.{ChannelMap};
ghost use Rattle.instants.specs.declared.indications.Params.{Params};
ghost use Rattle.instants.specs.declared.track.Change.{Change};
ghost use Rattle.instants.specs.Track.{next_anchor_of};
ghost use Rattle.two_tracks.specs.TwoEnds.{MayReach, Taken, TwoEnds, has_passed};
ghost use Rattle.two_tracks.specs.TwoEnds.{change_of};
ghost use Rattle.two_tracks.specs.Reached.{AreOpen, IsReached, untaken};
ghost use Rattle.two_tracks.specs.Worked.{heard_in_the_instant, silence_after_update, six_slots};
ghost use Rattle.two_tracks.specs.Worked.{state_after, update_is_sent, update_to_eight};

/// Runs that meet the premises of the laws. An update that is heard in the event of its Instant
/// holds at the central, and still waits at the peripheral. One that is not heard lets the events
/// of both ends run apart: slot 63 is event 9 of the central and event 10 of the peripheral, which
/// reads the Instant as passed. With an offset of one slot the peripheral enters event 6 in slot
/// 39, and the central in slot 40.
pub fn worked_runs()
    ensures comes { (map : ChannelMap)
        → IsReached (six_slots map) 3 (state_after map (update_is_sent 0)) }
    ensures late_comes { (map : ChannelMap)
        → IsReached (six_slots map) 3 (state_after map (heard_in_the_instant 0)) }
    ensures central_is_free { (map : ChannelMap)
        → (state_after map (heard_in_the_instant 0)).central.waits ≡ None }
    ensures peripheral_waits { (map : ChannelMap)
        → (state_after map (heard_in_the_instant 0)).peripheral.waits
        ≡ Some (change_of 0 (update_to_eight 0)) }
    ensures both_go_on { (map : ChannelMap)
        → next_anchor_of (state_after map (heard_in_the_instant 0)).central
        ≡ next_anchor_of (state_after map (heard_in_the_instant 0)).peripheral }
    ensures central_events { (map : ChannelMap)
        → (state_after map (silence_after_update 0 60)).central.entered ≡ 10 }
    ensures peripheral_events { (map : ChannelMap)
        → (state_after map (silence_after_update 0 60)).peripheral.entered ≡ 11 }
    ensures one_slot { (map : ChannelMap)
        → (state_after map (silence_after_update 0 60)).central.anchor
        ≡ (state_after map (silence_after_update 0 60)).peripheral.anchor }
    ensures passed { (map : ChannelMap)
        → has_passed (state_after map (silence_after_update 0 60)).peripheral
        (change_of 0 (update_to_eight 0)) ≡ true }
    ensures moved { (map : ChannelMap)
        → (state_after map (silence_after_update 1 37)).central.anchor ≡ 40 }
    ensures unmoved { (map : ChannelMap)
        → (state_after map (silence_after_update 1 37)).peripheral.anchor ≡ 39 }
{}

/// No run comes to a state in which a packet reaches a peripheral that has taken all indications and
/// is in another event; in which an indication is on its way to a peripheral at which another one
/// waits; or in which an end has missed the turn of its anchor.
pub fn no_run_comes_to_these()
    ensures another_event { (first : Params) (slot : ℕ) (s : TwoEnds) → s.last ≡ Taken
        → s.central.entered ≡ 7 → s.peripheral.entered ≡ 8 → MayReach s
        → IsReached first slot s → ⊥ }
    ensures two_indications { (first : Params) (slot : ℕ) (s : TwoEnds) (one other : Change)
        → untaken s.last ≡ Some one → s.peripheral.waits ≡ Some other → AreOpen s
        → IsReached first slot s → ⊥ }
    ensures missed_anchor { (first : Params) (slot : ℕ) (s : TwoEnds)
        → s.peripheral_open ≡ true → next_anchor_of s.peripheral ≡ 39 → s.turns ≡ 40
        → IsReached first slot s → ⊥ }
{}
