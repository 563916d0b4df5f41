//! Worked examples, which the definitions compute.
ghost use Rattle.std.specs.Prelude.{◌≡◌, [], ◌∷◌, true, false, None, Some};
ghost use Rattle.slot_plan.specs.declared.Activity.TheVariants.{Advertise, Link};
ghost use Rattle.ble_base.specs.declared.roles.Role.TheVariants.{Central, Peripheral};
ghost use Rattle.ble_base.specs.declared.roles.Side.TheVariants.{A, B};
ghost use Rattle.journal_events.specs.journal_sending.controller_model.declared.doing.Doing.TheVariants.{Advertises};
ghost use Rattle.journal_events.specs.journal_sending.controller_model.declared.doing.Doing.TheVariants.{Initiates};
ghost use Rattle.journal_events.specs.journal_sending.controller_model.declared.doing.Doing.TheVariants.{Rests};
ghost use Rattle.journal_events.specs.journal_sending.controller_model.declared.doing.Doing.TheVariants.{CentralSends};
ghost use Rattle.journal_events.specs.journal_sending.controller_model.declared.doing.Doing.TheVariants.{PeripheralListens};
ghost use Rattle.journal_events.specs.journal_sending.journal_controls.journal_ends.Rows.{some_words};
ghost use Rattle.journal_events.specs.journal_sending.journal_acks.Rows.{second_slot};
ghost use Rattle.journal_events.specs.journal_slots.Rows.{none_says_more};
ghost use Rattle.journal_wants.specs.Rows.{asked_once_more, both_asked, held_by_advertiser};
ghost use Rattle.journal_wants.specs.Rows.{held_since, link_since, two_setups, wanting};
ghost use Rattle.journal_wants.specs.Station.{doing_first, winner_in};

/// An advertiser begins in the turn in which it is turned on, on channel 37, and an initiator
/// listens there. After their link is opened both are off.
pub fn worked_first_turns()
    ensures advertiser { doing_first some_words two_setups A both_asked ≡ Advertises 37 }
    ensures initiator { doing_first some_words two_setups B both_asked ≡ Initiates 37 }
    ensures before { doing_first some_words two_setups A [] ≡ Rests }
{}

/// At the anchor of an event that both enter, the central sends and the peripheral listens, also
/// where that is to advertise: a link comes before an advertiser.
pub fn worked_anchors()
    ensures central { doing_first some_words two_setups B asked_once_more ≡ CentralSends 0 }
    ensures peripheral { doing_first some_words two_setups A asked_once_more ≡ PeripheralListens 0 }
{}

/// An advertiser that won an earlier slot has the radio for three, so that the link of its side does
/// not get it; the central of that link sends all the same. An event goes on in a second slot where
/// a packet said that more waits.
pub fn worked_held_slots()
    ensures held { doing_first some_words two_setups A held_by_advertiser ≡ Advertises 38 }
    ensures other_side { doing_first some_words two_setups B held_by_advertiser ≡ CentralSends 0 }
    ensures second { doing_first some_words two_setups B second_slot ≡ CentralSends 0 }
    ensures second_listens { doing_first some_words two_setups A second_slot ≡ PeripheralListens 0 }
    ensures no_second { doing_first some_words two_setups B none_says_more ≡ Rests }
{}

/// Of several links that want a slot that one wins which had the radio least lately, of two such the
/// one with the lesser handle, and a link comes before an advertiser, which wants each slot from its
/// due one on. A slot that is held has no winner.
pub fn worked_winners()
    ensures least_lately { winner_in 20 (wanting (link_since 0 10 ∷ link_since 1 5 ∷ []) 20) ≡ Some (Link 1) }
    ensures by_handle { winner_in 20 (wanting (link_since 0 5 ∷ link_since 1 5 ∷ []) 20) ≡ Some (Link 0) }
    ensures advertiser { winner_in 20 (wanting [] 20) ≡ Some Advertise }
    ensures not_due { winner_in 20 (wanting [] 21) ≡ None }
    ensures held { winner_in 20 (held_since 18) ≡ None }
    ensures free { winner_in 20 (held_since 17) ≡ Some (Link 0) }
{}
