//! The beginning of a turn: which links end, what has the radio, and what is done first.
ghost use Rattle.std.specs.Prelude.{◌≡◌, ◌≤◌, ◌<◌, ◌+◌, ◌^◌, ◌++◌, ℕ, List, IfSome};
ghost use Rattle.arrayvec.specs.ArrayVec.{array_vec_len};
ghost use Rattle.acl_banks.specs.declared.pieces.Piece.{Piece};
ghost use Rattle.open_links.specs.Knowing.{Knows as KnowsLinks};
ghost use Rattle.open_links.specs.OpenLinks.{Links, in_event, link_at};
ghost use Rattle.slot_plan.specs.Holding.{winner_of};
ghost use Rattle.controller_model.specs.Entering.{IsInEvent, notes_all_entering};
ghost use Rattle.controller_model.specs.Facts.{Setup, Facts};
ghost use Rattle.controller_model.specs.Radio.{advertises_on, doing_held, doing_won, exchange_begins};
ghost use Rattle.controller_model.specs.Radio.{facts_entering, facts_won, first_exchange};
ghost use Rattle.controller_model.specs.Radio.{initiates_on, links_fixing, outcome_begun, plan_in};
ghost use Rattle.controller_model.specs.Radio.{scans_on, second_exchange, served, span_at};
ghost use Rattle.controller_model.specs.Radio.{turn_begins, winner_served};
ghost use Rattle.controller.specs.Fitting.{CanDo};
ghost use Rattle.controller.specs.Knowing.{IsAt, Passes};
ghost use Rattle.controller.specs.Order.{HasNotReceived, MayBegin, Stays};

use crate::controllers::Controller;
use crate::exchanges::ready;
use ble_base::{Outbox, Role, SlotNo};
use controller_model::Doing;
use host_notes::follow_from;
use open_links::OpenLinks;
use slot_plan::Activity;

/// The first part of an exchange: a central sends, and a peripheral listens.
fn exchange_begins(role: Role, handle: u16) -> Doing
    ensures value { result ≡ exchange_begins role handle }
    ensures can { (links : ℕ) → CanDo links result }
{
    match role {
        Role::Central => Doing::CentralSends { handle },
        Role::Peripheral => Doing::PeripheralListens { handle },
    }
}

/// The first exchange of the event of the link under a handle, once it entered one.
fn first_exchange<const L: usize, const T: usize, const R: usize>(
    links: &OpenLinks<L, T, R>,
    handle: u16,
) -> Doing
    ensures value { (known : Links) (received : List (ℕ × Piece))
        → KnowsLinks links.now known received
        → result ≡ first_exchange handle (in_event (link_at handle known)) }
    ensures can { CanDo L result }
{
    match (links.has_entered(handle), links.setup(handle)) {
        (Some(true), Some(setup)) => exchange_begins(setup.role, handle),
        _ => Doing::Rests,
    }
}

/// The second exchange of the event of the link under a handle, if it has one.
fn second_exchange<const L: usize, const T: usize, const R: usize>(
    links: &OpenLinks<L, T, R>,
    handle: u16,
) -> Doing
    ensures value { (known : Links) (received : List (ℕ × Piece))
        → KnowsLinks links.now known received
        → result ≡ second_exchange handle (in_event (link_at handle known)) }
    ensures can { CanDo L result }
{
    match links.again(handle) {
        Some(true) => first_exchange(links, handle),
        _ => Doing::Rests,
    }
}

/// The slots for which the event of the link under a handle holds the radio.
fn span_at<const L: usize, const T: usize, const R: usize>(
    links: &OpenLinks<L, T, R>,
    handle: u16,
) -> u8
    ensures { (known : Links) (received : List (ℕ × Piece)) → KnowsLinks links.now known received
        → result ≡ span_at (link_at handle known) }
{
    match links.span(handle) {
        None => 0,
        Some(slots) => slots,
    }
}

/// What an advertiser does in a slot in which it has this channel, if it has one.
fn advertises_on(channel: Option<u8>) -> Doing
    requires channel { IfSome channel (λ channel. channel < 40) }
    ensures value { result ≡ advertises_on channel }
    ensures can { (links : ℕ) → CanDo links result }
{
    match channel {
        None => Doing::Rests,
        Some(channel) => Doing::Advertises { channel },
    }
}

/// What a scanner does in a slot in which it has this channel, if it has one.
fn scans_on(channel: Option<u8>) -> Doing
    requires channel { IfSome channel (λ channel. channel < 40) }
    ensures value { result ≡ scans_on channel }
    ensures can { (links : ℕ) → CanDo links result }
{
    match channel {
        None => Doing::Rests,
        Some(channel) => Doing::Scans { channel },
    }
}

/// What an initiator does in a slot in which it has this channel, if it has one.
fn initiates_on(channel: Option<u8>) -> Doing
    requires channel { IfSome channel (λ channel. channel < 40) }
    ensures value { result ≡ initiates_on channel }
    ensures can { (links : ℕ) → CanDo links result }
{
    match channel {
        None => Doing::Rests,
        Some(channel) => Doing::Initiates { channel },
    }
}

impl<const L: usize, const T: usize, const R: usize> Controller<L, T, R> {
    /// All links enter the events whose anchors are in this slot. The host hears of that, and its
    /// view follows. It gives what wins the slot.
    fn enter_events(&mut self, slot: SlotNo, out: &mut Outbox) -> Option<Activity>
        requires slot { slot.0 < 2 ^ 32 }
        requires room { array_vec_len out.old ≤ 28 }
        ensures at { (has : Setup) (facts : Facts) → IsAt has self.old facts
            → IsAt has self.new (facts_entering slot.0 facts) }
        ensures notes { (has : Setup) (facts : Facts) → IsAt has self.old facts
            → out.new.items
            ≡ out.old.items ++ notes_all_entering facts.view slot.0 0 facts.links }
        ensures winner { (has : Setup) (facts : Facts) → IsAt has self.old facts
            → result ≡ winner_of (plan_in slot.0 facts) slot.0 }
        ensures few { array_vec_len out.new ≤ array_vec_len out.old + 36 }
        ensures stays { Stays self.old self.new }
    {
        let before = out.len();
        let winner = self
            .activities
            .enter(&self.view, &mut self.links, slot, out);
        follow_from(&mut self.view, out, before);
        winner
    }

    /// What an activity that wins a slot does first.
    fn doing_won(&self, slot: SlotNo, activity: Activity) -> Doing
        ensures value { (has : Setup) (facts : Facts) → IsAt has self.now facts
            → result ≡ doing_won slot.0 activity facts }
        ensures can { CanDo L result }
    {
        match activity {
            Activity::Link(handle) => first_exchange(&self.links, handle),
            Activity::Advertise => advertises_on(self.activities.advertising_channel(0)),
            Activity::Scan => scans_on(self.activities.scanning_channel(slot)),
            Activity::Initiate => initiates_on(self.activities.initiating_channel(slot)),
        }
    }

    /// What holds the radio does in this slot.
    fn doing_held(&self, slot: SlotNo) -> Doing
        ensures value { (has : Setup) (facts : Facts) → IsAt has self.now facts
            → result ≡ doing_held slot.0 facts.radio.holder facts }
        ensures can { CanDo L result }
    {
        match self.activities.holder() {
            Activity::Link(handle) => second_exchange(&self.links, handle),
            Activity::Advertise => {
                let place = self.activities.slots_since(slot);
                advertises_on(self.activities.advertising_channel(place))
            }
            Activity::Scan | Activity::Initiate => Doing::Rests,
        }
    }

    /// An activity wins a slot.
    fn win(&mut self, slot: SlotNo, activity: Activity)
        requires { slot.0 < 2 ^ 32 }
        ensures at { (has : Setup) (facts : Facts) → IsAt has self.old facts
            → IsAt has self.new (facts_won slot.0 activity facts) }
        ensures stays { Stays self.old self.new }
    {
        match activity {
            Activity::Link(handle) => {
                let slots = span_at(&self.links, handle);
                self.links.serve(handle, slot);
                self.activities.hold_for_link(handle, slot, slots);
            }
            Activity::Advertise => self.activities.serve_advertiser(slot),
            Activity::Scan | Activity::Initiate => {}
        }
    }

    /// What wins the slot, if anything does, has the radio. It gives what is done first.
    fn serve_winner(&mut self, slot: SlotNo, winner: Option<Activity>) -> Doing
        requires { slot.0 < 2 ^ 32 }
        ensures at { (has : Setup) (facts : Facts) → IsAt has self.old facts
            → IsAt has self.new (winner_served slot.0 winner facts).facts }
        ensures next { (has : Setup) (facts : Facts) → IsAt has self.old facts
            → result ≡ (winner_served slot.0 winner facts).next }
        ensures can { CanDo L result }
        ensures stays { Stays self.old self.new }
    {
        match winner {
            None => Doing::Rests,
            Some(activity) => {
                let doing = self.doing_won(slot, activity);
                self.win(slot, activity);
                doing
            }
        }
    }

    /// What holds the radio goes on, or what wins the slot has it. With the radio off nothing is
    /// done.
    fn serve(&mut self, on: bool, slot: SlotNo, winner: Option<Activity>) -> Doing
        requires { slot.0 < 2 ^ 32 }
        ensures at { (has : Setup) (facts : Facts) → IsAt has self.old facts
            → IsAt has self.new (served on slot.0 winner facts).facts }
        ensures next { (has : Setup) (facts : Facts) → IsAt has self.old facts
            → result ≡ (served on slot.0 winner facts).next }
        ensures can { CanDo L result }
        ensures stays { Stays self.old self.new }
    {
        if !on {
            return Doing::Rests;
        }
        if self.activities.is_held(slot) {
            return self.doing_held(slot);
        }
        self.serve_winner(slot, winner)
    }

    /// The link that has the radio, if one has it, fixes the PDU that it sends next.
    fn fix(&mut self, doing: Doing)
        ensures links { (links : Links) (received : List (ℕ × Piece))
            → KnowsLinks self.old.links links received → IsInEvent doing links
            → KnowsLinks self.new.links (links_fixing doing links) received }
        ensures rest { self.new ≡ record self.old { links = self.new.links } }
        ensures stays { Stays self.old self.new }
    {
        match doing {
            Doing::CentralSends { handle } | Doing::PeripheralListens { handle } => {
                ready(&mut self.links, handle);
            }
            _ => {}
        }
    }

    /// A turn begins in this slot.
    fn begin_slot(&mut self, slot: SlotNo)
        requires slot { slot.0 < 2 ^ 32 }
        requires order { MayBegin slot.0 self.old }
        ensures at { (has : Setup) (facts : Facts) → IsAt has self.old facts
            → IsAt has self.new (turn_begins slot.0 facts) }
        ensures framer { self.new.framer ≡ self.old.framer }
        ensures begun { self.new.turn.begun ≡ slot.0 + 1 }
        ensures none { HasNotReceived self.new.between self.new.turn self.new.links }
    {
        self.turn.begun = slot.0 + 1;
        self.turn.slot = slot.0;
        self.between = false;
    }

    /// A turn begins in this slot, with the radio on or off. It gives what is done first. This is
    /// kept apart from what the controller wants of the radio, so that less is cleared in each turn.
    #[inline(never)]
    pub(crate) fn begin(&mut self, slot: SlotNo, on: bool, out: &mut Outbox) -> Doing
        requires slot { slot.0 < 2 ^ 32 }
        requires order { MayBegin slot.0 self.old }
        requires room { array_vec_len out.old ≤ 4 }
        ensures passes { (has : Setup) (facts : Facts) → IsAt has self.old facts
            → Passes has self.new out.old.items out.new.items result
            (outcome_begun slot.0 on facts) }
        ensures can { CanDo L result }
        ensures few { array_vec_len out.new ≤ 52 }
        ensures framer { self.new.framer ≡ self.old.framer }
        ensures begun { self.new.turn.begun ≡ slot.0 + 1 }
        ensures none { HasNotReceived self.new.between self.new.turn self.new.links }
    {
        self.end_links(slot, out);
        self.begin_slot(slot);
        let winner = self.enter_events(slot, out);
        let doing = self.serve(on, slot, winner);
        self.fix(doing);
        doing
    }
}
