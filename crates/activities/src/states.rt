//! The radio of a controller, and what is done on it without a link.
ghost use Rattle.std.specs.Prelude.{◌≡◌, ◌≤◌, ◌<◌, ◌+◌, ◌*◌, ◌^◌, ◌++◌, ℕ, List, length};
ghost use Rattle.std.specs.Prelude.{IfSome, None};
ghost use Rattle.std.specs.Option.{option_map};
ghost use Rattle.acl_banks.specs.declared.pieces.Piece.{Piece};
ghost use Rattle.adv_pdu.specs.Pdu.{FitsBits};
ghost use Rattle.adv_pdu.specs.declared.pdu.AdvPdu.TheVariants.{ScanReq, ScanRsp};
ghost use Rattle.advertise.specs.Advertising.{advertisement};
ghost use Rattle.arrayvec.specs.ArrayVec.{array_vec_len};
ghost use Rattle.slot_plan.specs.declared.Activity.TheVariants.{Advertise, Link};
ghost use Rattle.slot_plan.specs.Holding.{is_held_in, winner_of};
ghost use Rattle.open_links.specs.Knowing.{Knows as KnowsLinks};
ghost use Rattle.open_links.specs.OpenLinks.{Links};
ghost use Rattle.controller_model.specs.Entering.{all_entered, notes_all_entering, wants_from};
ghost use Rattle.controller_model.specs.Facts.{free_radio};
ghost use Rattle.controller_model.specs.Links.{radio_without};
ghost use Rattle.controller_model.specs.Radio.{advertises_at, advertises_on, initiator_channel};
ghost use Rattle.controller_model.specs.Radio.{radio_held, scanner_channel, served_if_on};
ghost use Rattle.controller_model.specs.Radio.{slots_since, want_if};
ghost use Rattle.activities.specs.Steps.{answer_if_on, first_activities, heard_if_on, plan_with};

use crate::advertising::Advertising;
use crate::scanning::Scanning;
use adv_pdu::AdvPdu;
use advertise::AdvOn;
use ble_base::{Address, Outbox, SlotNo};
use host_notes::enter_links;
use host_view::HostView;
use open_links::OpenLinks;
use scan_init::{AcceptList, Initiator, ScanAnswer};
use slot_plan::{Activity, Plan};
use std::marker::Model;

/// The slots for which an event of an advertiser holds the radio.
const ADVERTISING_SLOTS: u8 = 3;

/// The radio of a controller, and what it does there without a link.
#[derive(Drop)]
pub struct Activities {
    /// What wants the radio, and for which slots it is held.
    plan: Plan,
    /// What holds it.
    pub(crate) holder: Activity,
    pub(crate) advertising: Advertising,
    pub(crate) scanning: Scanning,
    pub(crate) initiator: Option<Initiator>,
}

impl Model for Activities {
    ghost use Rattle.activities.specs.Held.{HeldActivities};

    ghost Value = { HeldActivities };

    ghost view = { λ a. record {
      radio = record { hold = a.plan.hold; holder = a.holder };
      advertising = a.advertising;
      scanning = a.scanning;
      initiator = a.initiator;
    } };
}

/// Adds an activity to the plan, if it wants the slot.
fn want_if(plan: &mut Plan, wants: bool, activity: Activity)
    requires { length plan.old.wants < 16 }
    ensures wants { plan.new.wants ≡ plan.old.wants ++ want_if wants activity }
    ensures hold { plan.new.hold ≡ plan.old.hold }
    ensures few { length plan.new.wants ≤ length plan.old.wants + 1 }
{
    if wants {
        plan.want(activity, SlotNo(0));
    }
}

impl Activities {
    /// The radio is free, and nothing is on.
    pub fn new() -> Self
        ensures { result ≡ first_activities }
    {
        Activities {
            plan: Plan::new(),
            holder: Activity::Scan,
            advertising: Advertising::new(),
            scanning: Scanning::new(),
            initiator: None,
        }
    }

    /// Whether the radio is held in this slot.
    pub fn is_held(&self, slot: SlotNo) -> bool
        ensures { result ≡ is_held_in self.now.radio.hold slot.0 }
    {
        self.plan.is_held(slot)
    }

    /// What holds the radio, where it is held.
    pub fn holder(&self) -> Activity
        ensures { result ≡ self.now.radio.holder }
    {
        self.holder
    }

    /// How many slots before this one the radio is held.
    pub fn slots_since(&self, slot: SlotNo) -> u64
        ensures { result ≡ slots_since slot.0 self.now.radio.hold }
    {
        match self.plan.held() {
            None => 0,
            Some(hold) => slot.0.saturating_sub(hold.from.0),
        }
    }

    /// The channel on which its advertiser transmits in the slot with this place in its event. None
    /// where it is off, and where the host left that channel out.
    pub fn advertising_channel(&self, place: u64) -> Option<u8>
        ensures value { advertises_on result ≡ advertises_at place self.now.advertising.on }
        ensures channel { IfSome result (λ channel. channel < 40) }
    {
        self.advertising.channel(place)
    }

    /// The channel on which its scanner listens in a slot. None where it is off, or outside its
    /// window.
    pub fn scanning_channel(&self, slot: SlotNo) -> Option<u8>
        ensures value { result ≡ scanner_channel slot.0 self.now.scanning.on }
        ensures channel { IfSome result (λ channel. channel < 40) }
    {
        self.scanning.channel(slot)
    }

    /// The channel on which its initiator listens in a slot. None where there is none, or outside
    /// its window.
    pub fn initiating_channel(&self, slot: SlotNo) -> Option<u8>
        ensures value { result ≡ initiator_channel slot.0 self.now.initiator }
        ensures channel { IfSome result (λ channel. channel < 40) }
    {
        self.initiator.as_ref()?.wants(slot)
    }

    /// All links enter the events whose anchors are in this slot, and the host, which has this
    /// view, hears of that. It gives what wins the slot, of the links and of what is done without
    /// one.
    pub fn enter<const L: usize, const T: usize, const R: usize>(
        &mut self,
        view: &HostView,
        links: &mut OpenLinks<L, T, R>,
        slot: SlotNo,
        out: &mut Outbox,
    ) -> Option<Activity>
        requires slot { slot.0 < 2 ^ 32 }
        requires size { L ≤ 6 }
        requires room { array_vec_len out.old ≤ 28 }
        ensures same { self.new ≡ self.old }
        ensures knows { (known : Links) (received : List (ℕ × Piece))
            → KnowsLinks links.old known received
            → KnowsLinks links.new (all_entered slot.0 known) received }
        ensures notes { (known : Links) (received : List (ℕ × Piece))
            → KnowsLinks links.old known received
            → out.new.items ≡ out.old.items ++ notes_all_entering view.now slot.0 0 known }
        ensures winner { (known : Links) (received : List (ℕ × Piece))
            → KnowsLinks links.old known received
            → result ≡ winner_of (plan_with (wants_from slot.0 0 known) slot.0 self.old) slot.0 }
        ensures few { array_vec_len out.new ≤ array_vec_len out.old + 36 }
        ensures counts { (links.new.heard_to ≡ links.old.heard_to)
            × (links.new.unreported ≡ links.old.unreported) }
    {
        self.plan.clear();
        enter_links(view, links, slot, &mut self.plan, out);
        let advertises = self.advertising.wants(slot);
        want_if(&mut self.plan, advertises, Activity::Advertise);
        let scans = self.scanning.channel(slot).is_some();
        want_if(&mut self.plan, scans, Activity::Scan);
        let initiates = self.initiating_channel(slot).is_some();
        want_if(&mut self.plan, initiates, Activity::Initiate);
        self.plan.winner(slot)
    }

    /// The event of a link holds the radio in this number of slots, from this one on.
    pub fn hold_for_link(&mut self, handle: u16, slot: SlotNo, slots: u8)
        ensures { self.new
            ≡ record self.old { radio = radio_held (Link handle) slot.0 slots } }
    {
        self.plan.hold(slot, slots);
        self.holder = Activity::Link(handle);
    }

    /// An event of its advertiser begins in this slot, and holds the radio.
    pub fn serve_advertiser(&mut self, slot: SlotNo)
        requires { slot.0 < 2 ^ 32 }
        ensures { self.new ≡ record self.old {
          advertising = record self.old.advertising {
            on = served_if_on slot.0 self.old.advertising.on;
          };
          radio = radio_held Advertise slot.0 3;
        } }
    {
        self.advertising.serve(slot);
        self.plan.hold(slot, ADVERTISING_SLOTS);
        self.holder = Activity::Advertise;
    }

    /// Nothing holds the radio.
    pub(crate) fn free_radio(&mut self)
        ensures { self.new ≡ record self.old { radio = free_radio } }
    {
        self.plan.release();
        self.holder = Activity::Scan;
    }

    /// The link under a handle is shut: it leaves the radio.
    pub fn release_link(&mut self, handle: u16)
        ensures { self.new
            ≡ record self.old { radio = radio_without handle self.old.radio } }
    {
        if self.holder == Activity::Link(handle) {
            self.free_radio();
        }
    }

    /// Its advertiser is turned off, and the radio is free.
    pub fn stop_advertising(&mut self)
        ensures { self.new ≡ record self.old {
          advertising = record self.old.advertising { on = None };
          radio = free_radio;
        } }
    {
        self.advertising.turn_off();
        self.free_radio();
    }

    /// Its initiator is dropped.
    pub fn stop_initiating(&mut self)
        ensures { self.new ≡ record self.old { initiator = None } }
    {
        self.initiator = None;
    }

    /// Its advertiser, while it is on.
    pub fn advertiser(&self) -> Option<&AdvOn>
        ensures { option_map (λ on. on.now) result ≡ self.now.advertising.on }
    {
        self.advertising.on.as_ref()
    }

    /// Its initiator, while there is one.
    pub fn initiator(&self) -> Option<&Initiator>
        ensures { option_map (λ on. on.now) result ≡ self.now.initiator }
    {
        self.initiator.as_ref()
    }

    /// The advertisement that it sends. None where its advertiser is off.
    pub fn advertisement(&self) -> Option<AdvPdu>
        ensures value { result ≡ option_map
            (λ on. advertisement on.params self.now.advertising.data_octets)
            self.now.advertising.on }
        ensures fits { IfSome result FitsBits }
    {
        self.advertising.advertisement()
    }

    /// The SCAN_RSP that it sends, with the scan response data. None where its advertiser is off.
    pub fn response(&self) -> Option<AdvPdu>
        ensures value { result ≡ option_map (λ on. ScanRsp on.params.own
            (record { items = self.now.advertising.response_octets })) self.now.advertising.on }
        ensures fits { IfSome result FitsBits }
    {
        self.advertising.response()
    }

    /// The SCAN_REQ to an advertiser. None where its scanner is off.
    pub fn request(&self, advertiser: Address) -> Option<AdvPdu>
        ensures value { result
            ≡ option_map (λ on. ScanReq on.params.own advertiser) self.now.scanning.on }
        ensures fits { IfSome result FitsBits }
    {
        self.scanning.request(advertiser)
    }

    /// What its scanner does about a PDU that it hears, with this accept list: nothing where it is
    /// off.
    pub fn hear_advertisement(&mut self, pdu: &AdvPdu, list: &AcceptList) -> ScanAnswer
        ensures answer { result ≡ answer_if_on self.old.scanning.on list.now pdu.now }
        ensures scanner { self.new ≡ record self.old {
          scanning = record self.old.scanning {
            on = heard_if_on self.old.scanning.on list.now pdu.now;
          };
        } }
    {
        self.scanning.hear(pdu, list)
    }
}
