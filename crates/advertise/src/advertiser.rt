//! An advertiser, off and on.
ghost use Rattle.std.specs.Prelude.{◌≡◌, ◌≤◌, ◌<◌, ◌^◌, true, IfSome};
ghost use Rattle.advertise.specs.Advertising.{advertisement, due_after};
ghost use Rattle.advertise.specs.Advertising.{event_channel, is_supported};
ghost use Rattle.advertise.specs.Answers.{advertiser_answer};
ghost use Rattle.advertise.specs.Defaults.{first_params};

use crate::answers::{AdvAnswer, advertiser_answer};
use crate::params::{AdvParams, DIRECTED, SCANNABLE, UNDIRECTED};
use adv_pdu::AdvPdu;
use arrayvec::ArrayVec;
use ble_base::{SlotNo, has_bit};
use scan_init::{AcceptList, slots_of};
use std::marker::Model;
use wire_fields::put_octets;

/// The most octets of advertising data (Core 5.2, volume 4 part E, section 7.8.7).
const MOST_DATA: usize = 31;

/// The first of the three advertising channels (Core 5.2, volume 6 part B, section 1.4.1).
const FIRST_ADVERTISING_CHANNEL: u8 = 37;

/// An advertiser that is off.
#[derive(Debug, PartialEq, Eq, Drop)]
pub struct AdvOff {
    params: AdvParams,
}

impl Model for AdvOff {
    ghost use Rattle.std.specs.Prelude.{◌≡◌, ◌≤◌, true};
    ghost use Rattle.advertise.specs.declared.params.AdvParams.{AdvParams};
    ghost use Rattle.advertise.specs.Advertising.{is_supported};

    ghost Value = { AdvParams };

    ghost view = { λ a. a.params };

    ghost invariant = { λ a. (1 ≤ a.params.interval) × (is_supported a.params.kind ≡ true) };

    ghost inverse = { λ p. record { params = p } };
}

/// An advertiser that is on: the advertising state (Core 5.2, volume 6 part B, section 4.4.2).
#[derive(Debug, PartialEq, Eq, Drop)]
pub struct AdvOn {
    params: AdvParams,
    due: SlotNo,
}

impl Model for AdvOn {
    ghost use Rattle.std.specs.Prelude.{◌≡◌, ◌≤◌, true};
    ghost use Rattle.advertise.specs.Advertising.{AdvertiserFacts, is_supported};

    ghost Value = { AdvertiserFacts };

    ghost view = { λ a. record { params = a.params; due = a.due.0 } };

    ghost invariant = { λ a. (1 ≤ a.params.interval) × (is_supported a.params.kind ≡ true) };

    ghost inverse = { λ a. record { params = a.params; due = record { 0 = a.due } } };
}

/// These octets of advertising data again.
fn copy_of(body: &ArrayVec<u8, MOST_DATA>) -> ArrayVec<u8, MOST_DATA>
    ensures { result.items ≡ body.now.items }
{
    let mut copy = ArrayVec::new();
    put_octets(&mut copy, body.as_slice());
    copy
}

/// The advertisement of an advertiser with these parameters.
fn advertisement(params: &AdvParams, body: &ArrayVec<u8, MOST_DATA>) -> AdvPdu
    ensures { result ≡ advertisement params.now body.now.items }
{
    let from = params.own;
    match params.kind {
        UNDIRECTED => AdvPdu::Ind {
            from,
            ch_sel: true,
            body: copy_of(body),
        },
        SCANNABLE => AdvPdu::ScanInd {
            from,
            body: copy_of(body),
        },
        DIRECTED => AdvPdu::Direct {
            from,
            to: params.target,
            ch_sel: true,
        },
        _ => AdvPdu::Nonconn {
            from,
            body: copy_of(body),
        },
    }
}

impl AdvOff {
    /// An advertiser whose host has set nothing.
    pub fn new() -> Self
        ensures { result ≡ first_params }
    {
        AdvOff {
            params: AdvParams::default(),
        }
    }

    /// Sets the parameters.
    pub fn set(&mut self, params: AdvParams)
        requires interval { 1 ≤ params.interval }
        requires kind { is_supported params.kind ≡ true }
        ensures { self.new ≡ params }
    {
        self.params = params;
    }

    /// Its parameters.
    pub fn params(&self) -> AdvParams
        ensures value { result ≡ self.now }
        ensures fits { (1 ≤ result.interval) × (is_supported result.kind ≡ true) }
    {
        self.params
    }

    /// Turns it on. Its first event is due in this slot.
    pub fn enable(self, slot: SlotNo) -> AdvOn
        ensures { result ≡ record { params = self; due = slot.0 } }
    {
        let AdvOff { params } = self;
        AdvOn { params, due: slot }
    }
}

/// An advertiser whose host has set nothing.
impl Default for AdvOff {
    ghost is_default = { λ off. off ≡ first_params };

    fn default() -> Self {
        Self::new()
    }
}

impl AdvOn {
    /// Turns it off. Its parameters stay.
    pub fn disable(self) -> AdvOff
        ensures { result ≡ self.params }
    {
        let AdvOn { params, .. } = self;
        AdvOff { params }
    }

    /// Its parameters.
    pub fn params(&self) -> AdvParams
        ensures value { result ≡ self.now.params }
        ensures fits { (1 ≤ result.interval) × (is_supported result.kind ≡ true) }
    {
        self.params
    }

    /// The slot from which on its next event is due.
    pub fn due(&self) -> SlotNo
        ensures { result.0 ≡ self.now.due }
    {
        self.due
    }

    /// An event of it begins in this slot: the next one is due an interval later.
    pub fn serve(&mut self, slot: SlotNo)
        requires { slot.0 < 2 ^ 32 }
        ensures { self.new
            ≡ record self.old { due = due_after self.old.params.interval slot.0 } }
    {
        self.due = SlotNo(slot.0 + slots_of(self.params.interval));
    }

    /// The channel in one of the three slots of an event, by its place 0, 1 or 2: None where the
    /// host left it out, and the advertiser is idle in the slot.
    pub fn channel(&self, place: u8) -> Option<u8>
        requires { place < 3 }
        ensures value { result ≡ event_channel self.now.params.channels place }
        ensures channel { IfSome result (λ channel. channel < 40) }
    {
        if has_bit(u64::from(self.params.channels), place) {
            Some(FIRST_ADVERTISING_CHANNEL + place)
        } else {
            None
        }
    }

    /// Its advertisement, with this advertising data, of which a directed one has none.
    pub fn pdu(&self, body: &ArrayVec<u8, MOST_DATA>) -> AdvPdu
        ensures { result ≡ advertisement self.now.params body.now.items }
    {
        advertisement(&self.params, body)
    }

    /// What it does about a PDU that follows its own advertisement, with this accept list. (It does
    /// not look whether there is a link with the same addresses.)
    pub fn answer(&self, pdu: &AdvPdu, list: &AcceptList) -> AdvAnswer
        ensures { result ≡ advertiser_answer self.now.params list.now pdu.now }
    {
        advertiser_answer(&self.params, list, pdu)
    }
}
