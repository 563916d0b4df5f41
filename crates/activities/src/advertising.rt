//! Advertising: what the host set, and the advertiser while it is on.
ghost use Rattle.std.specs.Prelude.{◌≡◌, ◌≤◌, ◌<◌, ◌^◌, None, Some, IfSome, true, take};
ghost use Rattle.std.specs.Option.{option_map};
ghost use Rattle.adv_pdu.specs.Pdu.{FitsBits};
ghost use Rattle.adv_pdu.specs.declared.pdu.AdvPdu.TheVariants.{ScanRsp};
ghost use Rattle.advertise.specs.Advertising.{advertisement, is_supported};
ghost use Rattle.advertise.specs.Answers.{advertiser_answer};
ghost use Rattle.controller_model.specs.Facts.{first_advertising};
ghost use Rattle.controller_model.specs.Commands.{advertiser_enabled, advertiser_turned_on};
ghost use Rattle.controller_model.specs.Radio.{advertiser_wants, advertises_at, advertises_on, served_if_on};
ghost use Rattle.activities.specs.Fitting.{IsAnswerable};

use adv_pdu::AdvPdu;
use advertise::{AdvAnswer, AdvOff, AdvOn, AdvParams};
use arrayvec::ArrayVec;
use ble_base::{Address, SlotNo};
use scan_init::AcceptList;
use std::marker::Model;
use wire_fields::put_octets;

/// The value of a command that turns something on.
pub(crate) const ON: u8 = 1;

/// How many slots an event takes, one for each advertising channel.
const EVENT_SLOTS: u64 = 3;

/// The most octets of advertising data (Core 5.2, volume 4 part E, section 7.8.7).
const MOST_DATA: usize = 31;

/// What the host set of advertising (Core 5.2, volume 4 part E, sections 7.8.5 to 7.8.8), and the
/// advertiser while it is on.
#[derive(Drop)]
pub(crate) struct Advertising {
    /// The parameters; the own address among them is found as it is turned on.
    off: AdvOff,
    /// The advertising data and the scan response data, 0 to 31 octets each.
    body: ArrayVec<u8, MOST_DATA>,
    response: ArrayVec<u8, MOST_DATA>,
    pub(crate) on: Option<AdvOn>,
}

impl Model for Advertising {
    ghost use Rattle.controller_model.specs.Facts.{Advertising};

    ghost Value = { Advertising };

    ghost view = { λ a. record {
      params = a.off;
      data_octets = a.body.items;
      response_octets = a.response.items;
      on = a.on;
    } };
}

/// The first octets of the parameters of a command.
fn first_octets(count: u8, octets: &[u8; MOST_DATA]) -> ArrayVec<u8, MOST_DATA>
    ensures { result.items ≡ take count octets.now }
{
    let mut first = ArrayVec::new();
    let count = usize::from(count).min(MOST_DATA);
    put_octets(&mut first, &octets[..count]);
    first
}

/// These octets again.
fn copy_of(octets: &ArrayVec<u8, MOST_DATA>) -> ArrayVec<u8, MOST_DATA>
    ensures { result.items ≡ octets.now.items }
{
    let mut copy = ArrayVec::new();
    put_octets(&mut copy, octets.as_slice());
    copy
}

/// The answer of an advertiser to a PDU that follows its advertisement.
#[tactic(auto, using(crate::proofs::LinkFields::answer_fits))]
pub fn advertiser_answer(on: &AdvOn, pdu: &AdvPdu, list: &AcceptList) -> AdvAnswer
    requires { FitsBits pdu.now }
    ensures value { result ≡ advertiser_answer on.now.params list.now pdu.now }
    ensures fits { IsAnswerable result }
{
    on.answer(pdu, list)
}

impl Advertising {
    /// Advertising of a controller that starts, and after a Reset.
    pub(crate) fn new() -> Self
        ensures { result ≡ first_advertising }
    {
        Advertising {
            off: AdvOff::new(),
            body: ArrayVec::new(),
            response: ArrayVec::new(),
            on: None,
        }
    }

    /// Sets the parameters.
    pub(crate) fn set_parameters(&mut self, params: AdvParams)
        requires interval { 1 ≤ params.interval }
        requires kind { is_supported params.kind ≡ true }
        ensures { self.new ≡ record self.old { params = params } }
    {
        self.off.set(params);
    }

    /// Sets the advertising data.
    pub(crate) fn set_data(&mut self, count: u8, octets: &[u8; MOST_DATA])
        ensures { self.new ≡ record self.old { data_octets = take count octets.now } }
    {
        self.body = first_octets(count, octets);
    }

    /// Sets the scan response data.
    pub(crate) fn set_response(&mut self, count: u8, octets: &[u8; MOST_DATA])
        ensures { self.new ≡ record self.old { response_octets = take count octets.now } }
    {
        self.response = first_octets(count, octets);
    }

    /// Turns it on, where it is off, or off. One that is turned on has this own address, and its
    /// first event is due in this slot.
    pub(crate) fn enable(&mut self, value: u8, own: Address, slot: SlotNo)
        ensures { self.new ≡ record self.old {
          on = advertiser_enabled own slot.0 self.old.params value self.old.on;
        } }
    {
        if value != ON {
            self.on = None;
        } else if self.on.is_none() {
            self.turn_on(own, slot);
        }
    }

    /// Turns it on with this own address. Its first event is due in this slot.
    fn turn_on(&mut self, own: Address, slot: SlotNo)
        ensures { self.new ≡ record self.old {
          on = Some (advertiser_turned_on own slot.0 self.old.params);
        } }
    {
        let mut off = AdvOff::new();
        off.set(AdvParams {
            own,
            ..self.off.params()
        });
        self.on = Some(off.enable(slot));
    }

    /// Turns it off.
    pub(crate) fn turn_off(&mut self)
        ensures { self.new ≡ record self.old { on = None } }
    {
        self.on = None;
    }

    /// Whether it wants the radio in a slot: its next event is due.
    pub(crate) fn wants(&self, slot: SlotNo) -> bool
        ensures { result ≡ advertiser_wants slot.0 self.now.on }
    {
        match &self.on {
            None => false,
            Some(on) => on.due() <= slot,
        }
    }

    /// The channel in the slot with this place in an event of three. None where it is off, and where
    /// the host left that channel out.
    pub(crate) fn channel(&self, place: u64) -> Option<u8>
        ensures value { advertises_on result ≡ advertises_at place self.now.on }
        ensures channel { IfSome result (λ channel. channel < 40) }
    {
        let on = self.on.as_ref()?;
        if place < EVENT_SLOTS {
            on.channel(place as u8)
        } else {
            None
        }
    }

    /// An event of it begins in this slot.
    pub(crate) fn serve(&mut self, slot: SlotNo)
        requires { slot.0 < 2 ^ 32 }
        ensures { self.new ≡ record self.old { on = served_if_on slot.0 self.old.on } }
    {
        if let Some(on) = &mut self.on {
            on.serve(slot);
        }
    }

    /// The advertisement that it sends. None where it is off.
    #[tactic(auto, using(crate::proofs::LinkFields::advertisement_fits))]
    pub(crate) fn advertisement(&self) -> Option<AdvPdu>
        ensures value { result
            ≡ option_map (λ on. advertisement on.params self.now.data_octets) self.now.on }
        ensures fits { IfSome result FitsBits }
    {
        Some(self.on.as_ref()?.pdu(&self.body))
    }

    /// The SCAN_RSP that it sends, with the scan response data. None where it is off.
    pub(crate) fn response(&self) -> Option<AdvPdu>
        ensures value { result ≡ option_map
            (λ on. ScanRsp on.params.own (record { items = self.now.response_octets }))
            self.now.on }
        ensures fits { IfSome result FitsBits }
    {
        Some(AdvPdu::ScanRsp {
            from: self.on.as_ref()?.params().own,
            body: copy_of(&self.response),
        })
    }
}
