//! Scanning: what the host set, and the scanner while it is on.
ghost use Rattle.std.specs.Prelude.{◌≡◌, ◌≤◌, ◌<◌, None, Some, IfSome, []};
ghost use Rattle.std.specs.Option.{option_map};
ghost use Rattle.adv_pdu.specs.Pdu.{FitsBits};
ghost use Rattle.adv_pdu.specs.declared.pdu.AdvPdu.TheVariants.{ScanReq};
ghost use Rattle.controller_model.specs.Commands.{scanner_enabled, scanner_turned_on};
ghost use Rattle.controller_model.specs.Facts.{first_scanning};
ghost use Rattle.controller_model.specs.Radio.{scanner_channel};
ghost use Rattle.activities.specs.Steps.{answer_if_on, heard_if_on};

use crate::advertising::ON;
use adv_pdu::AdvPdu;
use ble_base::{Address, SlotNo};
use scan_init::{AcceptList, ScanAnswer, ScanParams, Scanner};
use std::marker::Model;

/// The scan interval and window, in units of 0.625 ms, of a host that has set none (Core 5.2,
/// volume 4 part E, section 7.8.10).
const FIRST_SCAN_TIME: u16 = 0x0010;

/// What the host set of scanning (Core 5.2, volume 4 part E, sections 7.8.10 and 7.8.11), and the
/// scanner while it is on.
#[derive(Drop)]
pub(crate) struct Scanning {
    active: bool,
    /// The interval and the window, in units of 0.625 ms.
    interval: u16,
    window: u16,
    on: Option<Scanner>,
}

impl Model for Scanning {
    ghost use Rattle.std.specs.Prelude.{◌≤◌};
    ghost use Rattle.controller_model.specs.Facts.{Scanning};

    ghost Value = { Scanning };

    ghost invariant = { λ s. 1 ≤ s.interval };

    ghost view = { λ s. record {
      active = s.active;
      interval = s.interval;
      window = s.window;
      on = s.on;
    } };
}

impl Scanning {
    /// Scanning of a controller that starts, and after a Reset.
    pub(crate) fn new() -> Self
        ensures { result ≡ first_scanning }
    {
        Scanning {
            active: false,
            interval: FIRST_SCAN_TIME,
            window: FIRST_SCAN_TIME,
            on: None,
        }
    }

    /// Sets the parameters.
    pub(crate) fn set_parameters(&mut self, active: bool, interval: u16, window: u16)
        requires { 1 ≤ interval }
        ensures { self.new
            ≡ record self.old { active = active; interval = interval; window = window } }
    {
        self.active = active;
        self.interval = interval;
        self.window = window;
    }

    /// Turns it on, where it is off, or off. One that is turned on has this own address, may filter
    /// by the accept list and filter duplicates, and begins in this slot.
    pub(crate) fn enable(&mut self, value: u8, own: Address, listed: bool, once: bool, slot: SlotNo)
        ensures { self.new ≡ record self.old {
          on = scanner_enabled (scanner_turned_on own listed once slot.0 self.old)
              value self.old.on;
        } }
    {
        if value != ON {
            self.on = None;
        } else if self.on.is_none() {
            self.turn_on(own, listed, once, slot);
        }
    }

    fn turn_on(&mut self, own: Address, listed: bool, once: bool, slot: SlotNo)
        ensures { self.new ≡ record self.old {
          on = Some (scanner_turned_on own listed once slot.0 self.old);
        } }
    {
        let params = ScanParams {
            active: self.active,
            interval: self.interval,
            window: self.window,
            own,
            listed,
            once,
        };
        self.on = Some(Scanner::new(params, slot));
    }

    /// The channel on which it listens in a slot. None where it is off, or outside its window.
    pub(crate) fn channel(&self, slot: SlotNo) -> Option<u8>
        ensures value { result ≡ scanner_channel slot.0 self.now.on }
        ensures channel { IfSome result (λ channel. channel < 40) }
    {
        self.on.as_ref()?.wants(slot)
    }

    /// What it does about a PDU that it hears, with this accept list: nothing where it is off.
    pub(crate) fn hear(&mut self, pdu: &AdvPdu, list: &AcceptList) -> ScanAnswer
        ensures answer { result ≡ answer_if_on self.old.on list.now pdu.now }
        ensures on { self.new ≡ record self.old {
          on = heard_if_on self.old.on list.now pdu.now;
        } }
    {
        match &mut self.on {
            None => ScanAnswer::Ignore,
            Some(on) => on.hears(pdu, list),
        }
    }

    /// The SCAN_REQ to an advertiser. None where it is off.
    pub(crate) fn request(&self, advertiser: Address) -> Option<AdvPdu>
        ensures value { result
            ≡ option_map (λ on. ScanReq on.params.own advertiser) self.now.on }
        ensures fits { IfSome result FitsBits }
    {
        Some(AdvPdu::ScanReq {
            from: self.on.as_ref()?.params().own,
            to: advertiser,
        })
    }
}
