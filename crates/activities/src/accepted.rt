//! What accepted commands change of the radio, advertising, scanning and initiating.
ghost use Rattle.std.specs.Prelude.{◌≡◌};
ghost use Rattle.host_view.specs.Status.{status_of};
ghost use Rattle.controller_model.specs.Commands.{advertising_after, fields_given, initiator_after};
ghost use Rattle.controller_model.specs.Commands.{own_address, peer_named, radio_after};
ghost use Rattle.controller_model.specs.Commands.{scanning_after};
ghost use Rattle.controller_model.specs.Facts.{Setup};
ghost use Rattle.activities.specs.Steps.{activities_after};

use crate::advertising::{Advertising, ON};
use crate::scanning::Scanning;
use crate::states::Activities;
use adv_pdu::ConnectFields;
use advertise::AdvParams;
use ble_base::{Address, SlotNo};
use hci_cmd::Command;
use host_view::HostView;
use scan_init::{InitParams, Initiator};
use slot_plan::Activity;

/// Own_Address_Type of the random address (Core 5.2, volume 4 part E, sections 7.8.5 and 7.8.10).
const RANDOM: u8 = 1;

/// The filter policy by which only devices of the accept list count.
const LISTED: u8 = 1;

/// LE_Scan_Type of an active scanner (section 7.8.10), and the value by which duplicates are filtered
/// (section 7.8.11).
const ACTIVE: u8 = 1;

const FILTERED: u8 = 1;

/// The own address of this type: the random one for type 1, where the host set one, else the public
/// one.
fn own_address(public: &[u8; 6], view: &HostView, own: u8) -> Address
    ensures { (setup : Setup) → setup.public ≡ public.now
        → result ≡ own_address setup view.now own }
{
    match view.random() {
        Some(octets) if own == RANDOM => Address {
            random: true,
            octets,
        },
        _ => Address {
            random: false,
            octets: *public,
        },
    }
}

/// The fields of the CONNECT_IND that LE Create Connection gives: the longest interval, the latency
/// and the supervision timeout. The transmit window is one slot, without an offset (our choice).
fn fields_given(max: u16, latency: u16, timeout: u16) -> ConnectFields
    ensures { result ≡ fields_given max latency timeout }
{
    ConnectFields {
        win_size: 1,
        interval: max,
        latency,
        timeout,
        ..ConnectFields::default()
    }
}

/// The peer that LE Create Connection names, with policy 0.
fn peer_named(policy: u8, kind: u8, octets: &[u8; 6]) -> Option<Address>
    ensures { result ≡ peer_named policy kind octets.now }
{
    if policy == 0 {
        Some(Address {
            random: kind == RANDOM,
            octets: *octets,
        })
    } else {
        None
    }
}

impl Activities {
    /// What an accepted command changes of the radio: an advertiser that is turned off leaves it.
    fn accept_radio(&mut self, command: &Command)
        ensures { self.new
            ≡ record self.old { radio = radio_after command.now self.old.radio } }
    {
        match command {
            Command::Reset => self.free_radio(),
            Command::LeSetAdvEnable { value }
                if *value != ON && self.holder == Activity::Advertise => {
                self.free_radio();
            }
            _ => {}
        }
    }

    /// What an accepted command changes of advertising.
    fn accept_advertising(
        &mut self,
        command: &Command,
        public: &[u8; 6],
        view: &HostView,
        slot: SlotNo,
    )
        requires { status_of view.now command.now ≡ 0 }
        ensures { (setup : Setup) → setup.public ≡ public.now → self.new ≡ record self.old {
          advertising = advertising_after setup view.now slot.0 command.now self.old.advertising;
        } }
    {
        host_view::laws::accepted_parameters_are_in_range();
        match command {
            Command::Reset => self.advertising = Advertising::new(),
            Command::LeSetAdvParams {
                min,
                kind,
                peer_kind,
                peer,
                channels,
                policy,
                ..
            } => self.advertising.set_parameters(AdvParams {
                interval: *min,
                kind: *kind,
                own: Address::default(),
                target: Address {
                    random: *peer_kind == RANDOM,
                    octets: *peer,
                },
                channels: *channels,
                policy: *policy,
            }),
            Command::LeSetAdvData { length, octets } => self.advertising.set_data(*length, octets),
            Command::LeSetScanResponse { length, octets } => {
                self.advertising.set_response(*length, octets);
            }
            Command::LeSetAdvEnable { value } => {
                let own = own_address(public, view, view.advertising().own);
                self.advertising.enable(*value, own, slot);
            }
            _ => {}
        }
    }

    /// What an accepted command changes of scanning.
    fn accept_scanning(
        &mut self,
        command: &Command,
        public: &[u8; 6],
        view: &HostView,
        slot: SlotNo,
    )
        requires { status_of view.now command.now ≡ 0 }
        ensures { (setup : Setup) → setup.public ≡ public.now → self.new ≡ record self.old {
          scanning = scanning_after setup view.now slot.0 command.now self.old.scanning;
        } }
    {
        host_view::laws::accepted_parameters_are_in_range();
        match command {
            Command::Reset => self.scanning = Scanning::new(),
            Command::LeSetScanParams {
                kind,
                interval,
                window,
                ..
            } => self
                .scanning
                .set_parameters(*kind == ACTIVE, *interval, *window),
            Command::LeSetScanEnable { value, duplicates } => {
                let own = own_address(public, view, view.scanning().own);
                let listed = view.scanning().policy == LISTED;
                self.scanning
                    .enable(*value, own, listed, *duplicates == FILTERED, slot);
            }
            _ => {}
        }
    }

    /// What an accepted command changes of initiating.
    fn accept_initiating(
        &mut self,
        command: &Command,
        public: &[u8; 6],
        view: &HostView,
        slot: SlotNo,
    )
        requires { status_of view.now command.now ≡ 0 }
        ensures { (setup : Setup) → setup.public ≡ public.now → self.new ≡ record self.old {
          initiator = initiator_after setup view.now slot.0 command.now self.old.initiator;
        } }
    {
        host_view::laws::accepted_parameters_are_in_range();
        match command {
            Command::Reset | Command::LeCreateCancel => self.initiator = None,
            Command::LeCreateConnection {
                scan_interval,
                window,
                policy,
                peer_kind,
                peer,
                own,
                max,
                latency,
                timeout,
                ..
            } => {
                let params = InitParams {
                    interval: *scan_interval,
                    window: *window,
                    own: own_address(public, view, *own),
                    peer: peer_named(*policy, *peer_kind, peer),
                    link: fields_given(*max, *latency, *timeout),
                };
                self.initiator = Some(Initiator::new(params, slot));
            }
            _ => {}
        }
    }

    /// Carries out an accepted command of a host with this view, for a controller with this public
    /// address. What it turns on begins in this slot, that of the next turn.
    pub fn accept(&mut self, command: &Command, public: &[u8; 6], view: &HostView, slot: SlotNo)
        requires { status_of view.now command.now ≡ 0 }
        ensures { (setup : Setup) → setup.public ≡ public.now → self.new
            ≡ activities_after setup view.now slot.0 command.now self.old }
    {
        self.accept_radio(command);
        self.accept_advertising(command, public, view, slot);
        self.accept_scanning(command, public, view, slot);
        self.accept_initiating(command, public, view, slot);
    }
}
