//! An initiator.
ghost use Rattle.std.specs.Prelude.{◌≡◌, ◌≤◌, ◌<◌, IfSome};
ghost use Rattle.scan_init.specs.Initiating.{connect_fields, is_accepted, is_connectable_to};
ghost use Rattle.scan_init.specs.Initiating.{is_sought};
ghost use Rattle.scan_init.specs.Windows.{scan_channel};

use crate::accept_list::AcceptList;
use crate::addresses::is_same_address;
use crate::windows::scan_channel;
use adv_pdu::{AdvPdu, ConnectFields};
use ble_base::{Address, ChannelMap, SlotNo};
use std::marker::Model;

/// What the host set of a connection to be made (Core 5.2, volume 4 part E, section 7.8.12).
#[derive(Clone, Copy, Debug, PartialEq, Eq, Default)]
pub struct InitParams {
    /// The scan interval, in units of 0.625 ms.
    pub interval: u16,
    /// The scan window, in units of 0.625 ms.
    pub window: u16,
    /// The own address.
    pub own: Address,
    /// The peer that the host named; None where any advertiser in the accept list will do.
    pub peer: Option<Address>,
    /// The fields of the CONNECT_IND. Access address, CRCInit, ChM and Hop are 0: they are filled
    /// in as it is sent.
    pub link: ConnectFields,
}

/// The initiating state (Core 5.2, volume 6 part B, section 4.4.4).
#[derive(Debug, Drop)]
pub struct Initiator {
    params: InitParams,
    since: SlotNo,
}

impl Model for Initiator {
    ghost use Rattle.std.specs.Prelude.{◌≤◌};
    ghost use Rattle.scan_init.specs.Initiating.{InitiatorFacts};

    ghost Value = { InitiatorFacts };

    ghost view = { λ i. record { params = i.params; since = i.since.0 } };

    ghost invariant = { λ i. 1 ≤ i.params.interval };
}

/// Whether a PDU is a connectable advertisement, and to this device if it is to one.
fn is_connectable_to(own: &Address, pdu: &AdvPdu) -> bool
    ensures { result ≡ is_connectable_to own.now pdu.now }
{
    match pdu {
        AdvPdu::Ind { .. } => true,
        AdvPdu::Direct { to, .. } => is_same_address(own, to),
        _ => false,
    }
}

/// Whether the sender is the peer that the host named, or one of the accept list where it named
/// none.
fn is_sought(peer: Option<Address>, list: &AcceptList, sender: Address) -> bool
    ensures { result ≡ is_sought peer list.now sender }
{
    match peer {
        Some(peer) => is_same_address(&peer, &sender),
        None => list.has(sender),
    }
}

impl Initiator {
    /// An initiator that begins in this slot.
    pub fn new(params: InitParams, slot: SlotNo) -> Self
        requires { 1 ≤ params.interval }
        ensures { result ≡ record { params = params; since = slot.0 } }
    {
        Initiator {
            params,
            since: slot,
        }
    }

    /// The parameters that it began with.
    pub fn params(&self) -> InitParams
        ensures { result ≡ self.now.params }
    {
        self.params
    }

    /// The channel on which it listens in this slot, 37 to 39; None outside its window.
    pub fn wants(&self, slot: SlotNo) -> Option<u8>
        ensures value { result ≡ scan_channel self.now.params.interval self.now.params.window
            self.now.since slot.0 }
        ensures channel { IfSome result (λ channel. channel < 40) }
    {
        scan_channel(self.params.interval, self.params.window, self.since, slot)
    }

    /// Whether it answers a PDU by a CONNECT_IND, with this accept list. (It does not look whether
    /// there is a link with the same addresses.)
    pub fn accepts(&self, pdu: &AdvPdu, list: &AcceptList) -> bool
        ensures { result ≡ is_accepted self.now.params list.now pdu.now }
    {
        is_connectable_to(&self.params.own, pdu) && is_sought(self.params.peer, list, pdu.sender())
    }

    /// The fields of its CONNECT_IND with this access address, this random word, and the channels
    /// that the host lets be used.
    pub fn connect_fields(&self, access: u32, word: u64, map: ChannelMap) -> ConnectFields
        ensures { result ≡ connect_fields self.now.params.link access word map }
    {
        ConnectFields {
            access,
            crc_init: (word % (1 << 24)) as u32,
            map: map.bits(),
            hop: 5 + ((word >> 24) % 256 % 12) as u8,
            ..self.params.link
        }
    }
}
