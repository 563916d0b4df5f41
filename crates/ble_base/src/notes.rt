//! The notes of a controller: what it reports of one step.

ghost use Rattle.std.specs.Prelude.{◌≡◌};

use crate::{
    Address, ErrCode, EventNo, HOST_PACKET_OCTETS, Kind, OUTBOX_NOTES, PAYLOAD_OCTETS, Role,
};
use arrayvec::ArrayVec;

/// One thing that a controller reports of itself. `handle` is the connection handle of the link.
#[derive(Debug, PartialEq, Eq, Drop)]
pub enum Note {
    /// The octets of one HCI packet to the host, with its packet indicator first.
    Up(ArrayVec<u8, HOST_PACKET_OCTETS>),
    /// The link was made, with the addresses of both ends as they were on the air.
    Opened {
        handle: u16,
        role: Role,
        own: Address,
        peer: Address,
    },
    /// The link ended, for this reason.
    Shut {
        handle: u16,
        reason: ErrCode,
    },
    /// A data channel PDU with a payload was sent for the first time. `number` counts such PDUs of
    /// this sender on the link from 1; `llid` and `body` are those of the PDU, before any
    /// encryption.
    Sent {
        handle: u16,
        number: u64,
        llid: u8,
        body: ArrayVec<u8, PAYLOAD_OCTETS>,
    },
    /// A new data channel PDU with a payload was accepted. `number` counts such PDUs of its sender
    /// on the link from 1; `llid` and `body` are those of the PDU, after any decryption.
    Took {
        handle: u16,
        number: u64,
        llid: u8,
        body: ArrayVec<u8, PAYLOAD_OCTETS>,
    },
    /// The link entered a connection event on a data channel.
    Enter {
        handle: u16,
        event: EventNo,
        channel: u8,
    },
    /// The indication in the PDU with this number is in force from this event on.
    Applied {
        handle: u16,
        number: u64,
        event: EventNo,
    },
    /// This end began a control procedure.
    Began {
        handle: u16,
        kind: Kind,
    },
    /// A control procedure of this end was refused by the peer or lost a collision.
    Refused {
        handle: u16,
        kind: Kind,
        code: ErrCode,
    },
    /// A control procedure of this end was completed.
    Done {
        handle: u16,
        kind: Kind,
    },
}

impl Default for Note {
    ghost use Rattle.ble_base.specs.Note.{filler_note};

    ghost is_default = { λ note. note ≡ filler_note };

    fn default() -> Self {
        Note::Done {
            handle: 0,
            kind: Kind::Update,
        }
    }
}

/// The notes of one step of a controller, in the order in which they were given.
pub type Outbox = ArrayVec<Note, OUTBOX_NOTES>;
