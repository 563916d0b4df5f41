//! The entries of a journal.

use crate::octets::Octets;
use ble_base::{ErrCode, Kind, Role, Side, Verdict};

/// What the radio did to a packet, by the schedule (our choice).
#[derive(Drop)]
pub enum Mark {
    /// It passed unchanged.
    Pass,
    /// It was lost.
    Lost,
    /// The pattern, 1 to 264 octets, was xored into its octets from place `at` on. Place 0 is the
    /// first octet of the access address. The part of the pattern past the end of the packet has no
    /// effect.
    Damage { at: u16, pattern: Octets },
}

/// One event of a run (our choice). A turn is a slot of 1.25 ms. `link` is the number of a link:
/// the n-th CONNECT_IND on the air begins link n, from 1. A `reason` or `code` is an error code
/// (Core 5.2, volume 1 part F).
#[derive(Drop)]
pub enum Entry {
    /// A turn begins, in this slot, counted from 0. `a_on` and `b_on` are whether the radios are
    /// on; `b_on` is None in a run of one controller.
    Turn {
        slot: u64,
        a_on: bool,
        b_on: Option<bool>,
    },
    /// The host of this side sent these octets to its controller: at least one octet, once in a
    /// turn.
    Fed {
        side: Side,
        octets: Octets,
    },
    /// The controller sent this HCI packet to its host, with its packet indicator first (Core 5.2,
    /// volume 4 part A, section 2).
    Up {
        side: Side,
        octets: Octets,
    },
    /// A packet was sent on the channel with this index, 0 to 39. The octets are as sent: the
    /// access address in 4 octets, then, whitened, the PDU and the CRC in 3 (Core 5.2, volume 6
    /// part B, sections 2.1 and 3). The verdict is that of the other side.
    Air {
        side: Side,
        channel: u8,
        octets: Octets,
        fate: Mark,
        verdict: Verdict,
    },
    /// The side holds the link from here on, with this connection handle of 12 bits.
    Opened {
        side: Side,
        link: u64,
        handle: u16,
        role: Role,
    },
    /// The side no longer holds the link. The reason is 00 after a Reset.
    Shut {
        side: Side,
        link: u64,
        reason: ErrCode,
    },
    /// A PDU with a payload was sent for the first time. `number` counts such PDUs from 1 for each
    /// sender and link; `llid` is 1 to 3 (Core 5.2, volume 6 part B, section 2.4); the body is the
    /// payload before any encryption.
    Sent {
        side: Side,
        link: u64,
        number: u64,
        llid: u8,
        body: Octets,
    },
    /// A new PDU with a payload was accepted. The fields are those of `Sent`; the body is the
    /// payload after any decryption.
    Took {
        side: Side,
        link: u64,
        number: u64,
        llid: u8,
        body: Octets,
    },
    /// The side entered this connection event, counted from 0 without end, on this data channel, 0
    /// to 36.
    Enter {
        side: Side,
        link: u64,
        event: u64,
        channel: u8,
    },
    /// The n-th indication of the link is in force at this side from this connection event on.
    Applied {
        side: Side,
        link: u64,
        number: u64,
        event: u64,
    },
    /// The side began a control procedure.
    Began {
        side: Side,
        link: u64,
        kind: Kind,
    },
    /// A control procedure of the side was refused.
    Refused {
        side: Side,
        link: u64,
        kind: Kind,
        code: ErrCode,
    },
    /// A control procedure of the side was completed.
    Done {
        side: Side,
        link: u64,
        kind: Kind,
    },
}
