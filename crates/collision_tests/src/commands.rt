//! What hosts send.
use crate::pdus::{Kind, Pdu, Step};

/// A command: its octets, and the first PDU of the procedure that it asks for.
#[derive(Clone, Copy)]
pub(crate) struct Asking {
    pub(crate) octets: &'static [u8],
    pub(crate) first: Pdu,
}

/// LE Set Event Mask with the events of links, of requests and of PHYs.
pub(crate) const ALL_EVENTS: &[u8] =
    b"\x01\x01\x0c\x08\xff\xff\xff\xff\xff\x1f\0\x20\x01\x01\x20\x08\xff\x0d\0\0\0\0\0\0";

/// The same without the event of a request.
pub(crate) const NO_REQUEST: &[u8] =
    b"\x01\x01\x0c\x08\xff\xff\xff\xff\xff\x1f\0\x20\x01\x01\x20\x08\xdf\x0d\0\0\0\0\0\0";

/// LE Create Connection with A or with B: an interval of 6 slots, no latency, and a timeout of 4 s.
pub(crate) const CREATE_WITH_A: &[u8] =
    b"\x01\x0d\x20\x19\x60\0\x60\0\0\0\x0a\0\0\xee\xff\xc0\0\x06\0\x06\0\0\0\x90\x01\0\0\0\0";

pub(crate) const CREATE_WITH_B: &[u8] =
    b"\x01\x0d\x20\x19\x60\0\x60\0\0\0\x0b\0\0\xee\xff\xc0\0\x06\0\x06\0\0\0\x90\x01\0\0\0\0";

/// LE Set Advertising Enable.
pub(crate) const ADVERTISE: &[u8] = b"\x01\x0a\x20\x01\x01";

/// LE Remote Connection Parameter Request Reply and its negative.
pub(crate) const GRANT: &[u8] = b"\x01\x20\x20\x0e\0\0\x06\0\x06\0\0\0\x2c\x01\0\0\0\0";

pub(crate) const GRANTED: &str = "2c01";

pub(crate) const REFUSE: &[u8] = b"\x01\x21\x20\x03\0\0\x3b";

pub(crate) const REFUSED: &str = "3b";

/// LE Connection Update at the central.
pub(crate) fn update(choice: u32) -> Asking {
    if choice % 2 == 0 {
        command(
            b"\x01\x13\x20\x0e\0\0\x06\0\x06\0\0\0\x90\x01\0\0\0\0",
            Kind::Update,
            "9001",
        )
    } else {
        command(
            b"\x01\x13\x20\x0e\0\0\x06\0\x06\0\0\0\x58\x02\0\0\0\0",
            Kind::Update,
            "5802",
        )
    }
}

/// LE Connection Update at the peripheral.
pub(crate) fn request(choice: u32) -> Asking {
    if choice % 2 == 0 {
        command(
            b"\x01\x13\x20\x0e\0\0\x06\0\x06\0\0\0\xc8\0\0\0\0\0",
            Kind::Request,
            "c80000",
        )
    } else {
        command(
            b"\x01\x13\x20\x0e\0\0\x06\0\x06\0\0\0\x90\x01\0\0\0\0",
            Kind::Request,
            "900100",
        )
    }
}

/// LE Set Host Channel Classification, with another map each time.
pub(crate) fn map(choice: u32) -> Asking {
    match choice % 3 {
        0 => command(
            b"\x01\x14\x20\x05\xff\xff\xff\xff\x0f",
            Kind::Map,
            "ffffffff0f",
        ),
        1 => command(b"\x01\x14\x20\x05\xff\x01\0\0\x1f", Kind::Map, "ff0100001f"),
        _ => command(b"\x01\x14\x20\x05\0\0\xf0\xff\x1f", Kind::Map, "0000f0ff1f"),
    }
}

/// LE Set PHY.
pub(crate) fn phy() -> Asking {
    command(b"\x01\x32\x20\x07\0\0\0\x01\x01\0\0", Kind::Phy, "")
}

fn command(octets: &'static [u8], kind: Kind, values: &'static str) -> Asking {
    Asking {
        octets,
        first: Pdu::new(kind, Step::First, values),
    }
}
