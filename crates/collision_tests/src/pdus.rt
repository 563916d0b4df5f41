//! The control PDUs of the four procedures that exclude each other (Core 5.2, volume 6 part B,
//! section 5.3), as they stand in a journal.
use std::alloc::AllocError;

/// One of the four procedures: connection update and channel map update of the central, connection
/// parameters request of the peripheral, and PHY update of either end.
#[derive(Clone, Copy)]
pub(crate) enum Kind {
    Update,
    Request,
    Map,
    Phy,
}

/// What a PDU is in its procedure. The answer to a request is LL_CONNECTION_UPDATE_IND, and the last
/// one of a PHY update is LL_PHY_UPDATE_IND.
#[derive(Clone, Copy)]
pub(crate) enum Step {
    First,
    Answer,
    Last,
    Rejection,
}

/// A control PDU. Its digits are those of its opcode, of values, and of an event where it has one:
/// the Instant of an indication, or the reference of LL_CONNECTION_PARAM_REQ.
#[derive(Clone, Copy)]
pub(crate) struct Pdu {
    pub(crate) kind: Kind,
    pub(crate) step: Step,
    pub(crate) values: &'static str,
    pub(crate) event: u32,
}

impl Pdu {
    /// A PDU that is not sent yet.
    pub(crate) fn new(kind: Kind, step: Step, values: &'static str) -> Pdu {
        Pdu {
            kind,
            step,
            values,
            event: 0,
        }
    }

    /// Whether it changes parameters at an Instant.
    pub(crate) fn is_indication(self) -> bool {
        match (self.step, self.kind) {
            (Step::First, Kind::Update | Kind::Map) | (Step::Answer, Kind::Request) => true,
            _ => false,
        }
    }

    /// Whether it is LL_CONNECTION_PARAM_REQ.
    fn is_request(self) -> bool {
        match (self.step, self.kind) {
            (Step::First, Kind::Request) => true,
            _ => false,
        }
    }

    /// The digits before its values.
    fn front(self) -> &'static str {
        match self.step {
            Step::First => first_of(self.kind),
            Step::Answer => answer_of(self.kind),
            Step::Last => "1800000000",
            Step::Rejection => rejection_of(self.kind),
        }
    }

    /// Writes its digits.
    pub(crate) fn put(self, told: &mut String) -> Result<(), AllocError> {
        told.push_str(self.front())?;
        told.push_str(self.values)?;
        self.put_event(told)
    }

    /// Writes the digits of its event, and those after it.
    fn put_event(self, told: &mut String) -> Result<(), AllocError> {
        if self.is_indication() {
            put_event(told, self.event)
        } else if self.is_request() {
            put_event(told, self.event)?;
            told.push_str("ffffffffffffffffffffffff")
        } else {
            Ok(())
        }
    }
}

/// The digits of a first PDU: an interval of 6, and no latency.
fn first_of(kind: Kind) -> &'static str {
    match kind {
        Kind::Update => "0001000006000000",
        Kind::Request => "0f060006000000",
        Kind::Map => "01",
        Kind::Phy => "160101",
    }
}

/// The digits of an answer.
fn answer_of(kind: Kind) -> &'static str {
    match kind {
        Kind::Phy => "170101",
        _ => "0001000006000000",
    }
}

/// The digits of LL_REJECT_EXT_IND before its error.
fn rejection_of(kind: Kind) -> &'static str {
    match kind {
        Kind::Phy => "1116",
        _ => "110f",
    }
}

/// The name of a procedure in a journal.
pub(crate) fn name_of(kind: Kind) -> &'static str {
    match kind {
        Kind::Update => "update",
        Kind::Request => "request",
        Kind::Map => "map",
        Kind::Phy => "phy",
    }
}

/// Hexadecimal digits.
const DIGITS: [&str; 16] = [
    "0", "1", "2", "3", "4", "5", "6", "7", "8", "9", "a", "b", "c", "d", "e", "f",
];

/// Writes the number of an event below 256 as two octets, least significant first.
fn put_event(told: &mut String, event: u32) -> Result<(), AllocError> {
    told.push_str(DIGITS[(event / 16 % 16) as usize])?;
    told.push_str(DIGITS[(event % 16) as usize])?;
    told.push_str("00")
}
