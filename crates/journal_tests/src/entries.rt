//! Entries by names.
use ble_base::{ErrCode, Kind, Role, Side, Verdict};
use journal::{Entry, Mark, Octets};
use std::alloc::{AllocError, Global};

/// A turn.
fn turn(slot: u64, a_on: bool, b_on: Option<bool>) -> Entry {
    Entry::Turn { slot, a_on, b_on }
}

/// Both radios of a turn are on, that of A is off, or there is one radio; or side A opens, ends or
/// enters link 1.
pub(crate) fn turn_or_link(name: &str) -> Entry {
    let (side, link) = (Side::A, 1);
    match name {
        "both_on" => turn(0, true, Some(true)),
        "a_off" => turn(578, false, Some(true)),
        "one_side" => turn(0, true, None),
        "opened" => Entry::Opened {
            side,
            link,
            handle: 0,
            role: Role::Central,
        },
        "shut" => Entry::Shut {
            side,
            link,
            reason: ErrCode(0x3E),
        },
        _ => Entry::Enter {
            side,
            link,
            event: 1,
            channel: 20,
        },
    }
}

/// A procedure of channel maps on link 1, at side A.
pub(crate) fn procedure(name: &str) -> Entry {
    let (side, link, kind) = (Side::A, 1, Kind::Map);
    match name {
        "applied" => Entry::Applied {
            side,
            link,
            number: 1,
            event: 7,
        },
        "began" => Entry::Began { side, link, kind },
        "refused" => Entry::Refused {
            side,
            link,
            kind,
            code: ErrCode(0x2A),
        },
        _ => Entry::Done { side, link, kind },
    }
}

/// Octets of a host or to it, or PDU 1 of link 1 at side A, with these octets.
pub(crate) fn with_octets(name: &str, octets: Octets) -> Entry {
    match name {
        "fed_a" => Entry::Fed {
            side: Side::A,
            octets,
        },
        "fed_b" => Entry::Fed {
            side: Side::B,
            octets,
        },
        "up_b" => Entry::Up {
            side: Side::B,
            octets,
        },
        "sent" => Entry::Sent {
            side: Side::A,
            link: 1,
            number: 1,
            llid: 2,
            body: octets,
        },
        _ => Entry::Took {
            side: Side::A,
            link: 1,
            number: 1,
            llid: 3,
            body: octets,
        },
    }
}

/// A packet of B with these octets, on channel 37.
fn packet(octets: Octets, fate: Mark, verdict: Verdict) -> Entry {
    Entry::Air {
        side: Side::B,
        channel: 37,
        octets,
        fate,
        verdict,
    }
}

/// A packet of B that passed, was lost or was damaged.
pub(crate) fn packet_that(alloc: Global, name: &str, octets: Octets) -> Result<Entry, AllocError> {
    match name {
        "passed" => Ok(packet(octets, Mark::Pass, Verdict::Good)),
        "lost" => Ok(packet(octets, Mark::Lost, Verdict::Missed)),
        _ => {
            let pattern = Octets::copy(alloc, b"\x01\xc0\xb4\x01")?;
            let fate = Mark::Damage { at: 11, pattern };
            Ok(packet(octets, fate, Verdict::Broken))
        }
    }
}
