//! Connection parameters request of a peripheral (Core 5.2, volume 6 part B, section 5.1.7), and
//! what a collision with the first PDU of the peer does (section 5.3).
ghost use Rattle.std.specs.Prelude.{◌≡◌};
ghost use Rattle.procedures.specs.Request.{collided, against_central, outlived, after_grant};
ghost use Rattle.procedures.specs.Request.{request_judged, request_taken};

use crate::outcome::{Outcome, ended, moved, rejected};
use crate::table::ProcTable;
use ble_base::{ErrCode, Kind};
use exclusive_stages::PeerAtCentral;
use procedure_stages::collisions::collision;
use procedure_stages::opcodes::CONNECTION_PARAM_REQ;
use procedure_stages::{Central, Effect, Peripheral, Progress, are_valid};

/// The outcome of the first PDU of the peripheral, unless it collides with the central's own
/// procedure: that ends the link if the peer has sent a PDU of the own procedure, and rejects the
/// peer's if not.
fn collided(
    table: &ProcTable,
    answered: bool,
    opcode: u8,
    code: Option<ErrCode>,
    other: Outcome,
) -> Outcome
    ensures { result ≡ collided table.now answered opcode code other }
{
    match code {
        None => other,
        Some(code) if answered => ended(table, code),
        Some(code) => rejected(table, opcode, code),
    }
}

/// The outcome of the first PDU of a procedure of the peripheral at a central, unless it collides.
pub(crate) fn against_central(
    table: &ProcTable,
    c: Central,
    kind: Kind,
    opcode: u8,
    other: Outcome,
) -> Outcome
    ensures { result ≡ against_central table.now c kind opcode other }
{
    collided(
        table,
        c.own.stage().is_answered(),
        opcode,
        collision(c.own.kind(), kind),
        other,
    )
}

/// The outcome, unless there is a collision, which ends the link.
fn outlived(table: &ProcTable, code: Option<ErrCode>, other: Outcome) -> Outcome
    ensures { result ≡ outlived table.now code other }
{
    match code {
        None => other,
        Some(code) => ended(table, code),
    }
}

/// The outcome of the first PDU of a procedure of the central at a peripheral, unless it collides
/// with an own procedure of which the central has sent a PDU.
pub(crate) fn after_grant(table: &ProcTable, p: Peripheral, kind: Kind, other: Outcome) -> Outcome
    ensures { result ≡ after_grant table.now p kind other }
{
    if p.own.stage().is_answered() {
        outlived(table, collision(p.own.kind(), kind), other)
    } else {
        other
    }
}

/// A request that collides with nothing: parameters that no link may have are rejected, and the
/// host is asked for the others.
fn request_judged(
    table: &ProcTable,
    c: Central,
    min: u16,
    max: u16,
    latency: u16,
    timeout: u16,
) -> Outcome
    ensures { result ≡ request_judged table.now c min max latency timeout }
{
    if are_valid(min, max, latency, timeout) {
        let asked = Central {
            peer: PeerAtCentral::HostAsked,
            ..c
        };
        moved(table, Progress::Central(asked)).with_effect(Effect::AskHost {
            min,
            max,
            latency,
            timeout,
        })
    } else {
        let refused = Central {
            peer: PeerAtCentral::Absent,
            ..c
        };
        Outcome {
            progress: Progress::Central(refused),
            ..rejected(table, CONNECTION_PARAM_REQ, ErrCode::INVALID_LL_PARAMETERS)
        }
    }
}

/// LL_CONNECTION_PARAM_REQ is taken at a central.
pub(crate) fn request_taken(
    table: &ProcTable,
    c: Central,
    min: u16,
    max: u16,
    latency: u16,
    timeout: u16,
) -> Outcome
    ensures { result ≡ request_taken table.now c min max latency timeout }
{
    let judged = request_judged(table, c, min, max, latency, timeout);
    against_central(table, c, Kind::Request, CONNECTION_PARAM_REQ, judged)
}
