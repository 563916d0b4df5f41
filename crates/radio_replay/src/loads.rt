//! A large load from a number.
ghost use Rattle.std.specs.Prelude.{◌≡◌, IfOk};
ghost use Rattle.radio_replay.specs.LoadSchedule.{load_schedule};
ghost use Rattle.radio_replay.specs.LoadStreams.{stream_a, stream_b};

use crate::load_text::make_schedule;
use crate::streams::make_stream;
use journal::Octets;
use std::alloc::{AllocError, Global};

/// The command of A: it connects with B.
const CONNECTING: &[u8] = &[
    0x01, 0x0D, 0x20, 0x19, 0x60, 0x00, 0x60, 0x00, 0x00, 0x00, 0x0B, 0x00, 0x00, 0xEE, 0xFF, 0xC0,
    0x00, 0x18, 0x00, 0x18, 0x00, 0x00, 0x00, 0x48, 0x00, 0x00, 0x00, 0x00, 0x00,
];

/// The command of B: it turns advertising on.
const ADVERTISING: &[u8] = &[0x01, 0x0A, 0x20, 0x01, 0x01];

/// The input of a run: the streams of both hosts, and the text of a schedule.
#[derive(Drop)]
pub struct Load {
    /// The octets of the host of A.
    pub a: Octets,
    /// The octets of the host of B.
    pub b: Octets,
    /// The text of the schedule.
    pub schedule: Octets,
}

/// Makes the load of a number (our choice): A connects with B, and each host then has 200 packets
/// of data, whose octets are drawn from the number by a linear congruential generator. In each of
/// 220 events of the link both hosts are fed one packet, as long as there are any, and the first
/// packet of every third event is lost.
///
/// The error is out of memory.
pub fn make_load(alloc: Global, number: u32) -> Result<Load, AllocError>
    ensures a { IfOk result (λ load. load.a ≡ stream_a number) }
    ensures b { IfOk result (λ load. load.b ≡ stream_b number) }
    ensures schedule { IfOk result (λ load. load.schedule ≡ load_schedule number) }
{
    let mut state = number;
    let a = make_stream(alloc, CONNECTING, &mut state)?;
    let b = make_stream(alloc, ADVERTISING, &mut state)?;
    let schedule = make_schedule(alloc, number)?;
    Ok(Load { a, b, schedule })
}
