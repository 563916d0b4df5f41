//! The program `embed`: a host over one controller, as small as it can be. The host turns
//! advertising on. A central that was recorded asks for a link, the controller opens it, and
//! answers the first packet of its first event. All that it does is written, line by line.
#![tactic(auto)]

ghost use Rattle.std.specs.Prelude.{◌≤◌, length};

use arrayvec::ArrayVec;
use ble_base::{Config, Note, Outbox, SlotNo, Verdict};
use controller::{Controller, Intent};
use std::io;

/// What the host sends: Set Event Mask, with the events of LE, and LE Set Advertising Enable.
const HOST: &[u8] = b"\x01\x01\x0c\x08\xff\xff\xff\xff\xff\x1f\x00\x20\x01\x0a\x20\x01\x01";

/// A CONNECT_IND for this controller, as it is on advertising channel 37.
const CONNECT_IND: &[u8] = b"\xd6\xbe\x89\x8e\xa8\xf0\x5c\xa1\x3d\x49\x99\x70\x7f\x31\x11\xa6\
\x69\xb7\xd1\xa2\x30\x98\xa9\xd0\x9e\x52\x33\xd8\xa2\x98\x08\x24\x83\x3b\x03\x8e\x5c\x0b\x4a\x6d\
\xd1\xa5\x50";

/// The first packet of the central, an empty PDU, as it is on data channel 25.
const FIRST: &[u8] = b"\x29\x41\x76\x71\x50\xfa\xde\xe5\x50";

/// What is on the air in a phase of a turn.
fn on_air(slot: u64, phase: u32) -> &'static [u8] {
    match (slot, phase) {
        (0, 1) => CONNECT_IND,
        (2, 0) => FIRST,
        _ => b"",
    }
}

/// The settings of the controller: its public address, where to look for access addresses, and the
/// random words that it draws.
fn settings() -> Config
    ensures { 1 ≤ length result.words.items }
{
    let mut words = ArrayVec::new();
    words.push(1);
    Config {
        public: [0x0A, 0x00, 0x00, 0xEE, 0xFF, 0xC0],
        cursor: 0x7176_4129,
        words,
    }
}

fn main(rt: HostRuntime) -> io::Result<()> {
    // A controller that holds one link, and eight packets of data each way.
    let mut controller: Controller<1, 8, 8> = Controller::start(rt.alloc(), settings())?;
    // The host speaks to it octet by octet.
    for octet in HOST {
        let mut out = Outbox::new();
        controller.host_octet(*octet, &mut out);
        show(&rt, &out)?;
    }
    // A turn is a slot of 1.25 ms.
    for slot in 0..3u64 {
        turn(&rt, &mut controller, slot)?;
    }
    Ok(())
}

/// A turn: it begins, has three phases, and ends.
fn turn(rt: &HostRuntime, controller: &mut Controller<1, 8, 8>, slot: u64) -> io::Result<()> {
    if slot >= 100 || !controller.may_begin(SlotNo(slot)) {
        return Ok(());
    }
    let mut out = Outbox::new();
    let mut intent = controller.begin_turn(SlotNo(slot), true, &mut out);
    show(rt, &out)?;
    for number in 0..3u32 {
        intent = phase(rt, controller, intent, on_air(slot, number))?;
    }
    let mut out = Outbox::new();
    controller.end_turn(&mut out);
    show(rt, &out)
}

/// A phase: the controller sends, hears what is on the air, or does neither. It gives what it wants
/// in the next one.
fn phase(
    rt: &HostRuntime,
    controller: &mut Controller<1, 8, 8>,
    intent: Intent,
    air: &[u8],
) -> io::Result<Intent> {
    let mut out = Outbox::new();
    let next = match intent {
        Intent::Send { channel, octets } => {
            put(rt, "send", channel, octets.as_slice())?;
            controller.unheard(&mut out)
        }
        Intent::Listen { channel } if is_heard(controller, air) => {
            put(rt, "hear", channel, air)?;
            controller.heard(air, &mut out)
        }
        Intent::Listen { .. } | Intent::Idle => controller.unheard(&mut out),
    };
    show(rt, &out)?;
    Ok(next)
}

/// Whether the controller takes what is on the air, of those that it is handed: a packet that is
/// whole, even if its integrity code is wrong.
fn is_heard(controller: &Controller<1, 8, 8>, air: &[u8]) -> bool {
    matches!(controller.judge(air), Verdict::Good | Verdict::Forged)
}

/// Writes what the controller noted: packets for its host, and what becomes of its link.
fn show(rt: &HostRuntime, out: &Outbox) -> io::Result<()> {
    for note in out.as_slice() {
        match note {
            Note::Up(packet) => {
                let packet = hex::encode(rt.alloc(), packet.as_slice())?;
                println!(rt; "up {packet}")?;
            }
            Note::Opened { handle, .. } => println!(rt; "open {handle}")?,
            Note::Enter { handle, event, .. } => println!(rt; "enter {handle} {}", event.0)?,
            _ => println!(rt; "another note")?,
        }
    }
    Ok(())
}

/// Writes a packet on the air.
fn put(rt: &HostRuntime, verb: &str, channel: u8, octets: &[u8]) -> io::Result<()> {
    let octets = hex::encode(rt.alloc(), octets)?;
    println!(rt; "{verb} {channel} {octets}")
}
