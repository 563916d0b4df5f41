//! Random calls on one end of a link, and random packets to it: each call gives what it may give.
use ble_base::{ErrCode, Role, Verdict};
use data_pdu::DataHeader;
use link_scripts::{End, LTK, ask_named, header_in, octet, random_packet};
use std::alloc::{AllocError, Global};

/// The number of packets that reach each end.
const PACKETS: u32 = 3000;

/// What a host asks.
const ASKS: [&str; 8] = [
    "update", "request", "map", "length", "phy", "version", "features", "encrypt",
];

/// The header that an end sent last, the state of the generator, and what was counted.
#[derive(Clone, Copy)]
struct Tally {
    last: DataHeader,
    state: u32,
    entered: u32,
    heard: u32,
    ended: u32,
    /// The most notes of a call.
    most: usize,
}

/// The header before the first one that acknowledges.
const NONE: DataHeader = DataHeader {
    llid: 1,
    nesn: false,
    sn: true,
    md: false,
    length: 0,
};

/// Counts what a call noted.
fn count(end: &mut End, tally: &mut Tally) {
    tally.most = tally.most.max(end.note_count());
    end.clear();
}

/// The host does something, or nothing.
fn call(end: &mut End, tally: &mut Tally, slot: u32) {
    let value = octet(&mut tally.state);
    match octet(&mut tally.state) % 64 {
        0..=23 => end.ask(ask_named(ASKS[usize::from(value % 8)])),
        24..=27 => end.answer(Ok(ask_named("update"))),
        28..=31 => end.answer(Err(ErrCode(value))),
        32 => end.finish(ErrCode(value), slot),
        33..=47 => {
            end.give(&[value; 40]);
        }
        48..=51 => end.key((value % 4 != 0).then_some(LTK), slot),
        _ => end.hand_up(),
    }
}

/// The end sends its packet.
fn send(end: &mut End, tally: &mut Tally, slot: u32) {
    let packet = end.send(slot);
    tally.last = header_in(end.channel(), packet.as_slice());
    count(end, tally);
}

/// A random packet reaches the end, which may answer.
fn receive(end: &mut End, tally: &mut Tally, slot: u32) {
    let packet = random_packet(end.channel(), tally.last, &mut tally.state);
    let verdict = end.judge(packet.as_slice());
    if verdict == Verdict::Good || verdict == Verdict::Forged {
        tally.heard = tally.heard.saturating_add(1);
    }
    end.hear(packet.as_slice(), slot);
    let replies = end.replies();
    count(end, tally);
    if replies {
        send(end, tally, slot);
    }
}

/// Enters the next event, in this slot.
fn enter(end: &mut End, tally: &mut Tally, slot: u32) {
    end.begin_turn(slot);
    if end.next_anchor() > u64::from(slot) {
        tally.entered = tally.entered.saturating_add(1);
    }
    count(end, tally);
}

/// Whether the end ends in this slot.
fn ends(end: &mut End, slot: u32) -> bool {
    let due = end.due(slot);
    end.end_turn().is_some() || due.is_some()
}

/// Goes through the next event. A new end takes the place of one that ends.
fn go_through(end: &mut End, tally: &mut Tally) {
    let Ok(slot) = u32::try_from(end.next_anchor()) else {
        return;
    };
    enter(end, tally, slot);
    call(end, tally, slot);
    if end.role() == Role::Central {
        send(end, tally, slot);
    }
    receive(end, tally, slot);
    if ends(end, slot) {
        tally.ended = tally.ended.saturating_add(1);
        tally.last = NONE;
        end.begin_again();
    }
}

/// What is counted of an end, and of those that take its place.
fn tally_of(end: &mut End) -> Tally {
    let mut tally = Tally {
        last: NONE,
        state: 2026,
        entered: 0,
        heard: 0,
        ended: 0,
        most: 0,
    };
    for _ in 0..PACKETS {
        go_through(end, &mut tally);
    }
    tally
}

/// What is counted of a new end with this role.
fn run(alloc: Global, role: Role) -> Result<Tally, AllocError> {
    let mut end = End::new(alloc, role)?;
    Ok(tally_of(&mut end))
}

#[test]
fn random_calls(rt: HostRuntime) -> Result<(), AllocError> {
    for role in [Role::Central, Role::Peripheral] {
        let tally = run(rt.alloc(), role)?;
        assert_eq!(rt; (tally.entered, tally.heard), (PACKETS, PACKETS));
        assert!(rt; tally.most <= 5 && tally.ended >= 50);
    }
    Ok(())
}
