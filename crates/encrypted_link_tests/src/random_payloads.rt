//! Random payloads on an encrypted link: the right ones are taken, and a wrong one ends the link.
ghost use Rattle.std.specs.Prelude.{◌<◌};

use air_frame::{Heard, unframe};
use arrayvec::ArrayVec;
use ble_base::{AIR_PACKET_OCTETS, ErrCode, Verdict};
use link_scripts::{ACCESS, CRC_INIT, Pair, header_in, octet, other_packet};
use std::alloc::{AllocError, Global};

/// The number of packets of the central.
const PACKETS: u32 = 300;

/// The state of the generator, and what was counted: the right packets that were judged good, those
/// whose PDU was taken, the wrong ones, and those of them that were judged forged, took nothing and
/// ended the link.
#[derive(Clone, Copy)]
struct Tally {
    state: u32,
    good: u32,
    right: u32,
    taken: u32,
    wrong: u32,
    forged: u32,
}

/// The LLID and the payload of a PDU with a fault: another LLID, one bit, or each octet, of the
/// payload, or no last octet.
fn wrong_octets(pdu: &[u8], state: &mut u32) -> ArrayVec<u8, 257> {
    let mut made = ArrayVec::new();
    let [first, _, payload @ ..] = pdu else {
        return made;
    };
    let kind = octet(state) % 4;
    let llid = first % 4;
    made.push(if kind == 0 { llid ^ 3 } else { llid });
    let place = usize::from(octet(state)) % payload.len().max(1);
    let bit = 1u8 << (octet(state) % 8);
    let mut at = 0usize;
    for value in payload {
        let flips = match kind {
            1 if at == place => bit,
            2 => 0x55,
            _ => 0,
        };
        let _ = made.try_push(value ^ flips);
        at = at.wrapping_add(1);
    }
    if kind == 3 {
        let _ = made.pop();
    }
    made
}

/// A packet on this channel with a fault.
fn wrong_packet(channel: u8, packet: &[u8], state: &mut u32) -> ArrayVec<u8, AIR_PACKET_OCTETS>
    requires { channel < 37 }
{
    match unframe(channel, ACCESS, CRC_INIT, packet) {
        Heard::Whole(pdu) => {
            let octets = wrong_octets(pdu.as_slice(), state);
            other_packet(channel, header_in(channel, packet), octets.as_slice())
        }
        _ => ArrayVec::new(),
    }
}

/// One if this is so.
fn one_if(is_so: bool) -> u32
    ensures { result < 2 }
{
    if is_so { 1 } else { 0 }
}

/// The host of the central gives some octets, 1 to 40, and the next event begins, in this slot.
fn begin(pair: &mut Pair, tally: &mut Tally, slot: u32) {
    let body = [octet(&mut tally.state); 40];
    let count = usize::from(octet(&mut tally.state) % 40) + 1;
    pair.a.give(body.get(..count).unwrap_or(&[]));
    pair.a.begin_turn(slot);
    pair.b.begin_turn(slot);
}

/// The right packet arrives, and is answered.
fn take_right(pair: &mut Pair, tally: &mut Tally, packet: &[u8], slot: u32) {
    pair.b.hear(packet, slot);
    tally.right = tally.right.saturating_add(1);
    tally.taken = tally.taken.saturating_add(one_if(pair.b.has_taken()));
    pair.b.hand_up();
    if pair.b.replies() {
        let reply = pair.b.send(slot);
        pair.a.hear(reply.as_slice(), slot);
    }
}

/// A wrong packet arrives in place of a right one.
fn take_wrong(pair: &mut Pair, tally: &mut Tally, packet: &[u8], slot: u32) {
    let wrong = wrong_packet(pair.b.channel(), packet, &mut tally.state);
    let is_forged = pair.b.judge(wrong.as_slice()) == Verdict::Forged;
    pair.b.hear(wrong.as_slice(), slot);
    let is_none = !pair.b.has_taken() && !pair.b.replies();
    let ends = pair.b.end_turn() == Some(ErrCode::MIC_FAILURE);
    tally.wrong = tally.wrong.saturating_add(1);
    tally.forged = tally
        .forged
        .saturating_add(one_if(is_forged && is_none && ends));
}

/// Goes through the next event, and says whether the link goes on.
fn goes_through(pair: &mut Pair, tally: &mut Tally) -> bool {
    let slot = u32::try_from(pair.a.next_anchor()).unwrap_or(0);
    begin(pair, tally, slot);
    let packet = pair.a.send(slot);
    let is_good = pair.b.judge(packet.as_slice()) == Verdict::Good;
    tally.good = tally.good.saturating_add(one_if(is_good));
    let is_right = octet(&mut tally.state) % 4 != 0;
    if is_right {
        take_right(pair, tally, packet.as_slice(), slot);
    } else {
        take_wrong(pair, tally, packet.as_slice(), slot);
    }
    is_right
}

/// What is counted of the packets of links that encrypt.
fn tally_of(alloc: Global) -> Result<Tally, AllocError> {
    let mut tally = Tally {
        state: 2026,
        good: 0,
        right: 0,
        taken: 0,
        wrong: 0,
        forged: 0,
    };
    let mut pair = Pair::new(alloc)?;
    let mut told = String::new(alloc);
    let mut goes_on = false;
    for _ in 0..PACKETS {
        if !goes_on {
            pair.come("secure", &mut told)?;
        }
        goes_on = goes_through(&mut pair, &mut tally);
    }
    Ok(tally)
}

#[test]
fn random_payloads(rt: HostRuntime) -> Result<(), AllocError> {
    let tally = tally_of(rt.alloc())?;
    assert_eq!(rt;
        (tally.good, tally.taken, tally.forged),
        (PACKETS, tally.right, tally.wrong)
    );
    assert!(rt; tally.right >= 150 && tally.wrong >= 50);
    Ok(())
}
