//! The table against a second, plain writing of the same rules, over random calls.
ghost use Rattle.std.specs.Prelude.{◌≡◌, ◌≤◌, ◌<◌, ◌^◌, IsTrue};
ghost use Rattle.data_pdu.specs.Ranges.{IsInRange};
ghost use Rattle.data_pdu.specs.Reading.{IfKnown};
ghost use Rattle.procedures.specs.Going.{is_update};
ghost use Rattle.procedure_values.specs.Wants.{IsAsk};

use crate::plain::{PeerStage, Plain, Source, param_req, update_ind};
use ble_base::{ChannelMap, ErrCode, EventNo, Kind, Role, SlotNo};
use data_pdu::{Ctrl, CtrlRead};
use procedures::{Ask, ProcTable};

/// The next number below a limit, of a fixed generator.
fn draw(state: &mut u64, limit: u64) -> u64
    requires { 1 ≤ limit }
    ensures { result < limit }
{
    *state = state
        .wrapping_mul(6_364_136_223_846_793_005)
        .wrapping_add(1_442_695_040_888_963_407);
    (*state >> 33) % limit
}

/// An opcode of a PDU that begins a procedure.
fn random_opcode(state: &mut u64) -> u8 {
    let opcodes = [0x00, 0x01, 0x03, 0x08, 0x0C, 0x0E, 0x0F, 0x14, 0x16, 0x18];
    let place = draw(state, 10) as usize;
    opcodes[place]
}

fn random_length(state: &mut u64) -> (u16, u16) {
    (27 + draw(state, 225) as u16, 27 + draw(state, 225) as u16)
}

fn random_encryption(state: &mut u64) -> Ctrl {
    match draw(state, 6) {
        0 => Ctrl::EncReq {
            rand: 1,
            ediv: 2,
            skd_m: 3,
            iv_m: 4,
        },
        1 => Ctrl::EncRsp { skd_s: 5, iv_s: 6 },
        2 => Ctrl::StartEncReq,
        3 => Ctrl::StartEncRsp,
        4 => Ctrl::PauseEncReq,
        _ => Ctrl::PauseEncRsp,
    }
}

fn random_indication(state: &mut u64) -> Ctrl {
    let instant = draw(state, 65536) as u16;
    if draw(state, 2) == 0 {
        update_ind(24 + draw(state, 4) as u16, 0, 100, instant)
    } else {
        Ctrl::ChannelMapInd {
            map: 3 + 4 * draw(state, 4),
            instant,
        }
    }
}

fn random_exchange(state: &mut u64) -> Ctrl {
    let (rx, tx) = random_length(state);
    match draw(state, 6) {
        0 => Ctrl::FeatureReq { features: 7 },
        1 => Ctrl::PeripheralFeatureReq { features: 8 },
        2 => Ctrl::FeatureRsp { features: 9 },
        3 => Ctrl::VersionInd {
            version: 0x0A,
            company: 1,
            sub: 2,
        },
        4 => Ctrl::LengthReq {
            max_rx_octets: rx,
            max_rx_time: 2120,
            max_tx_octets: tx,
            max_tx_time: 2120,
        },
        _ => Ctrl::LengthRsp {
            max_rx_octets: rx,
            max_rx_time: 2120,
            max_tx_octets: tx,
            max_tx_time: 2120,
        },
    }
}

fn random_refusal(state: &mut u64) -> Ctrl {
    let opcode = random_opcode(state);
    match draw(state, 8) {
        0 => Ctrl::UnknownRsp { opcode },
        1 => Ctrl::RejectInd { code: 0x1A },
        2 => Ctrl::ConnectionParamRsp {
            interval_min: 6,
            interval_max: 6,
            latency: 0,
            timeout: 10,
            periodicity: 0,
            reference: 0,
            offsets: [0; 6],
        },
        _ => Ctrl::RejectExtInd { opcode, code: 0x23 },
    }
}

/// What a peer may send, rightly or not.
fn random_read(state: &mut u64) -> CtrlRead {
    let ctrl = match draw(state, 40) {
        0 => return CtrlRead::Bare,
        1 => return CtrlRead::Unknown(0x12),
        2 if draw(state, 4) == 0 => Ctrl::TerminateInd { code: 0x13 },
        3..=9 => random_encryption(state),
        10..=15 => random_indication(state),
        16..=22 => random_exchange(state),
        23..=27 => random_refusal(state),
        28..=31 => param_req(5 + draw(state, 4) as u16, 40, draw(state, 500) as u16, 72),
        32..=34 => Ctrl::PhyReq { tx: 1, rx: 1 },
        35..=36 => Ctrl::PhyRsp { tx: 1, rx: 1 },
        _ => Ctrl::PhyUpdateInd {
            to_peripheral: 0,
            to_central: 0,
            instant: 0,
        },
    };
    CtrlRead::Known(ctrl)
}

/// What a host may ask.
fn random_ask(state: &mut u64, central: bool) -> Ask {
    match draw(state, 9) {
        0 | 1 if central => Ask::Update {
            interval: 6 + draw(state, 20) as u16,
            latency: 0,
            timeout: 100,
        },
        0 | 1 => Ask::Request {
            min: 6,
            max: 6 + draw(state, 20) as u16,
            latency: 0,
            timeout: 100,
        },
        2 | 3 if central => match ChannelMap::new(3 + 4 * draw(state, 4)) {
            Some(map) => Ask::Map(map),
            None => Ask::Phy,
        },
        4 if central => Ask::Encrypt {
            rand: 1,
            ediv: 2,
            ltk: [3; 16],
            skd_m: 4,
            iv_m: 5,
        },
        5 => Ask::Features,
        6 => Ask::Version,
        7 => Ask::Length {
            tx: 27 + draw(state, 225) as u16,
        },
        _ => Ask::Phy,
    }
}

/// Both writings of one end, and where its link is.
#[derive(Drop)]
struct Both {
    table: ProcTable,
    plain: Plain,
    event: u32,
    slot: u64,
}

/// The ask has values in their ranges.
fn asks(both: &mut Both, ask: Ask) {
    if !both.plain.may_ask(ask.kind()) && !matches!(ask, Ask::Map(_)) {
        return;
    }
    match ask {
        Ask::Update { interval, .. } => both.table.ask(update_ask(interval)),
        Ask::Length { tx } if (27..=251).contains(&tx) => both.table.ask(Ask::Length { tx }),
        Ask::Length { .. } => return,
        _ => both.table.ask(same_ask(&ask)),
    }
    both.plain.ask(ask);
}

/// The same ask once more.
fn same_ask(ask: &Ask) -> Ask
    ensures { result ≡ ask.now }
{
    *ask
}

/// An update with this interval, of at most 64 slots.
fn update_ask(interval: u16) -> Ask
    ensures in_range { IsAsk result }
    ensures update { IsTrue (is_update result) }
{
    Ask::Update {
        interval: interval.clamp(6, 64),
        latency: 0,
        timeout: 100,
    }
}

/// The peer sends something, if it is in range.
fn takes(both: &mut Both, read: CtrlRead, quiet: bool) -> bool {
    match read {
        CtrlRead::Known(ctrl) if !ctrl.is_in_range() => true,
        _ => takes_alike(both, &read, quiet),
    }
}

/// Whether both writings do the same with a PDU of the peer.
fn takes_alike(both: &mut Both, read: &CtrlRead, quiet: bool) -> bool
    requires { IfKnown read.now IsInRange }
{
    let slot = both.slot;
    let step = both.table.took(read, SlotNo(slot), quiet);
    step == both.plain.took(read, slot, quiet)
}

/// Whether both writings begin the same, if there is room.
fn begins(both: &mut Both, quiet: bool) -> bool {
    if both.table.waiting() >= 24 {
        return true;
    }
    let slot = both.slot;
    let begun = both.table.begin(SlotNo(slot), quiet);
    begun == both.plain.begin(slot, quiet)
}

/// Whether the same is completed as what was sent last is acknowledged.
fn is_acked(both: &mut Both) -> bool {
    !both.table.is_out() || both.table.acked() == both.plain.acked()
}

/// Whether the same is completed as an event is entered.
fn enters(both: &mut Both, applied: bool) -> bool {
    both.table.entered(applied) == both.plain.entered(applied)
}

/// The number of an event.
fn event_no(event: u32) -> EventNo
    ensures { result.0 < 2 ^ 32 }
{
    EventNo(u64::from(event))
}

/// This end sends what is next. Whether something is out then, if anything was next.
fn sends(both: &mut Both, latency: u16, quiet: bool) -> bool {
    let event = event_no(both.event);
    if both.table.next_ctrl(event, latency, quiet).is_none() {
        return true;
    }
    both.table.went(event, latency, quiet, SlotNo(both.slot));
    both.plain.went(both.event, latency, quiet, both.slot);
    both.table.is_out()
}

/// The host of a central that was asked answers.
fn answers(both: &mut Both, grants: bool) {
    if !both.table.awaits_host() || both.table.waiting() >= 24 {
        return;
    }
    both.plain.peer = None;
    if grants {
        both.table.host_answer(Ok(update_ask(20)));
        both.plain.peer = Some(Kind::Request);
        both.plain.peer_stage = PeerStage::Unsent;
        both.plain.push(Source::Grant, update_ind(20, 0, 100, 0));
    } else {
        both.table.host_answer(Err(ErrCode(0x3B)));
        both.plain.reject(0x0F, 0x3B);
    }
}

/// The layer above queues a PDU.
fn is_given(both: &mut Both, ctrl: Ctrl) {
    if both.table.waiting() >= 24 || !ctrl.is_in_range() {
        return;
    }
    both.table.owe(ctrl);
    both.plain.push(Source::Given, ctrl);
    if let Ctrl::TerminateInd { .. } = ctrl {
        both.plain.closed = true;
    }
    if let Ctrl::RejectExtInd { .. } = ctrl {
        both.plain.encrypting = false;
    }
}

/// The host ends the link.
fn disconnects(both: &mut Both) {
    if both.table.is_disconnecting() {
        return;
    }
    both.table.terminate(ErrCode(0x13));
    both.plain
        .push(Source::Disconnect, Ctrl::TerminateInd { code: 0x13 });
    both.plain.disconnecting = true;
    both.plain.closed = true;
}

/// One random call. Whether both writings give the same.
fn steps(both: &mut Both, state: &mut u64) -> bool {
    let quiet = draw(state, 4) != 0;
    match draw(state, 32) {
        3..=6 => begins(both, quiet),
        7..=15 => takes(both, random_read(state), quiet),
        16..=21 => sends(both, draw(state, 3) as u16, quiet),
        22..=25 => is_acked(both),
        26..=27 => enters(both, draw(state, 2) == 0),
        other => {
            changes(both, state, other);
            true
        }
    }
}

/// One random call that gives nothing.
fn changes(both: &mut Both, state: &mut u64, call: u64) {
    match call {
        0..=2 => asks(both, random_ask(state, both.plain.central)),
        28 => answers(both, draw(state, 2) == 0),
        29 => is_given(both, random_encryption(state)),
        30 => is_given(both, reject_start()),
        _ => ends_seldom(both, draw(state, 20)),
    }
}

fn reject_start() -> Ctrl {
    Ctrl::RejectExtInd {
        opcode: 0x03,
        code: 0x06,
    }
}

fn ends_seldom(both: &mut Both, chance: u64) {
    match chance {
        0 => disconnects(both),
        1 => is_given(both, Ctrl::TerminateInd { code: 0x06 }),
        _ => {}
    }
}

/// Whether the two writings send the same next.
fn sends_alike(both: &Both, quiet: bool) -> bool {
    let next = both.table.next_ctrl(event_no(both.event), 1, quiet);
    next == both.plain.next_ctrl(both.event, 1, quiet)
}

/// Whether the two writings give the same answers.
fn agree(both: &Both) -> bool {
    let (table, plain) = (&both.table, &both.plain);
    table.waiting() == plain.queue.len()
        && table.busy() == plain.busy()
        && table.lengths() == plain.lengths()
        && table.tick(SlotNo(both.slot)) == plain.tick(both.slot)
        && table.may_ask(Kind::Version) == plain.may_ask(Kind::Version)
        && sends_alike(both, true)
        && sends_alike(both, false)
}

/// How many slots later the next call is.
fn slots_on(state: &mut u64) -> u64
    ensures { result < 2 ^ 16 }
{
    match draw(state, 6) {
        0 => 31_999,
        1 => 32_000,
        2 => 1,
        _ => 24,
    }
}

/// The first of some random calls from the beginning of a link after which the writings differ.
fn first_difference(role: Role, state: &mut u64) -> Option<u32> {
    let mut both = Both {
        table: ProcTable::new(role, 251),
        plain: Plain::new(role == Role::Central),
        event: 0,
        slot: 2,
    };
    for call in 0..100 {
        if !steps(&mut both, state) || !agree(&both) {
            return Some(call);
        }
        both.event = both.event.wrapping_add(draw(state, 2) as u32) % 1_000_000;
        both.slot = both.slot.wrapping_add(slots_on(state)) % 1_000_000_000;
    }
    None
}

#[test]
fn table_is_as_plainly_written(rt: HostRuntime) {
    let mut state = 2026;
    for run in 0..60 {
        let central = first_difference(Role::Central, &mut state);
        let peripheral = first_difference(Role::Peripheral, &mut state);
        assert_eq!(rt; (central, peripheral), (None, None), "in run {run}");
    }
}
