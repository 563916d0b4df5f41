//! Each public call of an advertiser once, on rows worked by hand.
ghost use Rattle.std.specs.Prelude.{◌≡◌};

use crate::listeners::{device, pdu_of};
use crate::scripts::check;
use advertise::laws::*;
use advertise::rows::*;
use advertise::{AdvOff, AdvOn, AdvParams};
use arrayvec::ArrayVec;
use ble_base::SlotNo;
use scan_init::AcceptList;
use std::alloc::AllocError;
use test_words::{Call, octet, put_answer, put_number, put_octets, put_value, slot};

/// Connectable and scannable advertising every 20 ms on the channels 37 and 39, with this filter
/// policy.
fn params(policy: u8) -> AdvParams
    ensures interval { result.interval ≡ 0x20 }
    ensures kind { result.kind ≡ 0 }
{
    AdvParams {
        interval: 0x20,
        own: device(0x0A),
        channels: 5,
        policy,
        ..AdvParams::default()
    }
}

/// An advertiser that is turned on in slot 7.
pub(crate) fn new_advertiser() -> AdvOn {
    let mut off = AdvOff::new();
    off.set(params(0));
    off.enable(SlotNo(7))
}

/// Makes a call on an advertiser.
pub(crate) fn take(
    on: &mut AdvOn,
    list: &AcceptList,
    call: Call<'_>,
    told: &mut String,
) -> Result<(), AllocError> {
    let word = call.words[0];
    match call.name {
        "off" => put_answer(told, is_off(octet(word))),
        "serve" => serve(on, slot(word)),
        "again" => enable_again(on, slot(word)),
        "policy" => set_policy(on, octet(word)),
        "due" => put_number(told, on.due().0),
        "channel" => put_channel(on, octet(word), told),
        "params" => put_answer(told, on.params() == params(0)),
        "sends" => put_sent(on, octet(word), told),
        _ => put_answer_to(on, list, word, told),
    }
}

/// Whether an advertiser that is off has the parameters that it begins with, and those that are
/// set.
fn is_off(policy: u8) -> bool {
    let mut off = AdvOff::new();
    let is_new = off == AdvOff::default();
    off.set(params(policy));
    is_new && off.params() == params(policy)
}

/// The advertiser has the radio in a slot.
fn serve(on: &mut AdvOn, slot: u32) -> Result<(), AllocError> {
    on.serve(SlotNo(u64::from(slot)));
    Ok(())
}

/// The advertiser is turned off and on again.
fn enable_again(on: &mut AdvOn, slot: u32) -> Result<(), AllocError> {
    let here = std::mem::replace(on, new_advertiser());
    *on = here.disable().enable(SlotNo(u64::from(slot)));
    Ok(())
}

/// An advertiser with a filter policy is turned on in slot 0.
fn set_policy(on: &mut AdvOn, policy: u8) -> Result<(), AllocError> {
    let mut off = AdvOff::new();
    off.set(params(policy));
    *on = off.enable(SlotNo(0));
    Ok(())
}

/// The channel at a place of an event.
fn put_channel(on: &AdvOn, place: u8, told: &mut String) -> Result<(), AllocError> {
    if place >= 3 {
        return told.push_str(" which place?");
    }
    put_value(told, &on.channel(place))
}

/// The octets of the PDU that it sends with data of one octet.
fn put_sent(on: &AdvOn, data: u8, told: &mut String) -> Result<(), AllocError> {
    let mut body = ArrayVec::new();
    body.push(data);
    put_octets(told, on.pdu(&body).write().as_slice())
}

/// What it answers to a PDU.
fn put_answer_to(
    on: &AdvOn,
    list: &AcceptList,
    octets: &str,
    told: &mut String,
) -> Result<(), AllocError> {
    match pdu_of(*told.allocator(), octets) {
        None => told.push_str(" which PDU?"),
        Some(pdu) => put_value(told, &on.answer(&pdu, list)),
    }
}

const ADVERTISERS: &str = "\
# An advertiser is due every interval, and at once when it is turned off and on again.
advertiser off 0 = yes
advertiser due = 7
advertiser serve 7
advertiser due = 23
advertiser serve 23
advertiser due = 39
advertiser serve 39
advertiser serve 60
advertiser due = 76
advertiser channel 0 = Some(37)
advertiser channel 1 = None
advertiser channel 2 = Some(39)
advertiser params = yes
advertiser again 61
advertiser due = 61
# An advertiser answers requests. It takes connections from devices on its list, with a hop
# increment of 5 to 16.
list add 12 = yes
advertiser policy 2
advertiser sends 255 = 20070a0000eeffc0ff
advertiser answers 030c0b0000eeffc00a0000eeffc0 = Respond
advertiser answers 25220c0000eeffc00a0000eeffc029417671010000010000180000004800ffffffff1f05 = \
    Connect(ConnectFields { access: 0x71764129, crc_init: 1, win_size: 1, win_offset: 0, \
    interval: 24, latency: 0, timeout: 72, map: 0x1fffffffff, hop: 5, sca: 0 })
advertiser answers 25220c0000eeffc00a0000eeffc029417671010000010000180000004800ffffffff1f11 = \
    Ignore
advertiser answers 25220b0000eeffc00a0000eeffc029417671010000010000180000004800ffffffff1f05 = \
    Ignore
";

#[test]
fn advertisers(rt: HostRuntime) -> Result<(), AllocError> {
    check(&rt, rt.alloc(), ADVERTISERS)?;
    events_are_an_interval_apart();
    each_type_has_its_advertisement();
    worked_advertisements();
    scan_requests_are_answered();
    connections_are_taken();
    other_requests_are_ignored();
    requests_to_an_advertiser_are_answered();
    worked_scan_requests();
    worked_connections();
    worked_ranges();
    Ok(())
}
