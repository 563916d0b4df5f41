//! Scanners and initiators: worked rows, and each public call once.
ghost use Rattle.std.specs.Prelude.{◌≡◌};

use crate::scripts::check;
use adv_pdu::{AdvPdu, ConnectFields};
use ble_base::{Address, ChannelMap, SlotNo};
use scan_init::laws::*;
use scan_init::rows::*;
use scan_init::{
    AcceptList, InitParams, Initiator, Report, ReportKind, ScanParams, Scanner, is_same_address,
    next_access, slots_of,
};
use std::alloc::{AllocError, Global};
use test_words::{
    Call, hex_number, number, octet, octets_of, put_answer, put_number, put_value, slot,
};

/// A device with a public address that ends in this octet.
pub(crate) fn device(last: u8) -> Address {
    Address {
        random: false,
        octets: [last, 0x00, 0x00, 0xEE, 0xFF, 0xC0],
    }
}

/// The PDU with these octets.
pub(crate) fn pdu_of(alloc: Global, octets: &str) -> Option<AdvPdu> {
    AdvPdu::read(octets_of(alloc, octets).as_slice())
}

/// An active scanner that filters duplicates: its interval is 16 slots, its window 8.
pub(crate) fn new_scanner() -> Scanner
    ensures { result.since ≡ 5 }
{
    let params = ScanParams {
        active: true,
        interval: 0x20,
        window: 0x10,
        own: device(0x0B),
        listed: false,
        once: true,
    };
    Scanner::new(params, SlotNo(5))
}

/// Makes a call on an accept list, with the device that ends in an octet. It has a random address
/// where the next word says so.
pub(crate) fn take_list(
    list: &mut AcceptList,
    call: Call<'_>,
    told: &mut String,
) -> Result<(), AllocError> {
    let [last, kind, ..] = call.words;
    let address = Address {
        random: kind == "random",
        ..device(octet(last))
    };
    match call.name {
        "add" => put_answer(told, list.add(address).is_ok()),
        "is_full_for" => put_answer(told, list.is_full_for(address)),
        "has" => put_answer(told, list.has(address)),
        "is_same" => put_answer(told, is_same_address(&address, &address)),
        _ => leave(list, address, call.name),
    }
}

/// A device is removed, or all of them.
fn leave(list: &mut AcceptList, address: Address, name: &str) -> Result<(), AllocError> {
    if name == "clear" {
        list.clear();
    } else {
        list.remove(address);
    }
    Ok(())
}

/// Makes a call on a scanner.
pub(crate) fn take_scanner(
    scanner: &mut Scanner,
    list: &AcceptList,
    call: Call<'_>,
    told: &mut String,
) -> Result<(), AllocError> {
    let word = call.words[0];
    match call.name {
        "wants" => put_value(told, &scanner.wants(SlotNo(u64::from(slot(word))))),
        "window" => put_number(told, u64::from(scanner.params().window)),
        "slots_of" => put_number(told, u64::from(slots_of(number(word)))),
        "new" => begin(scanner),
        "default" => put_value(told, &Report::default().kind),
        "type" => put_number(told, u64::from(ReportKind::Response.event_type())),
        _ => take_pdu(scanner, list, call, told),
    }
}

/// The scanner is a new one.
fn begin(scanner: &mut Scanner) -> Result<(), AllocError> {
    *scanner = new_scanner();
    Ok(())
}

/// Makes a call with a PDU.
fn take_pdu(
    scanner: &mut Scanner,
    list: &AcceptList,
    call: Call<'_>,
    told: &mut String,
) -> Result<(), AllocError> {
    match pdu_of(*told.allocator(), call.words[0]) {
        None => told.push_str(" which PDU?"),
        Some(pdu) if call.name == "hears" => put_value(told, &scanner.hears(&pdu, list)),
        Some(pdu) => put_value(told, &ReportKind::of(&pdu)),
    }
}

/// What an initiator has: its own address ends in 0B, that of its peer in 0A.
fn init_params() -> InitParams
    ensures { result.interval ≡ 0x60 }
{
    InitParams {
        interval: 0x60,
        window: 0x60,
        own: device(0x0B),
        peer: Some(device(0x0A)),
        link: ConnectFields {
            win_size: 1,
            interval: 24,
            timeout: 72,
            ..ConnectFields::default()
        },
    }
}

/// Makes a call on an initiator that begins in slot 0.
pub(crate) fn take_initiator(
    list: &AcceptList,
    call: Call<'_>,
    told: &mut String,
) -> Result<(), AllocError> {
    let initiator = Initiator::new(init_params(), SlotNo(0));
    let word = call.words[0];
    match call.name {
        "wants" => put_value(told, &initiator.wants(SlotNo(u64::from(slot(word))))),
        "params" => put_answer(told, initiator.params() == init_params()),
        "access" => put_access(told, call.words),
        "fields" => put_fields(&initiator, told),
        _ => match pdu_of(*told.allocator(), word) {
            None => told.push_str(" which PDU?"),
            Some(pdu) => put_answer(told, initiator.accepts(&pdu, list)),
        },
    }
}

/// The access address after those before a cursor, and how many were passed.
fn put_access(told: &mut String, [cursor, travelled, ..]: [&str; 8]) -> Result<(), AllocError> {
    let cursor = u32::try_from(hex_number(*told.allocator(), cursor)).unwrap_or(u32::MAX);
    let travelled = hex_number(*told.allocator(), travelled);
    put_value(told, &next_access(cursor, travelled))
}

/// The fields of a link with the access address 71764129, the random word 0B123456 and all
/// channels.
fn put_fields(initiator: &Initiator, told: &mut String) -> Result<(), AllocError> {
    let map = ChannelMap::new(0x1F_FFFF_FFFF).unwrap_or_default();
    put_value(
        told,
        &initiator.connect_fields(0x7176_4129, 0x0B12_3456, map),
    )
}

const LISTENERS: &str = "\
# Access addresses go upwards from the cursor. That of the advertising channels and the one after
# it are not valid.
initiator access 71764129 00 = Some((0x71764129, 1))
initiator access 71764129 01 = Some((0x7176412a, 2))
initiator access 71764129 ffffffff = Some((0x71764128, 4294967296))
initiator access 71764129 0100000000 = None
initiator access 71764129 ffffffffffffffff = None
initiator access 8e89bed6 00 = Some((0x8e89bed8, 3))
# An accept list holds eight.
list add 0 = yes
list add 1 = yes
list add 2 = yes
list add 3 = yes
list add 4 = yes
list add 5 = yes
list add 6 = yes
list add 7 = yes
list is_full_for 8 = yes
list is_full_for 3 = no
list add 8 = no
list add 3 = yes
list has 7 = yes
list has 8 = no
list has 3 random = no
list remove 3
list has 3 = no
list has 7 = yes
list add 3 random = yes
list has 3 random = yes
list is_same 3 random = yes
list clear
list has 3 random = no
list has 0 = no
# A scanner listens in its window.
scanner wants 5 = Some(37)
scanner wants 12 = Some(37)
scanner wants 13 = None
scanner wants 21 = Some(38)
scanner wants 37 = Some(39)
scanner wants 53 = Some(37)
scanner wants 4 = Some(37)
scanner window = 16
scanner slots_of 3 = 2
# A scanner asks and reports.
scanner hears 20060a0000eeffc0 = ReportAndAsk
scanner hears 04060a0000eeffc0 = Report
scanner hears 20060a0000eeffc0 = Ask
scanner hears 04060a0000eeffc0 = Ignore
scanner hears 04060c0000eeffc0 = Report
scanner kind 0406010000eeffc0 = Some(Response)
scanner type = 4
scanner default = Undirected
# An initiator answers its peer.
initiator accepts 20060a0000eeffc0 = yes
initiator accepts 20060c0000eeffc0 = no
initiator accepts 04060a0000eeffc0 = no
initiator wants 48 = Some(38)
initiator params = yes
initiator fields = ConnectFields { access: 0x71764129, crc_init: 0x123456, win_size: 1, \
    win_offset: 0, interval: 24, latency: 0, timeout: 72, map: 0x1fffffffff, hop: 16, sca: 0 }
";

#[test]
fn scanners_and_initiators(rt: HostRuntime) -> Result<(), AllocError> {
    check(&rt, rt.alloc(), LISTENERS)?;
    searches_give_each_valid_address();
    worked_access_addresses();
    accept_list_is_a_set();
    windows_recur_on_three_channels();
    worked_windows();
    last_reports_decide();
    scanners_keep_their_filter();
    worked_reports();
    initiators_connect_in_range();
    worked_connections();
    Ok(())
}
