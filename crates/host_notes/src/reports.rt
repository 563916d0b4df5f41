//! Reports of the advertisements and scan responses that a scanner hears (Core 5.2, volume 4 part E,
//! section 7.7.65.2).
ghost use Rattle.std.specs.Prelude.{◌≡◌};
ghost use Rattle.std.specs.Option.{option_to_list};
ghost use Rattle.adv_pdu.specs.Pdu.{body_of};
ghost use Rattle.controller_model.specs.Heard.{does_report, events_reported, octets_reported};
ghost use Rattle.controller_model.specs.Heard.{report_event};

use crate::links::address_kind;
use adv_pdu::AdvPdu;
use arrayvec::ArrayVec;
use hci_evt::Event;
use scan_init::{ReportKind, ScanAnswer};
use wire_fields::put_octets;

/// The most octets of advertising data (section 7.8.7).
const MOST_DATA: usize = 31;

/// The signal strength in a report where it is not known.
const NO_RSSI: u8 = 0x7F;

/// The advertising or scan response data of a PDU.
fn octets_reported(pdu: &AdvPdu) -> ArrayVec<u8, MOST_DATA>
    ensures { result.items ≡ octets_reported (body_of pdu.now) }
{
    let mut octets = ArrayVec::new();
    match pdu {
        AdvPdu::Ind { body, .. }
        | AdvPdu::Nonconn { body, .. }
        | AdvPdu::ScanRsp { body, .. }
        | AdvPdu::ScanInd { body, .. } => put_octets(&mut octets, body.as_slice()),
        _ => {}
    }
    octets
}

/// The report of a PDU of this kind.
fn report_event(pdu: &AdvPdu, kind: ReportKind) -> Event
    ensures { result ≡ report_event pdu.now kind }
{
    let from = pdu.sender();
    Event::AdvertisingReport {
        kind: kind.event_type(),
        address_kind: address_kind(&from),
        address: from.octets,
        octets: octets_reported(pdu),
        rssi: NO_RSSI,
    }
}

/// Whether the answer of a scanner has it report.
fn does_report(answer: ScanAnswer) -> bool
    ensures { result ≡ does_report answer }
{
    matches!(answer, ScanAnswer::Report | ScanAnswer::ReportAndAsk)
}

/// The report of a PDU, where the answer of the scanner has it report.
pub fn event_reported(answer: ScanAnswer, pdu: &AdvPdu) -> Option<Event>
    ensures { option_to_list result ≡ events_reported answer pdu.now }
{
    if !does_report(answer) {
        return None;
    }
    Some(report_event(pdu, ReportKind::of(pdu)?))
}
