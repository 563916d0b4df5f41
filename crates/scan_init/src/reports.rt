//! What a scanner reports.
ghost use Rattle.std.specs.Prelude.{◌≡◌, ◌∷◌, [], ◌++◌, ◌&&◌, Some};
ghost use Rattle.std.specs.List.{list_any};
ghost use Rattle.scan_init.specs.Reports.{event_type, is_alike, is_for, is_scannable, is_taken};
ghost use Rattle.scan_init.specs.Reports.{is_withheld, kind_of, last_16, with_report};

use crate::addresses::is_same_address;
use adv_pdu::AdvPdu;
use arrayvec::ArrayVec;
use ble_base::Address;

/// How many reports a duplicate is looked for in (our choice).
pub(crate) const RECENT_REPORTS: usize = 16;

/// The types of what is reported (Core 5.2, volume 4 part E, section 7.7.65.2).
#[derive(Clone, Copy, Debug, PartialEq, Eq, Default)]
pub enum ReportKind {
    /// ADV_IND: connectable and scannable, to anyone.
    #[default]
    Undirected,
    /// ADV_DIRECT_IND: connectable, to one device.
    Directed,
    /// ADV_SCAN_IND: scannable, to anyone.
    Scannable,
    /// ADV_NONCONN_IND: neither connectable nor scannable.
    Nonconnectable,
    /// SCAN_RSP: the response to a request.
    Response,
}

impl ReportKind {
    /// Event_Type of its report, 0 to 4.
    pub fn event_type(self) -> u8
        ensures { result ≡ event_type self }
    {
        match self {
            ReportKind::Undirected => 0,
            ReportKind::Directed => 1,
            ReportKind::Scannable => 2,
            ReportKind::Nonconnectable => 3,
            ReportKind::Response => 4,
        }
    }

    /// The kind of report that a PDU makes. A request makes none.
    pub fn of(pdu: &AdvPdu) -> Option<ReportKind>
        ensures { result ≡ kind_of pdu.now }
    {
        match pdu {
            AdvPdu::Ind { .. } => Some(ReportKind::Undirected),
            AdvPdu::Direct { .. } => Some(ReportKind::Directed),
            AdvPdu::Nonconn { .. } => Some(ReportKind::Nonconnectable),
            AdvPdu::ScanInd { .. } => Some(ReportKind::Scannable),
            AdvPdu::ScanRsp { .. } => Some(ReportKind::Response),
            AdvPdu::ScanReq { .. } | AdvPdu::Connect { .. } => None,
        }
    }

    /// Whether a scanner takes it: a passive one takes no response.
    pub(crate) fn is_taken(self, active: bool) -> bool
        ensures { result ≡ is_taken active self }
    {
        active || self != ReportKind::Response
    }
}

/// What a report is known by among duplicates: its type and its sender.
#[derive(Clone, Copy, Debug, PartialEq, Eq, Default)]
pub struct Report {
    /// The type.
    pub kind: ReportKind,
    /// The address of the sender.
    pub from: Address,
}

impl Report {
    /// Whether both are of one type and one sender.
    pub(crate) fn is_alike(&self, other: &Report) -> bool
        ensures { result ≡ is_alike self.now other.now }
    {
        self.kind.event_type() == other.kind.event_type()
            && is_same_address(&self.from, &other.from)
    }
}

/// Whether a PDU is for a device with this own address: a directed advertisement is for the device
/// that it names alone.
pub(crate) fn is_for(own: &Address, pdu: &AdvPdu) -> bool
    ensures { result ≡ is_for own.now pdu.now }
{
    match pdu {
        AdvPdu::Direct { to, .. } => is_same_address(own, to),
        _ => true,
    }
}

/// Whether a PDU may be followed by a SCAN_REQ.
pub(crate) fn is_scannable(pdu: &AdvPdu) -> bool
    ensures { result ≡ is_scannable pdu.now }
{
    matches!(pdu, AdvPdu::Ind { .. } | AdvPdu::ScanInd { .. })
}

/// Whether one of these reports is like this one.
fn is_among(reports: &[Report], report: &Report) -> bool
    ensures { result ≡ list_any (is_alike report.now) reports.now }
{
    reports.iter().any(|recent| report.is_alike(recent))
}

/// Appends a report, and drops the oldest of 16.
fn remember(recent: &mut ArrayVec<Report, RECENT_REPORTS>, report: Report)
    ensures { recent.new.items ≡ last_16 (recent.old.items ++ report ∷ []) }
{
    if recent.is_full() {
        recent.remove(0);
    }
    recent.push(report);
}

/// Makes a report, where it is not withheld as a duplicate. It gives whether it is withheld.
pub(crate) fn make_report(
    recent: &mut ArrayVec<Report, RECENT_REPORTS>,
    once: bool,
    report: Report,
) -> bool
    ensures withheld { result ≡ is_withheld once recent.old.items report }
    ensures recent { recent.new.items
        ≡ last_16 (with_report once recent.old.items (Some report)) }
{
    if once && is_among(recent.as_slice(), &report) {
        return true;
    }
    remember(recent, report);
    false
}
