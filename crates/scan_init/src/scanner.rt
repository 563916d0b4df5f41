//! A scanner.
ghost use Rattle.std.specs.Prelude.{◌≡◌, ◌≤◌, ◌<◌, [], IfSome};
ghost use Rattle.scan_init.specs.Reports.{combined_answer, is_passed, last_16, pdu_report};
ghost use Rattle.scan_init.specs.Reports.{reports_after, scan_answer};
ghost use Rattle.scan_init.specs.Windows.{scan_channel};

use crate::accept_list::AcceptList;
use crate::reports::{RECENT_REPORTS, Report, ReportKind, is_for, is_scannable, make_report};
use crate::windows::scan_channel;
use adv_pdu::AdvPdu;
use arrayvec::ArrayVec;
use ble_base::{Address, SlotNo};
use std::marker::Model;

/// What the host set of scanning (Core 5.2, volume 4 part E, sections 7.8.10 and 7.8.11).
#[derive(Clone, Copy, Debug, PartialEq, Eq, Default)]
pub struct ScanParams {
    /// It asks by SCAN_REQ; else it is passive.
    pub active: bool,
    /// The scan interval, in units of 0.625 ms.
    pub interval: u16,
    /// The scan window, in units of 0.625 ms.
    pub window: u16,
    /// The own address.
    pub own: Address,
    /// Only advertisers in the accept list are heard: policy 1.
    pub listed: bool,
    /// Duplicates are filtered.
    pub once: bool,
}

/// What a scanner does about a PDU.
#[derive(Clone, Copy, Debug, PartialEq, Eq, Default)]
pub enum ScanAnswer {
    /// Nothing.
    #[default]
    Ignore,
    /// It reports the PDU to the host.
    Report,
    /// It sends a SCAN_REQ to the sender; the report is withheld as a duplicate.
    Ask,
    /// It does both.
    ReportAndAsk,
}

impl ScanAnswer {
    /// The answer to a PDU that passes the filter, by whether its report is withheld and whether
    /// the scanner asks.
    fn of(withheld: bool, asks: bool) -> ScanAnswer
        ensures { result ≡ combined_answer withheld asks }
    {
        match (withheld, asks) {
            (false, false) => ScanAnswer::Report,
            (false, true) => ScanAnswer::ReportAndAsk,
            (true, false) => ScanAnswer::Ignore,
            (true, true) => ScanAnswer::Ask,
        }
    }
}

/// The scanning state (Core 5.2, volume 6 part B, section 4.4.3).
#[derive(Debug, Drop)]
pub struct Scanner {
    params: ScanParams,
    since: SlotNo,
    /// The last reports since then, the oldest first.
    recent: ArrayVec<Report, RECENT_REPORTS>,
}

impl Model for Scanner {
    ghost use Rattle.std.specs.Prelude.{◌≤◌, length};
    ghost use Rattle.scan_init.specs.Reports.{ScannerFacts};

    ghost Value = { ScannerFacts };

    ghost view = { λ s. record { params = s.params; since = s.since.0; recent = s.recent.items } };

    ghost invariant = { λ s. (1 ≤ s.params.interval) × (length s.recent.items ≤ 16) };
}

/// Whether a sender passes the filter.
fn is_passed(listed: bool, list: &AcceptList, sender: Address) -> bool
    ensures { result ≡ is_passed listed list.now sender }
{
    !listed || list.has(sender)
}

/// The report that a PDU makes, duplicates or not.
fn pdu_report(params: &ScanParams, list: &AcceptList, pdu: &AdvPdu) -> Option<Report>
    ensures { result ≡ pdu_report params.now list.now pdu.now }
{
    let kind = ReportKind::of(pdu)?;
    let from = pdu.sender();
    let heard = kind.is_taken(params.active)
        && is_for(&params.own, pdu)
        && is_passed(params.listed, list, from);
    if heard {
        Some(Report { kind, from })
    } else {
        None
    }
}

impl Scanner {
    /// A scanner that begins in this slot.
    pub fn new(params: ScanParams, slot: SlotNo) -> Self
        requires { 1 ≤ params.interval }
        ensures { result ≡ record { params = params; since = slot.0; recent = [] } }
    {
        Scanner {
            params,
            since: slot,
            recent: ArrayVec::new(),
        }
    }

    /// The parameters that it began with.
    pub fn params(&self) -> ScanParams
        ensures { result ≡ self.now.params }
    {
        self.params
    }

    /// The channel on which it listens in this slot, 37 to 39; None outside its window.
    pub fn wants(&self, slot: SlotNo) -> Option<u8>
        ensures value { result ≡ scan_channel self.now.params.interval self.now.params.window
            self.now.since slot.0 }
        ensures channel { IfSome result (λ channel. channel < 40) }
    {
        scan_channel(self.params.interval, self.params.window, self.since, slot)
    }

    /// What it does about a PDU that it hears, with this accept list. A SCAN_RSP is one that
    /// follows its own SCAN_REQ.
    pub fn hears(&mut self, pdu: &AdvPdu, list: &AcceptList) -> ScanAnswer
        ensures answer { result ≡ scan_answer self.old.params list.now self.old.recent pdu.now }
        ensures recent { self.new.recent
            ≡ last_16 (reports_after self.old.params list.now self.old.recent pdu.now) }
        ensures params { self.new.params ≡ self.old.params }
        ensures since { self.new.since ≡ self.old.since }
    {
        let Some(report) = pdu_report(&self.params, list, pdu) else {
            return ScanAnswer::Ignore;
        };
        let asks = self.params.active && is_scannable(pdu);
        let withheld = make_report(&mut self.recent, self.params.once, report);
        ScanAnswer::of(withheld, asks)
    }
}
