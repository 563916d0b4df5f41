//! The statuses of the commands of scanning.
ghost use Rattle.std.specs.Prelude.{◌≡◌, []};
ghost use Rattle.host_view.specs.Refusals.{first_refusal};
ghost use Rattle.host_view.specs.Status.{scan_parameters_rows, scan_enable_rows, scan_on_rows};

use crate::refusals::{are_scan_times, first_refusal, is_generated};
use crate::view::HostView;
use ble_base::ErrCode;

/// What LE Set Scan Parameters asks for.
#[derive(Clone, Copy)]
pub(crate) struct ScanRequest {
    pub kind: u8,
    pub interval: u16,
    pub window: u16,
    pub own: u8,
    pub policy: u8,
}

impl HostView {
    pub(crate) fn scan_parameters_status(&self, asked: ScanRequest) -> ErrCode
        ensures { result.0 ≡ first_refusal (scan_parameters_rows self.now asked.kind asked.interval
            asked.window asked.own asked.policy) }
    {
        let invalid = ErrCode::INVALID_HCI_PARAMETERS;
        let unsupported = ErrCode::UNSUPPORTED_FEATURE_OR_VALUE;
        first_refusal(&[
            (self.scanning.on, ErrCode::COMMAND_DISALLOWED),
            (asked.kind > 1, invalid),
            (!are_scan_times(asked.interval, asked.window), invalid),
            (is_generated(asked.own), unsupported),
            (asked.own > 3, invalid),
            (asked.policy == 2 || asked.policy == 3, unsupported),
            (asked.policy > 3, invalid),
        ])
    }

    /// The status of scanning that is turned on.
    fn scan_on_status(&self) -> ErrCode
        ensures { result.0 ≡ first_refusal (scan_on_rows self.now) }
    {
        if self.initiating.is_some() {
            return ErrCode::COMMAND_DISALLOWED;
        }
        self.own_status(self.scanning.own, &[])
    }

    pub(crate) fn scan_enable_status(&self, value: u8, duplicates: u8) -> ErrCode
        ensures { result.0 ≡ first_refusal (scan_enable_rows self.now value duplicates) }
    {
        if value > 1 || duplicates > 1 {
            return ErrCode::INVALID_HCI_PARAMETERS;
        }
        if value == 1 && !self.scanning.on {
            return self.scan_on_status();
        }
        ErrCode::SUCCESS
    }
}
