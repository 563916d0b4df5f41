//! The statuses of the commands of advertising.
ghost use Rattle.std.specs.Prelude.{◌≡◌};
ghost use Rattle.host_view.specs.Refusals.{first_refusal};
ghost use Rattle.host_view.specs.Status.{are_intervals, is_active, advertising_parameters_rows, advertising_on_rows, advertising_enable_rows, data_rows};

use crate::refusals::{first_refusal, is_connectable, is_generated};
use crate::view::HostView;
use ble_base::ErrCode;

/// Advertising_Type of high duty cycle directed advertising (Core 5.2, volume 4 part E, section
/// 7.8.5).
const HIGH_DUTY_DIRECTED: u8 = 1;

/// The greatest Advertising_Type, that of low duty cycle directed advertising.
const LAST_KIND: u8 = 4;

/// The greatest Advertising_Filter_Policy.
const LAST_POLICY: u8 = 3;

/// All three advertising channels.
const ALL_CHANNELS: u8 = 7;

/// The most octets of advertising data (Core 5.2, volume 4 part E, section 7.8.7).
const MOST_DATA: u8 = 31;

/// Whether these are a least and a greatest interval of 20 ms to 10.24 s, in units of 0.625 ms.
fn are_intervals(min: u16, max: u16) -> bool
    ensures { result ≡ are_intervals min max }
{
    0x0020 <= min && min <= 0x4000 && 0x0020 <= max && max <= 0x4000 && min <= max
}

/// What LE Set Advertising Parameters asks for, but for the peer's address.
#[derive(Clone, Copy)]
pub(crate) struct AdvertisingRequest {
    pub min: u16,
    pub max: u16,
    pub kind: u8,
    pub own: u8,
    pub peer_kind: u8,
    pub channels: u8,
    pub policy: u8,
}

pub(crate) fn data_status(length: u8) -> ErrCode
    ensures { result.0 ≡ first_refusal (data_rows length) }
{
    first_refusal(&[(length > MOST_DATA, ErrCode::INVALID_HCI_PARAMETERS)])
}

impl HostView {
    /// Whether advertising, scanning or initiating is on.
    pub(crate) fn is_active(&self) -> bool
        ensures { result ≡ is_active self.now }
    {
        self.advertising.on || self.scanning.on || self.initiating.is_some()
    }

    pub(crate) fn advertising_parameters_status(&self, asked: AdvertisingRequest) -> ErrCode
        ensures { result.0 ≡ first_refusal (advertising_parameters_rows self.now asked.min asked.max
            asked.kind asked.own asked.peer_kind asked.channels asked.policy) }
    {
        let invalid = ErrCode::INVALID_HCI_PARAMETERS;
        let unsupported = ErrCode::UNSUPPORTED_FEATURE_OR_VALUE;
        first_refusal(&[
            (self.advertising.on, ErrCode::COMMAND_DISALLOWED),
            (!are_intervals(asked.min, asked.max), invalid),
            (asked.kind == HIGH_DUTY_DIRECTED, unsupported),
            (asked.kind > LAST_KIND, invalid),
            (is_generated(asked.own), unsupported),
            (asked.own > 3, invalid),
            (asked.peer_kind > 1, invalid),
            (
                asked.channels == 0 || asked.channels > ALL_CHANNELS,
                invalid,
            ),
            (asked.policy > LAST_POLICY, invalid),
        ])
    }

    /// The status of advertising that is turned on.
    fn advertising_on_status(&self) -> ErrCode
        ensures { result.0 ≡ first_refusal (advertising_on_rows self.now) }
    {
        let full = is_connectable(self.advertising.kind) && self.is_full();
        self.own_status(
            self.advertising.own,
            &[(full, ErrCode::CONNECTION_LIMIT_EXCEEDED)],
        )
    }

    pub(crate) fn advertising_enable_status(&self, value: u8) -> ErrCode
        ensures { result.0 ≡ first_refusal (advertising_enable_rows self.now value) }
    {
        if value > 1 {
            return ErrCode::INVALID_HCI_PARAMETERS;
        }
        if value == 1 && !self.advertising.on {
            return self.advertising_on_status();
        }
        ErrCode::SUCCESS
    }
}
