//! The statuses of commands on a link.
ghost use Rattle.std.specs.Prelude.{◌≡◌, List};
ghost use Rattle.host_view.specs.Refusals.{first_refusal, are_parameters};
ghost use Rattle.host_view.specs.Status.{is_reason, disconnect_rows, connection_update_rows, enable_encryption_rows, key_rows, is_data_length, data_length_rows};

use crate::links::{Link, is_asked, is_peripheral, is_update_asked, waits_for_no_key};
use crate::refusals::{are_parameters, link_status};
use ble_base::{ErrCode, Kind};

/// The reasons that a host may give to end a link (Core 5.2, volume 4 part E, section 7.1.6).
fn is_reason(reason: u8) -> bool
    ensures { result ≡ is_reason reason }
{
    matches!(reason, 0x05 | 0x13 | 0x14 | 0x15 | 0x1A | 0x29 | 0x3B)
}

pub(crate) fn disconnect_status(link: Option<Link>, reason: u8) -> ErrCode
    ensures { result.0 ≡ first_refusal (disconnect_rows link reason) }
{
    link_status(
        link,
        &[(!is_reason(reason), ErrCode::INVALID_HCI_PARAMETERS)],
    )
}

/// Connection parameters that the host proposes: intervals in units of 1.25 ms, the latency in
/// events, the timeout in units of 10 ms.
#[derive(Clone, Copy)]
pub(crate) struct Proposal {
    pub min: u16,
    pub max: u16,
    pub latency: u16,
    pub timeout: u16,
}

impl Proposal {
    pub(crate) fn is_valid(self) -> bool
        ensures { result ≡ are_parameters self.min self.max self.latency self.timeout }
    {
        are_parameters(self.min, self.max, self.latency, self.timeout)
    }
}

pub(crate) fn connection_update_status(link: Option<Link>, proposal: Proposal) -> ErrCode
    ensures { result.0 ≡ first_refusal (connection_update_rows link
        proposal.min proposal.max proposal.latency proposal.timeout) }
{
    link_status(
        link,
        &[
            (!proposal.is_valid(), ErrCode::INVALID_HCI_PARAMETERS),
            (is_update_asked(link), ErrCode::COMMAND_DISALLOWED),
        ],
    )
}

pub(crate) fn enable_encryption_status(link: Option<Link>) -> ErrCode
    ensures { result.0 ≡ first_refusal (enable_encryption_rows link) }
{
    link_status(
        link,
        &[
            (is_peripheral(link), ErrCode::COMMAND_DISALLOWED),
            (is_asked(link, Kind::Encrypt), ErrCode::COMMAND_DISALLOWED),
        ],
    )
}

pub(crate) fn key_status(link: Option<Link>) -> ErrCode
    ensures { result.0 ≡ first_refusal (key_rows link) }
{
    link_status(
        link,
        &[(waits_for_no_key(link), ErrCode::COMMAND_DISALLOWED)],
    )
}

/// Whether these are octets of a payload and its time in microseconds that a host may ask for.
fn is_data_length(octets: u16, time: u16) -> bool
    ensures { result ≡ is_data_length octets time }
{
    0x001B <= octets && octets <= 0x00FB && 0x0148 <= time && time <= 0x4290
}

pub(crate) fn data_length_status(link: Option<Link>, octets: u16, time: u16) -> ErrCode
    ensures { result.0 ≡ first_refusal (data_length_rows link octets time) }
{
    link_status(
        link,
        &[
            (
                !is_data_length(octets, time),
                ErrCode::INVALID_HCI_PARAMETERS,
            ),
            (is_asked(link, Kind::Length), ErrCode::COMMAND_DISALLOWED),
        ],
    )
}
