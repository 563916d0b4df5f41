//! The status of a command.
ghost use Rattle.std.specs.Prelude.{◌≡◌, [], ◌∷◌};
ghost use Rattle.ble_base.specs.declared.procedure_kinds.Kind.TheVariants.{Phy};
ghost use Rattle.host_view.specs.Refusals.{first_refusal, link_rows, asked_row, both_phys_rows};
ghost use Rattle.host_view.specs.Status.{parameter_request_row, rows_of, channels_rows, status_of};

use crate::advertising::{AdvertisingRequest, data_status};
use crate::connecting::ConnectionRequest;
use crate::link_commands::{
    Proposal, connection_update_status, data_length_status, disconnect_status,
    enable_encryption_status, key_status,
};
use crate::links::{Link, find_link, is_asked, waits_for_no_parameters};
use crate::refusals::{Phys, are_parameters, first_refusal, link_status};
use crate::scanning::ScanRequest;
use crate::view::HostView;
use ble_base::{ChannelMap, ErrCode, Kind};
use hci_cmd::Command;

fn channels_status(map: u64) -> ErrCode
    ensures { result.0 ≡ first_refusal (channels_rows map) }
{
    match ChannelMap::new(map) {
        Some(_) => ErrCode::SUCCESS,
        None => ErrCode::INVALID_HCI_PARAMETERS,
    }
}

/// The status of a procedure that the host asks for on a link.
fn procedure_status(link: Option<Link>, kind: Kind) -> ErrCode
    ensures { result.0 ≡ first_refusal (link_rows link (asked_row kind link ∷ [])) }
{
    link_status(link, &[(is_asked(link, kind), ErrCode::COMMAND_DISALLOWED)])
}

/// The status of the answer to a request for connection parameters, then a further refusal.
fn parameter_reply_status(link: Option<Link>, invalid: bool) -> ErrCode
    ensures { result.0 ≡ first_refusal (link_rows link
        (parameter_request_row link ∷ (invalid, 0x12) ∷ [])) }
{
    link_status(
        link,
        &[
            (waits_for_no_parameters(link), ErrCode::COMMAND_DISALLOWED),
            (invalid, ErrCode::INVALID_HCI_PARAMETERS),
        ],
    )
}

fn set_phy_status(link: Option<Link>, phys: Phys) -> ErrCode
    ensures { result.0 ≡ first_refusal (link_rows link
        (both_phys_rows phys.all phys.transmit phys.receive (asked_row Phy link ∷ []))) }
{
    match link {
        None => ErrCode::UNKNOWN_CONNECTION_IDENTIFIER,
        Some(link) if link.disconnecting => ErrCode::COMMAND_DISALLOWED,
        Some(link) => phys.status(&[(link.asked.phy, ErrCode::COMMAND_DISALLOWED)]),
    }
}

/// The status of a command in a view: success where it is accepted, and else the code of the first
/// condition that holds, in the order of the table of commands.
#[tactic(auto, unfolding(crate::specs::Status::status_of))]
pub fn status(view: &HostView, command: &Command) -> ErrCode
    ensures { result.0 ≡ status_of view.now command.now }
{
    let links = &view.links;
    match command {
        Command::Disconnect { handle, reason } => {
            disconnect_status(find_link(links, *handle), *reason)
        }
        Command::ReadRemoteVersion { handle } => {
            procedure_status(find_link(links, *handle), Kind::Version)
        }
        Command::SetHostFlow { value } => view.set_host_flow_status(*value),
        Command::HostBufferSize {
            acl_length,
            acl_count,
            ..
        } => view.host_buffer_size_status(*acl_length, *acl_count),
        Command::HostCompleted { counts } => view.host_completed_status(counts.as_slice()),
        Command::LeSetRandomAddress { .. } => {
            first_refusal(&[(view.is_active(), ErrCode::COMMAND_DISALLOWED)])
        }
        Command::LeSetAdvParams {
            min,
            max,
            kind,
            own,
            peer_kind,
            channels,
            policy,
            ..
        } => view.advertising_parameters_status(AdvertisingRequest {
            min: *min,
            max: *max,
            kind: *kind,
            own: *own,
            peer_kind: *peer_kind,
            channels: *channels,
            policy: *policy,
        }),
        Command::LeSetAdvData { length, .. } | Command::LeSetScanResponse { length, .. } => {
            data_status(*length)
        }
        Command::LeSetAdvEnable { value } => view.advertising_enable_status(*value),
        Command::LeSetScanParams {
            kind,
            interval,
            window,
            own,
            policy,
        } => view.scan_parameters_status(ScanRequest {
            kind: *kind,
            interval: *interval,
            window: *window,
            own: *own,
            policy: *policy,
        }),
        Command::LeSetScanEnable { value, duplicates } => {
            view.scan_enable_status(*value, *duplicates)
        }
        Command::LeCreateConnection {
            scan_interval,
            window,
            policy,
            peer_kind,
            peer,
            own,
            min,
            max,
            latency,
            timeout,
            ..
        } => view.create_connection_status(ConnectionRequest {
            interval: *scan_interval,
            window: *window,
            policy: *policy,
            peer_kind: *peer_kind,
            peer: *peer,
            own: *own,
            proposal: Proposal {
                min: *min,
                max: *max,
                latency: *latency,
                timeout: *timeout,
            },
        }),
        Command::LeCreateCancel => {
            first_refusal(&[(view.initiating.is_none(), ErrCode::COMMAND_DISALLOWED)])
        }
        Command::LeClearList => {
            first_refusal(&[(view.uses_list(), ErrCode::COMMAND_DISALLOWED)])
        }
        Command::LeAddToList { kind, address } => view.add_to_list_status(*kind, address),
        Command::LeRemoveFromList { kind, .. } => view.remove_from_list_status(*kind),
        Command::LeConnectionUpdate {
            handle,
            min,
            max,
            latency,
            timeout,
            ..
        } => connection_update_status(
            find_link(links, *handle),
            Proposal {
                min: *min,
                max: *max,
                latency: *latency,
                timeout: *timeout,
            },
        ),
        Command::LeSetChannels { map } => channels_status(*map),
        Command::LeReadChannelMap { handle } | Command::LeReadPhy { handle } => {
            link_status(find_link(links, *handle), &[])
        }
        Command::LeReadRemoteFeatures { handle } => {
            procedure_status(find_link(links, *handle), Kind::Features)
        }
        Command::LeEnableEncryption { handle, .. } => {
            enable_encryption_status(find_link(links, *handle))
        }
        Command::LeKeyReply { handle, .. } | Command::LeKeyNegative { handle } => {
            key_status(find_link(links, *handle))
        }
        Command::LeParamReply {
            handle,
            min,
            max,
            latency,
            timeout,
            ..
        } => parameter_reply_status(
            find_link(links, *handle),
            !are_parameters(*min, *max, *latency, *timeout),
        ),
        Command::LeParamNegative { handle, .. } => {
            parameter_reply_status(find_link(links, *handle), false)
        }
        Command::LeSetDataLength {
            handle,
            octets,
            time,
        } => data_length_status(find_link(links, *handle), *octets, *time),
        Command::LeSetDefaultPhy { all, tx, rx } => Phys {
            all: *all,
            transmit: *tx,
            receive: *rx,
        }
        .status(&[]),
        Command::LeSetPhy {
            handle,
            all,
            tx,
            rx,
            ..
        } => set_phy_status(
            find_link(links, *handle),
            Phys {
                all: *all,
                transmit: *tx,
                receive: *rx,
            },
        ),
        _ => ErrCode::SUCCESS,
    }
}
