//! Which requests an advertiser answers.
ghost use Rattle.std.specs.Prelude.{◌≡◌};
ghost use Rattle.advertise.specs.Answers.{advertiser_answer, is_connect_taken, may_connect};
ghost use Rattle.advertise.specs.Answers.{is_scan_answered, lets_connect, lets_scan};

use crate::params::{AdvParams, is_connectable, is_directed, is_scannable};
use adv_pdu::{AdvPdu, ConnectFields};
use ble_base::{Address, has_bit};
use scan_init::{AcceptList, is_same_address};

/// What an advertiser does about a PDU that follows its own advertisement.
#[derive(Clone, Copy, Debug, PartialEq, Eq, Default)]
pub enum AdvAnswer {
    /// Nothing.
    #[default]
    Ignore,
    /// It sends a SCAN_RSP.
    Respond,
    /// It takes the CONNECT_IND, whose LLData these are.
    Connect(ConnectFields),
}

/// The bit of the filter policy for scan requests.
const SCAN_POLICY: u8 = 0;

/// The bit of the filter policy for connection requests.
const CONNECT_POLICY: u8 = 1;

/// Whether the filter policy lets a scan request of this sender pass.
fn lets_scan(policy: u8, list: &AcceptList, sender: Address) -> bool
    ensures { result ≡ lets_scan policy list.now sender }
{
    !has_bit(u64::from(policy), SCAN_POLICY) || list.has(sender)
}

/// Whether the filter policy lets a CONNECT_IND of this sender pass.
fn lets_connect(policy: u8, list: &AcceptList, sender: Address) -> bool
    ensures { result ≡ lets_connect policy list.now sender }
{
    !has_bit(u64::from(policy), CONNECT_POLICY) || list.has(sender)
}

/// Whether a sender may connect: to a directed advertiser its target alone, whatever the policy is,
/// and else one that passes the policy.
fn may_connect(params: &AdvParams, list: &AcceptList, sender: &Address) -> bool
    ensures { result ≡ may_connect params.now list.now sender.now }
{
    if is_directed(params.kind) {
        is_same_address(&params.target, sender)
    } else {
        lets_connect(params.policy, list, *sender)
    }
}

/// Whether a SCAN_REQ is answered.
fn is_scan_answered(params: &AdvParams, list: &AcceptList, from: &Address, to: &Address) -> bool
    ensures { result ≡ is_scan_answered params.now list.now from.now to.now }
{
    is_scannable(params.kind)
        && is_same_address(&params.own, to)
        && lets_scan(params.policy, list, *from)
}

/// Whether a CONNECT_IND is taken.
fn is_connect_taken(
    params: &AdvParams,
    list: &AcceptList,
    from: &Address,
    to: &Address,
    fields: &ConnectFields,
) -> bool
    ensures { result ≡ is_connect_taken params.now list.now from.now to.now fields.now }
{
    is_connectable(params.kind)
        && is_same_address(&params.own, to)
        && may_connect(params, list, from)
        && fields.is_in_range()
}

/// What an advertiser with these parameters does about a PDU that follows its own advertisement.
pub(crate) fn advertiser_answer(params: &AdvParams, list: &AcceptList, pdu: &AdvPdu) -> AdvAnswer
    ensures { result ≡ advertiser_answer params.now list.now pdu.now }
{
    match pdu {
        AdvPdu::ScanReq { from, to } if is_scan_answered(params, list, from, to) => {
            AdvAnswer::Respond
        }
        AdvPdu::Connect {
            from,
            to,
            fields,
            ..
        } if is_connect_taken(params, list, from, to, fields) => AdvAnswer::Connect(*fields),
        _ => AdvAnswer::Ignore,
    }
}
