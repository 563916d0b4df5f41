//! Which procedure begins, its stage as it begins, and its first PDU.
ghost use Rattle.std.specs.Prelude.{◌≡◌};
ghost use Rattle.procedure_stages.specs.Begun.{version_stage, stage_at_central};
ghost use Rattle.procedure_stages.specs.Begun.{stage_at_peripheral, progress_begun, feature_draft};
ghost use Rattle.procedure_stages.specs.Begun.{version_draft, draft_begun, may_begin_now};
ghost use Rattle.procedure_stages.specs.Begun.{first_place};
ghost use Rattle.procedure_values.specs.Wants.{IsAsk};

use crate::collisions::peer_lets;
use crate::kinds::begins;
use crate::stages::{Central, Exchange, OwnCentral, OwnPeripheral, Peripheral, Progress};
use ble_base::{Kind, Role};
use exclusive_stages::{CentralStage, PeripheralStage};
use procedure_values::{Ask, Draft, Lengths, NewParams};

/// Whether a kind that is wanted may begin, at an end that may begin something if it is `ready`.
fn may_begin_now(ready: bool, progress: Progress, kind: Kind) -> bool
    ensures { result ≡ may_begin_now ready progress kind }
{
    ready && begins(progress.role(), kind) && peer_lets(progress, kind)
}

/// The place of the first wanted kind that may begin.
pub fn first_place(ready: bool, progress: Progress, wanted: &[Ask]) -> Option<usize>
    ensures { result ≡ first_place ready progress wanted.now }
{
    wanted
        .iter()
        .position(|ask| may_begin_now(ready, progress, ask.kind()))
}

/// The stage of an exchange of versions as it begins: it waits for the peer at once if the own
/// LL_VERSION_IND was queued before.
fn version_stage(used: bool) -> Exchange
    ensures { result ≡ version_stage used }
{
    if used {
        Exchange::VersionSent
    } else {
        Exchange::VersionUnsent
    }
}

/// The stage of a central's own procedure as it begins.
fn stage_at_central(ask: &Ask, used: bool, own: OwnCentral) -> OwnCentral
    ensures { result ≡ stage_at_central ask.now used own }
{
    match ask {
        Ask::Update { .. } => OwnCentral::Exclusive(CentralStage::UpdateUnsent),
        Ask::Request { .. } => own,
        Ask::Map(_) => OwnCentral::Exclusive(CentralStage::MapUnsent),
        Ask::Phy => OwnCentral::Exclusive(CentralStage::PhyUnsent),
        Ask::Features => OwnCentral::Exchange(Exchange::FeaturesUnsent),
        Ask::Version => OwnCentral::Exchange(version_stage(used)),
        Ask::Length { .. } => OwnCentral::Exchange(Exchange::LengthUnsent),
        Ask::Encrypt { .. } => OwnCentral::EncryptUnsent,
    }
}

/// The stage of a peripheral's own procedure as it begins.
fn stage_at_peripheral(ask: &Ask, used: bool, own: OwnPeripheral) -> OwnPeripheral
    ensures { result ≡ stage_at_peripheral ask.now used own }
{
    match ask {
        Ask::Update { .. } | Ask::Map(_) | Ask::Encrypt { .. } => own,
        Ask::Request { .. } => OwnPeripheral::Exclusive(PeripheralStage::RequestUnsent),
        Ask::Phy => OwnPeripheral::Exclusive(PeripheralStage::PhyUnsent),
        Ask::Features => OwnPeripheral::Exchange(Exchange::FeaturesUnsent),
        Ask::Version => OwnPeripheral::Exchange(version_stage(used)),
        Ask::Length { .. } => OwnPeripheral::Exchange(Exchange::LengthUnsent),
    }
}

/// The procedures after one of this end began.
pub fn progress_begun(ask: &Ask, used: bool, progress: Progress) -> Progress
    ensures { result ≡ progress_begun ask.now used progress }
{
    match progress {
        Progress::Central(c) => Progress::Central(Central {
            own: stage_at_central(ask, used, c.own),
            ..c
        }),
        Progress::Peripheral(p) => Progress::Peripheral(Peripheral {
            own: stage_at_peripheral(ask, used, p.own),
            ..p
        }),
    }
}

/// The PDU that begins an exchange of features.
fn feature_draft(role: Role) -> Draft
    ensures { result ≡ feature_draft role }
{
    match role {
        Role::Central => Draft::FeatureReq,
        Role::Peripheral => Draft::PeripheralFeatureReq,
    }
}

/// The PDU that begins an exchange of versions, unless it was queued before.
fn version_draft(used: bool) -> Option<Draft>
    ensures { result ≡ version_draft used }
{
    if used { None } else { Some(Draft::VersionInd) }
}

/// The first PDU of a procedure, if it is not left to the layer above.
pub fn draft_begun(role: Role, used: bool, lengths: Lengths, ask: &Ask) -> Option<Draft>
    requires { IsAsk ask.now }
    ensures { result ≡ draft_begun role used lengths ask.now }
{
    match *ask {
        Ask::Update {
            interval,
            latency,
            timeout,
        } => Some(Draft::Update(NewParams::new(interval, latency, timeout))),
        Ask::Request {
            min,
            max,
            latency,
            timeout,
        } => Some(Draft::Request {
            min,
            max,
            latency,
            timeout,
        }),
        Ask::Map(map) => Some(Draft::Map(map)),
        Ask::Phy => Some(Draft::PhyReq),
        Ask::Features => Some(feature_draft(role)),
        Ask::Version => version_draft(used),
        Ask::Length { .. } => Some(Draft::LengthReq {
            rx: lengths.own_rx,
            tx: lengths.own_tx,
        }),
        Ask::Encrypt { .. } => None,
    }
}
