//! Encryption start and pause, as the table of procedures sees them (Core 5.2, volume 6 part B,
//! section 5.1.3): the phases are kept by the layer above.
ghost use Rattle.std.specs.Prelude.{◌≡◌};
ghost use Rattle.procedures.specs.Encryption.{cipher_at_central, secured, start_rsp_at_central};
ghost use Rattle.procedures.specs.Encryption.{encryption_begun, pause_rsp_at_peripheral};
ghost use Rattle.procedures.specs.Encryption.{start_rsp_at_peripheral, is_rejection};
ghost use Rattle.procedures.specs.Encryption.{progress_given};

use crate::outcome::{Outcome, moved, unchanged};
use crate::table::ProcTable;
use ble_base::Kind;
use data_pdu::Ctrl;
use exclusive_stages::CentralStage;
use procedure_stages::awaited::is_own_encryption;
use procedure_stages::{Central, Effect, OwnCentral, Peripheral, Progress};

/// LL_ENC_RSP, LL_START_ENC_REQ or LL_PAUSE_ENC_RSP is taken at a central.
pub(crate) fn cipher_at_central(table: &ProcTable, c: Central, quiet: bool, ctrl: &Ctrl) -> Outcome
    ensures { result ≡ cipher_at_central table.now c quiet ctrl.now }
{
    if quiet {
        return unchanged(table);
    }
    Outcome {
        restarts: is_own_encryption(c.own),
        ..unchanged(table).with_effect(Effect::Cipher(*ctrl))
    }
}

/// The own encryption of a central is completed, if one is in progress.
fn secured(table: &ProcTable, c: Central) -> Outcome
    ensures { result ≡ secured table.now c }
{
    if is_own_encryption(c.own) {
        let over = Central {
            own: OwnCentral::Exclusive(CentralStage::Idle),
            ..c
        };
        moved(table, Progress::Central(over)).with_done(Kind::Encrypt)
    } else {
        unchanged(table)
    }
}

/// LL_START_ENC_RSP is taken at a central.
pub(crate) fn start_rsp_at_central(
    table: &ProcTable,
    c: Central,
    quiet: bool,
    ctrl: &Ctrl,
) -> Outcome
    ensures { result ≡ start_rsp_at_central table.now c quiet ctrl.now }
{
    if quiet {
        unchanged(table)
    } else {
        secured(table, c).with_effect(Effect::Cipher(*ctrl))
    }
}

/// LL_ENC_REQ or LL_PAUSE_ENC_REQ is taken at a peripheral.
pub(crate) fn encryption_begun(table: &ProcTable, p: Peripheral, ctrl: &Ctrl) -> Outcome
    ensures { result ≡ encryption_begun table.now p ctrl.now }
{
    let begun = Peripheral {
        encrypting: true,
        ..p
    };
    moved(table, Progress::Peripheral(begun)).with_effect(Effect::Cipher(*ctrl))
}

/// LL_PAUSE_ENC_RSP is taken at a peripheral.
pub(crate) fn pause_rsp_at_peripheral(table: &ProcTable, quiet: bool, ctrl: &Ctrl) -> Outcome
    ensures { result ≡ pause_rsp_at_peripheral table.now quiet ctrl.now }
{
    if quiet {
        unchanged(table)
    } else {
        unchanged(table).with_effect(Effect::Cipher(*ctrl))
    }
}

/// LL_START_ENC_RSP is taken at a peripheral.
pub(crate) fn start_rsp_at_peripheral(
    table: &ProcTable,
    p: Peripheral,
    quiet: bool,
    ctrl: &Ctrl,
) -> Outcome
    ensures { result ≡ start_rsp_at_peripheral table.now p quiet ctrl.now }
{
    if quiet {
        return unchanged(table);
    }
    let over = Peripheral {
        encrypting: false,
        ..p
    };
    moved(table, Progress::Peripheral(over)).with_effect(Effect::Cipher(*ctrl))
}

/// Whether a PDU is the refusal of an encryption start.
fn is_rejection(ctrl: &Ctrl) -> bool
    ensures { result ≡ is_rejection ctrl.now }
{
    matches!(ctrl, Ctrl::RejectExtInd { .. })
}

/// The procedures after the layer above queued a PDU.
pub(crate) fn progress_given(progress: Progress, ctrl: &Ctrl) -> Progress
    ensures { result ≡ progress_given progress ctrl.now }
{
    match progress {
        Progress::Peripheral(p) if is_rejection(ctrl) => Progress::Peripheral(Peripheral {
            encrypting: false,
            ..p
        }),
        _ => progress,
    }
}
